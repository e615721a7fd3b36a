//! Resolved levels: W1 to W7, N1, N2, I1 and I2 of UAX #9.
#![tactic(auto)]

mod buffers;
mod class;
mod neutral;
mod paragraph;
mod sequence;
mod weak;

pub use buffers::Buffers;
pub use paragraph::{levels, levels_into};

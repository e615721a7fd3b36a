//! A sequence in blocks of elements: what is sought in it is found by passing whole blocks.
#![tactic(auto)]

mod before;
mod block;
mod blocks;
mod bounds;
mod counted;
mod index;
pub mod laws;
mod look;
mod row;
mod skip;
mod sums;

pub use blocks::Blocks;
pub use look::{Look, find};

//! The visual order of a line: UAX #9, L1, L2 and L4.
#![tactic(auto)]

pub mod laws;
mod line;
mod links;
mod mirror;
mod order;

pub use line::{levels_after_l1, line_levels};
pub use mirror::mirrored;
pub use order::{visual, visual_into};

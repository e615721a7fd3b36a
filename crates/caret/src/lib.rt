//! A caret on a grid: moves through mixed text as the eye sees it.
#![tactic(auto)]

mod among;
mod caret;
mod column;
mod gaps;
pub mod laws;
mod moves;
mod place;
mod position;

pub use among::{at_place_among, down_among, left_among, right_among, up_among};
pub use caret::Caret;
pub use column::{at_column, at_column_among};
pub use gaps::gap_column;
pub use moves::{Move, down, left, right, up};
pub use place::{at_place, row_at};
pub use position::Position;

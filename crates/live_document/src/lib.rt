//! A text that a desk edits and that is shown by windows: a keystroke costs what it changes and what is shown.
#![tactic(auto)]

mod carrying;
mod document;
mod following;
mod keeping;
pub mod laws;
mod laws_below;
mod paragraph_rows;
mod printing;
mod reading;
mod showing;
mod shown;
mod window;

pub use caret::Position;
pub use carrying::carry;
pub use document::{Desk, Document, TakenAll};
pub use window::{Window, WindowEntries, WindowRow, WindowRows};

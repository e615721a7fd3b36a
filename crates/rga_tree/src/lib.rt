//! The order in which the insertions of a replicated text are read, and lists of them in that order.
#![tactic(auto)]

mod element;
pub mod laws;
mod plain;
mod sequence;
mod shown;

pub use element::{Element, UNPACKED, Unpacked, greater_in_front};
pub use plain::Plain;
pub use sequence::{Fresh, Sequence, text_of};
pub use shown::{push_bytes, put_char};

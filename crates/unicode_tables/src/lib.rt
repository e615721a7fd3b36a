//! What the Unicode data files say of each code point, looked up.
#![tactic(auto)]

mod alone;
mod blocks;
mod bracket;
mod class;
mod first_bytes;
mod page;
mod property;
mod steps;
mod tables;
mod word;
mod words;

pub use alone::is_direction_mark;
pub use bracket::Bracket;
pub use class::{is_ambiguous, is_line_end, is_segment_separator, is_separator, is_wide};
pub use property::Property;
pub use tables::Tables;
pub use word::Word;

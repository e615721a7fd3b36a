//! The five data files of Unicode 15.0, which are inside the program.
#![tactic(auto)]

mod bidi_brackets;
mod bidi_class;
mod bidi_mirroring;
mod east_asian_width;
mod files;
mod line_break;

pub use bidi_brackets::BIDI_BRACKETS;
pub use bidi_class::BIDI_CLASS;
pub use bidi_mirroring::BIDI_MIRRORING;
pub use east_asian_width::EAST_ASIAN_WIDTH;
pub use files::unicode_15_0;
pub use line_break::LINE_BREAK;

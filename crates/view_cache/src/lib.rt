//! A view that keeps the rows of paragraphs and what they print, so that an edit costs what it puts in.
#![tactic(auto)]

mod kept_rows;
mod key;
mod laid;
pub mod laws;
mod print;
mod view;

pub use print::Print;
pub use view::View;

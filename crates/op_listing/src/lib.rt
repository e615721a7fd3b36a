//! Listings: operations as lines of text, both ways, with the engines that convert operation files into
//! listings and back, and into files of version 2.
#![tactic(auto)]

mod engine;
mod field;
mod file_fault;
pub mod laws;
mod line;
mod line_fault;
mod lines;
mod listing;
mod listing_fault;
mod number;
mod plain;
mod words;
mod written;

pub use engine::dump::dump;
pub use engine::migrate::migrate;
pub use engine::pack::pack;
pub use file_fault::FileFault;
pub use line_fault::LineFault;
pub use lines::split_line;
pub use listing_fault::ListingFault;
pub use number::read_decimal;
pub use words::{next_word, one_word, three_words, two_words};

//! The five Unicode data files, read exactly into tables.
#![tactic(auto)]

mod code;
mod entry;
mod fault;
mod fields;
mod files;
pub mod laws;
mod line;
mod lines;
mod names;
mod read;
mod values;
pub mod vectors;

pub use fault::{Cause, UcdFault, UcdFile};
pub use files::Ucd;
pub use unicode_tables::{Bracket, Tables};

//! The core for C (include/bidigrid.h): each export is one call of a library below, and states its clauses again.
#![tactic(auto)]

mod about;
mod carets;
mod desk;
mod document;
mod document_carets;
mod document_changes;
mod document_edits;
mod document_merging;
mod document_reading;
mod document_taking;
mod merging;
mod picture;
mod printing;
mod reading;
mod replacing;
mod tables;
mod taking;
mod typing;
mod window;
mod window_prints;
mod window_rows;

pub use about::bidigrid_version;

//! A text drawn on a character grid: rows, their entries and cells, and their print.
#![tactic(auto)]

mod cell;
mod cluster_run;
mod column;
mod entries;
mod entry;
mod entry_sizes;
mod grid;
mod held;
mod in_memory;
mod kept_span;
pub mod laws;
mod laws_below;
mod lists;
mod paragraph;
mod part;
mod piece;
mod print_size;
mod printed;
mod row;
mod run_count;
mod runs;
mod separator;
mod span;
mod stretch;

pub use cell::{Cell, Cells};
pub use entries::Entries;
pub use entry::Entry;
pub use entry_sizes::row_entry_sizes;
pub use grid::{Grid, draw};
pub use in_memory::InMemory;
pub use lists::Lists;
pub use paragraph::{rows, rows_with};
pub use paragraphs::Span;
pub use print_size::row_print_size;
pub use printed::{print, print_row, print_rows};
pub use row::Row;

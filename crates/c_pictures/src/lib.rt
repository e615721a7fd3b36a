//! The tables and pictures of the library for C: what each of its calls answers of them, in numbers and buffers.
#![tactic(auto)]

mod carets;
mod data;
mod numbers;
mod picture;
mod picture_handle;
mod printing;
mod tables;
mod tables_handle;

pub use carets::{tell_caret, tell_caret_under, tell_down, tell_left, tell_right, tell_up};
pub use data::{DataFault, DataFiles, data_fault, data_number};
pub use numbers::{
    CaretNumbers, EntryNumbers, RowNumbers, caret_numbers, caret_of, entry_numbers, row_numbers,
};
pub use picture::{base_of, draw_text, tell_entries, tell_entry, tell_row, width_of};
pub use picture_handle::PictureHandle;
pub use printing::{tell_entry_sizes, tell_print, tell_row_print, tell_size};
pub use tables::load;
pub use tables_handle::TablesHandle;

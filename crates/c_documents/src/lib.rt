//! The documents of the library for C: what each of its calls does to a document, in numbers and buffers.
#![tactic(auto)]

mod document;
mod document_carets;
mod document_changes;
mod document_edits;
mod document_handle;
mod document_merging;
mod document_reading;
mod document_taking;
mod edit_changes;
mod numbers;
mod told_document;
mod window;
mod window_prints;
mod window_rows;

pub use document::{keep_rows_in, new_document, opened, reserve_in, resize_in, set_base_in};
pub use document_carets::{
    move_down, move_left, move_right, move_up, tell_position, tell_position_under,
};
pub use document_changes::tell_changes;
pub use document_edits::{erase_in, replace_in};
pub use document_handle::DocumentHandle;
pub use document_merging::merge_from;
pub use document_reading::{tell_id_in, tell_text_of};
pub use document_taking::take_in;
pub use numbers::{ChangeNumbers, PositionNumbers, WindowNumbers, no_position, nothing_shown};
pub use told_document::ToldDocument;
pub use window::show_in;
pub use window_prints::{tell_entry_sizes, tell_print, tell_row_print};
pub use window_rows::{tell_entries, tell_row};

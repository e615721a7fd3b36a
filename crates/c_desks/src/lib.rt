//! The desks of the library for C: what each of its calls does to a desk, in numbers and buffers.
#![tactic(auto)]

mod desk;
mod desk_handle;
mod draft;
mod fault;
mod keystroke;
mod merging;
mod numbers;
mod reading;
mod replacing;
mod taking;
mod typing;

pub use desk::{Desk, MOST_KEPT, fresh_desk, new_desk, opened, reserve_in};
pub use desk_handle::DeskHandle;
pub use draft::{Draft, code_points, refusal_of};
pub use fault::{take_number, type_number};
pub use keystroke::{Keystroke, keystroke_of};
pub use merging::{merge_from, merge_number};
pub use numbers::{IdentifierNumbers, Taken, identifier_numbers, none_taken};
pub use reading::{tell_file, tell_id_at, tell_place_of, tell_text};
pub use replacing::replace_in;
pub use taking::{read_message, take_in};
pub use typing::{erase_in, type_in};

//! What the calls of the library for C answer: numbers of faults, and bytes that are copied to buffers.
#![tactic(auto)]

mod copying;
mod fault;

pub use copying::copy_out;
pub use fault::{
    BAD_BASE, BAD_CARET, BAD_CHARACTER, BAD_ENTRY, BAD_IDENTIFIER, BAD_PLACE, BAD_ROW, BAD_SITE,
    BAD_WIDTH, COUNTER_SPENT, DATA, EMPTY_HANDLE, FULL, IDENTIFIER_REUSED, MEMORY, MESSAGE,
    MESSAGE_TOO_LONG, NOT_PLACED, NOT_UTF8, OK, SHORT_BUFFER, TEXT_TOO_LONG, TOO_MANY,
};

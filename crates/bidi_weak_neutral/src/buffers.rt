//! Lists that are used again.

use bg_types::Bidi;
use bidi_explicit::{Embedded, Lists};
use std::alloc::Global;

/// What the types and levels of one sequence are worked out in.
#[derive(Drop)]
pub(crate) struct SequenceLists {
    pub(crate) characters: Vec<char>,
    pub(crate) before: Vec<Bidi>,
    pub(crate) types: Vec<Bidi>,
    pub(crate) levels: Vec<u8>,
}

/// What levels are resolved in, kept from one paragraph to the next, so that memory is taken only for the longest.
#[derive(Drop)]
pub struct Buffers {
    pub(crate) embedded: Embedded,
    pub(crate) explicit: Lists,
    pub(crate) sequence: SequenceLists,
}

impl Buffers {
    /// Empty buffers. Takes no memory.
    pub fn new(alloc: Global) -> Buffers {
        Buffers {
            embedded: Embedded::new(alloc),
            explicit: Lists::new(alloc),
            sequence: SequenceLists {
                characters: Vec::new(alloc),
                before: Vec::new(alloc),
                types: Vec::new(alloc),
                levels: Vec::new(alloc),
            },
        }
    }
}

//! Lists that are used again.

use crate::controls::{Control, Matcher};
use std::alloc::Global;

/// What the rules are worked out in, kept from one paragraph to the next, so that memory is taken only for the longest.
#[derive(Drop)]
pub struct Lists {
    pub(crate) controls: Vec<Control>,
    pub(crate) matcher: Matcher,
    /// Where the level run ends that begins at a place.
    pub(crate) ends: Vec<usize>,
}

impl Lists {
    /// Empty lists. Takes no memory.
    pub fn new(alloc: Global) -> Lists {
        Lists {
            controls: Vec::new(alloc),
            matcher: Matcher::new(alloc),
            ends: Vec::new(alloc),
        }
    }
}

//! The lists that rows are made in.

use crate::cluster_run::ClusterRun;
use crate::stretch::Order;
use bg_types::Bidi;
use bidi_weak_neutral::Buffers;
use line_break::{Break, Line, Outline};
use std::alloc::Global;
use unicode_tables::Word;

/// What the rows of a text's paragraphs are made of, in lists that are used for one paragraph after the other. They keep the
/// room that the longest one needed until they are dropped.
#[derive(Drop)]
pub struct Lists {
    pub(crate) points: Vec<char>,
    /// The word of each code point.
    pub(crate) words: Vec<Word>,
    /// The class of each code point.
    pub(crate) classes: Vec<Bidi>,
    /// The level of each code point.
    pub(crate) levels: Vec<u8>,
    /// What the levels are resolved in.
    pub(crate) buffers: Buffers,
    /// The status of the boundary after each code point.
    pub(crate) statuses: Vec<Break>,
    pub(crate) clusters: Outline,
    pub(crate) lines: Vec<Line>,
    pub(crate) line: LineLists,
}

/// What a line's row is made of, in lists that are used for one line after the other.
#[derive(Drop)]
pub(crate) struct LineLists {
    /// The level of each code point.
    pub(crate) levels: Vec<u8>,
    pub(crate) pieces: Vec<ClusterRun>,
    pub(crate) order: Order,
}

impl Lists {
    /// Empty lists. Takes no memory.
    pub fn new(alloc: Global) -> Lists {
        Lists {
            points: Vec::new(alloc),
            words: Vec::new(alloc),
            classes: Vec::new(alloc),
            levels: Vec::new(alloc),
            buffers: Buffers::new(alloc),
            statuses: Vec::new(alloc),
            clusters: Outline::new(alloc),
            lines: Vec::new(alloc),
            line: LineLists {
                levels: Vec::new(alloc),
                pieces: Vec::new(alloc),
                order: Order::new(alloc),
            },
        }
    }
}

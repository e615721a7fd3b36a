//! What a class does to the levels.

use bg_types::Bidi;

/// A level, and the class that an override gives to the characters at it.
#[derive(Clone, Copy, Default)]
pub(crate) struct Direction {
    pub(crate) level: u8,
    pub(crate) forced: Option<Bidi>,
}

/// An entry of the stack: a direction, and whether an isolate opened it.
#[derive(Clone, Copy, Default)]
pub(crate) struct Entry {
    pub(crate) direction: Direction,
    pub(crate) of_isolate: bool,
}

/// What a class does to the levels.
#[derive(Clone, Copy)]
pub(crate) enum Kind {
    /// Whether an odd level is wanted, and the override.
    Embedding(bool, Option<Bidi>),
    /// Whether an odd level is wanted.
    Initiator(bool),
    PopIsolate,
    PopEmbedding,
    Other,
}

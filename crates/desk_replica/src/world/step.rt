//! The steps of a world of desks, and what becomes of them.

/// A step of a world. Desks count from 0, and so do the operations made so far; places count
/// visible characters, from 0.
#[derive(Clone, Copy, Debug, PartialEq, Eq)]
pub enum Step {
    /// A character is typed at a place of the desk's text.
    Typed { desk: usize, place: usize, ch: char },
    /// The character at a place of the desk's text is erased.
    Erase { desk: usize, place: usize },
    /// The desk takes an operation that some desk made.
    Deliver { desk: usize, op: usize },
    /// The desk takes all that another one has.
    Merge { desk: usize, from: usize },
}

/// What became of a step.
#[derive(Clone, Copy, Debug, PartialEq, Eq)]
pub enum Reply {
    /// It was done.
    Done,
    /// The desk refused it with the fault of this number: that of a `TypeFault` where a character is
    /// typed or erased, else that of a `TakeFault`. The number is never 9.
    Refused(u8),
    /// A desk, an operation or a place that it names is not there. Nothing has changed.
    NoSuch,
}

//! Changes of a text.

/// One change of a text. A place counts the characters of the text at that moment, from 0.
#[derive(Clone, Copy, Debug, PartialEq, Eq)]
pub enum Change {
    /// The character stands at the place now, and what stood there and after it is one further.
    Put { place: usize, ch: char },
    /// The character at the place is gone.
    Cut { place: usize },
}

//! Which paragraphs an edit made anew.

/// Which paragraphs an edit made anew: the first `first` are as they were, then `old` paragraphs went and `new` came, and
/// those behind are as they were.
#[derive(Clone, Copy, Debug, PartialEq, Eq)]
pub struct Touched {
    pub first: usize,
    pub old: usize,
    pub new: usize,
}

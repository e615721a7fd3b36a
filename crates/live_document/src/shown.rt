//! Where a window stands in the rows that are kept.

/// Where a window stands in the rows that are kept.
#[derive(Clone, Copy)]
pub struct Shown {
    /// The number of the first paragraph that has a row in it.
    pub first: usize,
    /// How many rows of that paragraph stand above it.
    pub skip: usize,
    /// How many rows it has.
    pub count: usize,
    /// Which of them is the row of the place that was asked for.
    pub number: usize,
}

impl Shown {
    /// Nothing is shown.
    pub const NOTHING: Shown = Shown {
        first: 0,
        skip: 0,
        count: 0,
        number: 0,
    };
}

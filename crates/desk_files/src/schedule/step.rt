//! The steps of a run.

/// A step of a run. Desks, files and the operations of a file are counted from 1.
#[derive(Clone, Copy)]
pub enum RunStep {
    /// The desk takes an operation of a file.
    Take { desk: usize, file: usize, op: usize },
    /// The desk takes all that another has.
    Merge { desk: usize, from: usize },
    /// The desk's text is drawn.
    Show { desk: usize },
}

/// A step with the number of its line in the schedule, or 0 where there is no schedule.
#[derive(Clone, Copy)]
pub struct Numbered {
    pub line: usize,
    pub step: RunStep,
}

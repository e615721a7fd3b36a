//! What is wrong with a line of a schedule.

ghost use Rattle.std.specs.Prelude.{◌≡◌};
ghost use Rattle.desk_files.specs.Fault.{schedule_code};

use thiserror::Error;

/// What is wrong with a line of a schedule. Each prints its bare name.
#[derive(Clone, Copy, Debug, PartialEq, Eq, Error)]
#[error("{:?}", self)]
pub enum ScheduleFault {
    /// The first word is none of `take`, `merge` and `show`.
    UnknownStep,
    /// The step has another number of words.
    WrongWords,
    /// A word that is not 1 to 7 decimal digits, where a number is needed.
    BadNumber,
    /// There is no desk of this number.
    NoSuchDesk,
    /// There is no file of this number.
    NoSuchFile,
    /// The file has no operation of this number.
    NoSuchOperation,
}

impl ScheduleFault {
    /// The number of this fault, 1 to 6.
    pub fn code(self) -> u8
        ensures { result ≡ schedule_code self }
    {
        match self {
            ScheduleFault::UnknownStep => 1,
            ScheduleFault::WrongWords => 2,
            ScheduleFault::BadNumber => 3,
            ScheduleFault::NoSuchDesk => 4,
            ScheduleFault::NoSuchFile => 5,
            ScheduleFault::NoSuchOperation => 6,
        }
    }
}

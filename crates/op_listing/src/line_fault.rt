//! What can be wrong with a line of a listing.

ghost use Rattle.std.specs.Prelude.{◌≡◌};
ghost use Rattle.op_listing.specs.Code.{line_code};

use thiserror::Error;

/// What is wrong with a line of a listing. Each prints its bare name.
#[derive(Clone, Copy, Debug, PartialEq, Eq, Error)]
#[error("{:?}", self)]
pub enum LineFault {
    /// The line hasn't the shape of an operation, or a counter is above 4,294,967,295 or a site above
    /// 65,535.
    BadLine,
    /// A counter or a site is 0, that of the parent included.
    ZeroField,
    /// The parent's counter isn't below the insertion's.
    ParentNotBefore,
    /// The character is above 10FFFF or a surrogate.
    NotAScalar,
}

impl LineFault {
    /// The number of this fault, 1 to 4.
    pub fn code(self) -> u8
        ensures { result ≡ line_code self }
    {
        match self {
            LineFault::BadLine => 1,
            LineFault::ZeroField => 2,
            LineFault::ParentNotBefore => 3,
            LineFault::NotAScalar => 4,
        }
    }
}

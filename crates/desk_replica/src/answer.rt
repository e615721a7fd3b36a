//! What a desk answers.

ghost use Rattle.std.specs.Prelude.{◌≡◌};
ghost use Rattle.desk_replica.specs.Codes.{take_code, type_code};

use thiserror::Error;

/// What became of an operation that was taken.
#[derive(Clone, Copy, Debug, PartialEq, Eq)]
pub enum Taken {
    /// The desk has it already.
    Known,
    /// An insertion was placed, and this many held insertions through it.
    Placed(usize),
    /// A deletion hid a placed element.
    Hidden,
    /// It waits for an insertion that is not placed yet.
    Held,
}

/// Why a desk refused an operation. Each prints its bare name.
#[derive(Clone, Copy, Debug, PartialEq, Eq, Error)]
pub enum TakeFault {
    /// An insertion whose identifier the desk has with another parent or character.
    #[error("IdentifierReused")]
    IdentifierReused,
    /// A new operation where the desk has 1,000,000.
    #[error("Full")]
    Full,
    /// A growth was refused.
    #[error("Memory")]
    Memory,
}

impl TakeFault {
    /// The number of this fault: 1, 2 or 9.
    pub fn code(self) -> u8
        ensures { result ≡ take_code self }
    {
        match self {
            TakeFault::IdentifierReused => 1,
            TakeFault::Full => 2,
            TakeFault::Memory => 9,
        }
    }
}

/// Why operations in order were not all taken: how many of them were, and why the next one was refused.
#[derive(Clone, Copy, Debug, PartialEq, Eq)]
pub struct Stopped {
    pub taken: usize,
    pub fault: TakeFault,
}

/// Why a desk made no operation. Each prints its bare name.
#[derive(Clone, Copy, Debug, PartialEq, Eq, Error)]
pub enum TypeFault {
    /// The next counter is above 4,294,967,295.
    #[error("CounterSpent")]
    CounterSpent,
    /// The desk has 1,000,000 operations.
    #[error("Full")]
    Full,
    /// A growth was refused.
    #[error("Memory")]
    Memory,
}

impl TypeFault {
    /// The number of this fault: 1, 2 or 9.
    pub fn code(self) -> u8
        ensures { result ≡ type_code self }
    {
        match self {
            TypeFault::CounterSpent => 1,
            TypeFault::Full => 2,
            TypeFault::Memory => 9,
        }
    }
}

//! Why a buffer refuses a text or an edit, and how many changes are made then.

ghost use Rattle.std.specs.Prelude.{◌≡◌};
ghost use Rattle.text_buffer.specs.Codes.{buffer_code};

use bg_types::Memory;
use thiserror::Error;

/// Why a buffer refused a text or an edit. Each prints its bare name.
#[derive(Clone, Copy, Debug, PartialEq, Eq, Error)]
pub enum BufferFault {
    /// The text would have more than 4,000,000 bytes.
    #[error("TooLong")]
    TooLong,
    /// A growth was refused.
    #[error("Memory")]
    Memory,
}

impl BufferFault {
    /// The number of this fault: 1 or 9.
    pub fn code(self) -> u8
        ensures { result ≡ buffer_code self }
    {
        match self {
            BufferFault::TooLong => 1,
            BufferFault::Memory => 9,
        }
    }
}

impl From<Memory> for BufferFault {
    ghost use Rattle.std.specs.Prelude.{◌≡◌};
    ghost use Rattle.text_buffer.specs.declared.fault.BufferFault.TheVariants.{Memory as memory};

    ghost from_gives = { λ _ fault. fault ≡ memory };

    fn from(_error: Memory) -> BufferFault {
        BufferFault::Memory
    }
}

/// Why changes were not all made: how many of them were, and what refused the edit that came next.
#[derive(Clone, Copy, Debug, PartialEq, Eq)]
pub struct Stopped {
    pub made: usize,
    pub fault: BufferFault,
}

//! Why nothing is typed.

ghost use Rattle.std.specs.Prelude.{◌≡◌};
ghost use Rattle.desk_runs.specs.Fault.{typing_code, typing_status};
ghost use Rattle.desk_runs.specs.declared.typing_fault.TypingFault.TheVariants.{Run as typing_run};
ghost use Rattle.desk_files.specs.declared.run_fault.RunFault.TheVariants.{Memory as run_memory, Device as run_device};

use bg_types::{Device, Memory};
use desk_files::{RunFault, status};
use std::alloc::{AllocError, AllocFailed};
use std::fmt;
use thiserror::Error;

/// Why a change is not written. Each prints as in the line on standard error, without the
/// program's name.
#[derive(Clone, Copy, PartialEq, Eq, Error)]
pub enum TypingFault {
    /// The text is not UTF-8: how many of its bytes come before the first wrong one.
    #[error("text byte {0}: NotUtf8")]
    NotUtf8(usize),
    /// A run over the files ends like this: a file is faulty, a desk refuses what they have, a read or a
    /// write failed, or a growth was refused.
    #[error(transparent)]
    Run(RunFault),
    /// The place, or the end of the characters to be erased from it on, is past the text's end.
    #[error("place {place} erase {erased}: PastEnd")]
    PastEnd { place: usize, erased: u32 },
    /// The files and the change together have more than 1,000,000 operations.
    #[error("text: Full")]
    Full,
    /// A character would need a counter above 4,294,967,295.
    #[error("text: CounterSpent")]
    CounterSpent,
}

/// As it prints.
impl fmt::Debug for TypingFault {
    fn fmt<W: fmt::Write>(&self, f: &mut fmt::Formatter<W>) -> fmt::Result {
        fmt::Display::fmt(self, f)
    }
}

impl TypingFault {
    /// The number of this fault: that of the run's fault, 1 to 10; 6 for `PastEnd`; otherwise 11 to 13.
    pub fn code(&self) -> u8
        ensures { result ≡ typing_code self.now }
    {
        match self {
            TypingFault::Run(fault) => fault.code(),
            TypingFault::PastEnd { .. } => 6,
            TypingFault::NotUtf8(_) => 11,
            TypingFault::CounterSpent => 12,
            TypingFault::Full => 13,
        }
    }

    /// The status that the program ends with: that of the run's fault, otherwise 1.
    pub fn status(&self) -> u8
        ensures { result ≡ typing_status self.now }
    {
        match self {
            TypingFault::Run(fault) => status(fault),
            TypingFault::NotUtf8(_) | TypingFault::PastEnd { .. } => 1,
            TypingFault::Full | TypingFault::CounterSpent => 1,
        }
    }
}

impl From<AllocError> for TypingFault {
    ghost from_gives = { λ _ e. e ≡ typing_run run_memory };

    fn from(_error: AllocError) -> TypingFault {
        TypingFault::Run(RunFault::Memory)
    }
}

impl<T: Drop> From<AllocFailed<T>> for TypingFault {
    ghost from_gives = { λ _ e. e ≡ typing_run run_memory };

    fn from(_error: AllocFailed<T>) -> TypingFault {
        TypingFault::Run(RunFault::Memory)
    }
}

impl From<Memory> for TypingFault {
    ghost from_gives = { λ _ e. e ≡ typing_run run_memory };

    fn from(_error: Memory) -> TypingFault {
        TypingFault::Run(RunFault::Memory)
    }
}

impl From<Device> for TypingFault {
    ghost from_gives = { λ _ e. e ≡ typing_run run_device };

    fn from(_error: Device) -> TypingFault {
        TypingFault::Run(RunFault::Device)
    }
}

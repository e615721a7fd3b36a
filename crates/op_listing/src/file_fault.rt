//! Why an operation file was not converted.

ghost use Rattle.std.specs.Prelude.{◌≡◌};
ghost use Rattle.op_listing.specs.declared.file_fault.FileFault.TheVariants.{Device as device, Memory as memory};
ghost use Rattle.op_listing.specs.Code.{file_code, file_fault_of};

use bg_types::{Device, Memory};
use op_codec::{Cause, CodecFault};
use std::fmt;
use thiserror::Error;

/// Why an operation file was not converted. Each prints as in the line on standard error,
/// without the program's name; the file has number 1.
#[derive(Clone, Copy, PartialEq, Eq, Error)]
pub enum FileFault {
    /// The file is faulty: this is its first cause. Frame 0 is the header, frames
    /// count from 1.
    #[error("file 1 frame {frame}: {cause}")]
    Malformed { frame: usize, cause: Cause },
    /// A write failed.
    #[error("device")]
    Device,
    /// A growth was refused.
    #[error("memory")]
    Memory,
}

/// As it prints.
impl fmt::Debug for FileFault {
    fn fmt<W: fmt::Write>(&self, f: &mut fmt::Formatter<W>) -> fmt::Result {
        fmt::Display::fmt(self, f)
    }
}

impl FileFault {
    /// The number of this fault among those of a run: 2, 7 or 9.
    pub fn code(self) -> u8
        ensures { result ≡ file_code self }
    {
        match self {
            FileFault::Malformed { .. } => 2,
            FileFault::Device => 7,
            FileFault::Memory => 9,
        }
    }
}

impl From<CodecFault> for FileFault {
    ghost from_gives = { λ error e. e ≡ file_fault_of error };

    fn from(error: CodecFault) -> FileFault {
        match error {
            CodecFault::Malformed { frame, cause } => FileFault::Malformed { frame, cause },
            CodecFault::Memory => FileFault::Memory,
        }
    }
}

impl From<Memory> for FileFault {
    ghost from_gives = { λ _ e. e ≡ memory };

    fn from(_error: Memory) -> FileFault {
        FileFault::Memory
    }
}

impl From<Device> for FileFault {
    ghost from_gives = { λ _ e. e ≡ device };

    fn from(_error: Device) -> FileFault {
        FileFault::Device
    }
}

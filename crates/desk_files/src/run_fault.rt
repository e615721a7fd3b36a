//! Why a run ended early.

ghost use Rattle.std.specs.Prelude.{◌≡◌};
ghost use Rattle.desk_files.specs.Fault.{run_code, status_of, of_ucd_fault, of_file_fault, of_listing_fault};
ghost use Rattle.desk_files.specs.declared.run_fault.RunFault.TheVariants.{Memory as run_memory, Device as run_device};

use crate::schedule_fault::ScheduleFault;
use bg_types::{Device, Memory};
use desk_replica::TakeFault;
use op_codec::CodecFault;
use op_listing::{FileFault, LineFault, ListingFault};
use std::alloc::{AllocError, AllocFailed};
use std::fmt;
use thiserror::Error;
use ucd_files::UcdFault;

/// Why a run ended early. Files, frames, lines and desks are counted from 1; frame 0 is a file's
/// header, and line 0 stands for no schedule. Each prints as in the line on standard error,
/// without the program's name.
#[derive(Clone, Copy, PartialEq, Eq, Error)]
pub enum RunFault {
    /// A data file of Unicode is faulty: the first fault of the first faulty one.
    #[error("ucd {0}")]
    Tables(UcdFault),
    /// An operation file is faulty: its number and its first fault.
    #[error(fmt = tell_in_frame)]
    File(usize, CodecFault),
    /// A schedule is faulty: its first faulty line, and why.
    #[error("schedule line {0}: {1}")]
    Schedule(usize, ScheduleFault),
    /// A step was refused: the line of the schedule, the desk, and why.
    #[error("step line {0} desk {1}: {2}")]
    Step(usize, usize, TakeFault),
    /// A listing is faulty: its first faulty line, and why.
    #[error("listing line {0}: {1}")]
    Listing(usize, LineFault),
    /// A place is past the text's end.
    #[error("place {0}: PastEnd")]
    PastEnd(u32),
    /// A write failed.
    #[error("device")]
    Device,
    /// A read of a file failed: its number, or 0 where the program reads it before the run.
    #[error("cannot read file {0}")]
    ReadFailed(usize),
    /// A growth was refused.
    #[error("memory")]
    Memory,
    /// An operation file has more than 67,108,864 bytes, and those show no other fault: its number.
    #[error("file {0}: TooLong")]
    TooLong(usize),
}

/// Writes the fault of a file with its frame.
fn tell_in_frame<W: fmt::Write>(
    file: &usize,
    fault: &CodecFault,
    f: &mut fmt::Formatter<W>,
) -> fmt::Result {
    let frame = fault.frame().unwrap_or(0);
    write!(f, "file {file} frame {frame}: {fault}")
}

/// As it prints.
impl fmt::Debug for RunFault {
    fn fmt<W: fmt::Write>(&self, f: &mut fmt::Formatter<W>) -> fmt::Result {
        fmt::Display::fmt(self, f)
    }
}

impl RunFault {
    /// The number of this fault, 1 to 10.
    pub fn code(&self) -> u8
        ensures { result ≡ run_code self.now }
    {
        match self {
            RunFault::Tables(_) => 1,
            RunFault::File(..) => 2,
            RunFault::Schedule(..) => 3,
            RunFault::Step(..) => 4,
            RunFault::Listing(..) => 5,
            RunFault::PastEnd(_) => 6,
            RunFault::Device => 7,
            RunFault::ReadFailed(_) => 8,
            RunFault::Memory => 9,
            RunFault::TooLong(_) => 10,
        }
    }
}

/// The status that the program ends with: 1 for a faulty data file, operation file, schedule or
/// listing, a refused step or a place beyond the text, 3 for a device, a file that can't be read, or lack of memory.
pub fn status(fault: &RunFault) -> u8
    ensures { result ≡ status_of fault.now }
{
    match fault {
        RunFault::Tables(_) | RunFault::Schedule(..) => 1,
        RunFault::Listing(..) | RunFault::File(..) | RunFault::Step(..) => 1,
        RunFault::PastEnd(_) | RunFault::TooLong(_) => 1,
        RunFault::Device | RunFault::ReadFailed(_) | RunFault::Memory => 3,
    }
}

impl From<AllocError> for RunFault {
    ghost from_gives = { λ _ e. e ≡ run_memory };

    fn from(_error: AllocError) -> RunFault {
        RunFault::Memory
    }
}

impl<T: Drop> From<AllocFailed<T>> for RunFault {
    ghost from_gives = { λ _ e. e ≡ run_memory };

    fn from(_error: AllocFailed<T>) -> RunFault {
        RunFault::Memory
    }
}

impl From<Memory> for RunFault {
    ghost from_gives = { λ _ e. e ≡ run_memory };

    fn from(_error: Memory) -> RunFault {
        RunFault::Memory
    }
}

impl From<Device> for RunFault {
    ghost from_gives = { λ _ e. e ≡ run_device };

    fn from(_error: Device) -> RunFault {
        RunFault::Device
    }
}

impl From<UcdFault> for RunFault {
    ghost from_gives = { λ fault e. e ≡ of_ucd_fault fault };

    fn from(fault: UcdFault) -> RunFault {
        match fault {
            UcdFault::At { .. } => RunFault::Tables(fault),
            UcdFault::Memory => RunFault::Memory,
        }
    }
}

impl From<FileFault> for RunFault {
    ghost from_gives = { λ fault e. e ≡ of_file_fault fault };

    fn from(fault: FileFault) -> RunFault {
        match fault {
            FileFault::Malformed { frame, cause } => {
                RunFault::File(1, CodecFault::Malformed { frame, cause })
            }
            FileFault::Device => RunFault::Device,
            FileFault::Memory => RunFault::Memory,
        }
    }
}

impl From<ListingFault> for RunFault {
    ghost from_gives = { λ fault e. e ≡ of_listing_fault fault };

    fn from(fault: ListingFault) -> RunFault {
        match fault {
            ListingFault::Malformed { line, fault } => RunFault::Listing(line, fault),
            ListingFault::Device => RunFault::Device,
            ListingFault::Memory => RunFault::Memory,
        }
    }
}

//! Why a listing was not converted.

ghost use Rattle.std.specs.Prelude.{◌≡◌};
ghost use Rattle.op_listing.specs.declared.listing_fault.ListingFault.TheVariants.{Device as device, Memory as memory};
ghost use Rattle.op_listing.specs.Code.{listing_code};

use crate::line_fault::LineFault;
use bg_types::{Device, Memory};
use std::alloc::{AllocError, AllocFailed};
use std::fmt;
use thiserror::Error;

/// Why a listing was not converted. Each prints as in the line on standard error, without the
/// program's name.
#[derive(Clone, Copy, PartialEq, Eq, Error)]
pub enum ListingFault {
    /// The first faulty line, counted from 1, and its first fault.
    #[error("listing line {line}: {fault}")]
    Malformed { line: usize, fault: LineFault },
    /// A write failed.
    #[error("device")]
    Device,
    /// A growth was refused.
    #[error("memory")]
    Memory,
}

/// As it prints.
impl fmt::Debug for ListingFault {
    fn fmt<W: fmt::Write>(&self, f: &mut fmt::Formatter<W>) -> fmt::Result {
        fmt::Display::fmt(self, f)
    }
}

impl ListingFault {
    /// The number of this fault among those of a run: 5, 7 or 9.
    pub fn code(self) -> u8
        ensures { result ≡ listing_code self }
    {
        match self {
            ListingFault::Malformed { .. } => 5,
            ListingFault::Device => 7,
            ListingFault::Memory => 9,
        }
    }
}

impl From<AllocError> for ListingFault {
    ghost from_gives = { λ _ e. e ≡ memory };

    fn from(_error: AllocError) -> ListingFault {
        ListingFault::Memory
    }
}

impl<T: Drop> From<AllocFailed<T>> for ListingFault {
    ghost from_gives = { λ _ e. e ≡ memory };

    fn from(_error: AllocFailed<T>) -> ListingFault {
        ListingFault::Memory
    }
}

impl From<Memory> for ListingFault {
    ghost from_gives = { λ _ e. e ≡ memory };

    fn from(_error: Memory) -> ListingFault {
        ListingFault::Memory
    }
}

impl From<Device> for ListingFault {
    ghost from_gives = { λ _ e. e ≡ device };

    fn from(_error: Device) -> ListingFault {
        ListingFault::Device
    }
}

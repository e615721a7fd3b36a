//! Why the program ended early.

ghost use Rattle.std.specs.Prelude.{◌≡◌};
ghost use Rattle.calling.specs.declared.fault.Fault.TheVariants.{«Type» as type_fault};

use bg_types::{Device, Memory};
use desk_replica::{TakeFault, TypeFault};
use std::alloc::{AllocError, AllocFailed};
use thiserror::Error;
use ucd_files::UcdFault;

/// Why the program ended early: one variant for each kind of fault that the core returns, and one of its own.
#[derive(Clone, Copy, Debug, PartialEq, Eq, Error)]
pub enum Fault {
    /// A data file is faulty.
    #[error("data: {0}")]
    Tables(UcdFault),
    /// A desk refused an operation.
    #[error("take: {0}")]
    Take(TakeFault),
    /// A desk made no operation.
    #[error("type: {0}")]
    Type(TypeFault),
    /// A text has more than 4,000,000 bytes, the most that is drawn.
    #[error("too long")]
    TooLong,
    /// A write failed.
    #[error("device")]
    Device,
    /// A growth was refused.
    #[error("memory")]
    Memory,
}

impl From<UcdFault> for Fault {
    fn from(fault: UcdFault) -> Fault {
        Fault::Tables(fault)
    }
}

impl From<TakeFault> for Fault {
    fn from(fault: TakeFault) -> Fault {
        Fault::Take(fault)
    }
}

impl From<TypeFault> for Fault {
    ghost from_gives = { λ fault e. e ≡ type_fault fault };

    fn from(fault: TypeFault) -> Fault {
        Fault::Type(fault)
    }
}

impl From<Device> for Fault {
    fn from(_fault: Device) -> Fault {
        Fault::Device
    }
}

impl From<Memory> for Fault {
    fn from(_fault: Memory) -> Fault {
        Fault::Memory
    }
}

impl From<AllocError> for Fault {
    fn from(_error: AllocError) -> Fault {
        Fault::Memory
    }
}

impl<T: Drop> From<AllocFailed<T>> for Fault {
    fn from(_error: AllocFailed<T>) -> Fault {
        Fault::Memory
    }
}

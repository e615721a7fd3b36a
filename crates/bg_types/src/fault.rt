//! The faults that every part shares.

ghost use Rattle.std.specs.Prelude.{◌≡◌};

use std::alloc::{AllocError, AllocFailed};
use thiserror::Error;

/// A write failed, for good.
#[derive(Clone, Copy, Debug, PartialEq, Eq, Error)]
#[error("Device")]
pub struct Device;

impl Device {
    const CODE: u8 = 1;

    /// The number of this fault, 1.
    pub fn code(self) -> u8
        ensures { result ≡ 1 }
    {
        Self::CODE
    }
}

/// A growth was refused.
#[derive(Clone, Copy, Debug, PartialEq, Eq, Error)]
#[error("Memory")]
pub struct Memory;

impl Memory {
    const CODE: u8 = 9;

    /// The number of this fault, 9 in every fault type.
    pub fn code(self) -> u8
        ensures { result ≡ 9 }
    {
        Self::CODE
    }
}

impl From<AllocError> for Memory {
    fn from(_error: AllocError) -> Memory {
        Memory
    }
}

impl<T: Drop> From<AllocFailed<T>> for Memory {
    fn from(_error: AllocFailed<T>) -> Memory {
        Memory
    }
}

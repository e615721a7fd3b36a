//! What is wrong with a data file.

ghost use Rattle.std.specs.Prelude.{◌≡◌};
ghost use Rattle.ucd_files.specs.declared.fault.UcdFault.TheVariants.{Memory as memory};
ghost use Rattle.ucd_files.specs.FaultCode.{cause_code, fault_code};

use bg_types::Memory;
use thiserror::Error;

/// One of the five files. Each prints its name among the five arguments of a load.
#[derive(Clone, Copy, Debug, PartialEq, Eq, Error)]
pub enum UcdFile {
    #[error("bidi")]
    Bidi,
    #[error("brackets")]
    Brackets,
    #[error("mirror")]
    Mirror,
    #[error("lb")]
    Lb,
    #[error("ea")]
    Ea,
}

/// What is wrong with a line. Each prints its bare name.
#[derive(Clone, Copy, Debug, PartialEq, Eq, Error)]
#[error("{:?}", self)]
pub enum Cause {
    /// A byte is not part of UTF-8.
    BadUtf8,
    /// A code doesn't have 4 to 6 hexadecimal digits, is above 10FFFF or, as a paired or mirrored code,
    /// is a surrogate.
    BadCode,
    /// The first code of a range is above its last.
    BadRange,
    /// A named field is missing or empty.
    MissingField,
    /// The value is none of those that the file may have.
    UnknownValue,
}

/// Why the files were not loaded.
#[derive(Clone, Copy, Debug, PartialEq, Eq, Error)]
pub enum UcdFault {
    /// A line, counted from 1, is faulty.
    #[error("{file} line {line}: {cause}")]
    At {
        file: UcdFile,
        line: usize,
        cause: Cause,
    },
    /// A growth was refused.
    #[error("Memory")]
    Memory,
}

impl Cause {
    /// The number of this cause, 1 to 5.
    pub fn code(self) -> u8
        ensures { result ≡ cause_code self }
    {
        match self {
            Cause::BadUtf8 => 1,
            Cause::BadCode => 2,
            Cause::BadRange => 3,
            Cause::MissingField => 4,
            Cause::UnknownValue => 5,
        }
    }
}

impl UcdFault {
    /// The number of this fault: that of its cause, or 9 for Memory.
    pub fn code(self) -> u8
        ensures { result ≡ fault_code self }
    {
        match self {
            UcdFault::At { cause, .. } => cause.code(),
            UcdFault::Memory => 9,
        }
    }
}

impl From<Memory> for UcdFault {
    ghost from_gives = { λ _ e. e ≡ memory };

    fn from(_error: Memory) -> UcdFault {
        UcdFault::Memory
    }
}

//! What can be wrong with an operation file.

ghost use Rattle.std.specs.Prelude.{◌≡◌};
ghost use Rattle.op_codec.specs.declared.fault.CodecFault.TheVariants.{Memory as memory};
ghost use Rattle.op_codec.specs.Code.{cause_code, fault_code, frame_number};

use bg_types::Memory;
use std::fmt;
use thiserror::Error;

/// What is wrong with the header or with a frame. Each prints its bare name.
#[derive(Clone, Copy, Debug, PartialEq, Eq, Error)]
#[error("{:?}", self)]
pub enum Cause {
    /// One of the four magic bytes differs.
    BadMagic,
    /// The byte after the magic is neither 1 nor 2.
    BadVersion,
    /// A byte is missing.
    Truncated,
    /// The kind is neither 1 nor 2, nor a run's 3 in version 2.
    UnknownKind,
    /// The length isn't that of the kind.
    BadLength,
    /// A counter or a site is 0, or exactly one of a parent's two.
    ZeroField,
    /// The parent's counter isn't below the insertion's.
    ParentNotBefore,
    /// The last counter of a run is above 4,294,967,295.
    CounterOverflow,
    /// A character is above 10FFFF or a surrogate.
    NotAScalar,
    /// The first insertion joins the last operation of the frame before, which still has room for it.
    NotJoined,
}

impl Cause {
    /// The number of this cause: 1 to 8, 10 or 11.
    pub fn code(self) -> u8
        ensures { result ≡ cause_code self }
    {
        match self {
            Cause::BadMagic => 1,
            Cause::BadVersion => 2,
            Cause::Truncated => 3,
            Cause::UnknownKind => 4,
            Cause::BadLength => 5,
            Cause::ZeroField => 6,
            Cause::ParentNotBefore => 7,
            Cause::NotAScalar => 8,
            Cause::CounterOverflow => 10,
            Cause::NotJoined => 11,
        }
    }
}

/// Why a file was not read. It prints the bare name of its cause, or `Memory`.
#[derive(Clone, Copy, PartialEq, Eq, Error)]
pub enum CodecFault {
    /// The bytes are faulty: this is their first cause. Frame 0 is the header, frames
    /// count from 1.
    #[error("{cause}")]
    Malformed { frame: usize, cause: Cause },
    /// A growth was refused. This says nothing of the bytes.
    #[error("Memory")]
    Memory,
}

/// As it prints.
impl fmt::Debug for CodecFault {
    fn fmt<W: fmt::Write>(&self, f: &mut fmt::Formatter<W>) -> fmt::Result {
        fmt::Display::fmt(self, f)
    }
}

impl CodecFault {
    /// The number of this fault: its cause's, or 9 for `Memory`.
    pub fn code(self) -> u8
        ensures { result ≡ fault_code self }
    {
        match self {
            CodecFault::Malformed { cause, .. } => cause.code(),
            CodecFault::Memory => 9,
        }
    }

    /// The faulty frame, counted from 1; 0 for the header; `None` for `Memory`.
    pub fn frame(self) -> Option<usize>
        ensures { result ≡ frame_number self }
    {
        match self {
            CodecFault::Malformed { frame, .. } => Some(frame),
            CodecFault::Memory => None,
        }
    }
}

impl From<Memory> for CodecFault {
    ghost from_gives = { λ _ e. e ≡ memory };

    fn from(_error: Memory) -> CodecFault {
        CodecFault::Memory
    }
}

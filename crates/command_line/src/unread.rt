//! Why files could not be read.

ghost use Rattle.std.specs.Prelude.{◌≡◌};
ghost use Rattle.command_line.specs.declared.unread.Unread.TheVariants.{Memory as unread_memory};

use std::alloc::{AllocError, AllocFailed};
use std::fmt;
use thiserror::Error;

/// The path of a file that can't be read. It prints as `cannot read PATH`.
#[derive(Clone, Copy)]
pub struct CannotRead<'a>(pub &'a str);

impl fmt::Display for CannotRead<'_> {
    fn fmt<W: fmt::Write>(&self, f: &mut fmt::Formatter<W>) -> fmt::Result {
        write!(f, "cannot read {}", self.0)
    }
}

/// Why files could not be read.
#[derive(Debug, Drop, Error)]
pub enum Unread {
    /// The file at this path can't be opened or read, or is longer than the limit.
    #[error("{}", CannotRead(.0.as_str()))]
    ReadFailed(String),
    /// A growth was refused.
    #[error("memory")]
    Memory,
}

impl From<AllocError> for Unread {
    ghost from_gives = { λ _ e. e ≡ unread_memory };

    fn from(_error: AllocError) -> Unread {
        Unread::Memory
    }
}

impl<T: Drop> From<AllocFailed<T>> for Unread {
    ghost from_gives = { λ _ e. e ≡ unread_memory };

    fn from(_error: AllocFailed<T>) -> Unread {
        Unread::Memory
    }
}

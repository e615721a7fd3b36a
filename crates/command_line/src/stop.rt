//! The words of a command line, and why they ask for no work.

ghost use Rattle.std.specs.Prelude.{◌≡◌};
ghost use Rattle.command_line.specs.declared.stop.Stop.TheVariants.{Memory as stop_memory};

use clap::Error;
use clap::error::ErrorKind;
use std::alloc::{AllocError, AllocFailed, Global};
use std::io;
use std::rt::Env;

const NOT_UTF_8: &str = "error: an argument is not valid UTF-8\n";

/// Why there is no work to do.
#[derive(Drop)]
pub enum Stop {
    /// The help that was asked for, for standard output.
    Help(String),
    /// What is wrong with the command line, for standard error.
    Usage(String),
    /// A growth was refused.
    Memory,
}

impl Stop {
    /// What an error of `clap` comes to: the help is an error there too.
    /// Cost: O(n), memory for its text.
    pub fn of(alloc: Global, error: &Error) -> Stop {
        if error.kind() == ErrorKind::OutOfMemory {
            return Stop::Memory;
        }
        match error.to_string(alloc) {
            Ok(text) if error.use_stderr() => Stop::Usage(text),
            Ok(text) => Stop::Help(text),
            Err(_) => Stop::Memory,
        }
    }
}

impl From<AllocError> for Stop {
    ghost from_gives = { λ _ e. e ≡ stop_memory };

    fn from(_error: AllocError) -> Stop {
        Stop::Memory
    }
}

impl<T: Drop> From<AllocFailed<T>> for Stop {
    ghost from_gives = { λ _ e. e ≡ stop_memory };

    fn from(_error: AllocFailed<T>) -> Stop {
        Stop::Memory
    }
}

/// The words of the command line, the program's name among them.
/// Cost: O(n), memory for the words.
pub fn words<R: Env + Alloc<A = Global>>(rt: &R) -> Result<Vec<String>, Stop> {
    match std::env::args(rt) {
        Ok(words) => Ok(words.collect(rt.alloc())?),
        Err(error) if error.kind() == io::ErrorKind::OutOfMemory => Err(Stop::Memory),
        Err(_) => Err(Stop::Usage(String::from_str(rt.alloc(), NOT_UTF_8)?)),
    }
}

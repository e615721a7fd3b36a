//! What opens files by path.

ghost use Rattle.std.specs.Prelude.{ℕ, List, Option, IfOk};

use crate::reading::open;
use crate::unread::Unread;
use std::io::{self, Read};
use std::rt::{Files, HostRuntime, Stdin};

/// The path that stands for standard input.
pub const INPUT: &str = "-";

/// Opens files by path, each to be read from its front.
pub trait Opener {
    type File: Read + Drop;

    /// What may be still to come of a file that was opened by a path: its bytes, or `None` where they are not known.
    ghost gives: { Self → (path : List ℕ) → Option (List ℕ) → Type 0 };

    /// The file at a path.
    /// Cost: O(1); memory for the path, where it can't be opened.
    fn open(&self, path: &str) -> Result<Self::File, Unread>
        ensures { IfOk result (λ file. gives self.now path.now (Self.File.remaining file)) };
}

/// What has a standard input.
pub trait HasInput {
    type Input: Read + Drop;

    /// Standard input, to be read from where it is.
    fn input(&self) -> Self::Input;
}

impl HasInput for HostRuntime {
    type Input = Stdin;

    fn input(&self) -> Stdin {
        self.stdin()
    }
}

/// A file, or standard input. No contract says which bytes they have.
#[derive(Drop)]
pub enum Opened<F, I> {
    File(F),
    Input(I),
}

impl<F: Read, I: Read> Read for Opened<F, I> {
    fn read(&mut self, piece: &mut [u8]) -> io::Result<usize> {
        match self {
            Opened::File(file) => file.read(piece),
            Opened::Input(input) => input.read(piece),
        }
    }
}

/// The system's files, and standard input at the path `-`.
impl<R: Files + HasInput + AllocGlobal> Opener for R {
    type File = Opened<R::File, R::Input>;

    // No contract says which bytes the system's files have.
    ghost gives = { λ _ _ _. Unit {0} };

    fn open(&self, path: &str) -> Result<Opened<R::File, R::Input>, Unread> {
        if path == INPUT {
            return Ok(Opened::Input(self.input()));
        }
        Ok(Opened::File(open(self, path)?))
    }
}

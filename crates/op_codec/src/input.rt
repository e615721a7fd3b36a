//! A source over a reader.

ghost use Rattle.std.specs.Prelude.{◌≡◌, false};

use crate::source::Source;
use std::io::Read;

/// A source over a reader. An error of the reader is a failed read.
#[derive(Drop)]
pub struct In<R> {
    reader: R,
    failed: bool,
}

impl<R: Read> In<R> {
    /// A source that has not failed, and that gives what the reader gives.
    pub fn new(reader: R) -> In<R>
        ensures remaining { ⟦<In<R> as Source>⟧.remaining result ≡ R.remaining reader }
        ensures working { ⟦<In<R> as Source>⟧.has_failed result ≡ false }
    {
        In {
            reader,
            failed: false,
        }
    }
}

impl<R: Read> Source for In<R> {
    ghost remaining = { λ i. R.remaining i.reader };

    ghost has_failed = { λ i. i.failed };

    fn failed(&self) -> bool {
        self.failed
    }

    fn get(&mut self, piece: &mut [u8]) -> Option<usize> {
        match self.reader.read(piece) {
            Ok(given) => Some(given),
            Err(_) => {
                self.failed = true;
                None
            }
        }
    }
}

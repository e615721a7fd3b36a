//! A sink over a writer.

ghost use Rattle.std.specs.Prelude.{◌≡◌, false};

use crate::sink::Sink;
use std::io::Write;

/// A sink over a writer. An error of the writer, or 0 bytes taken, is a failed put.
#[derive(Drop)]
pub struct Out<W> {
    writer: W,
    failed: bool,
}

impl<W: Write> Out<W> {
    /// A sink that has not failed; what the writer has counts as written.
    pub fn new(writer: W) -> Out<W>
        ensures written { ⟦<Out<W> as Sink>⟧.written result ≡ W.contents writer }
        ensures working { ⟦<Out<W> as Sink>⟧.has_failed result ≡ false }
    {
        Out {
            writer,
            failed: false,
        }
    }
}

impl<W: Write> Sink for Out<W> {
    ghost written = { λ o. W.contents o.writer };

    ghost has_failed = { λ o. o.failed };

    fn failed(&self) -> bool {
        self.failed
    }

    fn put(&mut self, bytes: &[u8]) -> Option<usize> {
        match self.writer.write(bytes) {
            Ok(taken) if taken > 0 => Some(taken),
            _ => {
                self.failed = true;
                None
            }
        }
    }
}

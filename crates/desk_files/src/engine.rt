//! The engine `text`: one desk takes the operations of all files, and its text is written.

ghost use Rattle.std.specs.Prelude.{◌≡◌, false, map as each};
ghost use Rattle.desk_files.specs.Files.{bytes_of};
ghost use Rattle.desk_files.specs.Readers.{AreWorking, AreAsked};
ghost use Rattle.desk_files.specs.TextOutcome.{IsTextOutcome, IsTextOutcomeOver};

use crate::in_memory::readers_of;
use crate::one_desk::joined_text;
use crate::run_fault::RunFault;
use bg_types::{Sink, put_all};
use op_codec::Source;
use std::alloc::Global;

/// Writes the text of all operations of the files, which one desk takes. Nothing is
/// written before all are taken. Files are numbered from 1. Where the key is secret, it is hard to
/// write files that make the run slow.
///
/// Which answer the files have is `laws::text_is_decided`.
/// Cost: that of a `take` for each operation; memory likewise, 20 bytes for each that waits since it came out of order,
/// and for the text.
pub fn text<S: Sink>(
    alloc: Global,
    key: u128,
    files: &[Vec<u8>],
    out: &mut S,
) -> Result<(), RunFault>
    requires { S.has_failed out.old ≡ false }
    ensures { IsTextOutcome (bytes_of files.now) (S.written out.old) (S.written out.new) (S.has_failed out.new) result }
{
    let mut readers = readers_of(alloc, files)?;
    text_from(alloc, key, &mut readers, out)
}

/// Does what `text` does, over the files of readers. Each is read in pieces of at most 4,096 bytes, to
/// its end, to a fault in its bytes, or to the byte past the greatest length of a file.
/// Cost: that of `text`, memory too, in pieces of 4,096 bytes.
pub fn text_from<R: Source, S: Sink>(
    alloc: Global,
    key: u128,
    files: &mut [R],
    out: &mut S,
) -> Result<(), RunFault>
    requires readers { AreWorking (each R.has_failed files.old) }
    requires working { S.has_failed out.old ≡ false }
    ensures asked { AreAsked (each R.remaining files.old) (each R.remaining files.new) }
    ensures outcome { IsTextOutcomeOver (each R.remaining files.old) (each R.remaining files.new) (each R.has_failed files.new)
        (S.written out.old) (S.written out.new) (S.has_failed out.new) result }
{
    let read = joined_text(alloc, key, files)?;
    put_all(out, read.as_bytes())?;
    Ok(())
}

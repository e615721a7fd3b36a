//! The engine `dump`: an operation file becomes a listing.

ghost use Rattle.std.specs.Prelude.{◌≡◌, false};
ghost use Rattle.op_listing.specs.Outcome.{IsDumpOutcome};

use crate::file_fault::FileFault;
use crate::listing::write_listing;
use bg_types::{Sink, put_all};
use op_codec::decode_file;
use std::alloc::Global;

/// Writes the listing of an operation file, a line an operation. Nothing is written before the
/// whole file is read.
/// Cost: O(n), memory for the operations and the listing.
pub fn dump<S: Sink>(alloc: Global, file: &[u8], out: &mut S) -> Result<(), FileFault>
    requires { S.has_failed out.old ≡ false }
    ensures outcome { IsDumpOutcome file.now (S.written out.old) (S.written out.new) (S.has_failed out.new) result }
{
    let ops = decode_file(alloc, file)?;
    let listing = write_listing(alloc, &ops)?;
    put_all(out, &listing)?;
    Ok(())
}

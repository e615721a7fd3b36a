//! The engine `migrate`: an operation file becomes one of version 2.

ghost use Rattle.std.specs.Prelude.{◌≡◌, false};
ghost use Rattle.op_listing.specs.Outcome.{IsMigrateOutcome};

use crate::file_fault::FileFault;
use bg_types::{Sink, put_all};
use std::alloc::Global;

/// Writes the operation file of version 2 that spells the operations of a file. Nothing is written
/// before the whole file is read.
/// Cost: O(n), memory for the operations and the file.
pub fn migrate<S: Sink>(alloc: Global, file: &[u8], out: &mut S) -> Result<(), FileFault>
    requires { S.has_failed out.old ≡ false }
    ensures outcome { IsMigrateOutcome file.now (S.written out.old) (S.written out.new) (S.has_failed out.new) result }
{
    let migrated = op_codec::migrate(alloc, file)?;
    put_all(out, &migrated)?;
    Ok(())
}

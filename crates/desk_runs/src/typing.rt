//! The engine `typed`: a site's change to the text of files becomes its operation file.

ghost use Rattle.std.specs.Prelude.{◌≡◌, ◌<◌, ◌⊎◌, false, map as each, OnOk, IfOk, IfErr};
ghost use Rattle.std.specs.Str.{chars};
ghost use Rattle.bg_types.specs.OperationSet.{no_operations};
ghost use Rattle.op_codec.specs.Spelling.{SpellsIn};
ghost use Rattle.desk_files.specs.Readers.{AreWorking, AreAsked, AreGiven};
ghost use Rattle.desk_runs.specs.Changing.{operations_of, Fits, IsUnfit};
ghost use Rattle.desk_runs.specs.TypedOutcome.{IsTypedFile, IsUntyped, IsTypedOutcome};

use crate::change::Change;
use crate::operations::operations;
use crate::typing_fault::TypingFault;
use bg_types::{Memory, Op, Sink, put_all};
use desk_files::{Desk, let_go, new_desk, take_files};
use op_codec::{Source, Version, encode_file, encode_file_v2};
use std::alloc::Global;

/// Writes the operation file of a change that a site makes to the text of all operations of the
/// files: deletions, then the insertions of the characters of a text in UTF-8, each after the one
/// before. The file is of the version asked for; version 2 takes four bytes a typed character.
/// Nothing is written before all is made. Where the key is secret, it is hard to write files that
/// make the run slow.
///
/// `laws::typed_text` says what the files and the new one read as together; `laws::new_identifiers` says
/// that the new identifiers are new.
/// Cost: that of a `take` for each operation of the files, and O(n) of what is erased and typed; memory likewise.
pub fn typed<R: Source, S: Sink>(
    alloc: Global,
    key: u128,
    files: &mut [R],
    change: &Change,
    text: &[u8],
    version: Version,
    out: &mut S,
) -> Result<(), TypingFault>
    requires site { 0 < change.now.site }
    requires readers { AreWorking (each R.has_failed files.old) }
    requires working { S.has_failed out.old ≡ false }
    ensures asked { AreAsked (each R.remaining files.old) (each R.remaining files.new) }
    ensures outcome { IsTypedOutcome version (each R.remaining files.old) (each R.remaining files.new) (each R.has_failed files.new) change.now text.now
        (S.written out.old) (S.written out.new) (S.has_failed out.new) result }
{
    let file = typed_file(alloc, key, files, change, text, version)?;
    put_all(out, file.as_slice())?;
    Ok(())
}

/// The operation file of the change, of a version.
fn typed_file<R: Source>(
    alloc: Global,
    key: u128,
    files: &mut [R],
    change: &Change,
    text: &[u8],
    version: Version,
) -> Result<Vec<u8>, TypingFault>
    requires site { 0 < change.now.site }
    requires readers { AreWorking (each R.has_failed files.old) }
    ensures ok { IfOk result (λ file. AreGiven (each R.remaining files.old) (each R.has_failed files.new)
        (λ told. IsTypedFile version told change.now text.now file.items)) }
    ensures asked { AreAsked (each R.remaining files.old) (each R.remaining files.new) }
    ensures fault { IfErr result (IsUntyped (each R.remaining files.old) (each R.remaining files.new) (each R.has_failed files.new) change.now text.now) }
{
    let text = match std::str::from_utf8(text) {
        Ok(text) => text,
        Err(error) => return Err(TypingFault::NotUtf8(error.valid_up_to())),
    };
    let mut desk = new_desk(alloc, change.site, key);
    let file = file_with(alloc, files, &mut desk, change, text, version);
    let_go(desk);
    file
}

/// The file of a change, by a desk of its site that has no operations yet and takes those of the files.
fn file_with<R: Source>(
    alloc: Global,
    files: &mut [R],
    desk: &mut Desk,
    change: &Change,
    text: &str,
    version: Version,
) -> Result<Vec<u8>, TypingFault>
    requires readers { AreWorking (each R.has_failed files.old) }
    requires empty { desk.old.set ≡ no_operations }
    requires own { desk.old.site ≡ change.now.site }
    ensures ok { IfOk result (λ file. AreGiven (each R.remaining files.old) (each R.has_failed files.new)
        (λ told. IsTypedFile version told change.now text.now file.items)) }
    ensures asked { AreAsked (each R.remaining files.old) (each R.remaining files.new) }
    ensures fault { IfErr result (IsUntyped (each R.remaining files.old) (each R.remaining files.new) (each R.has_failed files.new) change.now text.now) }
{
    match take_files(alloc, files, desk) {
        Ok(()) => file_at(alloc, desk, change, text, version),
        Err(fault) => Err(TypingFault::Run(fault)),
    }
}

/// The operation file of the change at the desk of its site, which makes it.
fn file_at(
    alloc: Global,
    desk: &mut Desk,
    change: &Change,
    text: &str,
    version: Version,
) -> Result<Vec<u8>, TypingFault>
    requires { desk.old.site ≡ change.now.site }
    ensures fits { OnOk result (Fits desk.old.set change.now (chars text.now)) }
    ensures spelled { IfOk result (λ file. SpellsIn version file.items (operations_of desk.old.set change.now (chars text.now))) }
    ensures fault { IfErr result (IsUnfit desk.old.set change.now (chars text.now)) }
{
    let ops = operations(alloc, desk, change, text)?;
    let file = encoded(alloc, version, ops.as_slice())?;
    Ok(file)
}

/// The file of operations, of a version.
fn encoded(alloc: Global, version: Version, ops: &[Op]) -> Result<Vec<u8>, Memory>
    ensures spelled { IfOk result (λ file. SpellsIn version file.items ops.now) }
{
    match version {
        Version::One => encode_file(alloc, ops),
        Version::Two => encode_file_v2(alloc, ops),
    }
}

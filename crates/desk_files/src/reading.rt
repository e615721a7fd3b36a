//! The operation files of a run, read piece by piece.

ghost use Rattle.std.specs.Prelude.{◌≡◌, ◌<◌, ◌≤◌, ◌⊎◌, ◌+◌, ◌-◌, ◌^◌, ◌++◌, ℕ, List, None, false, length, take, map as each, All, OnOk, IfOk, IfErr, IfSome};
ghost use Rattle.std.specs.List.{AllZip, AllByRecursion};
ghost use Rattle.bg_types.specs.declared.op.OpView.{OpView as Operation};
ghost use Rattle.op_codec.specs.Feed.{IsSound, StandsAfter, added};
ghost use Rattle.desk_files.specs.Reading.{limit, IsReadAs, IsSoundTo, Flaw, IsFlawed, IsFlawedBy, flaw_fault};
ghost use Rattle.desk_files.specs.Readers.{IsAsked, IsToldFile, IsUnreadFile, AreWorking, AreAsked, AreGiven, EndsOver};
ghost use Rattle.desk_files.specs.Files.{lists_of};
ghost use Rattle.desk_files.specs.Cause.{IsReadCaused, file_fault_of};

use crate::run_fault::RunFault;
use bg_types::Op;
use op_codec::{CodecFault, LONGEST_FILE, Source, Stream, laws as codec};
use std::alloc::Global;

/// How many bytes a reader is asked for at once.
pub const PIECE: usize = 4_096;

/// The operations of the file of each reader, or what is wrong with the first file that can't be
/// read. The readers after it are not asked.
/// Cost: O(n), memory for the operations, in pieces of 4,096 bytes.
pub fn read_all<R: Source>(alloc: Global, files: &mut [R]) -> Result<Vec<Vec<Op>>, RunFault>
    requires { AreWorking (each R.has_failed files.old) }
    ensures ok { IfOk result (λ all. AreGiven (each R.remaining files.old) (each R.has_failed files.new)
        (λ told. AllZip IsReadAs told (lists_of all.items))) }
    ensures count { IfOk result (λ all. length all.items ≡ length files.old) }
    ensures asked { AreAsked (each R.remaining files.old) (each R.remaining files.new) }
    ensures fault { IfErr result (EndsOver (each R.remaining files.old) (each R.remaining files.new) (each R.has_failed files.new) IsReadCaused) }
{
    let mut all = Vec::with_capacity(alloc, files.len())?;
    for place in 0..files.len() {
        all.push(read_file(alloc, place + 1, &mut files[place])?)?;
    }
    Ok(all)
}

/// The operations of the file of a reader, which has this number. It is read in pieces, to its end,
/// to a fault in its bytes, or to a byte past the limit.
fn read_file<R: Source>(alloc: Global, number: usize, reader: &mut R) -> Result<Vec<Op>, RunFault>
    requires { R.has_failed reader.old ≡ false }
    ensures ok { IfOk result (λ ops. IsToldFile (R.remaining reader.old) ops.items) }
    ensures working { OnOk result (R.has_failed reader.new ≡ false) }
    ensures asked { IsAsked (R.remaining reader.old) (R.remaining reader.new) }
    ensures fault { IfErr result (IsUnreadFile number (R.remaining reader.old) (R.remaining reader.new) (R.has_failed reader.new)) }
{
    let mut ops = Vec::new(alloc);
    let mut stream = Stream::new();
    let mut piece = [0; PIECE];
    let mut left = LONGEST_FILE;
    while let Some(given) = reader.get(&mut piece) {
        if given == 0 {
            finish(number, &stream)?;
            return Ok(ops);
        }
        feed_piece(number, &mut stream, left, &piece[..given], &mut ops)?;
        left -= given;
    }
    Err(RunFault::ReadFailed(number))
}

/// Feeds the next piece of a file that may still have `left` bytes, and appends its operations to
/// the others.
pub fn feed_piece(
    number: usize,
    stream: &mut Stream,
    left: usize,
    piece: &[u8],
    ops: &mut Vec<Op>,
) -> Result<(), RunFault>
    requires few { IfSome stream.old.position (λ at. at.frames + length piece.now < 2 ^ 64 - 2) }
    ensures within { OnOk result (length piece.now ≤ left) }
    ensures fed { (bytes : List ℕ) (before : List Operation) → StandsAfter stream.old bytes before → IsSoundTo bytes left
        → OnOk result (StandsAfter stream.new (bytes ++ piece.now) (before ++ added ops.old.items ops.new.items)) }
    ensures sound { (bytes : List ℕ) (before : List Operation) → StandsAfter stream.old bytes before → IsSoundTo bytes left
        → OnOk result (IsSound (bytes ++ piece.now)) }
    ensures fault { (bytes : List ℕ) (before : List Operation) → StandsAfter stream.old bytes before → IsSoundTo bytes left
        → IfErr result (λ fault. (fault ≡ RunFault.Memory) ⊎ IsFlawedBy (bytes ++ piece.now) number fault) }
    ensures grown { take (length ops.old.items) ops.new.items ≡ ops.old.items }
{
    codec::fed_in_pieces();
    codec::stable_faults();
    let taken = piece.len().min(left);
    if let Err(fault) = stream.feed(&piece[..taken], ops) {
        return Err(file_fault(number, fault));
    }
    if taken < piece.len() {
        return Err(RunFault::TooLong(number));
    }
    Ok(())
}

/// Ends a file that was fed whole.
pub fn finish(number: usize, stream: &Stream) -> Result<(), RunFault>
    requires few { IfSome stream.now.position (λ at. at.frames < 2 ^ 64 - 1) }
    ensures ok { (bytes : List ℕ) (ops : List Operation) → StandsAfter stream.now bytes ops → length bytes ≤ limit → OnOk result (IsReadAs bytes ops) }
    ensures fault { (bytes : List ℕ) (ops : List Operation) → StandsAfter stream.now bytes ops → length bytes ≤ limit
        → IfErr result (λ fault. (flaw : Flaw) × (fault ≡ flaw_fault number flaw) × IsFlawed bytes flaw) }
{
    match stream.finish() {
        Ok(()) => Ok(()),
        Err(fault) => Err(file_fault(number, fault)),
    }
}

/// The fault of a run for the fault of a file: lack of memory is the fault of no file.
fn file_fault(number: usize, fault: CodecFault) -> RunFault
    ensures { result ≡ file_fault_of number fault }
{
    match fault {
        CodecFault::Malformed { .. } => RunFault::File(number, fault),
        CodecFault::Memory => RunFault::Memory,
    }
}

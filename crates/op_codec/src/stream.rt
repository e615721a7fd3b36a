//! Operation files read piece by piece, without keeping the operations.

ghost use Rattle.std.specs.Prelude.{◌≡◌, ◌≢◌, ◌<◌, ◌≤◌, ◌+◌, ◌-◌, ◌^◌, ◌++◌, [], List, ℕ, length, take, None, Some, IfOk, IfErr, OnOk, OnErr, IfSome};
ghost use Rattle.std.specs.List.{AllByRecursion};
ghost use Rattle.bg_types.specs.WellFormed.{IsWellFormed};
ghost use Rattle.bg_types.specs.declared.op.OpView.{OpView as Operation};
ghost use Rattle.op_codec.specs.declared.fault.Cause.TheVariants.{Truncated};
ghost use Rattle.op_codec.specs.declared.fault.CodecFault.TheVariants.{Memory as memory};
ghost use Rattle.op_codec.specs.Spelling.{spelling_in, Spells};
ghost use Rattle.op_codec.specs.Fault.{header_cause, cause_at, TellsFault};
ghost use Rattle.op_codec.specs.Feed.{IsBehind, bytes_of, kept_cause, IsCut, ShowsCause, AreTaken, Standing, StandsAfter, GoesOn, added};

use crate::cut::{Cut, complete_frame, complete_header, first_fault, judge, keep};
use crate::fault::CodecFault;
use crate::format::INSERTION_SIZE;
use crate::frame::read_frame;
use crate::position::Position;
use crate::run::push_frame;
use bg_types::{Memory, Op};
use std::marker::Model;

/// Reads an operation file (docs/FORMATS.md) in pieces of any size, and hands the operations on as
/// they come. Clauses see where it stands: after which bytes, and the operations of their whole frames.
#[derive(Drop)]
pub struct Stream {
    /// The bytes after the whole frames: those of a header or a frame that isn't whole yet, or is
    /// faulty.
    kept: Cut,
    /// Where they stand, once the header is whole and right.
    position: Option<Position>,
}

impl Model for Stream {
    ghost Value = { Standing };

    ghost view = { λ s. record { position = s.position; kept = s.kept.items } };

    ghost invariant = { λ s. ShowsCause s.position s.kept.items };
}

impl Stream {
    /// A stream that was fed nothing.
    pub fn new() -> Stream
        ensures { StandsAfter result [] [] }
    {
        Stream {
            kept: Cut::new(),
            position: None,
        }
    }

    /// Reads on, and appends the operations of the further whole frames to the others. Returns
    /// the first fault of all bytes so far, except a missing byte; such a fault stays. `Memory`
    /// changes nothing. Frames are counted, so their number plus the piece's bytes is below 2^64 - 2.
    /// Cost: O(n) of the piece, amortized; 20 bytes of memory an operation of it.
    pub fn feed(&mut self, piece: &[u8], ops: &mut Vec<Op>) -> Result<(), CodecFault>
        requires few { IfSome self.old.position (λ at. at.frames + length piece.now < 2 ^ 64 - 2) }
        ensures outcome { (bytes : List ℕ) (before : List Operation) → StandsAfter self.old bytes before
            → GoesOn bytes piece.now before (added ops.old.items ops.new.items) self.new result }
        ensures grown { take (length ops.old.items) ops.new.items ≡ ops.old.items }
    {
        judge(&self.position, &self.kept)?;
        let (before, kept) = (ops.len(), self.kept.len());
        match read_on(ops, &mut self.kept, &self.position, piece) {
            Ok(position) => {
                self.position = position;
                judge(&self.position, &self.kept)
            }
            Err(Memory) => {
                ops.truncate(before);
                self.kept.truncate(kept);
                Err(CodecFault::Memory)
            }
        }
    }

    /// Returns the first fault of all bytes if they end here: none if they are a file of the
    /// operations that were handed on.
    pub fn finish(&self) -> Result<(), CodecFault>
        requires few { IfSome self.now.position (λ at. at.frames < 2 ^ 64 - 1) }
        ensures ok { (bytes : List ℕ) (before : List Operation) → StandsAfter self.now bytes before → OnOk result (Spells bytes before) }
        ensures fault { (bytes : List ℕ) (before : List Operation) → StandsAfter self.now bytes before → IfErr result (TellsFault bytes) }
        ensures no_memory { IfErr result (λ fault. fault ≢ memory) }
    {
        match first_fault(&self.position, &self.kept) {
            Some((frame, cause)) => Err(CodecFault::Malformed { frame, cause }),
            None => Ok(()),
        }
    }
}

/// Reads a piece after the kept bytes, appends the operations of the whole frames to the others,
/// and returns the position of what is then kept. Where memory is refused, both have only grown.
fn read_on(
    ops: &mut Vec<Op>,
    kept: &mut Cut,
    position: &Option<Position>,
    piece: &[u8],
) -> Result<Option<Position>, Memory>
    requires missing { kept_cause position.now kept.old.items ≡ Some Truncated }
    requires few { IfSome position.now (λ at. at.frames + length piece.now < 2 ^ 64 - 2) }
    ensures taken { (before : List Operation) → IsCut position.now before kept.old.items → IfOk result (λ now. AreTaken (bytes_of position.now before kept.old.items ++ piece.now) now (before ++ added ops.old.items ops.new.items) kept.new.items) }
    ensures shown { IfOk result (λ now. ShowsCause now kept.new.items) }
    ensures few { IfOk result (λ now. IfSome now (λ at. at.frames < 2 ^ 64 - 1)) }
    ensures ops { take (length ops.old.items) ops.new.items ≡ ops.old.items }
    ensures kept { OnErr result (take (length kept.old.items) kept.new.items ≡ kept.old.items) }
    ensures memory { (before : List Operation) → OnErr result (header_cause (bytes_of position.now before kept.old.items ++ piece.now) ≡ None) }
{
    match position {
        None => read_behind_header(ops, kept, piece),
        Some(at) => read_behind_frame(ops, kept, at, piece),
    }
}

/// Reads on where the header isn't whole yet.
fn read_behind_header(
    ops: &mut Vec<Op>,
    kept: &mut Cut,
    piece: &[u8],
) -> Result<Option<Position>, Memory>
    requires missing { header_cause kept.old.items ≡ Some Truncated }
    ensures taken { IfOk result (λ now. AreTaken (kept.old.items ++ piece.now) now (added ops.old.items ops.new.items) kept.new.items) }
    ensures shown { IfOk result (λ now. ShowsCause now kept.new.items) }
    ensures few { IfOk result (λ now. IfSome now (λ at. at.frames < 2 ^ 64 - 1)) }
    ensures ops { take (length ops.old.items) ops.new.items ≡ ops.old.items }
    ensures kept { OnErr result (take (length kept.old.items) kept.new.items ≡ kept.old.items) }
    ensures memory { OnErr result (header_cause (kept.old.items ++ piece.now) ≡ None) }
{
    let Some((version, rest)) = complete_header(kept, piece) else {
        return Ok(None);
    };
    let mut at = Position {
        version,
        frames: 0,
        tip: None,
    };
    read_frames(ops, kept, &mut at, rest)?;
    Ok(Some(at))
}

/// Reads on behind the header.
fn read_behind_frame(
    ops: &mut Vec<Op>,
    kept: &mut Cut,
    at: &Position,
    piece: &[u8],
) -> Result<Option<Position>, Memory>
    requires missing { cause_at at.now.version at.now.tip kept.old.items ≡ Some Truncated }
    requires few { at.now.frames + length piece.now < 2 ^ 64 - 2 }
    ensures taken { (before : List Operation) → AllByRecursion IsWellFormed before → IsBehind at.now before
        → IfOk result (λ now. AreTaken ((spelling_in at.now.version before ++ kept.old.items) ++ piece.now) now (before ++ added ops.old.items ops.new.items) kept.new.items) }
    ensures shown { IfOk result (λ now. ShowsCause now kept.new.items) }
    ensures few { IfOk result (λ now. IfSome now (λ at. at.frames < 2 ^ 64 - 1)) }
    ensures ops { take (length ops.old.items) ops.new.items ≡ ops.old.items }
    ensures kept { OnErr result (take (length kept.old.items) kept.new.items ≡ kept.old.items) }
{
    let mut now = *at;
    let Some(rest) = complete_frame(ops, kept, &mut now, piece)? else {
        return Ok(Some(now));
    };
    read_frames(ops, kept, &mut now, rest)?;
    Ok(Some(now))
}

/// Reads the whole frames at the front, and keeps what follows them. It moves the position there.
fn read_frames(
    ops: &mut Vec<Op>,
    kept: &mut Cut,
    at: &mut Position,
    bytes: &[u8],
) -> Result<(), Memory>
    requires few { at.old.frames + length bytes.now < 2 ^ 64 - 1 }
    ensures taken { (before : List Operation) → AllByRecursion IsWellFormed before → IsBehind at.old before
        → OnOk result (AreTaken (spelling_in at.old.version before ++ bytes.now) (Some at.new) (before ++ added ops.old.items ops.new.items) kept.new.items) }
    ensures shown { OnOk result (ShowsCause (Some at.new) kept.new.items) }
    ensures few { OnOk result (at.new.frames ≤ at.old.frames + length bytes.now) }
    ensures ops { take (length ops.old.items) ops.new.items ≡ ops.old.items }
    ensures kept { OnErr result (kept.new.items ≡ kept.old.items) }
{
    // One growth if each insertion is a frame of its own, and at most a few more otherwise.
    ops.reserve(bytes.len() / INSERTION_SIZE)?;
    let mut rest = bytes;
    while let Ok(read) = read_frame(at, rest) {
        push_frame(ops, at, &read.first, read.further)?;
        rest = read.rest;
    }
    keep(kept, at, rest);
    Ok(())
}

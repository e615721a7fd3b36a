//! The beginning of a header or a frame that a piece cut, and how the next piece completes it.

ghost use Rattle.std.specs.Prelude.{◌≡◌, ◌<◌, ◌≤◌, ◌+◌, ◌-◌, ◌^◌, ◌++◌, Some, None, length, take, IfNone, IfSome, IfOk, OnOk, IfErr};
ghost use Rattle.arrayvec.specs.ArrayVec.{array_vec_len};
ghost use Rattle.op_codec.specs.declared.fault.Cause.{Cause as CauseOf};
ghost use Rattle.op_codec.specs.declared.fault.Cause.TheVariants.{Truncated};
ghost use Rattle.op_codec.specs.Spelling.{header};
ghost use Rattle.op_codec.specs.Fault.{header_cause, cause_at};
ghost use Rattle.op_codec.specs.Feed.{kept_fault, IsMissing, TellsKept, IsStopped, TakesIn};

use crate::fault::{Cause, CodecFault};
use crate::format::{HEADER_SIZE, LONGEST_FRAME};
use crate::frame::read_frame;
use crate::header::read_header;
use crate::position::{Position, Version};
use crate::run::push_frame;
use arrayvec::ArrayVec;
use bg_types::{Memory, Op};

/// A beginning of a header or of a frame.
pub type Cut = ArrayVec<u8, LONGEST_FRAME>;

/// The version, and what follows the header that the kept bytes begin, if the piece completes the header.
pub fn complete_header<'a>(kept: &mut Cut, piece: &'a [u8]) -> Option<(Version, &'a [u8])>
    requires { header_cause kept.old.items ≡ Some Truncated }
    ensures some { IfSome result (λ read. kept.old.items ++ piece.now ≡ header read.0 ++ read.1.now) }
    ensures right { IfSome result (λ _. header_cause (kept.old.items ++ piece.now) ≡ None) }
    ensures none { IfNone result (IsStopped (kept.old.items ++ piece.now) kept.new.items (header_cause kept.new.items)) }
    ensures grown { take (length kept.old.items) kept.new.items ≡ kept.old.items }
{
    let taken = piece.len().min(HEADER_SIZE - kept.len());
    append(kept, &piece[..taken]);
    match read_header(kept) {
        Ok(read) => Some((read.0, &piece[taken..])),
        Err(_) => None,
    }
}

/// What follows the frame that the kept bytes begin, if the piece completes it. Its operations are
/// then appended to the others, and the position is moved after it.
pub fn complete_frame<'a>(
    ops: &mut Vec<Op>,
    kept: &mut Cut,
    at: &mut Position,
    piece: &'a [u8],
) -> Result<Option<&'a [u8]>, Memory>
    requires missing { cause_at at.old.version at.old.tip kept.old.items ≡ Some Truncated }
    requires counted { at.old.frames < 2 ^ 64 - 1 }
    ensures some { IfOk result (λ done. IfSome done (λ rest. TakesIn at.old at.new ops.old.items ops.new.items (kept.old.items ++ piece.now) rest.now)) }
    ensures within { IfOk result (λ done. IfSome done (λ rest. length rest.now ≤ length piece.now)) }
    ensures none { IfOk result (λ done. IfNone done (IsStopped (kept.old.items ++ piece.now) kept.new.items (cause_at at.old.version at.old.tip kept.new.items))) }
    ensures unchanged { IfOk result (λ done. IfNone done ((ops.new.items ≡ ops.old.items) × (at.new ≡ at.old))) }
    ensures ops { take (length ops.old.items) ops.new.items ≡ ops.old.items }
    ensures grown { take (length kept.old.items) kept.new.items ≡ kept.old.items }
{
    let taken = piece.len().min(LONGEST_FRAME - kept.len());
    append(kept, &piece[..taken]);
    match read_frame(at, kept) {
        Ok(read) => {
            push_frame(ops, at, &read.first, read.further)?;
            Ok(Some(&piece[taken - read.rest.len()..]))
        }
        Err(_) => Ok(None),
    }
}

/// Keeps bytes at which no whole frame begins, or a beginning that shows it.
pub fn keep(kept: &mut Cut, at: &Position, rest: &[u8])
    requires { (cause : CauseOf) × (cause_at at.now.version at.now.tip rest.now ≡ Some cause) }
    ensures { IsStopped rest.now kept.new.items (cause_at at.now.version at.now.tip kept.new.items) }
{
    kept.clear();
    let most = rest.len().min(LONGEST_FRAME);
    append(kept, &rest[..most]);
}

fn append(kept: &mut Cut, bytes: &[u8])
    requires { array_vec_len kept.old + length bytes.now ≤ 4111 }
    ensures { kept.new.items ≡ kept.old.items ++ bytes.now }
{
    kept.try_extend_from_slice(bytes).unwrap();
}

/// The fault of the kept bytes at this position, with its frame.
pub fn first_fault(position: &Option<Position>, kept: &[u8]) -> Option<(usize, Cause)>
    requires { IfSome position.now (λ at. at.frames < 2 ^ 64 - 1) }
    ensures { result ≡ kept_fault position.now kept.now }
{
    let Some(at) = position else {
        return read_header(kept).err().map(|cause| (0, cause));
    };
    if kept.is_empty() {
        return None;
    }
    match read_frame(at, kept) {
        Ok(_) => None,
        Err(cause) => Some((at.frames + 1, cause)),
    }
}

/// Returns the fault of the kept bytes, except a missing byte.
pub fn judge(position: &Option<Position>, kept: &[u8]) -> Result<(), CodecFault>
    requires { IfSome position.now (λ at. at.frames < 2 ^ 64 - 1) }
    ensures ok { OnOk result (IsMissing (kept_fault position.now kept.now)) }
    ensures err { IfErr result (TellsKept (kept_fault position.now kept.now)) }
{
    match first_fault(position, kept) {
        Some((frame, cause)) if cause != Cause::Truncated => {
            Err(CodecFault::Malformed { frame, cause })
        }
        _ => Ok(()),
    }
}

//! Reading one frame of an operation file.

ghost use Rattle.std.specs.Prelude.{◌≡◌, ◌<◌, ◌≤◌, ◌+◌, ◌-◌, length, take, drop, slice_index, IfOk, IfErr, OnOk, MatchResult, Some, None};
ghost use Rattle.byteorder.specs.Endian.{big_number};
ghost use Rattle.op_codec.specs.Spelling.{most_insertions};
ghost use Rattle.op_codec.specs.Frames.{BeginsWith};
ghost use Rattle.op_codec.specs.Fault.{length_cause, insertion_frame_cause, erasure_frame_cause, run_frame_cause, frame_cause, cause_at, characters_in};
ghost use Rattle.op_codec.specs.Feed.{TakesFrame};

use crate::fault::Cause;
use crate::fields::{read_id, read_numbers};
use crate::format::{ERASURE, ERASURE_LENGTH, INSERTION, INSERTION_FIELDS, INSERTION_LENGTH, RUN};
use crate::position::{Position, Version};
use crate::run::{is_run_length, joins, read_run};
use bg_types::Op;
use byteorder::{BigEndian, ByteOrder};

/// A whole frame that was read, and what follows it.
#[derive(Drop)]
pub struct Read<'a> {
    /// Its first operation.
    pub first: Op,
    /// The characters of the insertions that a run has after it, four bytes each.
    pub further: &'a [u8],
    /// The bytes that follow the frame.
    pub rest: &'a [u8],
}

/// Reads the frame at the front, which stands at this position.
#[inline(always)]
pub fn read_frame<'a>(at: &Position, bytes: &'a [u8]) -> Result<Read<'a>, Cause>
    ensures ok { IfOk result (λ read. TakesFrame at.now bytes.now (record { first = read.first; further = characters_in read.further.now }) read.rest.now) }
    ensures err { IfErr result (λ cause. cause_at at.now.version at.now.tip bytes.now ≡ Some cause) }
{
    match read_whole(at.version, bytes) {
        Ok(read) => {
            if joins(&at.tip, &read.first) {
                return Err(Cause::NotJoined);
            }
            Ok(read)
        }
        Err(cause) => Err(cause),
    }
}

/// Reads the frame at the front, whatever stands before it.
#[inline(always)]
fn read_whole(version: Version, bytes: &[u8]) -> Result<Read<'_>, Cause>
    ensures ok { IfOk result (λ read. BeginsWith (most_insertions version) bytes.now (record { first = read.first; further = characters_in read.further.now }) read.rest.now) }
    ensures err { IfErr result (λ cause. frame_cause version bytes.now ≡ Some cause) }
{
    if bytes.len() < 3 {
        return Err(Cause::Truncated);
    }
    match bytes[2] {
        INSERTION => read_insertion_frame(bytes),
        ERASURE => read_erasure_frame(bytes),
        RUN if version.most_insertions() > 1 => read_run_frame(bytes),
        _ => Err(Cause::UnknownKind),
    }
}

#[inline(always)]
fn read_insertion_frame(bytes: &[u8]) -> Result<Read<'_>, Cause>
    requires long { 3 ≤ length bytes.now }
    requires kind { slice_index bytes.now 2 ≡ 1 }
    ensures ok { IfOk result (λ read. BeginsWith 1 bytes.now (record { first = read.first; further = characters_in read.further.now }) read.rest.now) }
    ensures err { IfErr result (λ cause. insertion_frame_cause bytes.now ≡ Some cause) }
{
    let (fields, rest) = split_frame(bytes, INSERTION_LENGTH)?;
    let (id, parent) = read_numbers(fields)?;
    match char::from_u32(BigEndian::read_u32(&fields[12..])) {
        Some(ch) => Ok(Read {
            first: Op::insert(id, parent, ch).unwrap(),
            further: &[],
            rest,
        }),
        None => Err(Cause::NotAScalar),
    }
}

fn read_erasure_frame(bytes: &[u8]) -> Result<Read<'_>, Cause>
    requires long { 3 ≤ length bytes.now }
    requires kind { slice_index bytes.now 2 ≡ 2 }
    ensures ok { IfOk result (λ read. BeginsWith 1 bytes.now (record { first = read.first; further = characters_in read.further.now }) read.rest.now) }
    ensures err { IfErr result (λ cause. erasure_frame_cause bytes.now ≡ Some cause) }
{
    let (fields, rest) = split_frame(bytes, ERASURE_LENGTH)?;
    let target = read_id(fields).ok_or(Cause::ZeroField)?;
    Ok(Read {
        first: Op::erase(target),
        further: &[],
        rest,
    })
}

#[inline(never)]
fn read_run_frame(bytes: &[u8]) -> Result<Read<'_>, Cause>
    requires long { 3 ≤ length bytes.now }
    requires kind { slice_index bytes.now 2 ≡ 3 }
    ensures ok { IfOk result (λ read. BeginsWith 1024 bytes.now (record { first = read.first; further = characters_in read.further.now }) read.rest.now) }
    ensures err { IfErr result (λ cause. run_frame_cause bytes.now ≡ Some cause) }
{
    let size = BigEndian::read_u16(bytes);
    if !is_run_length(size) {
        return Err(Cause::BadLength);
    }
    let (fields, rest) = split_frame(bytes, size)?;
    let first = read_run(fields)?;
    Ok(Read {
        first,
        further: &fields[INSERTION_FIELDS..],
        rest,
    })
}

/// The fields of the frame at the front, whose kind asks for this length, and the bytes that
/// follow the frame.
fn split_frame(bytes: &[u8], wanted: u16) -> Result<(&[u8], &[u8]), Cause>
    requires long { 3 ≤ length bytes.now }
    requires kind { 0 < wanted }
    ensures size { OnOk result (big_number 2 bytes.now ≡ wanted) }
    ensures whole { OnOk result (2 + wanted ≤ length bytes.now) }
    ensures fields { IfOk result (λ parts. parts.0.now ≡ take (wanted - 1) (drop 3 bytes.now)) }
    ensures count { IfOk result (λ parts. length parts.0.now ≡ wanted - 1) }
    ensures rest { IfOk result (λ parts. parts.1.now ≡ drop (2 + wanted) bytes.now) }
    ensures fault { MatchResult result (λ _. length_cause wanted bytes.now ≡ None)
        (λ cause. length_cause wanted bytes.now ≡ Some cause) }
{
    if BigEndian::read_u16(bytes) != wanted {
        return Err(Cause::BadLength);
    }
    let end = 2 + usize::from(wanted);
    if bytes.len() < end {
        return Err(Cause::Truncated);
    }
    Ok((&bytes[3..end], &bytes[end..]))
}

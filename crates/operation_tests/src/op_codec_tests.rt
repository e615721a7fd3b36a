//! Operation files that were worked out by hand, in both versions, and refused growths.

use crate::ops::{OpRow, op, ops_of};
use crate::rows::assert_rows;
use OpRow::{Erase, Insert};
use bg_types::{Memory, Op};
use op_codec::*;
use std::alloc::{AllocError, Global};
use test_rows::Row;

pub(crate) const EMPTY: [u8; 5] = *b"BGOP\x01";

const A: OpRow = Insert((1, 1), (0, 0), 'a');

const B: OpRow = Insert((2, 1), (1, 1), 'b');

/// `a`, and `b` after it.
pub(crate) const TWO_ROWS: [OpRow; 2] = [A, B];

pub(crate) const TWO: [u8; 43] = [
    0x42, 0x47, 0x4F, 0x50, 1, // BGOP, version 1
    0, 17, 1, 0, 0, 0, 1, 0, 1, 0, 0, 0, 0, 0, 0, 0, 0, 0, 0x61, // frame 1
    0, 17, 1, 0, 0, 0, 2, 0, 1, 0, 0, 0, 1, 0, 1, 0, 0, 0, 0x62, // frame 2
];

/// These two in version 2: one run.
pub(crate) const RUN: [u8; 28] = [
    0x42, 0x47, 0x4F, 0x50, 2, // BGOP, version 2
    0, 21, 3, 0, 0, 0, 1, 0, 1, 0, 0, 0, 0, 0, 0, 0, 0, 0, 0x61, 0, 0, 0, 0x62, // frame 1
];

/// `a`, `x` and `b` after it, `y` after `x`.
const FOUR_ROWS: [OpRow; 4] = [
    A,
    Insert((2, 2), (1, 1), 'x'),
    Insert((3, 2), (2, 2), 'y'),
    B,
];

pub(crate) const FOUR: [u8; 81] = [
    0x42, 0x47, 0x4F, 0x50, 1, // BGOP, version 1
    0, 17, 1, 0, 0, 0, 1, 0, 1, 0, 0, 0, 0, 0, 0, 0, 0, 0, 0x61, // frame 1
    0, 17, 1, 0, 0, 0, 2, 0, 2, 0, 0, 0, 1, 0, 1, 0, 0, 0, 0x78, // frame 2
    0, 17, 1, 0, 0, 0, 3, 0, 2, 0, 0, 0, 2, 0, 2, 0, 0, 0, 0x79, // frame 3
    0, 17, 1, 0, 0, 0, 2, 0, 1, 0, 0, 0, 1, 0, 1, 0, 0, 0, 0x62, // frame 4
];

pub(crate) const FOUR_MIGRATED: [u8; 66] = [
    0x42, 0x47, 0x4F, 0x50, 2, // BGOP, version 2
    0, 17, 1, 0, 0, 0, 1, 0, 1, 0, 0, 0, 0, 0, 0, 0, 0, 0, 0x61, // frame 1
    0, 21, 3, 0, 0, 0, 2, 0, 2, 0, 0, 0, 1, 0, 1, 0, 0, 0, 0x78, 0, 0, 0, 0x79, // frame 2
    0, 17, 1, 0, 0, 0, 2, 0, 1, 0, 0, 0, 1, 0, 1, 0, 0, 0, 0x62, // frame 3
];

/// The deletion of (2,1), and (3,1) after (2,1), `c`: a deletion is never joined, nor joins.
const ERASED: [u8; 33] = [
    0x42, 0x47, 0x4F, 0x50, 1, // BGOP, version 1
    0, 7, 2, 0, 0, 0, 2, 0, 1, // frame 1
    0, 17, 1, 0, 0, 0, 3, 0, 1, 0, 0, 0, 2, 0, 1, 0, 0, 0, 0x63, // frame 2
];

const ERASED_MIGRATED: [u8; 33] = [
    0x42, 0x47, 0x4F, 0x50, 2, // BGOP, version 2
    0, 7, 2, 0, 0, 0, 2, 0, 1, // frame 1
    0, 17, 1, 0, 0, 0, 3, 0, 1, 0, 0, 0, 2, 0, 1, 0, 0, 0, 0x63, // frame 2
];

/// What a call found, where a fault but memory is as wrong as what is not so.
fn found(answer: Result<bool, CodecFault>) -> Result<bool, Memory> {
    match answer {
        Ok(right) => Ok(right),
        Err(CodecFault::Memory) => Err(Memory),
        Err(_) => Ok(false),
    }
}

/// Whether a file of version 1 is that of the operations, both ways.
fn is_file_of(alloc: Global, file: &[u8], ops: &[Op]) -> Result<bool, CodecFault> {
    Ok(encode_file(alloc, ops)?.as_slice() == file && decode_file(alloc, file)?.as_slice() == ops)
}

/// Whether a file of version 2 is that of the operations, both ways, and what it is migrated to.
fn is_run_file_of(alloc: Global, file: &[u8], ops: &[Op]) -> Result<bool, CodecFault> {
    Ok(
        encode_file_v2(alloc, ops)?.as_slice() == file
            && decode_file(alloc, file)?.as_slice() == ops
            && migrate(alloc, file)?.as_slice() == file,
    )
}

/// Operations, and their files in both versions.
struct Files(&'static [OpRow], &'static [u8], &'static [u8]);

impl Files {
    /// Whether these operations have the files.
    fn are_of(&self, alloc: Global, ops: &[Op]) -> Result<bool, CodecFault> {
        Ok(
            ops.len() == self.0.len()
                && is_file_of(alloc, self.1, ops)?
                && is_run_file_of(alloc, self.2, ops)?
                && migrate(alloc, self.1)?.as_slice() == self.2,
        )
    }
}

impl Row for Files {
    fn comes_out(&self, alloc: Global) -> Result<bool, Memory> {
        let ops = ops_of(alloc, self.0)?;
        found(self.are_of(alloc, &ops))
    }
}

const FILES: &[Files] = &[
    Files(&[], &EMPTY, b"BGOP\x02"),
    Files(&TWO_ROWS, &TWO, &RUN),
    Files(&FOUR_ROWS, &FOUR, &FOUR_MIGRATED),
    Files(
        &[Erase((2, 1)), Insert((3, 1), (2, 1), 'c')],
        &ERASED,
        &ERASED_MIGRATED,
    ),
];

#[test]
fn files_of_both_versions(rt: HostRuntime) {
    assert_rows(&rt, FILES);
}

pub(crate) fn joined(alloc: Global, front: &[u8], back: &[u8]) -> Result<Vec<u8>, AllocError> {
    let mut file = Vec::from_slice(alloc, front)?;
    file.extend_from_slice(back)?;
    Ok(file)
}

/// The frames of operations, written one after the other on an empty vector.
fn frames_of(alloc: Global, ops: &[Op]) -> Result<Vec<u8>, Memory> {
    let mut written = Vec::new(alloc);
    for op in ops {
        encode_op(op, &mut written)?;
    }
    Ok(written)
}

/// Operations, and their frames.
struct Framed(&'static [OpRow], &'static [u8]);

impl Framed {
    /// Whether the frames are those of these operations, alone and as this file.
    fn are_of(&self, alloc: Global, ops: &[Op], file: &[u8]) -> Result<bool, CodecFault> {
        let written = frames_of(alloc, ops)?;
        let all = ops.len() == self.0.len() && written.as_slice() == self.1;
        Ok(all && is_file_of(alloc, file, ops)?)
    }
}

impl Row for Framed {
    fn comes_out(&self, alloc: Global) -> Result<bool, Memory> {
        let ops = ops_of(alloc, self.0)?;
        let file = joined(alloc, &EMPTY, self.1)?;
        found(self.are_of(alloc, &ops, &file))
    }
}

/// The last 38 bytes of the file of `TWO_ROWS`.
const TWO_FRAMES: [u8; 38] = [
    0, 17, 1, 0, 0, 0, 1, 0, 1, 0, 0, 0, 0, 0, 0, 0, 0, 0, 0x61, // frame 1
    0, 17, 1, 0, 0, 0, 2, 0, 1, 0, 0, 0, 1, 0, 1, 0, 0, 0, 0x62, // frame 2
];

#[test]
fn frames_one_after_the_other(rt: HostRuntime) {
    assert_rows(&rt, &[Framed(&TWO_ROWS, &TWO_FRAMES)]);
}

/// Operations with the greatest numbers and at the edges of the scalars.
const FRAMES: &[Framed] = &[
    Framed(
        &[Insert(
            (4_294_967_295, 65_535),
            (4_294_967_294, 65_535),
            '\u{10FFFF}',
        )],
        &[
            0, 17, 1, 255, 255, 255, 255, 255, 255, 255, 255, 255, 254, 255, 255, 0, 0x10, 0xFF,
            0xFF,
        ],
    ),
    Framed(
        &[Erase((4_294_967_295, 65_535))],
        &[0, 7, 2, 255, 255, 255, 255, 255, 255],
    ),
    Framed(
        &[Insert((258, 772), (0, 0), '\0')],
        &[0, 17, 1, 0, 0, 1, 2, 3, 4, 0, 0, 0, 0, 0, 0, 0, 0, 0, 0],
    ),
    Framed(
        &[Insert((2, 3), (1, 65_535), '\u{D7FF}')],
        &[
            0, 17, 1, 0, 0, 0, 2, 0, 3, 0, 0, 0, 1, 255, 255, 0, 0, 0xD7, 0xFF,
        ],
    ),
    Framed(
        &[Insert((2, 3), (1, 65_535), '\u{E000}')],
        &[
            0, 17, 1, 0, 0, 0, 2, 0, 3, 0, 0, 0, 1, 255, 255, 0, 0, 0xE0, 0,
        ],
    ),
];

#[test]
fn the_greatest_numbers_and_the_edges_of_the_scalars(rt: HostRuntime) {
    assert_rows(&rt, FRAMES);
}

/// This many insertions at site 1, each after the one before.
fn chain_of(alloc: Global, count: u32) -> Result<Vec<Op>, Memory> {
    let mut ops = Vec::new(alloc);
    for counter in 1..=count {
        let parent = (counter.saturating_sub(1), u16::from(counter > 1));
        if let Some(op) = op(Insert((counter, 1), parent, 'a')) {
            ops.push(op)?;
        }
    }
    Ok(ops)
}

/// Of how many operations a chain is, and how long its file of version 2.
struct Chain(u32, usize);

impl Chain {
    fn is_of(&self, alloc: Global, ops: &[Op]) -> Result<bool, CodecFault> {
        let file = encode_file_v2(alloc, ops)?;
        Ok(file.len() == self.1 && is_migrated_to(alloc, ops, &file)?)
    }
}

/// Whether the file of the operations is this one in version 2, both ways and migrated.
fn is_migrated_to(alloc: Global, ops: &[Op], file: &[u8]) -> Result<bool, CodecFault> {
    let old = encode_file(alloc, ops)?;
    Ok(is_run_file_of(alloc, file, ops)? && migrate(alloc, &old)?.as_slice() == file)
}

impl Row for Chain {
    fn comes_out(&self, alloc: Global) -> Result<bool, Memory> {
        let ops = chain_of(alloc, self.0)?;
        found(self.is_of(alloc, &ops))
    }
}

/// A file has 15 bytes plus four a character, or 19 for one alone, after the header.
const CHAINS: &[Chain] = &[
    Chain(0, 5),
    Chain(1, 24),
    Chain(2, 28),
    Chain(1_024, 4_116),
    Chain(1_025, 4_135),
    Chain(2_049, 8_246),
];

#[test]
fn a_chain_is_cut_after_each_1_024(rt: HostRuntime) {
    assert_rows(&rt, CHAINS);
}

/// Whether what a call made is this, or it says memory.
fn is_right_or_memory(made: Result<Vec<u8>, CodecFault>, wanted: &[u8]) -> bool {
    match made {
        Ok(file) => file.as_slice() == wanted,
        Err(fault) => fault == CodecFault::Memory,
    }
}

fn decodes_or_says_memory(alloc: Global, ops: &[Op]) -> bool {
    match decode_file(alloc, &TWO) {
        Ok(read) => read.as_slice() == ops,
        Err(fault) => fault == CodecFault::Memory,
    }
}

/// Whether each frame is appended, or none of it.
fn appends_or_says_memory(alloc: Global, ops: &[Op]) -> bool {
    let mut frames = Vec::new(alloc);
    let mut right = true;
    for op in ops {
        let before = frames.len();
        let wanted = match encode_op(op, &mut frames) {
            Ok(()) => before.saturating_add(19),
            Err(Memory) => before,
        };
        right = frames.len() == wanted && right;
    }
    right
}

/// The first call that is neither right nor says memory.
fn first_wrong_call(alloc: Global) -> Option<&'static str> {
    let (Some(a), Some(b)) = (op(A), op(B)) else {
        return Some("op");
    };
    let ops = &[a, b];
    if !is_right_or_memory(encode_file(alloc, ops).map_err(CodecFault::from), &TWO) {
        return Some("encode_file");
    }
    if !is_right_or_memory(encode_file_v2(alloc, ops).map_err(CodecFault::from), &RUN) {
        return Some("encode_file_v2");
    }
    if !is_right_or_memory(migrate(alloc, &FOUR), &FOUR_MIGRATED) {
        return Some("migrate");
    }
    if !decodes_or_says_memory(alloc, ops) {
        return Some("decode_file");
    }
    if !appends_or_says_memory(alloc, ops) {
        return Some("encode_op");
    }
    None
}

/// With ample memory each call is right; where a growth is refused it says so, and nothing is left
/// half done.
#[test]
fn a_call_is_right_or_says_memory(rt: HostRuntime) {
    assert_eq!(rt; first_wrong_call(rt.alloc()), None);
}

/// The two frames under the header of version 2, where the second joins the first.
struct Unjoined;

impl Row for Unjoined {
    fn comes_out(&self, alloc: Global) -> Result<bool, Memory> {
        let file = joined(alloc, b"BGOP\x02", &TWO_FRAMES)?;
        match decode_file(alloc, &file) {
            Err(CodecFault::Malformed { frame, cause }) => {
                Ok(frame == 2 && cause == Cause::NotJoined)
            }
            Err(CodecFault::Memory) => Err(Memory),
            Ok(_) => Ok(false),
        }
    }
}

#[test]
fn frames_that_are_not_joined(rt: HostRuntime) {
    assert_rows(&rt, &[Unjoined]);
}

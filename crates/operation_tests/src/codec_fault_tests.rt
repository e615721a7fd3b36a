//! Operation files that are cut or faulty, in both versions, and what is reported of a fault.

use crate::feed_tests::LATE_PARENT;
use crate::op_codec_tests::{EMPTY, FOUR, FOUR_MIGRATED, RUN, TWO, joined};
use crate::rows::{assert_none, assert_rows};
use bg_types::Memory;
use op_codec::*;
use std::alloc::{AllocError, Global};
use std::process::Abort;
use test_rows::Row;

/// A file, where its header and each frame end, with the operations until there, and what is wrong with
/// its last frame once that is whole.
struct Ends(&'static [u8], &'static [(usize, usize)], Option<Cause>);

const ENDS: &[Ends] = &[
    Ends(&TWO, &[(5, 0), (24, 1), (43, 2)], None),
    Ends(&FOUR, &[(5, 0), (24, 1), (43, 2), (62, 3), (81, 4)], None),
    Ends(
        &LATE_PARENT,
        &[(5, 0), (24, 0)],
        Some(Cause::ParentNotBefore),
    ),
    Ends(&RUN, &[(5, 0), (28, 2)], None),
    Ends(&FOUR_MIGRATED, &[(5, 0), (24, 1), (47, 3), (66, 4)], None),
];

/// How many operations a file has.
fn count(alloc: Global, file: &[u8]) -> Result<usize, CodecFault> {
    Ok(decode_file(alloc, file)?.len())
}

/// How many operations a file has that is fed byte by byte.
fn count_fed(alloc: Global, file: &[u8]) -> Result<usize, CodecFault> {
    let mut feed = Feed::new(alloc);
    for byte in file.chunks(1) {
        feed.feed(byte)?;
    }
    Ok(feed.finish()?.len())
}

/// Whether reading a beginning of a file, feeding it, and migrating it where it is faulty, answers so.
fn is_cut(alloc: Global, front: &[u8], wanted: Result<usize, CodecFault>) -> bool {
    let read = match wanted {
        Ok(wanted) => count(alloc, front) == Ok(wanted),
        Err(fault) => is_fault(alloc, front, fault),
    };
    read && count_fed(alloc, front) == wanted
}

impl Ends {
    /// What the first `k` bytes have: so many operations, or what is wrong with a frame.
    fn wanted_at(&self, k: usize) -> Result<usize, CodecFault> {
        for (frame, (end, count)) in self.1.iter().enumerate() {
            let is_whole = k == *end;
            let cause = match self.2 {
                Some(cause) if is_whole && k == self.0.len() => cause,
                _ if is_whole => return Ok(*count),
                _ => Cause::Truncated,
            };
            if k <= *end {
                return Err(CodecFault::Malformed { frame, cause });
            }
        }
        Ok(0)
    }

    /// The first length at which the file is cut otherwise.
    fn wrong_length(&self, alloc: Global) -> Option<usize> {
        for k in 0..=self.0.len() {
            if !is_cut(alloc, &self.0[..k], self.wanted_at(k)) {
                return Some(k);
            }
        }
        None
    }
}

#[test]
fn a_file_cut_to_each_length(rt: HostRuntime) {
    for ends in ENDS {
        assert_none(&rt, "the lengths", ends.wrong_length(rt.alloc()));
    }
}

/// Headers with their first fault.
const FAULTY_HEADERS: &[(&[u8], Cause)] = &[
    (b"", Cause::Truncated),
    (b"BGO", Cause::Truncated),
    (b"BGOP", Cause::Truncated),
    (b"A", Cause::BadMagic),
    (b"BF", Cause::BadMagic),
    (b"BGP", Cause::BadMagic),
    (b"BGOp", Cause::BadMagic),
    (b"BGOp\x02", Cause::BadMagic),
    (b"BGOP\x00", Cause::BadVersion),
    (b"BGOP\x03", Cause::BadVersion),
    (b"BGOP\x03\x00", Cause::BadVersion),
];

/// Frames of version 1 with their first fault.
const FAULTY_FRAMES: &[(&[u8], Cause)] = &[
    (&[0], Cause::Truncated),
    (&[0, 17], Cause::Truncated),
    (&[0, 17, 1], Cause::Truncated),
    (&[0, 7, 2, 0, 0, 0, 1, 0], Cause::Truncated),
    (
        &[0, 17, 1, 0, 0, 0, 0, 0, 0, 0, 0, 0, 0, 0, 0, 0, 0, 0],
        Cause::Truncated,
    ),
    (&[0, 1, 0], Cause::UnknownKind),
    (&[0, 17, 3], Cause::UnknownKind),
    (&[1, 0, 255], Cause::UnknownKind),
    (&[0, 7, 1], Cause::BadLength),
    (&[0, 16, 1], Cause::BadLength),
    (&[0, 18, 1], Cause::BadLength),
    (&[0, 17, 2], Cause::BadLength),
    (&[1, 7, 2], Cause::BadLength),
    (&[0, 8, 2, 0, 0, 0, 0, 0, 0, 0], Cause::BadLength),
    (&[0, 7, 2, 0, 0, 0, 0, 0, 1], Cause::ZeroField),
    (&[0, 7, 2, 0, 0, 0, 1, 0, 0], Cause::ZeroField),
    (
        &[0, 17, 1, 0, 0, 0, 0, 0, 1, 0, 0, 0, 0, 0, 0, 0, 0, 0, 0x61],
        Cause::ZeroField,
    ),
    (
        &[0, 17, 1, 0, 0, 0, 1, 0, 0, 0, 0, 0, 0, 0, 0, 0, 0, 0, 0x61],
        Cause::ZeroField,
    ),
    (
        &[0, 17, 1, 0, 0, 0, 2, 0, 1, 0, 0, 0, 0, 0, 1, 0, 0, 0, 0x61],
        Cause::ZeroField,
    ),
    (
        &[0, 17, 1, 0, 0, 0, 2, 0, 1, 0, 0, 0, 3, 0, 0, 0, 0, 0xD8, 0],
        Cause::ZeroField,
    ),
    (
        &[0, 17, 1, 0, 0, 0, 2, 0, 1, 0, 0, 0, 2, 0, 2, 0, 0, 0, 0x61],
        Cause::ParentNotBefore,
    ),
    (
        &[0, 17, 1, 0, 0, 0, 2, 0, 1, 0, 0, 0, 3, 0, 1, 0, 0x11, 0, 0],
        Cause::ParentNotBefore,
    ),
    (
        &[0, 17, 1, 0, 0, 0, 2, 0, 1, 0, 0, 0, 1, 0, 2, 0, 0, 0xD8, 0],
        Cause::NotAScalar,
    ),
    (
        &[
            0, 17, 1, 0, 0, 0, 2, 0, 1, 0, 0, 0, 1, 0, 2, 0, 0, 0xDF, 255,
        ],
        Cause::NotAScalar,
    ),
    (
        &[0, 17, 1, 0, 0, 0, 2, 0, 1, 0, 0, 0, 0, 0, 0, 0, 0x11, 0, 0],
        Cause::NotAScalar,
    ),
    (
        &[0, 17, 1, 0, 0, 0, 2, 0, 1, 0, 0, 0, 0, 0, 0, 1, 0, 0, 0x61],
        Cause::NotAScalar,
    ),
];

/// Frames of version 2 with their first fault.
const FAULTY_FRAMES_2: &[(&[u8], Cause)] = &[
    (&[0, 21, 3], Cause::Truncated),
    (&[0, 21, 4], Cause::UnknownKind),
    (&[0, 17, 3], Cause::BadLength),
    (&[0, 22, 3], Cause::BadLength),
    (&[0x10, 0x11, 3], Cause::BadLength),
    (&[0x10, 0x0D, 3], Cause::Truncated),
    (&[0, 18, 1], Cause::BadLength),
    (
        &[
            0, 21, 3, 0, 0, 0, 0, 0, 1, 0, 0, 0, 0, 0, 0, 0, 0, 0, 0x61, 0, 0, 0xD8, 0,
        ],
        Cause::ZeroField,
    ),
    (
        &[
            0, 21, 3, 0, 0, 0, 2, 0, 1, 0, 0, 0, 2, 0, 2, 0, 0, 0, 0x61, 0, 0, 0xD8, 0,
        ],
        Cause::ParentNotBefore,
    ),
    (
        &[
            0, 21, 3, 255, 255, 255, 255, 0, 1, 0, 0, 0, 1, 0, 1, 0, 0, 0xD8, 0, 0, 0, 0xD8, 0,
        ],
        Cause::CounterOverflow,
    ),
    (
        &[
            0, 21, 3, 255, 255, 255, 254, 0, 1, 0, 0, 0, 1, 0, 1, 0, 0, 0, 0x61, 0, 0, 0xD8, 0,
        ],
        Cause::NotAScalar,
    ),
    (
        &[
            0, 21, 3, 0, 0, 0, 2, 0, 1, 0, 0, 0, 1, 0, 2, 0, 0x11, 0, 0, 0, 0, 0, 0x61,
        ],
        Cause::NotAScalar,
    ),
    (
        &[0, 17, 1, 0, 0, 0, 2, 0, 1, 0, 0, 0, 1, 0, 2, 0, 0, 0xD8, 0],
        Cause::NotAScalar,
    ),
];

/// (1,1) after the root, `a`, and its deletion, in version 2.
const TYPED_AND_ERASED: [u8; 33] = [
    0x42, 0x47, 0x4F, 0x50, 2, // BGOP, version 2
    0, 17, 1, 0, 0, 0, 1, 0, 1, 0, 0, 0, 0, 0, 0, 0, 0, 0, 0x61, // frame 1
    0, 7, 2, 0, 0, 0, 1, 0, 1, // frame 2
];

/// Frames that could be joined to the run: (3,1) after (2,1), alone and as a run.
const JOINED: &[(&[u8], Cause)] = &[
    (
        &[0, 17, 1, 0, 0, 0, 3, 0, 1, 0, 0, 0, 2, 0, 1, 0, 0, 0, 0x63],
        Cause::NotJoined,
    ),
    (
        &[
            0, 21, 3, 0, 0, 0, 3, 0, 1, 0, 0, 0, 2, 0, 1, 0, 0, 0, 0x63, 0, 0, 0, 0x64,
        ],
        Cause::NotJoined,
    ),
];

/// What reading bytes answers, and what migrating them answers.
fn faults_of(alloc: Global, file: &[u8]) -> [Option<CodecFault>; 2] {
    [decode_file(alloc, file).err(), migrate(alloc, file).err()]
}

/// Whether both answer this fault.
fn is_fault(alloc: Global, file: &[u8], wanted: CodecFault) -> bool {
    faults_of(alloc, file) == [Some(wanted); 2]
}

/// Whether both answer this fault of bytes behind others.
fn is_fault_behind(alloc: Global, front: &[u8], back: &[u8], wanted: CodecFault) -> bool {
    match joined(alloc, front, back) {
        Ok(file) => is_fault(alloc, &file, wanted),
        Err(AllocError) => false,
    }
}

/// What stands before bytes, and the frame that they are then.
struct Front(&'static [u8], usize);

impl Front {
    /// The first row that has another fault behind it.
    fn wrong(&self, alloc: Global, rows: &[(&[u8], Cause)]) -> Option<usize> {
        let frame = self.1;
        for (n, (bytes, cause)) in rows.iter().enumerate() {
            let cause = *cause;
            if !is_fault_behind(alloc, self.0, bytes, CodecFault::Malformed { frame, cause }) {
                return Some(n);
            }
        }
        None
    }
}

/// Compares the faults of a table behind each of these.
fn assert_faults(
    rt: &(impl Abort + AllocGlobal),
    what: &str,
    fronts: &[Front],
    rows: &[(&[u8], Cause)],
) {
    for front in fronts {
        assert_none(rt, what, front.wrong(rt.alloc(), rows));
    }
}

const START: &[Front] = &[Front(b"", 0)];

const BEHIND_RUN: &[Front] = &[Front(&RUN, 2)];

const FRONTS: &[Front] = &[Front(&EMPTY, 1), Front(&TWO, 3)];

const FRONTS_2: &[Front] = &[Front(b"BGOP\x02", 1), Front(&TYPED_AND_ERASED, 3)];

#[test]
fn a_file_shows_its_first_fault(rt: HostRuntime) {
    assert_faults(&rt, "the headers", START, FAULTY_HEADERS);
    assert_faults(&rt, "the frames", FRONTS, FAULTY_FRAMES);
    assert_faults(&rt, "the frames of version 2", FRONTS_2, FAULTY_FRAMES_2);
    assert_faults(&rt, "the joined frames", BEHIND_RUN, JOINED);
}

/// A frame behind the run that can't be joined to it.
struct Apart(&'static [u8]);

impl Row for Apart {
    fn comes_out(&self, alloc: Global) -> Result<bool, Memory> {
        let file = joined(alloc, &RUN, self.0)?;
        Ok(count(alloc, &file) == Ok(3))
    }
}

/// Of another site, after another parent, with a greater counter.
const APART: &[Apart] = &[
    Apart(&[0, 17, 1, 0, 0, 0, 3, 0, 2, 0, 0, 0, 2, 0, 1, 0, 0, 0, 0x63]),
    Apart(&[0, 17, 1, 0, 0, 0, 3, 0, 1, 0, 0, 0, 1, 0, 1, 0, 0, 0, 0x63]),
    Apart(&[0, 17, 1, 0, 0, 0, 4, 0, 1, 0, 0, 0, 2, 0, 1, 0, 0, 0, 0x63]),
];

#[test]
fn what_could_not_be_one_frame_stays_apart(rt: HostRuntime) {
    assert_rows(&rt, APART);
}

/// What a fault prints, its number and its frame, as one line.
fn line_of(alloc: Global, fault: CodecFault) -> Result<String, AllocError> {
    format!(in alloc; "{fault} {} {:?}", fault.code(), fault.frame())
}

/// Whether this is reported of a fault.
fn is_told(alloc: Global, fault: CodecFault, line: &str) -> Result<bool, Memory> {
    let told = line_of(alloc, fault)?;
    Ok(told.as_str() == line)
}

/// A cause, its number, and what is reported of it in frame 3.
struct Told(Cause, u8, &'static str);

impl Row for Told {
    fn comes_out(&self, alloc: Global) -> Result<bool, Memory> {
        let cause = self.0;
        let fault = CodecFault::Malformed { frame: 3, cause };
        Ok(cause.code() == self.1 && is_told(alloc, fault, self.2)?)
    }
}

const CAUSES: &[Told] = &[
    Told(Cause::BadMagic, 1, "BadMagic 1 Some(3)"),
    Told(Cause::BadVersion, 2, "BadVersion 2 Some(3)"),
    Told(Cause::Truncated, 3, "Truncated 3 Some(3)"),
    Told(Cause::UnknownKind, 4, "UnknownKind 4 Some(3)"),
    Told(Cause::BadLength, 5, "BadLength 5 Some(3)"),
    Told(Cause::ZeroField, 6, "ZeroField 6 Some(3)"),
    Told(Cause::ParentNotBefore, 7, "ParentNotBefore 7 Some(3)"),
    Told(Cause::NotAScalar, 8, "NotAScalar 8 Some(3)"),
    Told(Cause::CounterOverflow, 10, "CounterOverflow 10 Some(3)"),
    Told(Cause::NotJoined, 11, "NotJoined 11 Some(3)"),
];

/// What is reported of lack of memory.
struct ToldOfMemory(&'static str);

impl Row for ToldOfMemory {
    fn comes_out(&self, alloc: Global) -> Result<bool, Memory> {
        is_told(alloc, CodecFault::Memory, self.0)
    }
}

const MEMORY: &[ToldOfMemory] = &[ToldOfMemory("Memory 9 None")];

#[test]
fn a_fault_has_a_number_a_name_and_a_frame(rt: HostRuntime) {
    assert_rows(&rt, CAUSES);
    assert_rows(&rt, MEMORY);
}

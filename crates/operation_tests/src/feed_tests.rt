//! Operation files in pieces, and sources of their bytes.

ghost use Rattle.std.specs.Prelude.{◌<◌, ◌≤◌, length};

use crate::op_codec_tests::{EMPTY, FOUR, RUN, TWO, TWO_ROWS};
use crate::ops::ops_of;
use crate::rows::assert_none;
use bg_types::{Memory, Op};
use op_codec::*;
use std::alloc::Global;
use std::io::Cursor;

/// (2,1) after (2,2), `b`: a parent of no smaller counter.
pub const LATE_PARENT: [u8; 24] = [
    0x42, 0x47, 0x4F, 0x50, 1, // BGOP, version 1
    0, 17, 1, 0, 0, 0, 2, 0, 1, 0, 0, 0, 2, 0, 2, 0, 0, 0, 0x62, // frame 1
];

/// The fault of bytes that may go on, so that they do not end too early.
fn fault_of(alloc: Global, bytes: &[u8]) -> Option<CodecFault> {
    match decode_file(alloc, bytes) {
        Ok(_) => None,
        Err(fault) if is_truncated(fault) => None,
        Err(fault) => Some(fault),
    }
}

/// Whether feeding the bytes behind a place answers as `decode_file` answers all bytes so far, except that
/// `Truncated` is Ok.
fn goes_on(alloc: Global, feed: &mut Feed, from: usize, bytes: &[u8]) -> bool
    requires { from ≤ length bytes.now }
{
    feed.feed(&bytes[from..]).err() == fault_of(alloc, bytes)
}

/// Whether an ended feed that had this many operations has those of a file, or its fault.
fn are_of_whole(
    count: usize,
    fed: &Result<Vec<Op>, CodecFault>,
    whole: &Result<Vec<Op>, CodecFault>,
) -> bool {
    match (fed, whole) {
        (Ok(fed), Ok(whole)) => count == whole.len() && fed.as_slice() == whole.as_slice(),
        (Err(fed), Err(whole)) => fed == whole,
        _ => false,
    }
}

/// Whether bytes that are fed in two pieces are fed like whole.
fn is_fed_like_whole(alloc: Global, bytes: &[u8], cut: usize) -> bool
    requires { cut ≤ length bytes.now }
{
    let mut feed = Feed::new(alloc);
    let fed = goes_on(alloc, &mut feed, 0, &bytes[..cut]) && goes_on(alloc, &mut feed, cut, bytes);
    let count = feed.ops().len();
    are_of_whole(count, &feed.finish(), &decode_file(alloc, bytes)) && fed
}

fn is_truncated(fault: CodecFault) -> bool {
    matches!(
        fault,
        CodecFault::Malformed {
            cause: Cause::Truncated,
            ..
        }
    )
}

/// How many operations the first bytes of `TWO` have.
fn count_in(bytes: usize) -> usize {
    match bytes {
        0..24 => 0,
        24..43 => 1,
        _ => 2,
    }
}

/// Whether a feed of `TWO` in pieces of this size has each operation once its frame is whole.
fn has_each(feed: &mut Feed, size: usize) -> bool
    requires { 0 < size }
{
    let mut fed = 0usize;
    let mut right = true;
    for piece in TWO.chunks(size) {
        right = feed.feed(piece).is_ok() && right;
        fed = fed.saturating_add(piece.len());
        right = feed.ops().len() == count_in(fed) && right;
    }
    right
}

/// Whether such a feed ends with these operations.
fn is_fed_by(alloc: Global, size: usize, ops: &[Op]) -> bool
    requires { 0 < size }
{
    let mut feed = Feed::new(alloc);
    let right = has_each(&mut feed, size) && feed.ops() == ops;
    feed.finish().is_ok() && right
}

fn first_wrong_size(alloc: Global, ops: &[Op]) -> Option<usize> {
    for size in 1..44usize {
        if !is_fed_by(alloc, size, ops) {
            return Some(size);
        }
    }
    None
}

#[test]
fn a_file_in_pieces_of_each_size(rt: HostRuntime) -> Result<(), Memory> {
    let ops = ops_of(rt.alloc(), &TWO_ROWS)?;
    assert_none(&rt, "the sizes", first_wrong_size(rt.alloc(), &ops));
    Ok(())
}

/// The first place at which bytes cut into two pieces are fed unlike whole.
fn wrong_cut(alloc: Global, bytes: &[u8]) -> Option<usize> {
    for cut in 0..bytes.len() {
        if !is_fed_like_whole(alloc, bytes, cut) {
            return Some(cut);
        }
    }
    None
}

/// What is cut.
const CUT: &[(&str, &[u8])] = &[
    ("the cuts of two insertions", &TWO),
    ("the cuts of four insertions", &FOUR),
    ("the cuts of a late parent", &LATE_PARENT),
    ("the cuts of a run", &RUN),
];

#[test]
fn rows_cut_into_two_pieces(rt: HostRuntime) {
    for (what, bytes) in CUT {
        assert_none(&rt, what, wrong_cut(rt.alloc(), bytes));
    }
}

/// Five frames of both kinds.
const FIVE: [u8; 90] = [
    0x42, 0x47, 0x4F, 0x50, 1, // BGOP, version 1
    0, 17, 1, 0, 0, 0, 1, 0, 1, 0, 0, 0, 0, 0, 0, 0, 0, 0, 0x61, // frame 1
    0, 17, 1, 0, 0, 0, 2, 0, 1, 0, 0, 0, 1, 0, 1, 0, 0, 0, 0x62, // frame 2
    0, 7, 2, 0, 0, 0, 2, 0, 1, // frame 3
    0, 17, 1, 0, 0, 0, 1, 0, 1, 0, 0, 0, 0, 0, 0, 0, 0, 0, 0x61, // frame 4
    0, 17, 1, 0, 0, 0, 2, 0, 1, 0, 0, 0, 1, 0, 1, 0, 0, 0, 0x62, // frame 5
];

/// The first place at which the five frames, with another byte at a place, are fed unlike whole.
fn wrong_cut_with(alloc: Global, place: usize) -> Option<usize> {
    let mut bytes = FIVE;
    if let Some(byte) = bytes.get_mut(place) {
        *byte = 9;
    }
    wrong_cut(alloc, &bytes)
}

/// The first of these places, the first past the end and so none, at which another byte makes such a place.
fn first_wrong_place(alloc: Global) -> Option<usize> {
    for place in [255, 0, 3, 4, 6, 7, 9, 20, 27, 41, 45, 50] {
        if wrong_cut_with(alloc, place).is_some() {
            return Some(place);
        }
    }
    None
}

#[test]
fn a_file_cut_into_two_pieces(rt: HostRuntime) {
    assert_none(&rt, "the changed places", first_wrong_place(rt.alloc()));
}

/// Whether a feed goes on to answer its first fault, and has nothing.
fn answers_its_fault(feed: &mut Feed, fault: CodecFault) -> bool {
    let mut right = true;
    for piece in [b"BGOP\x03".as_slice(), &TWO, b""] {
        right = feed.feed(piece) == Err(fault) && right;
    }
    right && feed.ops().is_empty()
}

/// Whether a feed of a faulty file answers its fault, again and at its end.
fn keeps_its_fault(alloc: Global) -> bool {
    let fault = CodecFault::Malformed {
        frame: 0,
        cause: Cause::BadVersion,
    };
    let mut feed = Feed::new(alloc);
    let right = answers_its_fault(&mut feed, fault);
    feed.finish().err() == Some(fault) && right
}

/// Whether a feed of nothing lacks a header.
fn lacks_a_header(alloc: Global) -> bool {
    match Feed::new(alloc).finish() {
        Ok(_) => false,
        Err(fault) => (fault.frame(), fault.code()) == (Some(0), 3),
    }
}

#[test]
fn a_fault_stays_and_a_missing_byte_does_not(rt: HostRuntime) {
    assert!(rt; keeps_its_fault(rt.alloc()));
    assert!(rt; lacks_a_header(rt.alloc()));
}

/// Whether a feed that lacks memory for a piece has what it had, and takes the piece again.
fn takes_again(feed: &mut Feed, piece: &[u8]) -> bool {
    let before = feed.ops().len();
    feed.feed(piece).is_ok() || (feed.ops().len() == before && feed.feed(piece).is_ok())
}

/// Whether a feed that may lack memory for each of three pieces ends with the two insertions.
fn is_as_before(alloc: Global) -> bool {
    let mut feed = Feed::new(alloc);
    let right = takes_again(&mut feed, &TWO[..7])
        && takes_again(&mut feed, &TWO[7..30])
        && takes_again(&mut feed, &TWO[30..]);
    let ended = feed.finish();
    ended.is_ok_and(|ops| encodes_to_two(alloc, ops.as_slice())) && right
}

/// Whether operations are those of the two insertions, on a second try where memory to say so is refused.
fn encodes_to_two(alloc: Global, ops: &[Op]) -> bool {
    match encode_file(alloc, ops) {
        Err(Memory) => encode_file(alloc, ops).is_ok_and(|file| file.as_slice() == TWO.as_slice()),
        Ok(file) => file.as_slice() == TWO.as_slice(),
    }
}

#[test]
fn a_feed_is_as_before_after_memory(rt: HostRuntime) {
    assert!(rt; is_as_before(rt.alloc()));
}

/// How many bytes a source gives in thirty pieces of ten, whether they are those of `wanted` as far as that goes, and
/// whether it failed.
fn given<S: Source>(source: &mut S, wanted: &[u8]) -> (usize, bool, bool) {
    let mut count = 0usize;
    let mut right = true;
    for _ in 0..30 {
        let mut piece = [0; 10];
        if source.failed() {
            return (count, right, true);
        }
        match source.get(&mut piece) {
            Some(0) => return (count, right, false),
            Some(n) => {
                right = is_at(wanted, count, &piece[..n.min(10)]) && right;
                count = count.saturating_add(n);
            }
            None => return (count, right, true),
        }
    }
    (count, right, false)
}

/// Whether a piece stands at this place of the bytes, as far as they go.
fn is_at(bytes: &[u8], place: usize, piece: &[u8]) -> bool {
    let rest = bytes.get(place..).unwrap_or(&[]);
    rest.iter().zip(piece).all(|(byte, other)| byte == other)
}

#[test]
fn a_source_gives_its_bytes_and_ends(rt: HostRuntime) {
    assert_eq!(rt;
        given(&mut In::new(Cursor::new(TWO)), &TWO),
        (43, true, false)
    );
    assert_eq!(rt; given(&mut Gives::new(&TWO, 3), &TWO), (43, true, false));
}

/// The first number of bytes after which a source fails otherwise.
fn first_wrong_failure() -> Option<usize> {
    for left in 0..50usize {
        let mut source = Gives::new(&TWO, 7).failing_after(left);
        let wanted = (left.min(43), true, left <= 43);
        if given(&mut source, &TWO) != wanted {
            return Some(left);
        }
    }
    None
}

#[test]
fn a_source_fails_after_each_number_of_bytes(rt: HostRuntime) {
    assert_none(&rt, "the failures", first_wrong_failure());
}

#[test]
fn a_source_goes_on_for_ever(rt: HostRuntime) {
    // `a` again and again: a header of four bytes and one, then five gets for each 19.
    let mut source = Gives::new(&EMPTY, 4).then_for_ever(&TWO[5..24]);
    let all = 5 + 5 * 19 + 12;
    assert_eq!(rt; given(&mut source, &AGAIN), (all, true, false));
}

/// The header, and the first insertion twice.
const AGAIN: [u8; 43] = [
    0x42, 0x47, 0x4F, 0x50, 1, // BGOP, version 1
    0, 17, 1, 0, 0, 0, 1, 0, 1, 0, 0, 0, 0, 0, 0, 0, 0, 0, 0x61, // frame 1
    0, 17, 1, 0, 0, 0, 1, 0, 1, 0, 0, 0, 0, 0, 0, 0, 0, 0, 0x61, // frame 2
];

//! Files worked out by hand, from bytes to bytes.

ghost use Rattle.std.specs.Prelude.{◌<◌, map as each};
ghost use Rattle.desk_files.specs.Readers.{AreWorking};

use crate::files::Given::{Bytes, Letters};
use crate::files::*;
use crate::rows::{assert_none, assert_rows};
use bg_types::{Memory, Out, Stops};
use desk_replica::TakeFault;
use desk_runs::{RunFault, text, text_from};
use op_codec::{Cause, CodecFault, Gives, In, Source};
use std::alloc::{AllocError, Global};
use std::io::Read;
use std::slice::from_ref;
use test_rows::Row;

/// The second operation has the identifier of the first one.
const REFUSED: RunFault = RunFault::Step(0, 1, TakeFault::IdentifierReused);

fn malformed(file: usize, frame: usize, cause: Cause) -> RunFault {
    RunFault::File(file, CodecFault::Malformed { frame, cause })
}

/// Runs over files into a sink that takes at most `most` bytes a call, and stops after `left`.
fn run(
    alloc: Global,
    files: &[Vec<u8>],
    most: usize,
    left: usize,
    room: &mut [u8],
) -> Result<(), RunFault>
    requires { 0 < most }
{
    text(
        alloc,
        KEY,
        files,
        &mut Stops::new(Out::new(room), most, left),
    )
}

/// Whether such a run comes to what is wanted.
fn is_text(alloc: Global, files: &[Vec<u8>], most: usize, left: usize, wanted: Outcome) -> bool
    requires { 0 < most }
{
    let mut room = [0; 16];
    let answer = run(alloc, files, most, left, &mut room);
    answer == wanted.0 && are_written(&room, wanted.1)
}

/// Whether a run over one file of these bytes comes to what is wanted.
fn is_text_of(alloc: Global, bytes: &[u8], most: usize, left: usize, wanted: Outcome) -> bool
    requires { 0 < most }
{
    match bytes.to_vec(alloc) {
        Ok(file) => is_text(alloc, from_ref(&file), most, left, wanted),
        Err(AllocError) => false,
    }
}

/// Files, and what a run over them comes to.
struct Text(&'static [Given], Outcome<'static>);

impl Row for Text {
    fn comes_out(&self, alloc: Global) -> Result<bool, Memory> {
        let files = files_of(alloc, self.0)?;
        Ok(is_text(alloc, &files, 100, 100, self.1))
    }
}

/// Orders of operations, and the text that they make.
const ORDERS: &[Text] = &[
    Text(&[Letters("az")], (Ok(()), b"ba")),
    Text(&[Letters("za")], (Ok(()), b"ba")),
    Text(&[Letters("axyb")], (Ok(()), b"axyb")),
    Text(&[Letters("ybxa")], (Ok(()), b"axyb")),
    Text(&[Letters("aaaxxxyyybbb")], (Ok(()), b"axyb")),
    Text(&[Letters("ybxaybxaybxa")], (Ok(()), b"axyb")),
    Text(&[Letters("eaxyb")], (Ok(()), b"ayb")),
    Text(&[Letters("aeybxe")], (Ok(()), b"ayb")),
    Text(&[Letters("xyb")], (Ok(()), b"")),
];

#[test]
fn orders_repeats_and_early_operations_do_not_matter(rt: HostRuntime) {
    assert_rows(&rt, ORDERS);
}

const A: Given = Letters("a");

const X: Given = Letters("x");

const Y: Given = Letters("y");

const B: Given = Letters("b");

/// The files of four operations, in every order.
const EVERY_ORDER: &[Text] = &[
    Text(&[A, X, Y, B], (Ok(()), b"axyb")),
    Text(&[A, X, B, Y], (Ok(()), b"axyb")),
    Text(&[A, Y, X, B], (Ok(()), b"axyb")),
    Text(&[A, Y, B, X], (Ok(()), b"axyb")),
    Text(&[A, B, X, Y], (Ok(()), b"axyb")),
    Text(&[A, B, Y, X], (Ok(()), b"axyb")),
    Text(&[X, A, Y, B], (Ok(()), b"axyb")),
    Text(&[X, A, B, Y], (Ok(()), b"axyb")),
    Text(&[X, Y, A, B], (Ok(()), b"axyb")),
    Text(&[X, Y, B, A], (Ok(()), b"axyb")),
    Text(&[X, B, A, Y], (Ok(()), b"axyb")),
    Text(&[X, B, Y, A], (Ok(()), b"axyb")),
    Text(&[Y, A, X, B], (Ok(()), b"axyb")),
    Text(&[Y, A, B, X], (Ok(()), b"axyb")),
    Text(&[Y, X, A, B], (Ok(()), b"axyb")),
    Text(&[Y, X, B, A], (Ok(()), b"axyb")),
    Text(&[Y, B, A, X], (Ok(()), b"axyb")),
    Text(&[Y, B, X, A], (Ok(()), b"axyb")),
    Text(&[B, A, X, Y], (Ok(()), b"axyb")),
    Text(&[B, A, Y, X], (Ok(()), b"axyb")),
    Text(&[B, X, A, Y], (Ok(()), b"axyb")),
    Text(&[B, X, Y, A], (Ok(()), b"axyb")),
    Text(&[B, Y, A, X], (Ok(()), b"axyb")),
    Text(&[B, Y, X, A], (Ok(()), b"axyb")),
];

#[test]
fn four_files_in_every_order(rt: HostRuntime) {
    assert_rows(&rt, EVERY_ORDER);
}

/// The first length at which a cut file does not come to what is wanted.
fn wrong_cut(alloc: Global) -> Option<usize> {
    for k in 0..44usize {
        let (wanted, characters) = match k {
            5 => (Ok(()), 0),
            24 => (Ok(()), 1),
            43 => (Ok(()), 2),
            0..5 => (Err(malformed(1, 0, Cause::Truncated)), 0),
            6..24 => (Err(malformed(1, 1, Cause::Truncated)), 0),
            _ => (Err(malformed(1, 2, Cause::Truncated)), 0),
        };
        if !is_text_of(alloc, &TWO[..k], 100, 100, (wanted, &b"ab"[..characters])) {
            return Some(k);
        }
    }
    None
}

#[test]
fn a_file_cut_to_each_length(rt: HostRuntime) {
    assert_none(&rt, "the lengths", wrong_cut(rt.alloc()));
}

/// `TWO` without its last byte.
const CUT: &[u8] = &[
    0x42, 0x47, 0x4F, 0x50, 1, // BGOP, version 1
    0, 17, 1, 0, 0, 0, 1, 0, 1, 0, 0, 0, 0, 0, 0, 0, 0, 0, 0x61, // frame 1
    0, 17, 1, 0, 0, 0, 2, 0, 1, 0, 0, 0, 1, 0, 1, 0, 0, 0, // frame 2
];

const FIRST_LATE: RunFault = RunFault::File(
    1,
    CodecFault::Malformed {
        frame: 1,
        cause: Cause::ParentNotBefore,
    },
);

const SECOND_LATE: RunFault = RunFault::File(
    2,
    CodecFault::Malformed {
        frame: 1,
        cause: Cause::ParentNotBefore,
    },
);

const FAULTY: &[Text] = &[
    Text(&[Letters("aB")], (Err(REFUSED), b"")),
    Text(&[Letters("yBxa")], (Err(REFUSED), b"")),
    Text(&[Bytes(&LATE_PARENT)], (Err(FIRST_LATE), b"")),
    Text(
        &[Letters("aB"), Bytes(&LATE_PARENT), Bytes(CUT)],
        (Err(SECOND_LATE), b""),
    ),
];

#[test]
fn the_first_faulty_file_decides_before_a_refusal(rt: HostRuntime) {
    assert_rows(&rt, FAULTY);
}

/// The first number of bytes after which a sink that stops does not keep a beginning.
fn wrong_stop(alloc: Global, most: usize) -> Option<usize>
    requires { 0 < most }
{
    for left in 0..6usize {
        let answer = if left < 4 {
            Err(RunFault::Device)
        } else {
            Ok(())
        };
        let kept = &b"axyb"[..left.min(4)];
        if !is_text_of(alloc, &FOUR, most, left, (answer, kept)) {
            return Some(left);
        }
    }
    None
}

#[test]
fn a_sink_that_stops_keeps_a_beginning(rt: HostRuntime) {
    assert_none(&rt, "single bytes", wrong_stop(rt.alloc(), 1));
    assert_none(&rt, "two bytes", wrong_stop(rt.alloc(), 2));
    assert_none(&rt, "three bytes", wrong_stop(rt.alloc(), 3));
}

fn is_right_or_says_memory(alloc: Global) -> Result<bool, Memory> {
    let files = files_of(alloc, &[Bytes(&TWO), Bytes(&TWO)])?;
    let mut room = [0; 16];
    let answer = run(alloc, &files, 100, 100, &mut room);
    Ok(is_right_or_memory(answer, &room, b"ab"))
}

#[test]
fn a_run_is_right_or_says_memory(rt: HostRuntime) -> Result<(), Memory> {
    assert!(rt; is_right_or_says_memory(rt.alloc())?);
    Ok(())
}

/// Runs over the files of readers.
fn run_from<S: Source>(alloc: Global, readers: &mut [S], room: &mut [u8]) -> Result<(), RunFault>
    requires { AreWorking (each S.has_failed readers.old) }
{
    text_from(alloc, KEY, readers, &mut Out::new(room))
}

/// Whether such a run comes to what is wanted.
fn is_read<S: Source>(alloc: Global, readers: &mut [S], wanted: Outcome) -> bool
    requires { AreWorking (each S.has_failed readers.old) }
{
    let mut room = [0; 16];
    let answer = run_from(alloc, readers, &mut room);
    answer == wanted.0 && are_written(&room, wanted.1)
}

/// The first size of pieces in which a file does not come to what is wanted.
fn wrong_size(alloc: Global, file: &[u8], wanted: Outcome) -> Option<usize> {
    for size in 1..44usize {
        if !is_read(alloc, &mut [Gives::new(file, size)], wanted) {
            return Some(size);
        }
    }
    None
}

const CUT_SHORT: RunFault = RunFault::File(
    1,
    CodecFault::Malformed {
        frame: 2,
        cause: Cause::Truncated,
    },
);

/// Files, and what they come to.
const READ: &[(&[u8], Outcome<'static>)] = &[
    (&TWO, (Ok(()), b"ab")),
    (&FOUR, (Ok(()), b"axyb")),
    (&LATE_PARENT, (Err(FIRST_LATE), b"")),
    (CUT, (Err(CUT_SHORT), b"")),
];

#[test]
fn files_in_pieces_of_each_size(rt: HostRuntime) {
    for (file, wanted) in READ {
        assert_none(&rt, "the sizes", wrong_size(rt.alloc(), file, *wanted));
    }
}

/// Whether a file comes to what is wanted that is read in two pieces.
fn is_cut_at(alloc: Global, first: &[u8], second: &[u8], wanted: Outcome) -> bool {
    is_read(alloc, &mut [In::new(first.chain(second))], wanted)
}

/// The first place at which a file that is cut into two pieces does not come to what is wanted.
fn wrong_place(alloc: Global, file: &[u8], wanted: Outcome) -> Option<usize> {
    for cut in 0..file.len() {
        if !is_cut_at(alloc, &file[..cut], &file[cut..], wanted) {
            return Some(cut);
        }
    }
    None
}

#[test]
fn files_cut_into_two_pieces(rt: HostRuntime) {
    for (file, wanted) in READ {
        assert_none(&rt, "the cuts", wrong_place(rt.alloc(), file, *wanted));
    }
}

/// An operation, another one with its identifier, and the first again.
const REUSED: &[u8] = &[
    0x42, 0x47, 0x4F, 0x50, 1, // BGOP, version 1
    0, 17, 1, 0, 0, 0, 1, 0, 1, 0, 0, 0, 0, 0, 0, 0, 0, 0, 0x61, // frame 1
    0, 17, 1, 0, 0, 0, 1, 0, 1, 0, 0, 0, 0, 0, 0, 0, 0, 0, 0x62, // frame 2
    0, 17, 1, 0, 0, 0, 1, 0, 1, 0, 0, 0, 0, 0, 0, 0, 0, 0, 0x61, // frame 3
];

const SECOND_CUT: RunFault = RunFault::File(
    2,
    CodecFault::Malformed {
        frame: 2,
        cause: Cause::Truncated,
    },
);

/// Bytes that come after `REUSED`, how many of them are read before their reader fails, and the fault.
struct Waits(&'static [u8], usize, RunFault);

impl Row for Waits {
    fn comes_out(&self, alloc: Global) -> Result<bool, Memory> {
        let first = Gives::new(REUSED, 7);
        let second = Gives::new(self.0, 7).failing_after(self.1);
        Ok(is_read(alloc, &mut [first, second], (Err(self.2), b"")))
    }
}

/// Files after a refusal that fail, are right, or are faulty.
const WAITS: &[Waits] = &[
    Waits(&TWO, 43, RunFault::ReadFailed(2)),
    Waits(&TWO, 44, REFUSED),
    Waits(&LATE_PARENT, 44, SECOND_LATE),
    Waits(CUT, 44, SECOND_CUT),
];

/// A refusal in a file is reported after all files are read.
#[test]
fn a_refusal_waits_for_the_files_after_it(rt: HostRuntime) {
    assert_rows(&rt, WAITS);
}

/// The first number of bytes after which a reader in pieces of this size fails otherwise.
fn wrong_failure(alloc: Global, size: usize) -> Option<usize>
    requires { 0 < size }
{
    for left in 0..44usize {
        let reader = Gives::new(&TWO, size).failing_after(left);
        if !is_read(alloc, &mut [reader], (Err(RunFault::ReadFailed(1)), b"")) {
            return Some(left);
        }
    }
    None
}

#[test]
fn a_reader_that_fails_after_each_byte(rt: HostRuntime) {
    for size in 1..9usize {
        assert_none(&rt, "the failures", wrong_failure(rt.alloc(), size));
    }
}

const UNKNOWN_KIND: RunFault = RunFault::File(
    1,
    CodecFault::Malformed {
        frame: 3,
        cause: Cause::UnknownKind,
    },
);

#[test]
fn a_fault_of_an_endless_reader_is_told(rt: HostRuntime) {
    let reader = Gives::new(&TWO, 4_096).then_for_ever(&[0]);
    assert!(rt; is_read(rt.alloc(), &mut [reader], (Err(UNKNOWN_KIND), b"")));
}

/// The bytes of the first of three files, after how many the second fails, and the fault.
struct Decides(&'static [u8], usize, RunFault);

impl Row for Decides {
    fn comes_out(&self, alloc: Global) -> Result<bool, Memory> {
        let first = Gives::new(self.0, 7);
        let second = Gives::new(&LATE_PARENT[..20], 7).failing_after(self.1);
        let third = Gives::new(&[], 7);
        Ok(is_read(alloc, &mut [first, second, third], (Err(self.2), b"")))
    }
}

const DECIDES: &[Decides] = &[
    Decides(&LATE_PARENT, 3, FIRST_LATE),
    Decides(&TWO, 3, RunFault::ReadFailed(2)),
    Decides(&TWO, 20, RunFault::ReadFailed(2)),
];

#[test]
fn the_first_file_that_can_not_be_read_decides(rt: HostRuntime) {
    assert_rows(&rt, DECIDES);
}

//! Runs over what is hostile: files cut to each length, readers without an end or that fail behind a fault,
//! writers that take little or stop, and as many files as a run may have.

ghost use Rattle.std.specs.Prelude.{◌≡◌, ◌≤◌, false, length, map as each};
ghost use Rattle.desk_files.specs.Readers.{AreWorking};

use crate::files::Given::{self, Bytes};
use crate::files::*;
use crate::rows::assert_none;
use bg_types::{Base, Out, Sink, Stops};
use desk_runs::{Move, RunFault, carets_from, replay, replay_from, text_from};
use op_codec::{Cause, CodecFault, Gives, In, Source};
use std::alloc::{AllocError, Global};
use ucd_files::vectors::SMALL;
use ucd_files::{Ucd, UcdFault, UcdFile};

/// What the files of readers come to at width 4, without a schedule.
fn replay_readers<R: Source>(
    alloc: Global,
    ucd: &Ucd,
    readers: &mut [R],
    room: &mut [u8],
) -> Result<(), RunFault>
    requires some { 1 ≤ length readers.old }
    requires many { length readers.old ≤ 64 }
    requires working { AreWorking (each R.has_failed readers.old) }
{
    let out = &mut Out::new(room);
    replay_from(alloc, KEY, ucd, 4, Base::Auto, readers, None, out)
}

/// Whether the file of one reader comes to what is wanted.
fn is_cut(alloc: Global, file: &[u8], wanted: Outcome) -> bool {
    let mut room = [0; 16];
    let answer = replay_readers(alloc, &SMALL, &mut [In::new(file)], &mut room);
    answer == wanted.0 && are_written(&room, wanted.1)
}

/// A file that is wrong in a frame, the only one of a run.
fn malformed(frame: usize, cause: Cause) -> Result<(), RunFault> {
    Err(RunFault::File(1, CodecFault::Malformed { frame, cause }))
}

/// What the first `k` bytes of a file of frames of 19 bytes come to: the rows after their last frame, or a fault.
fn wanted_at<'a>(k: usize, shown: &[&'a str]) -> Outcome<'a> {
    let whole = k.saturating_sub(5) / 19;
    let cut = if k < 5 { 0 } else { whole.saturating_add(1) };
    match shown.get(whole) {
        _ if k % 19 != 5 => (malformed(cut, Cause::Truncated), b""),
        Some(rows) => (Ok(()), rows.as_bytes()),
        None => (malformed(whole, Cause::ParentNotBefore), b""),
    }
}

/// The first length at which a cut file does not come to what is wanted.
fn wrong_cut(alloc: Global, file: &[u8], shown: &[&str]) -> Option<usize> {
    for k in 0..=file.len() {
        if !is_cut(alloc, &file[..k], wanted_at(k, shown)) {
            return Some(k);
        }
    }
    None
}

#[test]
fn two_insertions_cut_to_each_length(rt: HostRuntime) {
    let shown = ["    \n", "a   \n", "ab  \n"];
    assert_none(&rt, "the cuts", wrong_cut(rt.alloc(), &TWO, &shown));
}

#[test]
fn four_insertions_cut_to_each_length(rt: HostRuntime) {
    let shown = ["    \n", "a   \n", "ax  \n", "axy \n", "axyb\n"];
    assert_none(&rt, "the cuts", wrong_cut(rt.alloc(), &FOUR, &shown));
}

#[test]
fn a_late_parent_cut_to_each_length(rt: HostRuntime) {
    assert_none(
        &rt,
        "the cuts",
        wrong_cut(rt.alloc(), &LATE_PARENT, &["    \n"]),
    );
}

/// What the files of readers come to as a text.
fn text_of_readers<R: Source>(
    alloc: Global,
    readers: &mut [R],
    room: &mut [u8],
) -> Result<(), RunFault>
    requires { AreWorking (each R.has_failed readers.old) }
{
    text_from(alloc, KEY, readers, &mut Out::new(room))
}

/// The header and the first frame of `TWO`, for ever.
#[test]
fn a_file_without_an_end_is_too_long(rt: HostRuntime) {
    let reader = Gives::new(&TWO[..5], 4_096).then_for_ever(&TWO[5..24]);
    let mut room = [0; 16];
    let answer = text_of_readers(rt.alloc(), &mut [reader], &mut room);
    assert!(rt; answer == Err(RunFault::TooLong(1)));
    assert_eq!(rt; room, [0; 16]);
}

/// `TWO` with another first byte.
const BAD_MAGIC: [u8; 43] = [
    0x43, 0x47, 0x4F, 0x50, 1, // CGOP, version 1
    0, 17, 1, 0, 0, 0, 1, 0, 1, 0, 0, 0, 0, 0, 0, 0, 0, 0, 0x61, // frame 1
    0, 17, 1, 0, 0, 0, 2, 0, 1, 0, 0, 0, 1, 0, 1, 0, 0, 0, 0x62, // frame 2
];

/// A reader that gives this in pieces, and would fail after 42 bytes.
fn failing<'a>(bytes: &'a [u8], size: usize) -> Gives<'a>
    requires { 1 ≤ size }
    ensures working { ⟦<Gives<'a> as Source>⟧.has_failed result ≡ false }
{
    Gives::new(bytes, size).failing_after(42)
}

/// Whether a run ended with a wrong magic byte, and was given one piece.
fn was_asked_once(answer: Result<(), RunFault>, reader: &Gives, size: usize) -> bool {
    answer == malformed(0, Cause::BadMagic) && reader.left == 42usize.checked_sub(size)
}

/// The first size of pieces in which a reader is asked again behind the piece with the fault.
fn asked_again(alloc: Global) -> Option<usize> {
    for size in 1..42usize {
        let mut room = [0; 16];
        let mut readers = [failing(&BAD_MAGIC, size)];
        let text = text_of_readers(alloc, &mut readers, &mut room);
        let mut others = [failing(&BAD_MAGIC, size)];
        let shows = replay_readers(alloc, &SMALL, &mut others, &mut room);
        let once = was_asked_once(text, &readers[0], size)
            && was_asked_once(shows, &others[0], size);
        if !once || room != [0; 16] {
            return Some(size);
        }
    }
    None
}

#[test]
fn a_fault_comes_before_a_failure_behind_it(rt: HostRuntime) {
    assert_none(&rt, "the sizes", asked_again(rt.alloc()));
}

/// What a walk over the text of the files of readers comes to at width 4.
fn walk_readers<R: Source>(
    alloc: Global,
    ucd: &Ucd,
    readers: &mut [R],
    room: &mut [u8],
) -> Result<(), RunFault>
    requires { AreWorking (each R.has_failed readers.old) }
{
    let (moves, out) = (&[Move::Right], &mut Out::new(room));
    carets_from(alloc, KEY, ucd, 4, Base::Auto, readers, 0, moves, out)
}

/// The first number of bytes after which the second reader fails, and a walk does not end with that.
fn walked_on(alloc: Global) -> Option<usize> {
    for left in 0..=TWO.len() {
        let mut room = [0; 16];
        let mut readers = [Gives::new(&TWO, 7), Gives::new(&TWO, 7).failing_after(left)];
        let answer = walk_readers(alloc, &SMALL, &mut readers, &mut room);
        if answer != Err(RunFault::ReadFailed(2)) || room != [0; 16] {
            return Some(left);
        }
    }
    None
}

#[test]
fn a_walk_over_a_failing_reader_writes_nothing(rt: HostRuntime) {
    assert_none(&rt, "the failures", walked_on(rt.alloc()));
}

/// Data files of which one is faulty.
const FAULTY: Ucd<'static> = Ucd {
    lb: b"41;Q",
    ..SMALL
};

/// What a run over them comes to.
const FAULTY_TABLES: Result<(), RunFault> = Err(RunFault::Tables(UcdFault::At {
    file: UcdFile::Lb,
    line: 1,
    cause: ucd_files::Cause::BadCode,
}));

/// Whether a reader was not asked, which gives `TWO` and would fail after these bytes.
fn is_unasked(reader: &Gives, left: usize) -> bool {
    reader.left == Some(left) && !reader.failed()
}

/// The first number of bytes after which a reader would fail, and is asked though the tables are faulty.
fn asked_before_tables(alloc: Global) -> Option<usize> {
    for left in 0..=TWO.len() {
        let mut room = [0; 16];
        let mut readers = [Gives::new(&TWO, 7).failing_after(left)];
        let walk = walk_readers(alloc, &FAULTY, &mut readers, &mut room);
        let mut others = [Gives::new(&TWO, 7).failing_after(left)];
        let shows = replay_readers(alloc, &FAULTY, &mut others, &mut room);
        let unasked = is_unasked(&readers[0], left) && is_unasked(&others[0], left);
        if walk != FAULTY_TABLES || shows != FAULTY_TABLES || !unasked || room != [0; 16] {
            return Some(left);
        }
    }
    None
}

#[test]
fn faulty_tables_come_before_a_reader_that_fails(rt: HostRuntime) {
    assert_none(&rt, "the failures", asked_before_tables(rt.alloc()));
}

/// What two desks show by turns, and what is written of it.
const STEPS: &[u8] = b"take 1 1 2\nshow 1\ntake 1 1 1\nshow 1\nmerge 2 1\nshow 2\n";

const SHOWN: &[u8] = b"    \nab  \nab  \n";

/// Runs the steps over two files into a sink.
fn shows<S: Sink>(alloc: Global, files: &[Vec<u8>; 2], out: &mut S) -> Result<(), RunFault>
    requires { S.has_failed out.old ≡ false }
{
    replay(alloc, KEY, &SMALL, 4, Base::Auto, files, Some(STEPS), out)
}

/// Whether a sink that takes at most `most` bytes a call, and stops after `left`, keeps a beginning.
fn is_stopped(alloc: Global, files: &[Vec<u8>; 2], most: usize, left: usize) -> bool
    requires { 1 ≤ most }
{
    let mut room = [0; 32];
    let answer = shows(
        alloc,
        files,
        &mut Stops::new(Out::new(&mut room[..]), most, left),
    );
    let wanted = if left < SHOWN.len() {
        Err(RunFault::Device)
    } else {
        Ok(())
    };
    answer == wanted && are_written(&room, &SHOWN[..left.min(SHOWN.len())])
}

/// The first number of bytes after which a sink that stops does not keep a beginning of the shows.
fn wrong_stop(alloc: Global, files: &[Vec<u8>; 2], most: usize) -> Option<usize>
    requires { 1 ≤ most }
{
    for left in 0..17usize {
        if !is_stopped(alloc, files, most, left) {
            return Some(left);
        }
    }
    None
}

const EMPTY: &[u8] = b"BGOP\x01";

#[test]
fn a_sink_that_stops_keeps_a_beginning_of_the_shows(rt: HostRuntime) -> Result<(), AllocError> {
    let files = [
        file_of(rt.alloc(), Bytes(&TWO))?,
        file_of(rt.alloc(), Bytes(EMPTY))?,
    ];
    assert_none(&rt, "single bytes", wrong_stop(rt.alloc(), &files, 1));
    assert_none(&rt, "three bytes", wrong_stop(rt.alloc(), &files, 3));
    assert_none(&rt, "all bytes", wrong_stop(rt.alloc(), &files, 100));
    Ok(())
}

/// As many files as a run may have.
const MOST_FILES: [Given; 64] = [Bytes(EMPTY); 64];

/// Whether a room begins with 64 rows of two blanks, and has nothing behind them.
fn are_blank(room: &[u8]) -> bool {
    for (number, row) in room.chunks(3).enumerate() {
        let wanted = if number < 64 { *b"  \n" } else { [0; 3] };
        if row != wanted.as_slice() {
            return false;
        }
    }
    true
}

/// Whether a run over the most files, all empty, shows a blank row for each.
fn shows_blanks(alloc: Global) -> Result<bool, AllocError> {
    let files = files_of(alloc, &MOST_FILES)?;
    let mut room = [0; 198];
    if files.len() != 64 {
        return Ok(false);
    }
    let out = &mut Out::new(&mut room[..]);
    let answer = replay(alloc, KEY, &SMALL, 2, Base::Auto, &files, None, out);
    Ok(answer == Ok(()) && are_blank(&room))
}

#[test]
fn a_run_over_64_empty_files_shows_64_blank_rows(rt: HostRuntime) -> Result<(), AllocError> {
    assert!(rt; shows_blanks(rt.alloc())?);
    Ok(())
}

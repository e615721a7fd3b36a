//! Walks by hand, from bytes to bytes.

use crate::files::Given::{Bytes, Typed};
use crate::files::*;
use crate::rows::{assert_none, assert_rows};
use bg_types::{Base, Memory, Out, Stops};
use desk_files::RunFault;
use desk_runs::Move::{self, *};
use desk_runs::carets;
use op_codec::{Cause, CodecFault};
use std::alloc::{AllocError, Global};
use std::slice::from_ref;
use test_rows::Row;
use ucd_files::vectors::SMALL;
use ucd_files::{Ucd, UcdFault, UcdFile};

/// The width of a walk, its place and its moves.
type Walk<'a> = (u16, u32, &'a [Move]);

/// How many bytes a sink takes at most a call, and after how many it stops.
type Stopping = (usize, usize);

/// A sink that takes all.
const ALL: Stopping = (1_000, 1_000);

/// Walks over a file into a sink that stops so; nothing where that can't be called.
fn walked(
    alloc: Global,
    ucd: &Ucd,
    file: &Vec<u8>,
    walk: Walk,
    stop: Stopping,
    room: &mut [u8],
) -> Option<Result<(), RunFault>> {
    let (width, place, moves) = walk;
    let (most, left) = stop;
    if most == 0 || width < 2 || width > 500 {
        return None;
    }
    Some(carets(
        alloc,
        KEY,
        ucd,
        width,
        Base::Auto,
        from_ref(file),
        place,
        moves,
        &mut Stops::new(Out::new(room), most, left),
    ))
}

/// Whether such a walk comes to what is wanted.
fn is_walk(
    alloc: Global,
    ucd: &Ucd,
    file: &Vec<u8>,
    walk: Walk,
    stop: Stopping,
    wanted: Outcome,
) -> bool {
    let mut room = [0u8; 64];
    let answer = walked(alloc, ucd, file, walk, stop, &mut room);
    answer == Some(wanted.0) && are_written(&room, wanted.1)
}

/// A text, a walk over it, and its lines.
struct Lines(&'static str, Walk<'static>, &'static str);

impl Row for Lines {
    fn comes_out(&self, alloc: Global) -> Result<bool, Memory> {
        let file = file_of(alloc, Typed(1, self.0))?;
        let wanted = (Ok(()), self.2.as_bytes());
        Ok(is_walk(alloc, &SMALL, &file, self.1, ALL, wanted))
    }
}

const WALKS: &[Lines] = &[
    Lines(
        "ab \u{5D0}\u{5D1}\u{5D2}",
        (8, 3, &[Left, Left, Left, Left, Right]),
        "0 6 3\n0 5 4\n0 4 5\n0 3 6\n0 2 2\n0 3 3\n",
    ),
    Lines(
        "a\n",
        (2, 0, &[Right, Right, Right]),
        "0 0 0\n0 1 1\n0 2 2\n1 0 2\n",
    ),
    Lines("a\n", (2, 0, &[Down]), "0 0 0\n1 0 2\n"),
    Lines(
        "ab cd",
        (2, 0, &[Right, Down, Up]),
        "0 0 0\n0 1 1\n1 1 4\n0 1 1\n",
    ),
    Lines("ab cd", (2, 5, &[]), "1 2 5\n"),
    Lines(
        "",
        (4, 0, &[Left, Right, Up, Down]),
        "0 0 0\n0 0 0\n0 0 0\n0 0 0\n0 0 0\n",
    ),
];

#[test]
fn walks_are_written_line_by_line(rt: HostRuntime) {
    assert_rows(&rt, WALKS);
}

/// Data files, a file, a walk over it, and the fault with which it ends.
struct Refused(Ucd<'static>, Given, Walk<'static>, RunFault);

impl Row for Refused {
    fn comes_out(&self, alloc: Global) -> Result<bool, Memory> {
        let file = file_of(alloc, self.1)?;
        let wanted = (Err(self.3), b"".as_slice());
        Ok(is_walk(alloc, &self.0, &file, self.2, ALL, wanted))
    }
}

const REFUSED: &[Refused] = &[
    Refused(
        Ucd {
            lb: b"41;Q",
            ..SMALL
        },
        Bytes(b"BGOP"),
        (2, 9, &[]),
        RunFault::Tables(UcdFault::At {
            file: UcdFile::Lb,
            line: 1,
            cause: ucd_files::Cause::BadCode,
        }),
    ),
    Refused(
        SMALL,
        Bytes(b"BGOP"),
        (2, 9, &[]),
        RunFault::File(
            1,
            CodecFault::Malformed {
                frame: 0,
                cause: Cause::Truncated,
            },
        ),
    ),
    Refused(
        SMALL,
        Typed(1, "a\n"),
        (2, 3, &[Left]),
        RunFault::PastEnd(3),
    ),
];

#[test]
fn tables_are_read_before_files_and_files_before_the_place(rt: HostRuntime) {
    assert_rows(&rt, REFUSED);
}

/// A walk over `ab cd`, and its lines.
const TURNS: Walk<'static> = (2, 0, &[Right, Down, Up]);

const TURNS_LINES: &[u8] = b"0 0 0\n0 1 1\n1 1 4\n0 1 1\n";

/// What is wanted of that walk in a sink that stops after `left` bytes.
fn wanted_until(left: usize) -> Outcome<'static> {
    if left < TURNS_LINES.len() {
        (Err(RunFault::Device), &TURNS_LINES[..left])
    } else {
        (Ok(()), TURNS_LINES)
    }
}

/// The first number of bytes at which a sink that stops does not come to what is wanted.
fn wrong_stop(alloc: Global, file: &Vec<u8>) -> Option<usize> {
    for left in 0..TURNS_LINES.len() + 2 {
        if !is_walk(alloc, &SMALL, file, TURNS, (5, left), wanted_until(left)) {
            return Some(left);
        }
    }
    None
}

#[test]
fn a_sink_that_stops_keeps_a_beginning_of_the_lines(rt: HostRuntime) -> Result<(), AllocError> {
    let file = file_of(rt.alloc(), Typed(1, "ab cd"))?;
    assert_none(&rt, "the stops", wrong_stop(rt.alloc(), &file));
    Ok(())
}

/// Whether the walk is right, or says that memory was refused, and then has written nothing.
fn is_right_or_says_memory(alloc: Global, file: &Vec<u8>) -> bool {
    let mut room = [0u8; 64];
    match walked(alloc, &SMALL, file, TURNS, ALL, &mut room) {
        Some(answer) => is_right_or_memory(answer, &room, TURNS_LINES),
        None => false,
    }
}

#[test]
fn a_walk_is_right_or_says_memory(rt: HostRuntime) -> Result<(), AllocError> {
    let file = file_of(rt.alloc(), Typed(1, "ab cd"))?;
    assert!(rt; is_right_or_says_memory(rt.alloc(), &file));
    Ok(())
}

//! What no clause says: rows at the ends of the ranges, printed names, and failing writers.

ghost use Rattle.std.specs.Prelude.{◌≡◌, ◌<◌, false};

use crate::ops::Name;
use crate::rows::{assert_none, assert_rows};
use bg_types::*;
use std::alloc::{AllocError, Global};
use std::cmp::Ordering;
use std::io;
use std::io::{ErrorKind, Write};
use test_rows::Row;

/// A counter and a site, and whether they make an identifier.
struct Parts(u32, u16, bool);

impl Row for Parts {
    fn comes_out(&self, _alloc: Global) -> Result<bool, Memory> {
        Ok(match Id::new(self.0, self.1) {
            Some(id) => self.2 && id.counter() == self.0 && id.site() == self.1,
            None => !self.2,
        })
    }
}

const PARTS: &[Parts] = &[
    Parts(0, 0, false),
    Parts(0, 1, false),
    Parts(1, 0, false),
    Parts(4_294_967_295, 0, false),
    Parts(65_536, 0, false),
    Parts(0, 65_535, false),
    Parts(1, 1, true),
    Parts(1, 65_535, true),
    Parts(65_535, 1, true),
    Parts(65_536, 1, true),
    Parts(0x1234_5678, 0x9abc, true),
    Parts(4_294_967_295, 1, true),
    Parts(4_294_967_295, 65_535, true),
];

#[test]
fn identifiers_have_no_zero(rt: HostRuntime) {
    assert_rows(&rt, PARTS);
}

/// Identifiers, each of them greater than the one before.
const RISING: &[Name] = &[
    (1, 1),
    (1, 2),
    (1, 65_535),
    (2, 1),
    (2, 2),
    (65_535, 2),
    (65_536, 1),
    (65_537, 1),
    (131_071, 1),
    (131_072, 1),
    (4_294_967_295, 1),
    (4_294_967_295, 65_535),
];

/// Whether two identifiers compare so, and are equal where that says so.
fn compare_so(one: Name, other: Name, wanted: Ordering) -> bool {
    match (Id::new(one.0, one.1), Id::new(other.0, other.1)) {
        (Some(id), Some(other)) => {
            id.cmp(&other) == wanted && (id == other) == (wanted == Ordering::Equal)
        }
        _ => false,
    }
}

/// The first of them that compares otherwise with one of them.
fn first_out_of_order() -> Option<usize> {
    for (i, one) in RISING.iter().enumerate() {
        for (j, other) in RISING.iter().enumerate() {
            if !compare_so(*one, *other, i.cmp(&j)) {
                return Some(i);
            }
        }
    }
    None
}

#[test]
fn identifiers_are_ordered_by_counter_and_then_by_site(rt: HostRuntime) {
    assert_none(&rt, "the identifiers", first_out_of_order());
}

/// An identifier, a parent or the root, and whether there is such an insertion.
struct Child(Name, Option<Name>, bool);

/// Whether there is an insertion of this identifier after this parent, or the root, which then is seen as its parts.
fn is_insertion(id: (u32, u16), parent: Option<(u32, u16)>) -> Option<bool> {
    let id = Id::new(id.0, id.1)?;
    let parent = match parent {
        None => Place::Root,
        Some((counter, site)) => Place::After(Id::new(counter, site)?),
    };
    let ch = '\u{5D0}';
    match Op::insert(id, parent, ch) {
        None => Some(false),
        Some(op) if op.view() == (OpView::Insert { id, parent, ch }) => Some(true),
        Some(_) => None,
    }
}

impl Row for Child {
    fn comes_out(&self, _alloc: Global) -> Result<bool, Memory> {
        Ok(is_insertion(self.0, self.1) == Some(self.2))
    }
}

const CHILDREN: &[Child] = &[
    Child((1, 1), None, true),
    Child((4_294_967_295, 65_535), None, true),
    Child((1, 2), Some((1, 1)), false),
    Child((1, 1), Some((1, 2)), false),
    Child((2, 1), Some((1, 65_535)), true),
    Child((2, 1), Some((3, 1)), false),
    Child((4_294_967_295, 1), Some((4_294_967_294, 2)), true),
    Child((4_294_967_295, 2), Some((4_294_967_295, 1)), false),
];

#[test]
fn a_parent_has_a_smaller_counter(rt: HostRuntime) {
    assert_rows(&rt, CHILDREN);
}

/// The erasure of an element.
struct Erasure(Name);

impl Row for Erasure {
    fn comes_out(&self, _alloc: Global) -> Result<bool, Memory> {
        Ok(match Id::new(self.0.0, self.0.1) {
            Some(target) => Op::erase(target).view() == OpView::Erase { target },
            None => false,
        })
    }
}

const ERASURES: &[Erasure] = &[Erasure((7, 3))];

#[test]
fn an_erasure_names_its_target(rt: HostRuntime) {
    assert_rows(&rt, ERASURES);
}

/// An identifier, and what is printed of it.
struct Printed(Name, &'static str);

fn text_of(alloc: Global, id: Id) -> Result<String, AllocError> {
    format!(in alloc; "{id:?}")
}

impl Row for Printed {
    fn comes_out(&self, alloc: Global) -> Result<bool, Memory> {
        let Some(id) = Id::new(self.0.0, self.0.1) else {
            return Ok(false);
        };
        let printed = text_of(alloc, id)?;
        Ok(printed.as_str() == self.1)
    }
}

const PRINTED: &[Printed] = &[Printed((65_537, 3), "Id { counter: 65537, site: 3 }")];

#[test]
fn an_identifier_prints_its_counter_and_its_site(rt: HostRuntime) {
    assert_rows(&rt, PRINTED);
}

/// What is printed of the faults that every part shares, and their numbers.
struct Faults(&'static str);

fn text_of_faults(alloc: Global) -> Result<String, AllocError> {
    format!(in alloc; "{Memory} {Device} {} {}", Memory.code(), Device.code())
}

impl Row for Faults {
    fn comes_out(&self, alloc: Global) -> Result<bool, Memory> {
        let printed = text_of_faults(alloc)?;
        Ok(printed.as_str() == self.0)
    }
}

const FAULTS: &[Faults] = &[Faults("Memory Device 9 1")];

#[test]
fn faults_print_their_names_and_have_numbers(rt: HostRuntime) {
    assert_rows(&rt, FAULTS);
}

/// After how many bytes a sink stops, what it keeps, and whether that is all.
struct Kept(usize, &'static [u8], bool);

/// Whether a sink over this room that stops after `total` bytes takes all.
fn takes_all(room: &mut [u8], piece: usize, total: usize) -> bool
    requires { 0 < piece }
{
    let mut sink = Stops::new(Out::new(room), piece, total);
    put_all(&mut sink, b"bidigrid").is_ok()
}

impl Kept {
    /// Whether it keeps them in pieces of this size.
    fn is_right_by(&self, piece: usize) -> bool
        requires { 0 < piece }
    {
        let mut room = [0; 16];
        let all = takes_all(&mut room, piece, self.0);
        all == self.2 && room.starts_with(self.1) && room.get(self.1.len()) == Some(&0)
    }
}

impl Row for Kept {
    fn comes_out(&self, _alloc: Global) -> Result<bool, Memory> {
        Ok(self.is_right_by(1) && self.is_right_by(3) && self.is_right_by(100))
    }
}

const KEPT: &[Kept] = &[
    Kept(0, b"", false),
    Kept(1, b"b", false),
    Kept(7, b"bidigri", false),
    Kept(8, b"bidigrid", true),
    Kept(9, b"bidigrid", true),
];

#[test]
fn a_sink_that_stops_keeps_a_beginning(rt: HostRuntime) {
    assert_rows(&rt, KEPT);
}

/// What a put of some bytes answers, and whether the sink has failed then.
type Put = (&'static [u8], (Option<usize>, bool));

fn answer_of<S: Sink>(sink: &mut S, bytes: &[u8]) -> (Option<usize>, bool) {
    if sink.failed() || bytes.is_empty() {
        return (None, sink.failed());
    }
    let taken = sink.put(bytes);
    (taken, sink.failed())
}

/// Puts into a sink that takes at most three bytes, and stops after four.
struct Puts(&'static [Put]);

impl Row for Puts {
    fn comes_out(&self, _alloc: Global) -> Result<bool, Memory> {
        let mut room = [0; 16];
        let mut sink = Stops::new(Out::new(room.as_mut_slice()), 3, 4);
        let mut right = true;
        for (bytes, answer) in self.0 {
            right = answer_of(&mut sink, bytes) == *answer && right;
        }
        Ok(right)
    }
}

const PIECES: &[Puts] = &[Puts(&[
    (b"bidigrid", (Some(3), false)),
    (b"igrid", (Some(1), false)),
    (b"grid", (None, true)),
])];

#[test]
fn a_sink_takes_at_most_a_piece(rt: HostRuntime) {
    assert_rows(&rt, PIECES);
}

/// A writer that takes one byte a call, and then answers with an error or with 0 bytes.
#[derive(Clone, Copy)]
struct Dribbles {
    taken: [u8; 8],
    count: usize,
    most: usize,
    fails: bool,
}

impl Write for Dribbles {
    fn write(&mut self, bytes: &[u8]) -> io::Result<usize> {
        if self.count < self.most && self.count < self.taken.len() && !bytes.is_empty() {
            self.taken[self.count] = bytes[0];
            self.count += 1;
            return Ok(1);
        }
        if self.fails {
            return Err(io::Error::from(ErrorKind::BrokenPipe));
        }
        Ok(0)
    }

    fn flush(&mut self) -> io::Result<()> {
        Ok(())
    }
}

/// Whether a sink over a writer takes all of the bytes, and whether it then has failed.
fn put_over(writer: &mut Dribbles) -> (bool, bool) {
    let mut out = Out::new(writer);
    let whole = put_all(&mut out, b"bidigrid").is_ok();
    (whole, out.failed())
}

/// How many bytes such a writer takes, whether it then fails, and whether a sink over it takes all, and else has failed.
struct Dribbled(usize, bool, bool);

impl Row for Dribbled {
    fn comes_out(&self, _alloc: Global) -> Result<bool, Memory> {
        let mut writer = Dribbles {
            taken: [0; 8],
            count: 0,
            most: self.0,
            fails: self.1,
        };
        let answer = put_over(&mut writer);
        let count = self.0.min(8);
        Ok(
            answer == (self.2, !self.2)
                && writer.count == self.0
                && writer.taken[..count] == b"bidigrid"[..count],
        )
    }
}

const DRIBBLED: &[Dribbled] = &[
    Dribbled(0, true, false),
    Dribbled(1, true, false),
    Dribbled(7, true, false),
    Dribbled(8, true, true),
    Dribbled(0, false, false),
    Dribbled(1, false, false),
    Dribbled(7, false, false),
    Dribbled(8, false, true),
];

#[test]
fn a_writer_that_fails_in_mid_stream_fails_the_sink(rt: HostRuntime) {
    assert_rows(&rt, DRIBBLED);
}

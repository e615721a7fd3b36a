//! What no clause says: changes worked out by hand, and what faults print.

ghost use Rattle.std.specs.Prelude.{◌≡◌, ◌<◌, map as each};
ghost use Rattle.desk_files.specs.Readers.{AreWorking};

use crate::files::{KEY, are_written};
use crate::rows::assert_rows;
use bg_types::{Memory, Out, Stops};
use desk_runs::*;
use op_codec::{Gives, Source, Version};
use op_listing::{ListingFault, pack};
use std::alloc::Global;
use test_rows::Row;

/// `abc`, typed at site 1.
const ABC: &str = "i 1.1 root 0061\ni 2.1 1.1 0062\ni 3.1 2.1 0063\n";

/// The operation file of a listing.
fn file_of(alloc: Global, listing: &str) -> Result<Vec<u8>, ListingFault> {
    let mut bytes = Vec::new(alloc);
    pack(alloc, listing.as_bytes(), &mut Out::new(&mut bytes))?;
    Ok(bytes)
}

/// What a change answers, and what is written.
type Outcome<'a> = (Result<(), TypingFault>, &'a [u8]);

/// Makes a change of readers' files, into a sink that takes at most three bytes a call, and stops after `left`.
fn changed<'a>(
    alloc: Global,
    readers: &mut [Gives<'a>],
    change: &Change,
    spelled: (&[u8], Version),
    left: usize,
    room: &mut [u8],
) -> Result<(), TypingFault>
    requires site { 0 < change.now.site }
    requires readers { AreWorking (each ⟦<Gives<'a> as Source>⟧.has_failed readers.old) }
{
    let (text, version) = spelled;
    let out = &mut Stops::new(Out::new(room), 3, left);
    typed(alloc, KEY, readers, change, text, version, out)
}

/// Whether such a change comes to what is wanted.
fn comes_to<'a>(
    alloc: Global,
    readers: &mut [Gives<'a>],
    change: &Change,
    spelled: (&[u8], Version),
    left: usize,
    wanted: Outcome,
) -> bool
    requires { AreWorking (each ⟦<Gives<'a> as Source>⟧.has_failed readers.old) }
{
    if change.site == 0 {
        return false;
    }
    let mut room = [0; 128];
    let answer = changed(alloc, readers, change, spelled, left, &mut room);
    answer == wanted.0 && are_written(&room, wanted.1)
}

/// The site, place and number of erased characters of a change.
type Place = (u16, Option<u32>, u32);

/// Whether a change of one file comes to what is wanted.
fn is_change(
    alloc: Global,
    file: &[u8],
    (site, place, erased): Place,
    spelled: (&[u8], Version),
    wanted: Outcome,
) -> bool {
    let change = Change {
        site,
        place,
        erased,
    };
    let mut readers = [Gives::new(file, 7)];
    comes_to(alloc, &mut readers, &change, spelled, 1_000, wanted)
}

/// Whether a change of the file of a listing comes to what is wanted.
fn is_change_of(
    alloc: Global,
    listing: &str,
    place: Place,
    spelled: (&[u8], Version),
    wanted: Outcome,
) -> Result<bool, Memory> {
    match file_of(alloc, listing) {
        Ok(file) => Ok(is_change(alloc, &file, place, spelled, wanted)),
        Err(ListingFault::Memory) => Err(Memory),
        Err(_) => Ok(false),
    }
}

/// A listing, a change, what is typed, and the listing of what that makes.
struct Made(&'static str, Place, &'static str, &'static str);

impl Row for Made {
    fn comes_out(&self, alloc: Global) -> Result<bool, Memory> {
        let spelled = (self.2.as_bytes(), Version::One);
        match file_of(alloc, self.3) {
            Ok(made) => is_change_of(alloc, self.0, self.1, spelled, (Ok(()), &made)),
            Err(ListingFault::Memory) => Err(Memory),
            Err(_) => Ok(false),
        }
    }
}

const CHANGES: &[Made] = &[
    Made("", (1, None, 0), "", ""),
    Made(
        "",
        (65_535, Some(0), 0),
        "hi",
        "i 1.65535 root 0068\ni 2.65535 1.65535 0069\n",
    ),
    Made(ABC, (2, Some(1), 1), "x", "e 2.1\ni 4.2 1.1 0078\n"),
    Made(ABC, (2, Some(0), 3), "", "e 1.1\ne 2.1\ne 3.1\n"),
    Made(
        ABC,
        (1, None, 0),
        "\u{5D0}\u{628}",
        "i 4.1 3.1 05D0\ni 5.1 4.1 0628\n",
    ),
    // Next to what is erased, and to what waits.
    Made(
        "i 1.1 root 0061\ne 1.1\ni 9.3 8.3 007A\n",
        (2, Some(0), 0),
        "q",
        "i 10.2 root 0071\n",
    ),
    Made(
        "i 4294967294.1 root 006C\n",
        (2, None, 0),
        "x",
        "i 4294967295.2 4294967294.1 0078\n",
    ),
];

#[test]
fn changes_become_operations(rt: HostRuntime) {
    assert_rows(&rt, CHANGES);
}

/// A version, a listing, a change, what is typed, and the file of what that makes.
struct Spelled(Version, &'static str, Place, &'static [u8], &'static [u8]);

impl Row for Spelled {
    fn comes_out(&self, alloc: Global) -> Result<bool, Memory> {
        let spelled = (self.3, self.0);
        is_change_of(alloc, self.1, self.2, spelled, (Ok(()), self.4))
    }
}

const SPELLINGS: &[Spelled] = &[
    Spelled(Version::One, "", (1, None, 0), b"", b"BGOP\x01"),
    Spelled(Version::Two, "", (1, None, 0), b"", b"BGOP\x02"),
    // The two files of docs/FORMATS.md.
    Spelled(
        Version::One,
        "",
        (1, None, 0),
        b"ab",
        b"BGOP\x01\0\x11\x01\0\0\0\x01\0\x01\0\0\0\0\0\0\0\0\0a\0\x11\x01\0\0\0\x02\0\x01\0\0\0\x01\0\x01\0\0\0b",
    ),
    Spelled(
        Version::Two,
        "",
        (1, None, 0),
        b"ab",
        b"BGOP\x02\0\x15\x03\0\0\0\x01\0\x01\0\0\0\0\0\0\0\0\0a\0\0\0b",
    ),
    // A deletion, and then a run.
    Spelled(
        Version::Two,
        ABC,
        (2, Some(1), 1),
        b"xy",
        b"BGOP\x02\0\x07\x02\0\0\0\x02\0\x01\0\x15\x03\0\0\0\x04\0\x02\0\0\0\x01\0\x01\0\0\0x\0\0\0y",
    ),
];

#[test]
fn the_version_says_how_the_file_is_spelled(rt: HostRuntime) {
    assert_rows(&rt, SPELLINGS);
}

/// A text whose last counter is spent, and one that has one counter left.
const LAST: &str = "i 4294967295.1 root 006C\n";

const SPENT: &str = "i 4294967294.1 root 006C\n";

/// A listing, a change, what is typed, and the fault.
struct Faulty(&'static str, Place, &'static [u8], TypingFault);

impl Row for Faulty {
    fn comes_out(&self, alloc: Global) -> Result<bool, Memory> {
        let spelled = (self.2, Version::Two);
        is_change_of(alloc, self.0, self.1, spelled, (Err(self.3), b""))
    }
}

const FAULTS: &[Faulty] = &[
    Faulty(
        ABC,
        (2, Some(4), 0),
        b"x",
        TypingFault::PastEnd {
            place: 4,
            erased: 0,
        },
    ),
    Faulty(
        ABC,
        (2, Some(2), 2),
        b"",
        TypingFault::PastEnd {
            place: 2,
            erased: 2,
        },
    ),
    Faulty(
        ABC,
        (2, None, 1),
        b"",
        TypingFault::PastEnd {
            place: 3,
            erased: 1,
        },
    ),
    Faulty(LAST, (2, None, 0), b"x", TypingFault::CounterSpent),
    Faulty(SPENT, (2, None, 0), b"xy", TypingFault::CounterSpent),
    Faulty(ABC, (2, None, 0), b"a\xFFb", TypingFault::NotUtf8(1)),
    Faulty(ABC, (2, Some(9), 0), b"\xD7", TypingFault::NotUtf8(0)),
];

/// Site 1 types at the end.
const ONE: Change = Change {
    site: 1,
    place: None,
    erased: 0,
};

/// Whether a reader that fails is the fault of a change.
fn is_lost(alloc: Global) -> bool {
    let mut readers = [Gives::new(b"BGOP", 1).failing_after(3)];
    let fault = TypingFault::Run(RunFault::ReadFailed(1));
    let spelled = (b"x".as_slice(), Version::Two);
    comes_to(alloc, &mut readers, &ONE, spelled, 1_000, (Err(fault), b""))
}

#[test]
fn faults_write_nothing(rt: HostRuntime) {
    assert_rows(&rt, FAULTS);
    assert!(rt; is_lost(rt.alloc()));
}

fn leaves_a_beginning(alloc: Global) -> bool {
    let mut readers: [Gives; 0] = [];
    let wanted = Err(TypingFault::Run(RunFault::Device));
    let spelled = (b"x".as_slice(), Version::Two);
    comes_to(
        alloc,
        &mut readers,
        &ONE,
        spelled,
        7,
        (wanted, b"BGOP\x02\x00\x11"),
    )
}

#[test]
fn a_write_that_fails_leaves_a_beginning(rt: HostRuntime) {
    assert!(rt; leaves_a_beginning(rt.alloc()));
}

/// With ample memory a change of a file is right; where a growth is refused it says so, and nothing
/// is written.
fn is_right_or_says_memory(alloc: Global) -> bool {
    const FILE: &[u8] =
        b"BGOP\x01\x00\x11\x01\x00\x00\x00\x01\x00\x01\x00\x00\x00\x00\x00\x00\x00\x00\x00\x61";
    const MADE: &[u8] =
        b"BGOP\x02\x00\x07\x02\x00\x00\x00\x01\x00\x01\x00\x11\x01\x00\x00\x00\x02\x00\x02\x00\x00\x00\x00\x00\x00\x00\x00\x00\x62";
    let mut room = [0u8; 64];
    let mut readers = [Gives::new(FILE, 7)];
    let change = Change {
        site: 2,
        place: Some(0),
        erased: 1,
    };
    let spelled = (b"b".as_slice(), Version::Two);
    match changed(alloc, &mut readers, &change, spelled, 1_000, &mut room) {
        Ok(()) => are_written(&room, MADE),
        Err(fault) => fault == TypingFault::Run(RunFault::Memory) && room[0] == 0,
    }
}

#[test]
fn a_change_is_right_or_says_memory(rt: HostRuntime) {
    assert!(rt; is_right_or_says_memory(rt.alloc()));
}

/// A fault with its line, number and status.
struct Line(TypingFault, &'static str, u8, u8);

impl Row for Line {
    fn comes_out(&self, alloc: Global) -> Result<bool, Memory> {
        let printed = format!(in alloc; "{}", self.0)?;
        let right = (self.0.code(), self.0.status()) == (self.2, self.3);
        Ok(right && printed.as_str() == self.1)
    }
}

const LINES: &[Line] = &[
    Line(TypingFault::NotUtf8(12), "text byte 12: NotUtf8", 11, 1),
    Line(
        TypingFault::PastEnd {
            place: 3,
            erased: 5,
        },
        "place 3 erase 5: PastEnd",
        6,
        1,
    ),
    Line(TypingFault::CounterSpent, "text: CounterSpent", 12, 1),
    Line(TypingFault::Full, "text: Full", 13, 1),
    Line(
        TypingFault::Run(RunFault::TooLong(2)),
        "file 2: TooLong",
        10,
        1,
    ),
    Line(TypingFault::Run(RunFault::Memory), "memory", 9, 3),
];

#[test]
fn faults_have_lines_numbers_and_statuses(rt: HostRuntime) {
    assert_rows(&rt, LINES);
}

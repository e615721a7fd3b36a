//! Files and listings worked out by hand, both ways.

ghost use Rattle.std.specs.Prelude.{◌≡◌, false};

use crate::rows::assert_rows;
use LineFault::{BadLine, NotAScalar, ParentNotBefore, ZeroField};
use bg_types::{Memory, Out, Sink, Stops};
use op_codec::{Cause, CodecFault};
use op_listing::*;
use std::alloc::{AllocError, Global};
use test_rows::Row;

const EMPTY: [u8; 5] = *b"BGOP\x01";

/// Two children of (1,1), of which the greater has a child; then (2,2) is erased.
const TREE: [u8; 90] = [
    0x42, 0x47, 0x4F, 0x50, 1, // BGOP, version 1
    0, 17, 1, 0, 0, 0, 1, 0, 1, 0, 0, 0, 0, 0, 0, 0, 0, 0, 0x61, // frame 1
    0, 17, 1, 0, 0, 0, 2, 0, 2, 0, 0, 0, 1, 0, 1, 0, 0, 0, 0x78, // frame 2
    0, 17, 1, 0, 0, 0, 3, 0, 2, 0, 0, 0, 2, 0, 2, 0, 0, 0, 0x79, // frame 3
    0, 17, 1, 0, 0, 0, 2, 0, 1, 0, 0, 0, 1, 0, 1, 0, 0, 0, 0x62, // frame 4
    0, 7, 2, 0, 0, 0, 2, 0, 2, // frame 5
];

const TREE_LISTING: &[u8] =
    b"i 1.1 root 0061\ni 2.2 1.1 0078\ni 3.2 2.2 0079\ni 2.1 1.1 0062\ne 2.2\n";

/// The first four of them.
const TREE_WITHOUT_ERASURE: &[u8] = &[
    0x42, 0x47, 0x4F, 0x50, 1, // BGOP, version 1
    0, 17, 1, 0, 0, 0, 1, 0, 1, 0, 0, 0, 0, 0, 0, 0, 0, 0, 0x61, // frame 1
    0, 17, 1, 0, 0, 0, 2, 0, 2, 0, 0, 0, 1, 0, 1, 0, 0, 0, 0x78, // frame 2
    0, 17, 1, 0, 0, 0, 3, 0, 2, 0, 0, 0, 2, 0, 2, 0, 0, 0, 0x79, // frame 3
    0, 17, 1, 0, 0, 0, 2, 0, 1, 0, 0, 0, 1, 0, 1, 0, 0, 0, 0x62, // frame 4
];

const LISTING_WITHOUT_ERASURE: &[u8] =
    b"i 1.1 root 0061\ni 2.2 1.1 0078\ni 3.2 2.2 0079\ni 2.1 1.1 0062\n";

/// All of them in version 2: the second and the third are a run.
const TREE_MIGRATED: [u8; 75] = [
    0x42, 0x47, 0x4F, 0x50, 2, // BGOP, version 2
    0, 17, 1, 0, 0, 0, 1, 0, 1, 0, 0, 0, 0, 0, 0, 0, 0, 0, 0x61, // frame 1
    0, 21, 3, 0, 0, 0, 2, 0, 2, 0, 0, 0, 1, 0, 1, 0, 0, 0, 0x78, 0, 0, 0, 0x79, // frame 2
    0, 17, 1, 0, 0, 0, 2, 0, 1, 0, 0, 0, 1, 0, 1, 0, 0, 0, 0x62, // frame 3
    0, 7, 2, 0, 0, 0, 2, 0, 2, // frame 4
];

/// What stands in a room where nothing is written: no byte of a file or listing here.
const UNWRITTEN: u8 = 0xEE;

/// Whether these bytes stand at the start of a room, and nothing after them.
fn are_written(room: &[u8], bytes: &[u8]) -> bool {
    room.starts_with(bytes) && room.get(bytes.len()) == Some(&UNWRITTEN)
}

/// What a call found that answered so and wrote into this room.
fn found(
    answer: Result<(), FileFault>,
    room: &[u8],
    wanted: Result<(), FileFault>,
    bytes: &[u8],
) -> Result<bool, Memory> {
    if answer == Err(FileFault::Memory) {
        return Err(Memory);
    }
    Ok(answer == wanted && are_written(room, bytes))
}

/// Whether dumping a file answers this and writes these bytes.
fn dumps(
    alloc: Global,
    file: &[u8],
    wanted: Result<(), FileFault>,
    bytes: &[u8],
) -> Result<bool, Memory> {
    let mut room = [UNWRITTEN; 128];
    let answer = dump(alloc, file, &mut Out::new(room.as_mut_slice()));
    found(answer, &room, wanted, bytes)
}

/// Whether migrating a file answers this and writes these bytes.
fn migrates(
    alloc: Global,
    file: &[u8],
    wanted: Result<(), FileFault>,
    bytes: &[u8],
) -> Result<bool, Memory> {
    let mut room = [UNWRITTEN; 128];
    let answer = migrate(alloc, file, &mut Out::new(room.as_mut_slice()));
    found(answer, &room, wanted, bytes)
}

/// Whether packing a listing answers this and writes these bytes.
fn packs(
    alloc: Global,
    listing: &[u8],
    wanted: Result<(), ListingFault>,
    bytes: &[u8],
) -> Result<bool, Memory> {
    let mut room = [UNWRITTEN; 128];
    let answer = pack(alloc, listing, &mut Out::new(room.as_mut_slice()));
    if answer == Err(ListingFault::Memory) {
        return Err(Memory);
    }
    Ok(answer == wanted && are_written(&room, bytes))
}

/// A file, and its listing.
struct Listed(&'static [u8], &'static [u8]);

impl Row for Listed {
    fn comes_out(&self, alloc: Global) -> Result<bool, Memory> {
        Ok(packs(alloc, self.1, Ok(()), self.0)? && dumps(alloc, self.0, Ok(()), self.1)?)
    }
}

const LISTINGS: &[Listed] = &[
    Listed(&EMPTY, b""),
    Listed(&TREE, TREE_LISTING),
    Listed(TREE_WITHOUT_ERASURE, LISTING_WITHOUT_ERASURE),
    Listed(
        b"BGOP\x01\x00\x11\x01\xFF\xFF\xFF\xFF\xFF\xFF\xFF\xFF\xFF\xFE\x00\x01\x00\x10\xFF\xFF",
        b"i 4294967295.65535 4294967294.1 10FFFF\n",
    ),
];

#[test]
fn files_and_listings_worked_out_by_hand(rt: HostRuntime) {
    assert_rows(&rt, LISTINGS);
}

/// A file of the tree.
struct OfTree(&'static [u8]);

impl Row for OfTree {
    fn comes_out(&self, alloc: Global) -> Result<bool, Memory> {
        Ok(
            migrates(alloc, self.0, Ok(()), &TREE_MIGRATED)?
                && dumps(alloc, self.0, Ok(()), TREE_LISTING)?,
        )
    }
}

const OF_TREE: &[OfTree] = &[OfTree(&TREE), OfTree(&TREE_MIGRATED)];

#[test]
fn a_file_and_its_migration_have_one_listing(rt: HostRuntime) {
    assert_rows(&rt, OF_TREE);
}

/// A listing, and the plain one that is dumped of its file.
struct Free(&'static [u8], &'static [u8]);

/// The operation file of a listing.
fn file_of(alloc: Global, listing: &[u8]) -> Result<Vec<u8>, ListingFault> {
    let mut bytes = Vec::new(alloc);
    pack(alloc, listing, &mut Out::new(&mut bytes))?;
    Ok(bytes)
}

impl Free {
    /// Whether both have this file.
    fn has_file(&self, alloc: Global, file: &[u8]) -> Result<bool, Memory> {
        Ok(packs(alloc, self.0, Ok(()), file)? && dumps(alloc, file, Ok(()), self.1)?)
    }
}

impl Row for Free {
    fn comes_out(&self, alloc: Global) -> Result<bool, Memory> {
        match file_of(alloc, self.1) {
            Ok(file) => self.has_file(alloc, &file),
            Err(ListingFault::Memory) => Err(Memory),
            Err(_) => Ok(false),
        }
    }
}

const FREEDOMS: &[Free] = &[
    Free(b"i  01.1  root  000061", b"i 1.1 root 0061\n"),
    Free(b"e 0000000001.0000000001\n", b"e 1.1\n"),
    Free(b"e 4294967295.65535", b"e 4294967295.65535\n"),
    Free(b"i 2.1 1.1 10ffff\n", b"i 2.1 1.1 10FFFF\n"),
    Free(b"i 1.1 root 1f600\n", b"i 1.1 root 1F600\n"),
    Free(b"i 1.1 root 0000\n", b"i 1.1 root 0000\n"),
    Free(b"e 1.1\r\ne 2.1\r\n", b"e 1.1\ne 2.1\n"),
    Free(b"\n   \n\r\n  e 1.1  \n\n e 2.1", b"e 1.1\ne 2.1\n"),
    Free(b"\n\r\n", b""),
];

#[test]
fn a_listing_is_read_with_its_freedoms(rt: HostRuntime) {
    assert_rows(&rt, FREEDOMS);
}

/// A listing, the number of its first faulty line, and its fault.
struct FaultyLine(&'static [u8], usize, LineFault);

impl Row for FaultyLine {
    fn comes_out(&self, alloc: Global) -> Result<bool, Memory> {
        let (line, fault) = (self.1, self.2);
        packs(
            alloc,
            self.0,
            Err(ListingFault::Malformed { line, fault }),
            b"",
        )
    }
}

const FAULTY_LINES: &[FaultyLine] = &[
    FaultyLine(b"i 1.1 root 61", 1, BadLine),
    FaultyLine(b"i 1.1 root 0000061", 1, BadLine),
    FaultyLine(b"i 1.1 root 006G", 1, BadLine),
    FaultyLine(b"i 1.1 root", 1, BadLine),
    FaultyLine(b"i 1.1", 1, BadLine),
    FaultyLine(b"i", 1, BadLine),
    FaultyLine(b"i 1.1 root 0061 x", 1, BadLine),
    FaultyLine(b"i 1.1 Root 0061", 1, BadLine),
    FaultyLine(b"i 1.1 roots 0061", 1, BadLine),
    FaultyLine(b"i 4294967296.1 root 0061", 1, BadLine),
    FaultyLine(b"i 9999999999.1 root 0061", 1, BadLine),
    FaultyLine(b"i 1.65536 root 0061", 1, BadLine),
    FaultyLine(b"i 2.1 1.65536 0061", 1, BadLine),
    FaultyLine(b"i 1.1.1 root 0061", 1, BadLine),
    FaultyLine(b"i\t1.1 root 0061", 1, BadLine),
    FaultyLine(b"i 1.1\troot 0061", 1, BadLine),
    FaultyLine(b"e 1.1 x", 1, BadLine),
    FaultyLine(b"e", 1, BadLine),
    FaultyLine(b"e 1", 1, BadLine),
    FaultyLine(b"e 1.", 1, BadLine),
    FaultyLine(b"e .1", 1, BadLine),
    FaultyLine(b"e +1.1", 1, BadLine),
    FaultyLine(b"e 1.1.1", 1, BadLine),
    FaultyLine(b"e 00000000001.1", 1, BadLine),
    FaultyLine(b"e 1.00000000001", 1, BadLine),
    FaultyLine(b"E 1.1", 1, BadLine),
    FaultyLine(b"\xFF 1.1", 1, BadLine),
    FaultyLine(b"e 1.1\r", 1, BadLine),
    FaultyLine(b"e 1.1\r\r\n", 1, BadLine),
    FaultyLine(b"e 1.1\n\r\n\ne 0.1\nx", 4, ZeroField),
    FaultyLine(b"e 1.1\ne 1.1\nx", 3, BadLine),
    FaultyLine(b"i 0.1 root 0061", 1, ZeroField),
    FaultyLine(b"i 1.0 root 0061", 1, ZeroField),
    FaultyLine(b"i 2.1 0.0 0061", 1, ZeroField),
    FaultyLine(b"i 2.1 1.0 0061", 1, ZeroField),
    FaultyLine(b"i 0.1 root 61", 1, BadLine),
    FaultyLine(b"i 0.1 5.1 D800", 1, ZeroField),
    FaultyLine(b"i 2.1 2.2 0061", 1, ParentNotBefore),
    FaultyLine(b"i 2.1 2.2 D800", 1, ParentNotBefore),
    FaultyLine(b"i 1.1 root D800", 1, NotAScalar),
    FaultyLine(b"i 2.1 1.2 110000", 1, NotAScalar),
];

#[test]
fn a_faulty_line_shows_its_first_fault(rt: HostRuntime) {
    assert_rows(&rt, FAULTY_LINES);
}

/// A file, the length to which it is cut, and the frame that is cut then.
struct Cut(&'static [u8], usize, usize);

impl Row for Cut {
    fn comes_out(&self, alloc: Global) -> Result<bool, Memory> {
        let front = &self.0[..self.1.min(self.0.len())];
        let fault = FileFault::Malformed {
            frame: self.2,
            cause: Cause::Truncated,
        };
        Ok(dumps(alloc, front, Err(fault), b"")? && migrates(alloc, front, Err(fault), b"")?)
    }
}

const CUTS: &[Cut] = &[
    Cut(&TREE, 0, 0),
    Cut(&TREE, 4, 0),
    Cut(&TREE, 6, 1),
    Cut(&TREE, 80, 4),
    Cut(&TREE, 89, 5),
    Cut(&TREE_MIGRATED, 40, 2),
];

#[test]
fn a_faulty_file_shows_its_first_fault(rt: HostRuntime) {
    assert_rows(&rt, CUTS);
}

/// An engine of this crate, over the tree.
#[derive(Clone, Copy)]
enum Engine {
    Dump,
    Migrate,
    Pack,
}

/// What an engine writes.
fn whole(engine: Engine) -> &'static [u8] {
    match engine {
        Engine::Dump => TREE_LISTING,
        Engine::Migrate => &TREE_MIGRATED,
        Engine::Pack => &TREE,
    }
}

/// The number of the fault that an engine answers, or 0.
fn answered<S: Sink>(alloc: Global, engine: Engine, out: &mut S) -> u8
    requires { S.has_failed out.old ≡ false }
{
    match engine {
        Engine::Dump => number(dump(alloc, &TREE, out)),
        Engine::Migrate => number(migrate(alloc, &TREE, out)),
        Engine::Pack => match pack(alloc, TREE_LISTING, out) {
            Ok(()) => 0,
            Err(fault) => fault.code(),
        },
    }
}

fn number(answer: Result<(), FileFault>) -> u8 {
    match answer {
        Ok(()) => 0,
        Err(fault) => fault.code(),
    }
}

/// Whether an engine that may write `left` bytes writes the first of them, and says so where they are not all.
fn keeps_a_beginning(alloc: Global, engine: Engine, left: usize) -> bool {
    let mut room = [UNWRITTEN; 128];
    let mut out = Stops::new(Out::new(room.as_mut_slice()), 7, left);
    let answer = answered(alloc, engine, &mut out);
    let whole = whole(engine);
    let wanted = if left < whole.len() { 7 } else { 0 };
    answer == wanted && are_written(&room, &whole[..left.min(whole.len())])
}

/// After how many bytes a sink stops.
struct Stop(usize);

impl Row for Stop {
    fn comes_out(&self, alloc: Global) -> Result<bool, Memory> {
        Ok(
            keeps_a_beginning(alloc, Engine::Dump, self.0)
                && keeps_a_beginning(alloc, Engine::Migrate, self.0)
                && keeps_a_beginning(alloc, Engine::Pack, self.0),
        )
    }
}

const STOPS: &[Stop] = &[
    Stop(0),
    Stop(1),
    Stop(60),
    Stop(66),
    Stop(67),
    Stop(74),
    Stop(75),
    Stop(89),
    Stop(90),
    Stop(91),
];

/// Whether an engine is right, or says that memory was refused, and then has written nothing.
fn is_right_or_says_memory(alloc: Global, engine: Engine) -> bool {
    let mut room = [0u8; 128];
    match answered(alloc, engine, &mut Out::new(room.as_mut_slice())) {
        0 => room.starts_with(whole(engine)),
        number => number == 9 && room[0] == 0,
    }
}

#[test]
fn a_sink_that_stops_keeps_a_beginning(rt: HostRuntime) {
    assert_rows(&rt, STOPS);
}

impl Row for Engine {
    fn comes_out(&self, alloc: Global) -> Result<bool, Memory> {
        Ok(is_right_or_says_memory(alloc, *self))
    }
}

const ENGINES: &[Engine] = &[Engine::Dump, Engine::Migrate, Engine::Pack];

#[test]
fn a_call_is_right_or_says_memory(rt: HostRuntime) {
    assert_rows(&rt, ENGINES);
}

/// What the faults of a line, of a file and of a listing print.
fn line_faults(alloc: Global) -> Result<String, AllocError> {
    format!(in alloc; "{BadLine} {ZeroField} {ParentNotBefore} {NotAScalar}")
}

fn file_faults(alloc: Global) -> Result<String, AllocError> {
    let frame = FileFault::from(CodecFault::Malformed {
        frame: 3,
        cause: Cause::ZeroField,
    });
    format!(in alloc; "{frame}; {}; {}", FileFault::Device, FileFault::Memory)
}

fn listing_faults(alloc: Global) -> Result<String, AllocError> {
    let line = ListingFault::Malformed {
        line: 12,
        fault: BadLine,
    };
    format!(in alloc;
        "{line}; {}; {}",
        ListingFault::Device,
        ListingFault::Memory
    )
}

/// Which faults are printed.
enum Printed {
    OfLine,
    OfFile,
    OfListing,
}

/// Faults, and what is printed of them.
struct Faults(Printed, &'static str);

impl Row for Faults {
    fn comes_out(&self, alloc: Global) -> Result<bool, Memory> {
        let printed = match self.0 {
            Printed::OfLine => line_faults(alloc)?,
            Printed::OfFile => file_faults(alloc)?,
            Printed::OfListing => listing_faults(alloc)?,
        };
        Ok(printed.as_str() == self.1)
    }
}

const FAULTS: &[Faults] = &[
    Faults(
        Printed::OfLine,
        "BadLine ZeroField ParentNotBefore NotAScalar",
    ),
    Faults(Printed::OfFile, "file 1 frame 3: ZeroField; device; memory"),
    Faults(
        Printed::OfListing,
        "listing line 12: BadLine; device; memory",
    ),
];

#[test]
fn faults_print_what_the_line_about_them_says(rt: HostRuntime) {
    assert_rows(&rt, FAULTS);
}

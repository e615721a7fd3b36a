//! What no clause says of faults: the names and lines that they print, their statuses and numbers.

use crate::files::are_written;
use crate::rows::{assert_none, assert_rows};
use bg_types::{Device, Memory, Out, Stops};
use command_line::report;
use desk_runs::*;
use op_codec::{Cause, CodecFault};
use op_listing::LineFault;
use std::alloc::Global;
use test_rows::Row;
use ucd_files::{UcdFault, UcdFile};

/// A fault of a schedule with its number and name.
struct Name(ScheduleFault, u8, &'static str);

impl Row for Name {
    fn comes_out(&self, alloc: Global) -> Result<bool, Memory> {
        let printed = format!(in alloc; "{}", self.0)?;
        Ok(self.0.code() == self.1 && printed.as_str() == self.2)
    }
}

const NAMES: &[Name] = &[
    Name(ScheduleFault::UnknownStep, 1, "UnknownStep"),
    Name(ScheduleFault::WrongWords, 2, "WrongWords"),
    Name(ScheduleFault::BadNumber, 3, "BadNumber"),
    Name(ScheduleFault::NoSuchDesk, 4, "NoSuchDesk"),
    Name(ScheduleFault::NoSuchFile, 5, "NoSuchFile"),
    Name(ScheduleFault::NoSuchOperation, 6, "NoSuchOperation"),
];

#[test]
fn faults_of_schedules_have_numbers_and_names(rt: HostRuntime) {
    assert_rows(&rt, NAMES);
}

/// A data file whose line 17 is faulty.
const TABLE: UcdFault = UcdFault::At {
    file: UcdFile::Lb,
    line: 17,
    cause: ucd_files::Cause::UnknownValue,
};

/// A file that is cut in frame 12.
const CUT: CodecFault = CodecFault::Malformed {
    frame: 12,
    cause: Cause::Truncated,
};

/// A file with another header.
const OTHER: CodecFault = CodecFault::Malformed {
    frame: 0,
    cause: Cause::BadMagic,
};

/// Reports a fault where `taken` bytes can be written.
fn reported(fault: &RunFault, taken: usize, room: &mut [u8]) -> Result<(), Device> {
    report(
        fault,
        "some/path",
        &mut Stops::new(Out::new(room), 3, taken),
    )
}

/// Whether this is written of such a report, and all of it or not.
fn is_reported(fault: &RunFault, taken: usize, wanted: &[u8], whole: bool) -> bool {
    let mut room = [0; 64];
    let done = reported(fault, taken, &mut room).is_ok();
    done == whole && are_written(&room, wanted)
}

/// A fault with its line, status and number.
struct Line(RunFault, &'static str, u8, u8);

impl Row for Line {
    fn comes_out(&self, _alloc: Global) -> Result<bool, Memory> {
        Ok(
            is_reported(&self.0, 100, self.1.as_bytes(), true)
                && (status(&self.0), self.0.code()) == (self.2, self.3),
        )
    }
}

const LINES: &[Line] = &[
    Line(RunFault::PastEnd(3), "bidigrid: place 3: PastEnd\n", 1, 6),
    Line(
        RunFault::Tables(TABLE),
        "bidigrid: ucd lb line 17: UnknownValue\n",
        1,
        1,
    ),
    Line(
        RunFault::Schedule(5, ScheduleFault::NoSuchDesk),
        "bidigrid: schedule line 5: NoSuchDesk\n",
        1,
        3,
    ),
    Line(
        RunFault::File(3, CUT),
        "bidigrid: file 3 frame 12: Truncated\n",
        1,
        2,
    ),
    Line(
        RunFault::File(64, OTHER),
        "bidigrid: file 64 frame 0: BadMagic\n",
        1,
        2,
    ),
    Line(
        RunFault::Step(0, 1, TakeFault::IdentifierReused),
        "bidigrid: step line 0 desk 1: IdentifierReused\n",
        1,
        4,
    ),
    Line(
        RunFault::Step(7, 2, TakeFault::Full),
        "bidigrid: step line 7 desk 2: Full\n",
        1,
        4,
    ),
    Line(
        RunFault::Listing(12, LineFault::ZeroField),
        "bidigrid: listing line 12: ZeroField\n",
        1,
        5,
    ),
    Line(RunFault::Device, "bidigrid: device\n", 3, 7),
    Line(
        RunFault::ReadFailed(0),
        "bidigrid: cannot read some/path\n",
        3,
        8,
    ),
    Line(RunFault::Memory, "bidigrid: memory\n", 3, 9),
    Line(RunFault::TooLong(2), "bidigrid: file 2: TooLong\n", 1, 10),
];

#[test]
fn each_fault_has_its_line_and_its_status(rt: HostRuntime) {
    assert_rows(&rt, LINES);
}

/// The first number of bytes at which a line that can not be written is no device fault.
fn wrong_beginning(row: &Line) -> Option<usize> {
    for taken in 0..row.1.len() {
        if !is_reported(&row.0, taken, &row.1.as_bytes()[..taken], false) {
            return Some(taken);
        }
    }
    None
}

#[test]
fn a_line_that_can_not_be_written_is_a_device_fault(rt: HostRuntime) {
    for row in LINES {
        assert_none(&rt, row.1, wrong_beginning(row));
    }
}

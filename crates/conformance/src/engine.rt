//! The run of a test file.

ghost use Rattle.std.specs.Prelude.{◌≡◌, ◌+◌, ◌↔◌, IsTrue, IfOk, OnOk};
ghost use Rattle.conformance.specs.Agreement.{IsAsWanted};
ghost use Rattle.conformance.specs.Came.{breaks_of, CameAsWanted, IsOneParagraph, IsByChoice};
ghost use Rattle.conformance.specs.Counted.{counted, cases_of, asked_of};
ghost use Rattle.conformance.specs.declared.tally.Choice.{Choice};
ghost use Rattle.conformance.specs.declared.tally.Verdict.TheVariants.{Agrees, Differs, Chosen};

use crate::bidi::{BidiLine, are_levels, is_level, line_of, wanted_places};
use crate::breaks::breaks_of;
use crate::case::{
    BreakCase, ClassLine, Wanted, class_line, read_breaks, read_characters, read_classes,
};
use crate::choice::choice_of;
use crate::fault::{LineFault, RunFault};
use crate::field::{content, read_levels, read_places};
use crate::report::{put_summary, report_breaks, report_levels};
use crate::tally::{Tally, Verdict};
use crate::test_file::TestFile;
use bg_types::{Base, Sink, put_all};
use std::alloc::Global;
use std::io::{BufRead, ErrorKind};
use ucd_files::Tables;

/// The greatest length of a line, in bytes, its end included.
const BOUND: u64 = 65_536;

/// How many of the cases that differ are reported.
const REPORTED: u64 = 20;

/// The bits of a line of `BidiTest.txt`.
const AUTOMATIC: u8 = 1;

const LEFT_TO_RIGHT: u8 = 2;

const RIGHT_TO_LEFT: u8 = 4;

/// A run of a test file.
#[derive(Drop)]
struct Comparison<'a> {
    alloc: Global,
    tables: &'a Tables,
    tally: Tally,
    /// The text that is compared.
    text: String,
    /// What is wanted of it: in `BidiTest.txt` what the last lines `@Levels` and `@Reorder` said.
    wanted: Wanted,
    /// The case of a line of `LineBreakTest.txt`.
    breaks: BreakCase,
    /// The report of the last case that differed.
    report: Option<String>,
}

/// Compares the cases of a test file, writes the first 20 that differ, and then the line of
/// counts.
pub fn run<B: BufRead, S: Sink>(
    alloc: Global,
    tables: &Tables,
    kind: TestFile,
    file: &mut B,
    out: &mut S,
) -> Result<Tally, RunFault> {
    let tally = compare_all(alloc, tables, kind, file, out)?;
    let mut text = String::new(alloc);
    let done = tell_all(kind, &tally, &mut text, out);
    done.map(|()| tally)
}

/// Writes the line of counts.
fn tell_all<S: Sink>(
    kind: TestFile,
    tally: &Tally,
    text: &mut String,
    out: &mut S,
) -> Result<(), RunFault> {
    put_summary(text, kind.name(), tally)?;
    put_text(out, text.as_str())
}

/// Compares the cases of a test file, and writes the first 20 that differ. Makes what a run owns, and lends it: each way out of a
/// function proves again that what it owns may be dropped.
fn compare_all<B: BufRead, S: Sink>(
    alloc: Global,
    tables: &Tables,
    kind: TestFile,
    file: &mut B,
    out: &mut S,
) -> Result<Tally, RunFault> {
    let mut comparison = Comparison::new(alloc, tables);
    let mut line = Vec::new(alloc);
    let done = comparison.take_lines(kind, file, &mut line, out);
    done.map(|()| comparison.tally)
}

/// Writes a text to a sink, which may have failed before.
fn put_text<S: Sink>(out: &mut S, text: &str) -> Result<(), RunFault> {
    if out.failed() {
        return Err(RunFault::Device);
    }
    Ok(put_all(out, text.as_bytes())?)
}

/// Writes the report of a case of a line.
fn put_report<S: Sink>(
    alloc: Global,
    kind: TestFile,
    number: u64,
    report: &str,
    out: &mut S,
) -> Result<(), RunFault> {
    let text = format!(in alloc; "{} line {number}: {report}\n", kind.name())?;
    put_text(out, text.as_str())
}

/// A fault of the line of this number.
fn at(number: u64, fault: RunFault) -> RunFault {
    match fault {
        RunFault::Line(_, fault) => RunFault::Line(number, fault),
        fault => fault,
    }
}

/// Reads a line, and answers whether there is none.
fn read_line<B: BufRead + Drop>(file: B, line: &mut Vec<u8>) -> Result<bool, RunFault> {
    match file.take(BOUND + 1).read_until(b'\n', line) {
        Ok(count) if count as u64 > BOUND => Err(RunFault::Line(0, LineFault::TooLong)),
        Ok(count) => Ok(count == 0),
        Err(error) if error.kind() == ErrorKind::OutOfMemory => Err(RunFault::Memory),
        Err(_) => Err(RunFault::ReadFailed),
    }
}

impl<'a> Comparison<'a> {
    fn new(alloc: Global, tables: &'a Tables) -> Comparison<'a> {
        Comparison {
            alloc,
            tables,
            tally: Tally::default(),
            text: String::new(alloc),
            wanted: Wanted {
                level: None,
                levels: Vec::new(alloc),
                order: Vec::new(alloc),
            },
            breaks: BreakCase {
                text: String::new(alloc),
                breaks: Vec::new(alloc),
            },
            report: None,
        }
    }

    /// Compares the cases of each line.
    fn take_lines<B: BufRead, S: Sink>(
        &mut self,
        kind: TestFile,
        file: &mut B,
        line: &mut Vec<u8>,
        out: &mut S,
    ) -> Result<(), RunFault> {
        for number in 1..u64::MAX {
            line.clear();
            if read_line(&mut *file, line).map_err(|fault| at(number, fault))? {
                break;
            }
            self.take(kind, line).map_err(|fault| at(number, fault))?;
            self.tell(kind, number, out)?;
        }
        Ok(())
    }

    /// Writes the report of the last case that differed, if there is one.
    fn tell<S: Sink>(&mut self, kind: TestFile, number: u64, out: &mut S) -> Result<(), RunFault> {
        match self.report.take() {
            Some(report) => put_report(self.alloc, kind, number, report.as_str(), out),
            None => Ok(()),
        }
    }

    /// Compares the cases of a line.
    fn take(&mut self, kind: TestFile, line: &[u8]) -> Result<(), RunFault> {
        let Ok(text) = std::str::from_utf8(line) else {
            return Err(RunFault::Line(0, LineFault::BadUtf8));
        };
        let line = content(text);
        if line.is_empty() {
            return Ok(());
        }
        match kind {
            TestFile::BidiCharacter => self.take_characters(line),
            TestFile::Bidi => self.take_classes(line),
            TestFile::LineBreak => self.take_breaks(line),
        }
    }

    /// Counts a case.
    fn count(&mut self, verdict: Verdict) -> Result<(), RunFault>
        ensures counted { OnOk result (self.new.tally ≡ counted verdict self.old.tally) }
        ensures once { OnOk result (cases_of self.new.tally ≡ cases_of self.old.tally + 1) }
    {
        self.tally = self.tally.counted(verdict).ok_or(RunFault::TooMany)?;
        Ok(())
    }

    /// Counts a case, and makes its report unless enough have been reported.
    fn keep(&mut self, found: Found) -> Result<(), RunFault>
        ensures counted { OnOk result (self.new.tally ≡ counted found.verdict self.old.tally) }
        ensures once { OnOk result (cases_of self.new.tally ≡ cases_of self.old.tally + 1) }
    {
        let Found { verdict, report } = found;
        if report.is_some() && self.tally.differ < REPORTED {
            self.report = report;
        }
        self.count(verdict)
    }

    /// Compares the one case of a line.
    fn take_characters(&mut self, line: &str) -> Result<(), RunFault>
        ensures once { OnOk result (cases_of self.new.tally ≡ cases_of self.old.tally + 1) }
    {
        let base = read_characters(line, &mut self.text, &mut self.wanted)?;
        self.take_direction(base)
    }

    fn take_classes(&mut self, line: &str) -> Result<(), RunFault> {
        match class_line(line)? {
            ClassLine::Levels(levels) => read_levels(levels, &mut self.wanted.levels),
            ClassLine::Order(order) => read_places(order, &mut self.wanted.order),
            ClassLine::Case {
                classes,
                directions,
            } => {
                read_classes(classes, &mut self.text)?;
                self.take_directions(directions)
            }
            ClassLine::Other => Ok(()),
        }
    }

    /// Compares the text for each direction that is asked for.
    fn take_directions(&mut self, directions: u8) -> Result<(), RunFault>
        ensures each { OnOk result (cases_of self.new.tally ≡ cases_of self.old.tally + asked_of directions) }
    {
        if directions & AUTOMATIC != 0 {
            self.take_direction(Base::Auto)?;
        }
        if directions & LEFT_TO_RIGHT != 0 {
            self.take_direction(Base::Left)?;
        }
        if directions & RIGHT_TO_LEFT != 0 {
            self.take_direction(Base::Right)?;
        }
        Ok(())
    }

    /// Compares the text with what is wanted of it.
    fn take_direction(&mut self, base: Base) -> Result<(), RunFault>
        ensures once { OnOk result (cases_of self.new.tally ≡ cases_of self.old.tally + 1) }
    {
        let text = self.text.as_str();
        let found = compare_line(self.alloc, self.tables, text, base, &self.wanted)?;
        self.keep(found)
    }

    /// Compares the one case of a line.
    fn take_breaks(&mut self, line: &str) -> Result<(), RunFault>
        ensures once { OnOk result (cases_of self.new.tally ≡ cases_of self.old.tally + 1) }
    {
        read_breaks(line, &mut self.breaks)?;
        let found = compare_breaks(self.alloc, self.tables, &self.breaks)?;
        self.keep(found)
    }
}

/// What came of a case, and its report if it differs.
#[derive(Drop)]
struct Found {
    verdict: Verdict,
    report: Option<String>,
}

impl Found {
    fn of(verdict: Verdict) -> Found
        ensures { result.verdict ≡ verdict }
    {
        Found {
            verdict,
            report: None,
        }
    }

    fn difference(report: String) -> Found
        ensures { result.verdict ≡ Differs }
    {
        Found {
            verdict: Verdict::Differs,
            report: Some(report),
        }
    }
}

/// What comes of a text for a base direction.
fn compare_line(
    alloc: Global,
    tables: &Tables,
    text: &str,
    base: Base,
    wanted: &Wanted,
) -> Result<Found, RunFault>
    ensures agrees { IfOk result (λ found. found.verdict ≡ Agrees → CameAsWanted tables.now base text.now wanted.now) }
    ensures differs { IfOk result (λ found. found.verdict ≡ Differs → IsOneParagraph tables.now text.now → CameAsWanted tables.now base text.now wanted.now → ⊥) }
    ensures chosen { IfOk result (λ found. (choice : Choice) → found.verdict ≡ Chosen choice → ⊥) }
{
    let Some(came) = line_of(alloc, tables, base, text)? else {
        let report = String::from_str(alloc, "more than one paragraph")?;
        return Ok(Found::difference(report));
    };
    let places = wanted_places(alloc, &wanted.levels, &came.order)?;
    if is_as_wanted(wanted, &came, &places) {
        return Ok(Found::of(Verdict::Agrees));
    }
    Ok(Found::difference(report_levels(alloc, wanted, &came, &places)?))
}

/// Whether the level of the paragraph, the levels and the order are as wanted.
fn is_as_wanted(wanted: &Wanted, came: &BidiLine, places: &[u32]) -> bool
    ensures { IsTrue result ↔ IsAsWanted wanted.now came.now places.now }
{
    is_level(wanted.level, came.level)
        && are_levels(&wanted.levels, &came.levels)
        && places == wanted.order.as_slice()
}

/// Whether a line may end where it is wanted, and nowhere else.
fn are_breaks(wanted: &[bool], came: &[bool]) -> bool
    ensures { IsTrue result ↔ wanted.now ≡ came.now }
{
    wanted == came
}

/// What comes of the breaks of a text.
fn compare_breaks(alloc: Global, tables: &Tables, case: &BreakCase) -> Result<Found, RunFault>
    ensures agrees { IfOk result (λ found. found.verdict ≡ Agrees → case.now.breaks.items ≡ breaks_of tables.now case.now.text.bytes.items) }
    ensures as_wanted { IfOk result (λ found. case.now.breaks.items ≡ breaks_of tables.now case.now.text.bytes.items → found.verdict ≡ Agrees) }
    ensures chosen { IfOk result (λ found. (choice : Choice) → found.verdict ≡ Chosen choice → IsByChoice tables.now case.now choice) }
    ensures differs { IfOk result (λ found. (choice : Choice) → found.verdict ≡ Differs → IsByChoice tables.now case.now choice → ⊥) }
{
    let text = case.text.as_str();
    let came = breaks_of(alloc, tables, text)?;
    if are_breaks(&case.breaks, &came) {
        return Ok(Found::of(Verdict::Agrees));
    }
    match choice_of(alloc, tables, text, &case.breaks, &came)? {
        Some(choice) => Ok(Found::of(Verdict::Chosen(choice))),
        None => {
            let report = report_breaks(alloc, text, &case.breaks, &came)?;
            Ok(Found::difference(report))
        }
    }
}

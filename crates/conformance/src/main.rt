//! The program `conformance`: Unicode's own test files, against the crates of the layout.
#![tactic(auto)]

mod bidi;
mod breaks;
mod case;
mod choice;
mod class;
mod engine;
mod fault;
mod field;
mod report;
mod request;
mod tally;
mod test_file;
mod words;

use bg_types::Out;
use command_line::{Stop, end, flush, read_data, tell};
use engine::run;
use fault::{FaultAt, RunFault};
use std::fmt::Display;
use std::fs::File;
use std::io::{self, BufRead, BufReader, BufWriter, Write};
use std::process::ExitCode;
use tally::Tally;
use test_file::TestFile;
use ucd_files::{Tables, Ucd};

/// The name at the front of the line about a fault.
const NAME: &str = "conformance";

fn main(rt: HostRuntime) -> ExitCode {
    let words = match command_line::words(&rt) {
        Ok(words) => words,
        Err(stop) => return without_work(&rt, &stop),
    };
    match words::job(rt.alloc(), words.as_slice()) {
        Ok(job) => compare_all(&rt, job.folder, &job.files),
        Err(stop) => without_work(&rt, &stop),
    }
}

/// Loads the data files, and runs the test files by them.
fn compare_all(rt: &HostRuntime, folder: &str, files: &[&str]) -> ExitCode {
    let data = match read_data(rt, folder) {
        Ok(data) => data,
        Err(unread) => return refuse(rt, &unread),
    };
    compare_by(rt, folder, &data.ucd(false), files)
}

/// Runs the test files by the data files of a folder.
fn compare_by(rt: &HostRuntime, folder: &str, ucd: &Ucd, files: &[&str]) -> ExitCode {
    match ucd.load(rt.alloc()) {
        Ok(tables) => compare_each(rt, &tables, files),
        Err(fault) => refuse_at(rt, folder, RunFault::from(fault)),
    }
}

/// Runs test files in order, and gives the status: 0 where no case differs, 1 where some do.
fn compare_each(rt: &HostRuntime, tables: &Tables, files: &[&str]) -> ExitCode {
    let mut differs = false;
    for path in files {
        match compare(rt, tables, path) {
            Ok(tally) => differs = differs || tally.differ > 0,
            Err(fault) => return refuse_at(rt, path, fault),
        }
    }
    ExitCode::from(u8::from(differs))
}

/// Runs a test file, and writes what came of it.
fn compare(rt: &HostRuntime, tables: &Tables, path: &str) -> Result<Tally, RunFault> {
    let kind = test_file::kind(path).ok_or(RunFault::Name)?;
    let Ok(file) = File::open(rt, path) else {
        return Err(RunFault::ReadFailed);
    };
    match BufReader::new(rt.alloc(), file) {
        Ok(mut reader) => compare_read(rt, tables, kind, &mut reader),
        Err(_) => Err(RunFault::Memory),
    }
}

/// Runs a test file that is open, and writes what came of it.
fn compare_read<B: BufRead>(
    rt: &HostRuntime,
    tables: &Tables,
    kind: TestFile,
    file: &mut B,
) -> Result<Tally, RunFault> {
    let Ok(mut buffered) = BufWriter::new(rt.alloc(), io::writer(rt)) else {
        return Err(RunFault::Memory);
    };
    let done = run(rt.alloc(), tables, kind, file, &mut Out::new(&mut buffered));
    flushed(done, &mut buffered)
}

/// What a run came to, once all that it wrote is flushed.
fn flushed<W: Write>(done: Result<Tally, RunFault>, out: &mut W) -> Result<Tally, RunFault> {
    let tally = done?;
    flush(out)?;
    Ok(tally)
}

/// Ends a run that has nothing to do.
fn without_work(rt: &HostRuntime, stop: &Stop) -> ExitCode {
    let mut out = Out::new(io::writer(rt));
    let mut err = Out::new(rt.stderr());
    ExitCode::from(end(NAME, stop, &mut out, &mut err))
}

/// Ends a run at a fault of a file or a folder.
fn refuse_at(rt: &HostRuntime, path: &str, fault: RunFault) -> ExitCode {
    refuse(rt, &FaultAt { path, fault })
}

/// Writes the line about a fault. Where it can't be written, only the status shows the fault.
fn refuse<F: Display>(rt: &HostRuntime, fault: &F) -> ExitCode {
    let _unheard = tell(NAME, fault, &mut Out::new(rt.stderr()));
    ExitCode::from(3)
}

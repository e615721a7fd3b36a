//! The program `bidigrid`: operation files become text, drawn grids, walks of a caret, listings and files
//! of version 2, and listings and what is typed become files.
#![tactic(auto)]

mod key;

ghost use Rattle.std.specs.Prelude.{◌≡◌, false, length, map as each, vec_len};
ghost use Rattle.desk_files.specs.Readers.{AreWorking};

use bg_types::{Device, Out, Sink};
use command_line::{
    Data, INPUT, Job, PROGRAM, Replay, Stop, Typing, Unread, Walk, end, flush, folder_of, job,
    open_all, path_of, read, read_data, report, tell, words,
};
use desk_files::{RunFault, status, text_from};
use desk_runs::{Change, TypingFault, carets_from, replay_from, typed};
use key::draw_key;
use op_codec::Source;
use op_listing::{dump, migrate, pack};
use std::alloc::Global;
use std::io::{self, BufWriter, Write};
use std::process::ExitCode;
use ucd_files::Ucd;

fn main(rt: HostRuntime) -> ExitCode {
    match words(&rt) {
        Ok(words) => run(&rt, words.as_slice()),
        Err(stop) => stop_at(&rt, &stop),
    }
}

/// Does what the words of the command line ask for. What a run owns is made by a function each, and lent: each way out of a
/// function proves again that what it owns may be dropped.
fn run(rt: &HostRuntime, words: &[String]) -> ExitCode {
    match job(rt.alloc(), words) {
        Ok(job) => run_job(rt, &job),
        Err(stop) => stop_at(rt, &stop),
    }
}

fn run_job(rt: &HostRuntime, job: &Job) -> ExitCode {
    match BufWriter::new(rt.alloc(), io::writer(rt)) {
        Ok(mut buffered) => run_into(rt, job, &mut buffered),
        Err(_) => refuse(rt, &RunFault::Memory, ""),
    }
}

fn run_into<W: Write>(rt: &HostRuntime, job: &Job, out: &mut W) -> ExitCode {
    match job {
        Job::Text { files } => run_text(rt, files.as_slice(), out),
        Job::Replay(job) => run_replay(rt, job, out),
        Job::Caret(job) => run_caret(rt, job, out),
        Job::Type(job) => run_type(rt, job, out),
        Job::Dump { file } => run_over_one(rt, file, Engine::Dump, out),
        Job::Migrate { file } => run_over_one(rt, file, Engine::Migrate, out),
        Job::Pack { listing } => run_over_one(rt, listing, Engine::Pack, out),
    }
}

fn run_text<W: Write>(rt: &HostRuntime, paths: &[&str], out: &mut W) -> ExitCode {
    match open_all(rt, paths) {
        Ok(mut files) => {
            let done = text_from(
                rt.alloc(),
                draw_key(rt),
                &mut files,
                &mut Out::new(&mut *out),
            );
            finish(rt, done, paths, out)
        }
        Err(unread) => lose(rt, &unread),
    }
}

fn run_replay<W: Write>(rt: &HostRuntime, job: &Replay, out: &mut W) -> ExitCode {
    match data_of(rt, job.folder) {
        Ok(data) => replay_by(rt, job, &data.ucd(job.wide_ambiguous), out),
        Err(status) => status,
    }
}

fn replay_by<W: Write>(rt: &HostRuntime, job: &Replay, ucd: &Ucd, out: &mut W) -> ExitCode {
    match open_all(rt, job.files.as_slice()) {
        Ok(mut files) => replay_files(rt, job, ucd, &mut files, out),
        Err(unread) => lose(rt, &unread),
    }
}

fn replay_files<R: Source, W: Write>(
    rt: &HostRuntime,
    job: &Replay,
    ucd: &Ucd,
    files: &mut [R],
    out: &mut W,
) -> ExitCode
    requires count { length files.old ≡ vec_len job.now.files }
    requires working { AreWorking (each R.has_failed files.old) }
{
    match schedule_of(rt, job.schedule) {
        Ok(schedule) => {
            let done = replay_from(
                rt.alloc(),
                draw_key(rt),
                ucd,
                job.width,
                job.base,
                files,
                schedule.as_deref(),
                &mut Out::new(&mut *out),
            );
            finish(rt, done, job.files.as_slice(), out)
        }
        Err(unread) => lose(rt, &unread),
    }
}

fn run_caret<W: Write>(rt: &HostRuntime, job: &Walk, out: &mut W) -> ExitCode {
    match data_of(rt, job.folder) {
        Ok(data) => walk_by(rt, job, &data.ucd(job.wide_ambiguous), out),
        Err(status) => status,
    }
}

fn walk_by<W: Write>(rt: &HostRuntime, job: &Walk, ucd: &Ucd, out: &mut W) -> ExitCode {
    match open_all(rt, job.files.as_slice()) {
        Ok(mut files) => {
            let done = carets_from(
                rt.alloc(),
                draw_key(rt),
                ucd,
                job.width,
                job.base,
                &mut files,
                job.place,
                job.moves.as_slice(),
                &mut Out::new(&mut *out),
            );
            finish(rt, done, job.files.as_slice(), out)
        }
        Err(unread) => lose(rt, &unread),
    }
}

/// The data files of the folder that is asked for, or the status of a run that ends without them.
fn data_of(rt: &HostRuntime, folder: Option<&str>) -> Result<Data, ExitCode> {
    match folder_of(rt, folder) {
        Ok(folder) => data_in(rt, folder.as_str()),
        Err(stop) => Err(stop_at(rt, &stop)),
    }
}

fn data_in(rt: &HostRuntime, folder: &str) -> Result<Data, ExitCode> {
    match read_data(rt, folder) {
        Ok(data) => Ok(data),
        Err(unread) => Err(lose(rt, &unread)),
    }
}

/// The bytes of the schedule, if there is one.
fn schedule_of(rt: &HostRuntime, path: Option<&str>) -> Result<Option<Vec<u8>>, Unread> {
    match path {
        Some(path) => Ok(Some(read(rt, path)?)),
        None => Ok(None),
    }
}

fn run_type<W: Write>(rt: &HostRuntime, job: &Typing, out: &mut W) -> ExitCode {
    match typed_bytes(rt, job.text) {
        Ok(text) => type_bytes(rt, job, text.as_slice(), out),
        Err(unread) => lose(rt, &unread),
    }
}

fn type_bytes<W: Write>(rt: &HostRuntime, job: &Typing, text: &[u8], out: &mut W) -> ExitCode {
    match open_all(rt, job.files.as_slice()) {
        Ok(mut files) => {
            let change = Change {
                site: job.site,
                place: job.place,
                erased: job.erased,
            };
            let done = typed(
                rt.alloc(),
                draw_key(rt),
                &mut files,
                &change,
                text,
                job.version,
                &mut Out::new(&mut *out),
            );
            finish_typing(rt, done, job.files.as_slice(), out)
        }
        Err(unread) => lose(rt, &unread),
    }
}

/// Ends a run that typed: a fault of its own comes before anything is written.
fn finish_typing<W: Write>(
    rt: &HostRuntime,
    done: Result<(), TypingFault>,
    paths: &[&str],
    out: &mut W,
) -> ExitCode {
    match done {
        Ok(()) => finish(rt, Ok(()), paths, out),
        Err(TypingFault::Run(fault)) => finish(rt, Err(fault), paths, out),
        Err(fault) => {
            let _unheard = tell(PROGRAM, &fault, &mut Out::new(rt.stderr()));
            ExitCode::from(fault.status())
        }
    }
}

/// The bytes that are typed: those of a word, or of standard input.
fn typed_bytes(rt: &HostRuntime, text: Option<&str>) -> Result<Vec<u8>, Unread> {
    match text {
        Some(text) => Ok(text.as_bytes().to_vec(rt.alloc())?),
        None => read(rt, INPUT),
    }
}

/// Runs `dump`, `migrate` or `pack` over the one file that it asks for.
fn run_over_one<W: Write>(rt: &HostRuntime, path: &str, engine: Engine, out: &mut W) -> ExitCode {
    match read(rt, path) {
        Ok(bytes) => {
            let done = engine.run(rt.alloc(), bytes.as_slice(), &mut Out::new(&mut *out));
            finish(rt, done, &[], out)
        }
        Err(unread) => lose(rt, &unread),
    }
}

/// The engines over one file.
#[derive(Clone, Copy)]
enum Engine {
    Dump,
    Migrate,
    Pack,
}

impl Engine {
    fn run<S: Sink>(self, alloc: Global, bytes: &[u8], out: &mut S) -> Result<(), RunFault>
        requires { S.has_failed out.old ≡ false }
    {
        match self {
            Engine::Dump => Ok(dump(alloc, bytes, out)?),
            Engine::Migrate => Ok(migrate(alloc, bytes, out)?),
            Engine::Pack => Ok(pack(alloc, bytes, out)?),
        }
    }
}

/// Ends a run of an engine that read the files at these paths and wrote to this writer. What was
/// written before a refusal comes before the line about it, and a device that loses it is reported first.
fn finish<W: Write>(
    rt: &HostRuntime,
    done: Result<(), RunFault>,
    paths: &[&str],
    out: &mut W,
) -> ExitCode {
    if let Err(Device) = flush(out) {
        return refuse(rt, &RunFault::Device, "");
    }
    match done {
        Ok(()) => ExitCode::SUCCESS,
        Err(fault) => refuse(rt, &fault, path_of(&fault, paths)),
    }
}

/// Ends a run that has nothing to do.
fn stop_at(rt: &HostRuntime, stop: &Stop) -> ExitCode {
    let mut out = Out::new(io::writer(rt));
    let mut err = Out::new(rt.stderr());
    ExitCode::from(end(PROGRAM, stop, &mut out, &mut err))
}

/// Ends a run whose files can't be read.
fn lose(rt: &HostRuntime, unread: &Unread) -> ExitCode {
    match unread {
        Unread::ReadFailed(path) => refuse(rt, &RunFault::ReadFailed(0), path.as_str()),
        Unread::Memory => refuse(rt, &RunFault::Memory, ""),
    }
}

/// Writes the line about a fault, and returns its status. Where the line can't be written, only the
/// status shows the fault.
fn refuse(rt: &HostRuntime, fault: &RunFault, path: &str) -> ExitCode {
    let mut err = Out::new(rt.stderr());
    let _unheard = report(fault, path, &mut err);
    ExitCode::from(status(fault))
}

//! The engine `replay`: desks take and merge operations by a schedule, and their texts are drawn.

ghost use Rattle.std.specs.Prelude.{◌≡◌, ◌≤◌, Some, None, false, length, map as each};
ghost use Rattle.std.specs.Option.{option_copied};
ghost use Rattle.desk_runs.specs.Setting.{print_in, files_in};
ghost use Rattle.desk_files.specs.Files.{bytes_of};
ghost use Rattle.desk_files.specs.Readers.{AreWorking, AreAsked};
ghost use Rattle.desk_runs.specs.ReplayOutcome.{given, IsReplayOutcome, IsReplayOutcomeOver, IsPlanOutcome};

mod room;
mod round;
mod setting;
mod show;
mod steps;

use crate::desks::new_desks;
use bg_types::{Base, Sink};
use desk_files::{RunFault, read_all, read_schedule, readers_of};
use op_codec::Source;
use room::new_view;
use round::run_round;
use setting::Setting;
use std::alloc::Global;
use steps::run_steps;
use ucd_files::Ucd;
use view_cache::View;

/// Does the steps of a schedule, or without one lets each desk take all files and shows it. There
/// are as many desks as files, and desk k has site k. For each show, in order, the print of the
/// grid of the desk's text is written, at a width in columns. All data is read before the first
/// step is taken. Where the key is secret, it is hard to write files that make the run slow.
///
/// Which answer the data has is `laws::replay_is_decided`.
/// Cost: that of its takes, merges and shows; memory likewise.
pub fn replay<S: Sink>(
    alloc: Global,
    key: u128,
    ucd: &Ucd,
    width: u16,
    base: Base,
    files: &[Vec<u8>],
    schedule: Option<&[u8]>,
    out: &mut S,
) -> Result<(), RunFault>
    requires narrow { 2 ≤ width }
    requires wide { width ≤ 500 }
    requires some { 1 ≤ length files.now }
    requires many { length files.now ≤ 64 }
    requires working { S.has_failed out.old ≡ false }
    ensures { IsReplayOutcome (given ucd.now width base (bytes_of files.now) (option_copied schedule.entry))
        (S.written out.old) (S.written out.new) (S.has_failed out.new) result }
{
    let mut readers = readers_of(alloc, files)?;
    replay_from(alloc, key, ucd, width, base, &mut readers, schedule, out)
}

/// Does what `replay` does, over the files of readers. Each is read in pieces of at most 4,096 bytes, to
/// its end, to a fault in its bytes, or to the byte past the greatest length of a file.
/// Cost: that of `replay`, memory too, in pieces of 4,096 bytes.
pub fn replay_from<R: Source, S: Sink>(
    alloc: Global,
    key: u128,
    ucd: &Ucd,
    width: u16,
    base: Base,
    files: &mut [R],
    schedule: Option<&[u8]>,
    out: &mut S,
) -> Result<(), RunFault>
    requires narrow { 2 ≤ width }
    requires wide { width ≤ 500 }
    requires some { 1 ≤ length files.old }
    requires many { length files.old ≤ 64 }
    requires readers { AreWorking (each R.has_failed files.old) }
    requires working { S.has_failed out.old ≡ false }
    ensures asked { AreAsked (each R.remaining files.old) (each R.remaining files.new) }
    ensures outcome { IsReplayOutcomeOver (each R.remaining files.old) (each R.remaining files.new) (each R.has_failed files.new)
        (λ told. given ucd.now width base told (option_copied schedule.entry))
        (S.written out.old) (S.written out.new) (S.has_failed out.new) result }
{
    let tables = ucd.load(alloc)?;
    let lists = read_all(alloc, files)?;
    let setting = Setting {
        alloc,
        tables: &tables,
        width,
        base,
        files: &lists,
    };
    run(key, &setting, schedule, out)
}

/// Does the steps of a schedule, or those of a run without one. All shows draw from one view.
fn run<S: Sink>(
    key: u128,
    setting: &Setting,
    schedule: Option<&[u8]>,
    out: &mut S,
) -> Result<(), RunFault>
    requires many { length setting.now.files.now ≤ 64 }
    requires working { S.has_failed out.old ≡ false }
    ensures { IsPlanOutcome (print_in setting.now) (files_in setting.now) (option_copied schedule.entry)
        (S.written out.old) (S.written out.new) (S.has_failed out.new) result }
{
    let mut view = new_view(key, setting)?;
    match schedule {
        Some(bytes) => run_schedule(key, setting, &mut view, bytes, out),
        None => run_files(key, setting, &mut view, out),
    }
}

fn run_schedule<S: Sink>(
    key: u128,
    setting: &Setting,
    view: &mut View,
    schedule: &[u8],
    out: &mut S,
) -> Result<(), RunFault>
    requires many { length setting.now.files.now ≤ 64 }
    requires tables { view.old.tables ≡ setting.now.tables.now }
    requires working { S.has_failed out.old ≡ false }
    ensures { IsPlanOutcome (print_in setting.now) (files_in setting.now) (Some schedule.now)
        (S.written out.old) (S.written out.new) (S.has_failed out.new) result }
{
    let steps = read_schedule(setting.alloc, schedule, setting.files)?;
    let mut desks = new_desks(setting.alloc, key, setting.files.len())?;
    run_steps(setting, view, &mut desks, &steps, out)
}

fn run_files<S: Sink>(
    key: u128,
    setting: &Setting,
    view: &mut View,
    out: &mut S,
) -> Result<(), RunFault>
    requires many { length setting.now.files.now ≤ 64 }
    requires tables { view.old.tables ≡ setting.now.tables.now }
    requires working { S.has_failed out.old ≡ false }
    ensures { IsPlanOutcome (print_in setting.now) (files_in setting.now) None
        (S.written out.old) (S.written out.new) (S.has_failed out.new) result }
{
    let mut desks = new_desks(setting.alloc, key, setting.files.len())?;
    run_round(setting, view, &mut desks, out)
}

//! A run without a schedule.

ghost use Rattle.std.specs.Prelude.{◌≡◌, ◌≤◌, ◌<◌, ◌^◌, length};
ghost use Rattle.desk_runs.specs.Setting.{files_in, MayDoSteps, IsStepsOutcomeIn, IsSilentOutcomeIn};
ghost use Rattle.desk_runs.specs.Round.{nth_turn, turn, file_takes, files_takes, all_takes, all_shows, round};

use super::setting::Setting;
use super::show::show;
use super::steps::take_op;
use bg_types::Sink;
use desk_files::{Desk, RunFault};
use view_cache::View;

/// Each desk takes all files, beginning with that of its own number, and then each is shown.
pub fn run_round<S: Sink>(
    setting: &Setting,
    view: &mut View,
    desks: &mut [Desk],
    out: &mut S,
) -> Result<(), RunFault>
    requires { MayDoSteps setting.now view.old desks.old (S.has_failed out.old) }
    ensures outcome { IsStepsOutcomeIn setting.now desks.old (round (files_in setting.now)) desks.new
        (S.written out.old) (S.written out.new) (S.has_failed out.new) result }
    ensures tables { view.new.tables ≡ view.old.tables }
{
    take_all(setting, desks)?;
    show_all(setting, view, desks, out)
}

/// Each desk takes all files, one desk after the other.
fn take_all(setting: &Setting, desks: &mut [Desk]) -> Result<(), RunFault>
    requires { length desks.old ≡ length setting.now.files.now }
    ensures { IsSilentOutcomeIn setting.now desks.old (all_takes (files_in setting.now)) desks.new result }
{
    for desk in 1..setting.files.len() + 1 {
        take_files(setting, desks, desk)?;
    }
    Ok(())
}

/// A desk takes all files, beginning with that of its own number.
fn take_files(setting: &Setting, desks: &mut [Desk], desk: usize) -> Result<(), RunFault>
    requires count { length desks.old ≡ length setting.now.files.now }
    requires at_least { 1 ≤ desk }
    requires at_most { desk ≤ length setting.now.files.now }
    ensures { IsSilentOutcomeIn setting.now desks.old
        (files_takes (files_in setting.now) desk (turn (length (files_in setting.now)) desk)) desks.new result }
{
    let count = setting.files.len();
    for behind in 0..count {
        let file = nth_turn(count, desk, behind);
        take_file(setting, desks, desk, file)?;
    }
    Ok(())
}

/// A desk takes all operations of a file, in order.
fn take_file(
    setting: &Setting,
    desks: &mut [Desk],
    desk: usize,
    file: usize,
) -> Result<(), RunFault>
    requires count { length desks.old ≡ length setting.now.files.now }
    requires desk_at_least { 1 ≤ desk }
    requires desk_at_most { desk ≤ length setting.now.files.now }
    requires file_at_least { 1 ≤ file }
    requires file_at_most { file ≤ length setting.now.files.now }
    ensures { IsSilentOutcomeIn setting.now desks.old (file_takes (files_in setting.now) desk file) desks.new result }
{
    for op in 1..setting.files[file - 1].len() + 1 {
        take_op(setting, desks, 0, desk, file, op)?;
    }
    Ok(())
}

/// Each desk is shown.
fn show_all<S: Sink>(
    setting: &Setting,
    view: &mut View,
    desks: &[Desk],
    out: &mut S,
) -> Result<(), RunFault>
    requires { MayDoSteps setting.now view.old desks.now (S.has_failed out.old) }
    ensures outcome { IsStepsOutcomeIn setting.now desks.now (all_shows (files_in setting.now)) desks.now
        (S.written out.old) (S.written out.new) (S.has_failed out.new) result }
    ensures tables { view.new.tables ≡ view.old.tables }
{
    for desk in 1..setting.files.len() + 1 {
        show(setting, view, &desks[desk - 1], out)?;
    }
    Ok(())
}

/// Of this many files the one so far after that of the desk's own number, wrapping round.
fn nth_turn(count: usize, desk: usize, behind: usize) -> usize
    requires first { 1 ≤ desk }
    requires desk { desk ≤ count }
    requires behind { behind < count }
    requires few { count < 2 ^ 63 }
    ensures turn { result ≡ nth_turn count desk behind }
    ensures at_least { 1 ≤ result }
    ensures at_most { result ≤ count }
{
    (desk - 1 + behind) % count + 1
}

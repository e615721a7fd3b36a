//! The steps of a run, done one after the other.

ghost use Rattle.std.specs.Prelude.{◌≡◌, ◌∷◌, [], length};
ghost use Rattle.std.specs.List.{AllByRecursion};
ghost use Rattle.desk_runs.specs.Setting.{files_in, MayDoSteps, IsStepsOutcomeIn, IsSilentOutcomeIn};
ghost use Rattle.desk_runs.specs.Steps.{at_line};
ghost use Rattle.desk_files.specs.Schedule.{IsStepOf};
ghost use Rattle.desk_runs.specs.Cause.{answer_of};

use super::setting::Setting;
use super::show::show;
use bg_types::Sink;
use desk_files::{Desk, Numbered, RunFault, RunStep, step_fault};
use desk_replica::{TakeFault, merge_at, take_at};
use view_cache::View;

/// Does steps in order. A fault ends them.
pub fn run_steps<S: Sink>(
    setting: &Setting,
    view: &mut View,
    desks: &mut [Desk],
    steps: &[Numbered],
    out: &mut S,
) -> Result<(), RunFault>
    requires ready { MayDoSteps setting.now view.old desks.old (S.has_failed out.old) }
    requires steps { AllByRecursion (λ s. IsStepOf (files_in setting.now) s.step) steps.now }
    ensures outcome { IsStepsOutcomeIn setting.now desks.old steps.now desks.new
        (S.written out.old) (S.written out.new) (S.has_failed out.new) result }
    ensures tables { view.new.tables ≡ view.old.tables }
{
    for at in steps {
        run_step(setting, view, desks, at, out)?;
    }
    Ok(())
}

/// Does one step.
fn run_step<S: Sink>(
    setting: &Setting,
    view: &mut View,
    desks: &mut [Desk],
    at: &Numbered,
    out: &mut S,
) -> Result<(), RunFault>
    requires ready { MayDoSteps setting.now view.old desks.old (S.has_failed out.old) }
    requires step { IsStepOf (files_in setting.now) at.now.step }
    ensures outcome { IsStepsOutcomeIn setting.now desks.old (at.now ∷ []) desks.new
        (S.written out.old) (S.written out.new) (S.has_failed out.new) result }
    ensures tables { view.new.tables ≡ view.old.tables }
{
    match at.step {
        RunStep::Take { desk, file, op } => take_op(setting, desks, at.line, desk, file, op),
        RunStep::Merge { desk, from } => {
            let merged = merge_at(desks, desk - 1, from - 1);
            answer(at.line, desk, merged)
        }
        RunStep::Show { desk } => show(setting, view, &desks[desk - 1], out),
    }
}

/// A desk takes an operation of a file, at the step of a line.
pub fn take_op(
    setting: &Setting,
    desks: &mut [Desk],
    line: usize,
    desk: usize,
    file: usize,
    op: usize,
) -> Result<(), RunFault>
    requires count { length desks.old ≡ length setting.now.files.now }
    requires step { IsStepOf (files_in setting.now) (RunStep.Take desk file op) }
    ensures { IsSilentOutcomeIn setting.now desks.old (at_line line (RunStep.Take desk file op) ∷ []) desks.new result }
{
    let taken = take_at(desks, desk - 1, &setting.files[file - 1][op - 1]);
    answer(line, desk, taken)
}

/// The fault of a run for a fault of a desk at the step of a line.
fn answer<T: Drop>(line: usize, desk: usize, done: Result<T, TakeFault>) -> Result<(), RunFault>
    ensures { result ≡ answer_of line desk done }
{
    match done {
        Ok(_) => Ok(()),
        Err(fault) => Err(step_fault(line, desk, fault)),
    }
}

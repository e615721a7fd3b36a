//! Schedules: what their lines say.

ghost use Rattle.std.specs.Prelude.{IfOk, IfErr};
ghost use Rattle.std.specs.List.{AllByRecursion};
ghost use Rattle.desk_files.specs.Files.{lists_of};
ghost use Rattle.desk_files.specs.Schedule.{Schedules, IsStepOf};
ghost use Rattle.desk_files.specs.Cause.{IsScheduleCaused};

mod line;
mod step;

use crate::run_fault::RunFault;
use crate::schedule_fault::ScheduleFault;
use bg_types::Op;
use line::read_step;
use op_listing::{laws, split_line};
use std::alloc::Global;
pub use step::{Numbered, RunStep};

/// The steps of a schedule with the numbers of their lines, or its first fault.
/// Cost: O(n), memory for the steps.
pub fn read_schedule(
    alloc: Global,
    schedule: &[u8],
    files: &[Vec<Op>],
) -> Result<Vec<Numbered>, RunFault>
    ensures ok { IfOk result (λ steps. Schedules (lists_of files.now) schedule.now steps.items) }
    ensures there { IfOk result (λ steps. AllByRecursion (λ s. IsStepOf (lists_of files.now) s.step) steps.items) }
    ensures fault { IfErr result (IsScheduleCaused (lists_of files.now) schedule.now) }
{
    laws::lines_read::<ScheduleFault>();
    // Room for a step a line is taken once.
    let ends = schedule.iter().filter(|b| **b == b'\n').count();
    let mut steps = Vec::with_capacity(alloc, ends.saturating_add(1))?;
    let mut number = 0;
    let mut rest = schedule;
    while !rest.is_empty() {
        let (line, after) = split_line(rest);
        number += 1;
        match read_step(line, files) {
            None => {}
            Some(Ok(step)) => steps.push(Numbered { line: number, step })?,
            Some(Err(fault)) => return Err(RunFault::Schedule(number, fault)),
        }
        rest = after;
    }
    Ok(steps)
}

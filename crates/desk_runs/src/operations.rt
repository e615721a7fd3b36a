//! The operations of a change.

ghost use Rattle.std.specs.Prelude.{◌≡◌, ◌≤◌, ◌<◌, ◌+◌, ◌-◌, ◌^◌, ◌++◌, ◌⊎◌, length, OnOk, OnErr, IfOk, IfErr};
ghost use Rattle.std.specs.Str.{chars};
ghost use Rattle.bg_types.specs.OperationSet.{next, size};
ghost use Rattle.desk_files.specs.declared.run_fault.RunFault.TheVariants.{Memory as run_memory};
ghost use Rattle.desk_runs.specs.declared.typing_fault.TypingFault.TheVariants.{Run as typing_run, CounterSpent as typing_spent};
ghost use Rattle.rga_tree.specs.TextOf.{visible};
ghost use Rattle.desk_replica.specs.Replacement.{replacement};
ghost use Rattle.desk_runs.specs.Changing.{operations_of, Fits, IsUnfit};

use crate::change::Change;
use crate::typing_fault::TypingFault;
use bg_types::Op;
use desk_files::{Desk, RunFault};
use desk_replica::{MOST_OPERATIONS, TypeFault, laws};
use std::alloc::Global;

/// What the desk of a change's site makes by it: deletions, then the insertions of the characters. After a fault the
/// desk is as it was.
pub fn operations(
    alloc: Global,
    desk: &mut Desk,
    change: &Change,
    text: &str,
) -> Result<Vec<Op>, TypingFault>
    requires { desk.old.site ≡ change.now.site }
    ensures ok { IfOk result (λ ops. ops.items ≡ operations_of desk.old.set change.now (chars text.now)) }
    ensures err { OnErr result (desk.new ≡ desk.old) }
    ensures fits { OnOk result (Fits desk.old.set change.now (chars text.now)) }
    ensures fault { IfErr result (IsUnfit desk.old.set change.now (chars text.now)) }
{
    let place = match change.place {
        Some(place) => place as usize,
        None => desk.len(),
    };
    let erased = change.erased as usize;
    if place > desk.len() || erased > desk.len() - place {
        let erased = change.erased;
        return Err(TypingFault::PastEnd { place, erased });
    }
    let count = code_points(text);
    let room = MOST_OPERATIONS as usize - desk.op_count();
    if erased > room || count > room - erased {
        return Err(TypingFault::Full);
    }
    let mut ops = Vec::with_capacity(alloc, erased + count)?;
    // Where others are replaced, the same is typed as where nothing is erased.
    laws::stretches();
    replace(desk, place, place + erased, text, &mut ops)?;
    Ok(ops)
}

/// Replaces the visible characters from a place to an end, and adds the operations.
fn replace(
    desk: &mut Desk,
    place: usize,
    end: usize,
    text: &str,
    ops: &mut Vec<Op>,
) -> Result<(), TypingFault>
    requires order { place ≤ end }
    requires within { end ≤ length (visible desk.old.set) }
    requires room { size desk.old.set + ((end - place) + length (chars text.now)) ≤ 1_000_000 }
    ensures ok { OnOk result (ops.new.items ≡ ops.old.items ++ replacement desk.old.set desk.old.site place (end - place) (chars text.now)) }
    ensures counters { OnOk result (length (chars text.now) ≤ 2 ^ 32 - next desk.old.set) }
    ensures err { OnErr result (desk.new ≡ desk.old) }
    ensures fault { IfErr result (λ fault. (fault ≡ typing_run run_memory)
        ⊎ ((fault ≡ typing_spent) × (2 ^ 32 - next desk.old.set < length (chars text.now)))) }
{
    match desk.replace(place, end, text, ops) {
        Ok(()) => Ok(()),
        Err(TypeFault::CounterSpent) => Err(TypingFault::CounterSpent),
        Err(TypeFault::Memory) => Err(TypingFault::Run(RunFault::Memory)),
        Err(TypeFault::Full) => unreachable!(),
    }
}

/// How many code points a text has.
fn code_points(text: &str) -> usize
    ensures { result ≡ length (chars text.now) }
{
    text.chars().count()
}

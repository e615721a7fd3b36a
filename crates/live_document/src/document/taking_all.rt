//! Taking many operations in order, whose changes the paragraphs follow at once.

ghost use Rattle.std.specs.Prelude.{◌≡◌, ◌+◌, ◌<◌, ℕ, true, false, None, take, drop, length, vec_len, vec_capacity, OnErr, IfSome};
ghost use Rattle.bg_types.specs.Edit.{IsEdit};
ghost use Rattle.rga_tree.specs.TextOf.{text};
ghost use Rattle.desk_replica.specs.Reply.{IsTake};
ghost use Rattle.desk_replica.specs.Telling.{IsTold};
ghost use Rattle.live_document.specs.Cost.{IsBehind, KeepsUnchanged};
ghost use Rattle.live_document.specs.Documents.{IsDrawnAlike};
ghost use Rattle.live_document.specs.Showing.{no_window};
ghost use Rattle.desk_replica.specs.Taking.{AreTaken, AreTold, IsListPaid, IsRefusedNext};

use super::{Desk, Document};
use crate::following::follow_all;
use crate::shown::Shown;
use bg_types::{Change, Op};
use desk_replica::laws::told_changes;
use desk_replica::{TakeFault, Taken};

/// What became of operations that were to be taken in order.
#[derive(Clone, Copy, Debug, PartialEq, Eq)]
pub struct TakenAll {
    /// How many were taken, from the first on.
    pub taken: usize,
    /// Why the next one was refused; none where all were taken.
    pub fault: Option<TakeFault>,
    /// Whether there was memory to tell how the text changed by them.
    pub told: bool,
}

impl Document {
    /// Takes operations in order, as `take` does each, up to the first that is refused: those before it stay taken. Appends to
    /// the list how the text changed by them, or nothing where there is no memory for all of it: there is while as many
    /// are spare, and the list has room for that many changes and one for each insertion that waits. The paragraphs
    /// follow once, however many operations change one of them. Where one was taken, nothing is shown then.
    /// Cost: that of `Replica::take_telling` for each operation, and of `Buffer::apply_all` once; memory for what is
    /// told and for the paragraphs, and memory that must be there as `Replica::take` asks for it.
    pub fn take_all(&mut self, ops: &[Op], changes: &mut Vec<Change>) -> TakenAll
        ensures taken { AreTaken self.old.desk ops.now result.taken self.new.desk }
        ensures all { result.fault ≡ None → result.taken ≡ length ops.now }
        ensures fault { IfSome result.fault (IsRefusedNext self.new.desk ops.now result.taken) }
        ensures told { result.told ≡ true → AreTold self.old.desk.set (take result.taken ops.now) changes.old.items changes.new.items }
        ensures edit { result.told ≡ true → IsEdit (text self.old.desk.set) (drop (length changes.old.items) changes.new.items) (text self.new.desk.set) }
        ensures untold { result.told ≡ false → changes.new.items ≡ changes.old.items }
        ensures some { result.told ≡ false → 0 < result.taken }
        ensures paid { IsListPaid self.old.desk (length ops.now) (vec_len changes.old) (vec_capacity changes.old) → result.told ≡ true }
        ensures none { result.taken ≡ 0 → self.new ≡ self.old }
        ensures drawn { IsDrawnAlike self.old self.new }
        ensures window { 0 < result.taken → self.new.window ≡ no_window }
        ensures kept { result.told ≡ true → KeepsUnchanged self.old self.new (drop (length changes.old.items) changes.new.items) }
        ensures laid { self.new.laid ≡ self.old.laid }
        ensures behind { result.told ≡ false → IsBehind self.new }
    {
        told_changes();
        let told = changes.len();
        let outcome = take_each(&mut self.desk, ops, changes);
        if outcome.taken == 0 {
            return outcome;
        }
        self.shown = Shown::NOTHING;
        if !outcome.told {
            changes.truncate(told);
            self.behind = true;
            return outcome;
        }
        self.behind = follow_all(
            &self.tables,
            &mut self.buffer,
            self.behind,
            &changes[told..],
        );
        outcome
    }
}

/// Lets a desk take operations in order, up to the first that it refuses, and tells of them until there is no memory for
/// that.
fn take_each(desk: &mut Desk, ops: &[Op], changes: &mut Vec<Change>) -> TakenAll
    ensures taken { AreTaken desk.old ops.now result.taken desk.new }
    ensures all { result.fault ≡ None → result.taken ≡ length ops.now }
    ensures fault { IfSome result.fault (IsRefusedNext desk.new ops.now result.taken) }
    ensures told { result.told ≡ true → AreTold desk.old.set (take result.taken ops.now) changes.old.items changes.new.items }
    ensures behind { take (length changes.old.items) changes.new.items ≡ changes.old.items }
    ensures some { result.told ≡ false → 0 < result.taken }
    ensures paid { IsListPaid desk.old (length ops.now) (vec_len changes.old) (vec_capacity changes.old) → result.told ≡ true }
{
    let mut told = true;
    for (number, op) in ops.iter().enumerate() {
        if let Err(fault) = take_next(desk, op, changes, &mut told) {
            return TakenAll {
                taken: number,
                fault: Some(fault),
                told,
            };
        }
    }
    TakenAll {
        taken: ops.len(),
        fault: None,
        told,
    }
}

/// Lets a desk take an operation, and tells of it, unless there was no memory to tell of one before, or is none now.
fn take_next(
    desk: &mut Desk,
    op: &Op,
    changes: &mut Vec<Change>,
    told: &mut bool,
) -> Result<Taken, TakeFault>
    ensures take { IsTake desk.old op.now desk.new result }
    ensures told { told.new ≡ true → IsTold desk.old.set desk.new.set changes.old.items changes.new.items }
    ensures before { told.new ≡ true → told.old ≡ true }
    ensures untold { told.new ≡ false → changes.new.items ≡ changes.old.items }
    ensures same { OnErr result (told.new ≡ told.old) }
    ensures err { OnErr result (changes.new.items ≡ changes.old.items) }
    ensures paid { told.old ≡ true → (n : ℕ) → IsListPaid desk.old (n + 1) (vec_len changes.old) (vec_capacity changes.old)
        → (told.new ≡ true) × IsListPaid desk.new n (vec_len changes.new) (vec_capacity changes.new) }
{
    if !*told {
        return desk.take(op);
    }
    match desk.take_telling(op, changes) {
        Ok(taken) => Ok(taken),
        // It is refused, or there was no memory for what is told: the desk may need none.
        Err(_) => {
            let taken = desk.take(op)?;
            *told = false;
            Ok(taken)
        }
    }
}

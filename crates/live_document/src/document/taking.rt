//! Taking one operation or all of another desk, and telling what that changes in the text.

ghost use Rattle.std.specs.Prelude.{◌≡◌, ◌≤◌, ◌<◌, ◌+◌, ℕ, drop, length, OnOk, OnErr, IfOk, IfErr, IsOk, is_err, MatchResult, vec_len, vec_capacity};
ghost use Rattle.bg_types.specs.OperationSet.{Agree, Holds, size, union, with_operation};
ghost use Rattle.bg_types.specs.declared.op.OpView.{OpView as View};
ghost use Rattle.desk_replica.specs.declared.answer.TakeFault.{TakeFault as Fault};
ghost use Rattle.desk_replica.specs.Reply.{IsTaken, IsRefused, IsRefusal, IsHiding};
ghost use Rattle.desk_replica.specs.Merging.{IsMergeRefusal, IsMergeRefused};
ghost use Rattle.desk_replica.specs.Telling.{IsTold, IsUntaken, TellsAtMost, waiting_count};
ghost use Rattle.live_document.specs.Cost.{KeepsUnchanged, KeepsUntouched};
ghost use Rattle.live_document.specs.Documents.{IsDrawnAlike};
ghost use Rattle.live_document.specs.Runs.{Takes, Merges, IsCall};
ghost use Rattle.live_document.specs.Showing.{no_window};

use super::{Desk, Document};
use crate::following::follow_all;
use crate::shown::Shown;
use bg_types::{Change, Op};
use desk_replica::laws::told_changes;
use desk_replica::{TakeFault, Taken};

impl Document {
    /// Takes an operation, as the desk's `take` does. Then nothing is shown.
    /// Cost: that of `take_telling`; memory that must be there as `Replica::take` asks for it.
    pub fn take(&mut self, op: &Op) -> Result<Taken, TakeFault>
        ensures answer { MatchResult result (IsTaken self.old.desk.set op.now) (IsRefused self.old.desk.set op.now) }
        ensures accepted { OnOk result ((fault : Fault) → ¬ (IsRefusal self.old.desk.set op.now fault)) }
        ensures ok { OnOk result (self.new.desk.set ≡ with_operation self.old.desk.set op.now) }
        ensures limited { size self.new.desk.set ≤ 1_000_000 }
        ensures err { OnErr result (self.new ≡ self.old) }
        ensures site { self.new.desk.site ≡ self.old.desk.site }
        ensures spare { size self.old.desk.set + self.old.desk.spare ≤ size self.new.desk.set + self.new.desk.spare }
        ensures unpaid { IfErr result (λ fault. fault ≡ TakeFault.Memory → self.old.desk.spare ≡ 0) }
        ensures drawn { IsDrawnAlike self.old self.new }
        ensures window { OnOk result (self.new.window ≡ no_window) }
        ensures kept { OnOk result (KeepsUntouched self.old self.new) }
        ensures laid { self.new.laid ≡ self.old.laid }
        ensures call { IsCall self.old (Takes op.now) (is_err result) self.new }
    {
        let mut changes = Vec::new(self.alloc);
        match self.take_telling(op, &mut changes) {
            Ok(taken) => Ok(taken),
            // It is refused, or there was no memory for what is told: the desk may need none.
            Err(_) => {
                let taken = self.desk.take(op)?;
                self.behind = true;
                self.shown = Shown::NOTHING;
                Ok(taken)
            }
        }
    }

    /// Takes an operation, and appends to the list how the text changed by it, as the desk's `take_telling` does. A fault
    /// changes nothing, and nothing in the list. Then nothing is shown.
    /// Cost: that of `Replica::take_telling`, and of `Buffer::apply_all`; memory that must be there as
    /// `Replica::take_telling` asks for it.
    pub fn take_telling(&mut self, op: &Op, changes: &mut Vec<Change>) -> Result<Taken, TakeFault>
        ensures answer { MatchResult result (IsTaken self.old.desk.set op.now) (IsUntaken self.old.desk.set op.now) }
        ensures accepted { OnOk result ((fault : Fault) → ¬ (IsRefusal self.old.desk.set op.now fault)) }
        ensures ok { OnOk result (self.new.desk.set ≡ with_operation self.old.desk.set op.now) }
        ensures limited { size self.new.desk.set ≤ 1_000_000 }
        ensures told { IsTold self.old.desk.set self.new.desk.set changes.old.items changes.new.items }
        ensures err { OnErr result (self.new ≡ self.old) }
        ensures untold { OnErr result (changes.new.items ≡ changes.old.items) }
        ensures site { self.new.desk.site ≡ self.old.desk.site }
        ensures spare { size self.old.desk.set + self.old.desk.spare ≤ size self.new.desk.set + self.new.desk.spare }
        ensures unpaid { (n : ℕ) → TellsAtMost self.old.desk.set op.now n → vec_len changes.old + n ≤ vec_capacity changes.old
            → IfErr result (λ fault. fault ≡ TakeFault.Memory → (self.old.desk.spare ≡ 0) × (¬ (IsHiding self.old.desk.set op.now))) }
        ensures drawn { IsDrawnAlike self.old self.new }
        ensures window { OnOk result (self.new.window ≡ no_window) }
        ensures kept { OnOk result (KeepsUnchanged self.old self.new (drop (length changes.old.items) changes.new.items)) }
        ensures laid { self.new.laid ≡ self.old.laid }
        ensures call { IsCall self.old (Takes op.now) (is_err result) self.new }
    {
        told_changes();
        let told = changes.len();
        let taken = self.desk.take_telling(op, changes)?;
        self.behind = follow_all(
            &self.tables,
            &mut self.buffer,
            self.behind,
            &changes[told..],
        );
        self.shown = Shown::NOTHING;
        Ok(taken)
    }

    /// Takes all operations of another desk, as the desk's `merge` does. Then nothing is shown.
    /// Cost: that of `merge_telling`; memory for a change for each operation of both desks, and memory that must be
    /// there as `Replica::merge` asks for it.
    pub fn merge(&mut self, other: &Desk) -> Result<u32, TakeFault>
        ensures ok { OnOk result (self.new.desk.set ≡ union self.old.desk.set other.now.set) }
        ensures agree { OnOk result (Agree self.old.desk.set other.now.set) }
        ensures accepted { OnOk result ((fault : Fault) → ¬ (IsMergeRefusal self.old.desk.set other.now.set fault)) }
        ensures count { IfOk result (λ n. size self.new.desk.set ≡ size self.old.desk.set + n) }
        ensures limited { OnOk result (size self.new.desk.set ≤ 1_000_000) }
        ensures fault { IfErr result (IsMergeRefused self.old.desk.set other.now.set self.new.desk.set) }
        ensures reused { IfErr result (λ fault. fault ≡ TakeFault.IdentifierReused → self.new.desk ≡ self.old.desk) }
        ensures nothing_new { ((op : View) → Holds other.now.set op → Holds self.old.desk.set op) → IsOk result }
        ensures site { self.new.desk.site ≡ self.old.desk.site }
        ensures spare { size self.old.desk.set + self.old.desk.spare ≤ size self.new.desk.set + self.new.desk.spare }
        ensures unpaid { IfErr result (λ fault. fault ≡ TakeFault.Memory → self.old.desk.spare < size other.now.set) }
        ensures drawn { IsDrawnAlike self.old self.new }
        ensures window { self.new.window ≡ no_window }
        ensures kept { KeepsUntouched self.old self.new }
        ensures laid { self.new.laid ≡ self.old.laid }
        ensures call { IsCall self.old (Merges other.now.set) (is_err result) self.new }
    {
        let mut changes = Vec::new(self.alloc);
        // Paid for first, so that the desk is refused no memory for what is told.
        if changes
            .reserve(self.desk.op_count() + other.op_count())
            .is_err()
        {
            self.behind = true;
            self.shown = Shown::NOTHING;
            return self.desk.merge(other);
        }
        self.merge_telling(other, &mut changes)
    }

    /// Takes all operations of another desk, and appends to the list how the text changed by them, as the desk's
    /// `merge_telling` does: after `Full` and `Memory` too, by those that are taken. Then nothing is shown.
    /// Cost: that of `Replica::merge_telling`, and of `Buffer::apply_all`; memory that must be there as
    /// `Replica::merge_telling` asks for it.
    pub fn merge_telling(
        &mut self,
        other: &Desk,
        changes: &mut Vec<Change>,
    ) -> Result<u32, TakeFault>
        ensures ok { OnOk result (self.new.desk.set ≡ union self.old.desk.set other.now.set) }
        ensures agree { OnOk result (Agree self.old.desk.set other.now.set) }
        ensures accepted { OnOk result ((fault : Fault) → ¬ (IsMergeRefusal self.old.desk.set other.now.set fault)) }
        ensures count { IfOk result (λ n. size self.new.desk.set ≡ size self.old.desk.set + n) }
        ensures limited { OnOk result (size self.new.desk.set ≤ 1_000_000) }
        ensures told { IsTold self.old.desk.set self.new.desk.set changes.old.items changes.new.items }
        ensures fault { IfErr result (IsMergeRefused self.old.desk.set other.now.set self.new.desk.set) }
        ensures reused { IfErr result (λ fault. fault ≡ TakeFault.IdentifierReused → self.new.desk ≡ self.old.desk) }
        ensures nothing_new { ((op : View) → Holds other.now.set op → Holds self.old.desk.set op) → IsOk result }
        ensures site { self.new.desk.site ≡ self.old.desk.site }
        ensures spare { size self.old.desk.set + self.old.desk.spare ≤ size self.new.desk.set + self.new.desk.spare }
        ensures unpaid { vec_len changes.old + size other.now.set + waiting_count self.old.desk.set ≤ vec_capacity changes.old
            → IfErr result (λ fault. fault ≡ TakeFault.Memory → self.old.desk.spare < size other.now.set) }
        ensures drawn { IsDrawnAlike self.old self.new }
        ensures window { self.new.window ≡ no_window }
        ensures kept { KeepsUnchanged self.old self.new (drop (length changes.old.items) changes.new.items) }
        ensures laid { self.new.laid ≡ self.old.laid }
        ensures call { IsCall self.old (Merges other.now.set) (is_err result) self.new }
    {
        told_changes();
        let told = changes.len();
        let outcome = self.desk.merge_telling(other, changes);
        self.behind = follow_all(
            &self.tables,
            &mut self.buffer,
            self.behind,
            &changes[told..],
        );
        self.shown = Shown::NOTHING;
        outcome
    }
}

//! Taking one operation or all of another desk, and telling what that changes in the text.

ghost use Rattle.std.specs.Prelude.{◌≡◌, ◌≤◌, ◌<◌, ◌+◌, ◌⊎◌, ℕ, false, OnOk, OnErr, IfOk, IfErr, IsOk, MatchResult, vec_len, vec_capacity};
ghost use Rattle.bg_types.specs.OperationSet.{Agree, Holds, size, union, with_operation};
ghost use Rattle.bg_types.specs.declared.op.OpView.{OpView};
ghost use Rattle.desk_replica.specs.declared.answer.TakeFault.{TakeFault as Fault};
ghost use Rattle.desk_replica.specs.Reply.{IsTaken, IsRefusal, IsHiding};
ghost use Rattle.desk_replica.specs.Merging.{IsMergeRefusal, IsMergeRefused, is_deletion};
ghost use Rattle.desk_replica.specs.Listening.{HasRoom, HasRoomFor, IsHeard};
ghost use Rattle.desk_replica.specs.Telling.{IsTold, IsUntaken, ShowsAll, TellsAtMost, waiting_count};

use super::{MOST_OPERATIONS, Replica};
use crate::answer::{TakeFault, Taken};
use crate::listener::Listener;
use crate::placing::{Standing, admit, counter_of, look_up};
use bg_types::{Change, Memory, Op};
use rga_tree::Sequence;

impl<S: Sequence> Replica<S> {
    /// Takes an operation as `take` does, and appends to the list how the text changed by it. A fault changes nothing, and
    /// nothing in the list. While one is spare, and the list has room for what the operation may tell, the fault is not
    /// `Memory`: one change for a deletion, and for an insertion one and one for each that waits below it.
    /// Cost: that of `take`, and `Sequence::visible_before` for each change; O(1) more for each operation that waits
    /// below it; memory for the changes too, none where the list has room for one more than wait below it.
    pub fn take_telling(&mut self, op: &Op, changes: &mut Vec<Change>) -> Result<Taken, TakeFault>
        ensures answer { MatchResult result (IsTaken self.old.set op.now) (IsUntaken self.old.set op.now) }
        ensures accepted { OnOk result ((fault : Fault) → ¬ (IsRefusal self.old.set op.now fault)) }
        ensures ok { OnOk result (self.new.set ≡ with_operation self.old.set op.now) }
        ensures limited { size self.new.set ≤ 1_000_000 }
        ensures told { IsTold self.old.set self.new.set changes.old.items changes.new.items }
        ensures err { OnErr result (self.new ≡ self.old) }
        ensures untold { OnErr result (changes.new.items ≡ changes.old.items) }
        ensures site { self.new.site ≡ self.old.site }
        ensures spare { size self.old.set + self.old.spare ≤ size self.new.set + self.new.spare }
        ensures unpaid { (n : ℕ) → TellsAtMost self.old.set op.now n → vec_len changes.old + n ≤ vec_capacity changes.old
            → IfErr result (λ fault. fault ≡ TakeFault.Memory → (self.old.spare ≡ 0) × (¬ (IsHiding self.old.set op.now))) }
        // What the operation tells beyond one change waited before, and waits no more.
        ensures few { vec_len changes.new + waiting_count self.new.set ≤ vec_len changes.old + waiting_count self.old.set + 1 }
        ensures one { size self.new.set ≤ size self.old.set + 1 }
        ensures room { vec_capacity changes.old ≤ vec_capacity changes.new }
        ensures paid { vec_len changes.old + waiting_count self.old.set < vec_capacity changes.old → 0 < self.old.spare
            → IfErr result (λ fault. ¬ (fault ≡ TakeFault.Memory)) }
    {
        self.take_to(op, changes)
    }

    /// Takes all operations of another desk as `merge` does, and appends to the list how the text changed by them: after
    /// `Full` and `Memory` too, by those that are taken. While as many are spare as the other desk has, and the list has
    /// room for that many changes and one for each insertion that waits here, the fault is not `Memory`.
    /// Cost: a `take_telling` for each operation of the other desk; memory likewise.
    pub fn merge_telling(
        &mut self,
        other: &Replica<S>,
        changes: &mut Vec<Change>,
    ) -> Result<u32, TakeFault>
        ensures ok { OnOk result (self.new.set ≡ union self.old.set other.now.set) }
        ensures agree { OnOk result (Agree self.old.set other.now.set) }
        ensures accepted { OnOk result ((fault : Fault) → ¬ (IsMergeRefusal self.old.set other.now.set fault)) }
        ensures count { IfOk result (λ n. size self.new.set ≡ size self.old.set + n) }
        ensures limited { OnOk result (size self.new.set ≤ 1_000_000) }
        ensures told { IsTold self.old.set self.new.set changes.old.items changes.new.items }
        ensures fault { IfErr result (IsMergeRefused self.old.set other.now.set self.new.set) }
        // What waits keeps its order too.
        ensures reused { IfErr result (λ fault. fault ≡ TakeFault.IdentifierReused → self.new ≡ self.old) }
        ensures nothing_new { ((op : OpView) → Holds other.now.set op → Holds self.old.set op) → IsOk result }
        ensures site { self.new.site ≡ self.old.site }
        ensures spare { size self.old.set + self.old.spare ≤ size self.new.set + self.new.spare }
        ensures unpaid { vec_len changes.old + size other.now.set + waiting_count self.old.set ≤ vec_capacity changes.old
            → IfErr result (λ fault. fault ≡ TakeFault.Memory → self.old.spare < size other.now.set) }
    {
        self.merge_to(other, changes)
    }

    /// Takes an operation, and tells a listener how the text changed by it.
    pub(super) fn take_to<L: Listener>(
        &mut self,
        op: &Op,
        listener: &mut L,
    ) -> Result<Taken, TakeFault>
        ensures answer { MatchResult result (IsTaken self.old.set op.now) (IsUntaken self.old.set op.now) }
        ensures accepted { OnOk result ((fault : Fault) → ¬ (IsRefusal self.old.set op.now fault)) }
        ensures ok { OnOk result (self.new.set ≡ with_operation self.old.set op.now) }
        ensures limited { size self.new.set ≤ 1_000_000 }
        ensures heard { IsHeard self.old.set self.new.set (L.told listener.old) (L.told listener.new) (L.capacity listener.old) (L.capacity listener.new) }
        ensures shows { is_deletion op.now ≡ false → ShowsAll self.old.set self.new.set }
        ensures err { OnErr result (self.new ≡ self.old) }
        ensures untold { OnErr result (L.told listener.new ≡ L.told listener.old) }
        ensures site { self.new.site ≡ self.old.site }
        ensures spare { size self.old.set + self.old.spare ≤ size self.new.set + self.new.spare }
        ensures unpaid { IfErr result (λ fault. fault ≡ TakeFault.Memory
            → HasRoomFor (L.told listener.old) (L.capacity listener.old) self.old.set op.now
            → (self.old.spare ≡ 0) × (¬ (IsHiding self.old.set op.now))) }
        ensures short { IfErr result (λ fault. fault ≡ TakeFault.Memory
            → (self.old.spare ≡ 0) ⊎ (¬ (HasRoom (L.told listener.old) (L.capacity listener.old) (waiting_count self.old.set + 1)))) }
    {
        match look_up(&self.seq, &self.held, self.greatest, op) {
            Standing::Known => return Ok(Taken::Known),
            Standing::Reused => return Err(TakeFault::IdentifierReused),
            Standing::New => {}
        }
        if self.kept >= MOST_OPERATIONS {
            return Err(TakeFault::Full);
        }
        match admit(&mut self.seq, &mut self.held, &mut self.spare, op, listener) {
            Ok(taken) => {
                self.kept += 1;
                self.greatest = self.greatest.max(counter_of(op));
                Ok(taken)
            }
            Err(Memory) => Err(TakeFault::Memory),
        }
    }
}

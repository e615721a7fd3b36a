//! Taking all operations of another desk.

ghost use Rattle.std.specs.Prelude.{◌≡◌, ◌≤◌, ◌<◌, ◌+◌, ◌⊎◌, ◌∷◌, [], true, false, OnOk, IfOk, IfErr, IsOk, All, length, get_or};
ghost use Rattle.std.specs.Bool.{OnTrue};
ghost use Rattle.std.specs.FinMap as map;
ghost use Rattle.bg_types.specs.Identifier.{Identifier};
ghost use Rattle.bg_types.specs.OperationSet.{AllWellFormed, Holds, Agree, union, size};
ghost use Rattle.bg_types.specs.WellFormed.{MayFollow};
ghost use Rattle.bg_types.specs.declared.op.OpView.{OpView as View};
ghost use Rattle.bg_types.specs.declared.op.OpView.TheVariants.{Erase};
ghost use Rattle.rga_tree.specs.Elements.{elements};
ghost use Rattle.pending_ops.specs.Waiting.{ListsOnce};
ghost use Rattle.desk_replica.specs.declared.answer.TakeFault.{TakeFault as Fault};
ghost use Rattle.desk_replica.specs.Desk.{insertion_of as made_by};
ghost use Rattle.desk_replica.specs.Listed.{listed, insertions_in, deletions_in, operations_in};
ghost use Rattle.desk_replica.specs.Placement.{waiting_in};
ghost use Rattle.desk_replica.specs.Listening.{HasRoom, IsHeard};
ghost use Rattle.desk_replica.specs.Telling.{ShowsAll, waiting_count};
ghost use Rattle.desk_replica.specs.Merging.{IsErasedIn, IsGrown, IsMergeRefusal, IsMergeRefused, IsStopped, is_deletion};

use super::Replica;
use crate::answer::{TakeFault, Taken};
use crate::cursor::Cursor;
use crate::listener::{Listener, Nobody};
use crate::placing::count_waiting;
use crate::reading::insertion_of;
use bg_types::{Id, Op, OpView};
use pending_ops::Held;
use rga_tree::{Element, Sequence, Unpacked};

impl<S: Sequence> Replica<S> {
    /// Takes all operations of another desk, and returns how many were new. After
    /// `IdentifierReused` nothing has changed; after `Full` or `Memory` some of them are taken. While
    /// as many are spare as the other desk has, the fault is not `Memory`; each operation that was
    /// new lowers the spare ones by at most one.
    /// Cost: a `take` for each operation of the other desk; memory likewise.
    pub fn merge(&mut self, other: &Replica<S>) -> Result<u32, TakeFault>
        ensures ok { OnOk result (self.new.set ≡ union self.old.set other.now.set) }
        ensures agree { OnOk result (Agree self.old.set other.now.set) }
        ensures accepted { OnOk result ((fault : Fault) → ¬ (IsMergeRefusal self.old.set other.now.set fault)) }
        ensures count { IfOk result (λ n. size self.new.set ≡ size self.old.set + n) }
        ensures limited { OnOk result (size self.new.set ≤ 1_000_000) }
        ensures fault { IfErr result (IsMergeRefused self.old.set other.now.set self.new.set) }
        // What waits keeps its order too.
        ensures reused { IfErr result (λ fault. fault ≡ TakeFault.IdentifierReused → self.new ≡ self.old) }
        ensures nothing_new { ((op : View) → Holds other.now.set op → Holds self.old.set op) → IsOk result }
        ensures site { self.new.site ≡ self.old.site }
        ensures spare { size self.old.set + self.old.spare ≤ size self.new.set + self.new.spare }
        ensures unpaid { IfErr result (λ fault. fault ≡ TakeFault.Memory → self.old.spare < size other.now.set) }
    {
        self.merge_to(other, &mut Nobody)
    }

    /// Takes all operations of another desk, and tells a listener how the text changed by them.
    pub(super) fn merge_to<L: Listener>(
        &mut self,
        other: &Replica<S>,
        listener: &mut L,
    ) -> Result<u32, TakeFault>
        ensures ok { OnOk result (self.new.set ≡ union self.old.set other.now.set) }
        ensures agree { OnOk result (Agree self.old.set other.now.set) }
        ensures accepted { OnOk result ((fault : Fault) → ¬ (IsMergeRefusal self.old.set other.now.set fault)) }
        ensures count { IfOk result (λ n. size self.new.set ≡ size self.old.set + n) }
        ensures limited { OnOk result (size self.new.set ≤ 1_000_000) }
        ensures fault { IfErr result (IsMergeRefused self.old.set other.now.set self.new.set) }
        ensures reused { IfErr result (λ fault. fault ≡ TakeFault.IdentifierReused → self.new ≡ self.old) }
        ensures nothing_new { ((op : View) → Holds other.now.set op → Holds self.old.set op) → IsOk result }
        ensures site { self.new.site ≡ self.old.site }
        ensures spare { size self.old.set + self.old.spare ≤ size self.new.set + self.new.spare }
        ensures unpaid { HasRoom (L.told listener.old) (L.capacity listener.old) (size other.now.set + waiting_count self.old.set)
            → IfErr result (λ fault. fault ≡ TakeFault.Memory → self.old.spare < size other.now.set) }
        ensures heard { IsHeard self.old.set self.new.set (L.told listener.old) (L.told listener.new) (L.capacity listener.old) (L.capacity listener.new) }
    {
        if self.disagrees(other) {
            return Err(TakeFault::IdentifierReused);
        }
        let before = self.kept;
        self.take_from(other, listener)?;
        Ok(self.kept - before)
    }

    /// Takes all operations of another desk. A deletion comes before the insertion that it is of: so no element is shown that
    /// the other desk has erased, and what a listener is told is put stays. The elements are read part after part, since
    /// `nth` of each may cost more than reading it.
    fn take_from<L: Listener>(
        &mut self,
        other: &Replica<S>,
        listener: &mut L,
    ) -> Result<(), TakeFault>
        requires well_formed { AllWellFormed self.old.set }
        ensures grown { IsGrown self.old (listed other.now) self.new }
        ensures heard { IsHeard self.old.set self.new.set (L.told listener.old) (L.told listener.new) (L.capacity listener.old) (L.capacity listener.new) }
        ensures fault { IfErr result (IsStopped (listed other.now) self.new (L.told listener.old) (L.told listener.new) (L.capacity listener.old)) }
        ensures ok { OnOk result (All (Holds self.new.set) (listed other.now)) }
        ensures all { ListsOnce other.now.set (listed other.now) }
    {
        let waiting = count_waiting(&other.held);
        self.take_waiting(&other.held, waiting, true, listener)?;
        self.erase_elements(&other.seq, listener)?;
        self.take_elements(&other.seq, listener)?;
        self.take_waiting(&other.held, waiting, false, listener)
    }

    /// Takes the operations of one kind that wait in a store of this many: the deletions, or else the insertions.
    fn take_waiting<L: Listener>(
        &mut self,
        held: &Held,
        count: usize,
        deletions: bool,
        listener: &mut L,
    ) -> Result<(), TakeFault>
        requires well_formed { AllWellFormed self.old.set }
        requires count { count ≡ size held.now.held }
        ensures grown { IsGrown self.old (waiting_in held.now) self.new }
        ensures insertions { deletions ≡ true → self.new.set.ins ≡ self.old.set.ins }
        ensures shows { deletions ≡ false → ShowsAll self.old.set self.new.set }
        ensures heard { IsHeard self.old.set self.new.set (L.told listener.old) (L.told listener.new) (L.capacity listener.old) (L.capacity listener.new) }
        ensures fault { IfErr result (IsStopped (waiting_in held.now) self.new (L.told listener.old) (L.told listener.new) (L.capacity listener.old)) }
        ensures ok { OnOk result (All (λ op. is_deletion op ≡ deletions → Holds self.new.set op) (waiting_in held.now)) }
    {
        for j in 0..count {
            self.take_of_kind(&held.nth(j), deletions, listener)?;
        }
        Ok(())
    }

    /// Takes an operation if it is of a kind: a deletion, or else an insertion.
    fn take_of_kind<L: Listener>(
        &mut self,
        op: &Op,
        deletions: bool,
        listener: &mut L,
    ) -> Result<(), TakeFault>
        requires well_formed { AllWellFormed self.old.set }
        ensures grown { IsGrown self.old (op.now ∷ []) self.new }
        ensures insertions { deletions ≡ true → self.new.set.ins ≡ self.old.set.ins }
        ensures shows { deletions ≡ false → ShowsAll self.old.set self.new.set }
        ensures heard { IsHeard self.old.set self.new.set (L.told listener.old) (L.told listener.new) (L.capacity listener.old) (L.capacity listener.new) }
        ensures fault { IfErr result (IsStopped (op.now ∷ []) self.new (L.told listener.old) (L.told listener.new) (L.capacity listener.old)) }
        ensures ok { OnOk result (is_deletion op.now ≡ deletions → Holds self.new.set op.now) }
    {
        if deletes(op) != deletions {
            return Ok(());
        }
        self.take_one(op, listener)?;
        Ok(())
    }

    /// Takes an operation, and answers whether it was known.
    fn take_one<L: Listener>(&mut self, op: &Op, listener: &mut L) -> Result<bool, TakeFault>
        ensures grown { IsGrown self.old (op.now ∷ []) self.new }
        ensures shows { is_deletion op.now ≡ false → ShowsAll self.old.set self.new.set }
        ensures insertions { is_deletion op.now ≡ true → self.new.set.ins ≡ self.old.set.ins }
        ensures heard { IsHeard self.old.set self.new.set (L.told listener.old) (L.told listener.new) (L.capacity listener.old) (L.capacity listener.new) }
        ensures fault { IfErr result (IsStopped (op.now ∷ []) self.new (L.told listener.old) (L.told listener.new) (L.capacity listener.old)) }
        ensures ok { OnOk result (Holds self.new.set op.now) }
    {
        let taken = self.take_to(op, listener)?;
        Ok(taken == Taken::Known)
    }

    /// Takes the deletions of hidden elements whose insertions are known: of those that are placed, and of those that wait.
    fn erase_elements<L: Listener>(&mut self, seq: &S, listener: &mut L) -> Result<(), TakeFault>
        requires well_formed { AllWellFormed self.old.set }
        ensures grown { IsGrown self.old (deletions_in (elements (S.content seq.now))) self.new }
        ensures insertions { self.new.set.ins ≡ self.old.set.ins }
        ensures heard { IsHeard self.old.set self.new.set (L.told listener.old) (L.told listener.new) (L.capacity listener.old) (L.capacity listener.new) }
        ensures fault { IfErr result (IsStopped (deletions_in (elements (S.content seq.now))) self.new (L.told listener.old) (L.told listener.new) (L.capacity listener.old)) }
        ensures ok { OnOk result (All (IsErasedIn self.new.set) (elements (S.content seq.now))) }
    {
        let mut cursor = Cursor::front();
        let mut unpacked = Unpacked::new();
        for p in 0..seq.part_count() {
            self.erase_row(seq.part(p, &mut unpacked), &mut cursor, listener)?;
        }
        Ok(())
    }

    /// Takes the deletions of the hidden elements of a list. The own elements are at the cursor or behind it.
    fn erase_row<L: Listener>(
        &mut self,
        row: &[Element],
        cursor: &mut Cursor,
        listener: &mut L,
    ) -> Result<(), TakeFault>
        requires well_formed { AllWellFormed self.old.set }
        ensures grown { IsGrown self.old (deletions_in row.now) self.new }
        ensures insertions { self.new.set.ins ≡ self.old.set.ins }
        ensures heard { IsHeard self.old.set self.new.set (L.told listener.old) (L.told listener.new) (L.capacity listener.old) (L.capacity listener.new) }
        ensures fault { IfErr result (IsStopped (deletions_in row.now) self.new (L.told listener.old) (L.told listener.new) (L.capacity listener.old)) }
        ensures ok { OnOk result (All (IsErasedIn self.new.set) row.now) }
    {
        cursor.allow(row.len());
        for e in row {
            self.erase_element(e, cursor, listener)?;
        }
        Ok(())
    }

    /// Takes the deletion of an element that is hidden. Where the own one is hidden, its deletion is known without a
    /// look-up; with a counter above all that are named it is new, and needs none.
    fn erase_element<L: Listener>(
        &mut self,
        e: &Element,
        cursor: &mut Cursor,
        listener: &mut L,
    ) -> Result<(), TakeFault>
        requires well_formed { AllWellFormed self.old.set }
        ensures grown { IsGrown self.old (deletions_in (e.now ∷ [])) self.new }
        ensures insertions { self.new.set.ins ≡ self.old.set.ins }
        ensures heard { IsHeard self.old.set self.new.set (L.told listener.old) (L.told listener.new) (L.capacity listener.old) (L.capacity listener.new) }
        ensures fault { IfErr result (IsStopped (deletions_in (e.now ∷ [])) self.new (L.told listener.old) (L.told listener.new) (L.capacity listener.old)) }
        ensures ok { OnOk result (IsErasedIn self.new.set e.now) }
    {
        if !e.hidden {
            return Ok(());
        }
        if self.is_beyond(e.id) {
            return Ok(());
        }
        cursor.seek(&self.seq, e.id);
        if self.hides(e.id, cursor) || !self.inserts(e.id) {
            return Ok(());
        }
        self.take_one(&Op::erase(e.id), listener)?;
        Ok(())
    }

    /// Whether an insertion with this identifier is known.
    fn inserts(&self, id: Id) -> bool
        ensures { result ≡ map.contains_key self.now.set.ins id }
    {
        if self.is_beyond(id) {
            return false;
        }
        self.seq.has(id) || self.held.insertion(id).is_some()
    }

    /// Whether an identifier's counter is above all that are named: then no insertion with it is known, and no look-up is
    /// needed.
    #[inline(always)]
    fn is_beyond(&self, id: Id) -> bool
        ensures { OnTrue result (map.contains_key self.now.set.ins id ≡ false) }
    {
        id.counter() > self.greatest
    }

    /// Whether the element with this identifier is at the cursor, hidden: then its deletion is known.
    fn hides(&self, id: Id, cursor: &Cursor) -> bool
        ensures { OnTrue result (Holds self.now.set (Erase id)) }
    {
        let mut unpacked = Unpacked::new();
        match cursor.ahead(&self.seq, &mut unpacked).first() {
            Some(own) => own.id == id && own.hidden,
            None => false,
        }
    }

    /// Takes the insertions that made the elements, and the deletions of those that are hidden: where an insertion is
    /// known, its deletion is too.
    fn take_elements<L: Listener>(&mut self, seq: &S, listener: &mut L) -> Result<(), TakeFault>
        requires well_formed { AllWellFormed self.old.set }
        requires erased { All (IsErasedIn self.old.set) (elements (S.content seq.now)) }
        ensures grown { IsGrown self.old (operations_in (elements (S.content seq.now))) self.new }
        ensures shows { ShowsAll self.old.set self.new.set }
        ensures heard { IsHeard self.old.set self.new.set (L.told listener.old) (L.told listener.new) (L.capacity listener.old) (L.capacity listener.new) }
        ensures fault { IfErr result (IsStopped (operations_in (elements (S.content seq.now))) self.new (L.told listener.old) (L.told listener.new) (L.capacity listener.old)) }
        ensures ok { OnOk result (All (Holds self.new.set) (operations_in (elements (S.content seq.now)))) }
    {
        let mut cursor = Cursor::front();
        for p in 0..seq.part_count() {
            self.take_part(seq, p, &mut cursor, listener)?;
        }
        Ok(())
    }

    /// Takes the insertions and deletions of a part's elements. Its first element is awaited at the cursor, and so is what
    /// follows one that is known; what follows a new one is looked up.
    fn take_part<L: Listener>(
        &mut self,
        seq: &S,
        p: usize,
        cursor: &mut Cursor,
        listener: &mut L,
    ) -> Result<(), TakeFault>
        requires well_formed { AllWellFormed self.old.set }
        requires part { p < length (S.parts seq.now) }
        requires erased { All (IsErasedIn self.old.set) (elements (S.content seq.now)) }
        ensures grown { IsGrown self.old (operations_in (elements (S.content seq.now))) self.new }
        ensures shows { ShowsAll self.old.set self.new.set }
        ensures erased { All (IsErasedIn self.new.set) (elements (S.content seq.now)) }
        ensures heard { IsHeard self.old.set self.new.set (L.told listener.old) (L.told listener.new) (L.capacity listener.old) (L.capacity listener.new) }
        ensures fault { IfErr result (IsStopped (operations_in (elements (S.content seq.now))) self.new (L.told listener.old) (L.told listener.new) (L.capacity listener.old)) }
        ensures ok { OnOk result (All (Holds self.new.set) (insertions_in (get_or (S.parts seq.now) p []))) }
    {
        let mut unpacked = Unpacked::new();
        let row = seq.part(p, &mut unpacked);
        cursor.allow(row.len());
        let mut at = self.known_in_front(row, cursor);
        while at < row.len() {
            let e = &row[at];
            at += 1;
            if self.take_element(e, listener)? {
                at += self.known_behind(e.id, &row[at..], cursor);
            }
        }
        Ok(())
    }

    /// Takes the insertion that made an element, and answers whether it was known. Where that is new and the element is hidden,
    /// the deletion is taken first.
    fn take_element<L: Listener>(
        &mut self,
        e: &Element,
        listener: &mut L,
    ) -> Result<bool, TakeFault>
        requires well_formed { AllWellFormed self.old.set }
        requires follows { MayFollow e.now.parent e.now.id }
        requires erased { IsErasedIn self.old.set e.now }
        ensures grown { IsGrown self.old (operations_in (e.now ∷ [])) self.new }
        ensures shows { ShowsAll self.old.set self.new.set }
        ensures erased { IsErasedIn self.new.set e.now }
        ensures no_other { (id : Identifier) → map.contains_key self.new.set.ins id ≡ true → (map.contains_key self.old.set.ins id ≡ true) ⊎ (id ≡ e.now.id) }
        ensures heard { IsHeard self.old.set self.new.set (L.told listener.old) (L.told listener.new) (L.capacity listener.old) (L.capacity listener.new) }
        ensures fault { IfErr result (IsStopped (operations_in (e.now ∷ [])) self.new (L.told listener.old) (L.told listener.new) (L.capacity listener.old)) }
        ensures ok { OnOk result (Holds self.new.set (made_by e.now)) }
    {
        self.erase_new(e, listener)?;
        self.take_one(&insertion_of(e), listener)
    }

    /// Takes the deletion of a hidden element whose insertion is not known: that waits for the insertion, and nothing that is
    /// shown is hidden by it.
    fn erase_new<L: Listener>(&mut self, e: &Element, listener: &mut L) -> Result<(), TakeFault>
        requires well_formed { AllWellFormed self.old.set }
        requires erased { IsErasedIn self.old.set e.now }
        ensures grown { IsGrown self.old (deletions_in (e.now ∷ [])) self.new }
        ensures insertions { self.new.set.ins ≡ self.old.set.ins }
        ensures shows { ShowsAll self.old.set self.new.set }
        ensures heard { IsHeard self.old.set self.new.set (L.told listener.old) (L.told listener.new) (L.capacity listener.old) (L.capacity listener.new) }
        ensures fault { IfErr result (IsStopped (deletions_in (e.now ∷ [])) self.new (L.told listener.old) (L.told listener.new) (L.capacity listener.old)) }
        ensures ok { OnOk result (e.now.hidden ≡ true → Holds self.new.set (Erase e.now.id)) }
    {
        if !e.hidden {
            return Ok(());
        }
        if self.inserts(e.id) {
            return Ok(());
        }
        self.take_one(&Op::erase(e.id), listener)?;
        Ok(())
    }
}

/// Whether an operation is a deletion.
fn deletes(op: &Op) -> bool
    ensures { result ≡ is_deletion op.now }
{
    matches!(op.view(), OpView::Erase { .. })
}

//! The store of early operations.

ghost use Rattle.std.specs.Prelude.{◌≡◌, [], ◌≤◌, ◌<◌, ◌+◌, ◌-◌, ◌↔◌, max, false, ℕ, length, slice_get, Some, None, OnOk, OnErr, IfSome, IfNone, IsNone, IsOk, vec_len, vec_capacity};
ghost use Rattle.std.specs.Bool.{OnFalse};
ghost use Rattle.std.specs.Option.{option_map};
ghost use Rattle.std.specs.FinMap as map;
ghost use Rattle.std.specs.FinSet as set;
ghost use Rattle.bg_types.specs.Identifier.{Identifier};
ghost use Rattle.bg_types.specs.OperationSet.{OperationSet, with_operation, size};
ghost use Rattle.bg_types.specs.WellFormed.{MayFollow};
ghost use Rattle.bg_types.specs.declared.op.OpView.TheVariants.{Insert, Erase};
ghost use Rattle.pending_ops.specs.Waiting.{Waiting, IsNew, ListsOnce, NoneReady, Releases, TakesOut, nothing_waits, without_erasure};
ghost use Rattle.pending_ops.specs.Below.{CountsBelow};
ghost use Rattle.pending_ops.specs.Chains.{HasRoom, IsChainOf, first_in, insertions_of, slot_in};
ghost use Rattle.pending_ops.specs.declared.chains.Slot.{Slot};

use crate::chains::{Names, Slot, Table, append_chain, first_of, link, unlink};
use bg_types::{Id, Keyed, Memory, Op, OpView, Place};
use indexmap::{IndexMap, IndexSet};
use std::alloc::{AllocError, Global};
use std::marker::Model;

/// Operations that wait: insertions whose parent is not placed yet, and deletions whose target is
/// not placed yet.
///
/// Once an identifier is placed, `release_of` makes the insertions right after it ready, and
/// `next_ready` hands them out one by one. Until then a ready one counts as held.
pub struct Held {
    slots: Table<Slot>,
    /// For each parent of a held insertion, the first in the chain of those that name it.
    firsts: Table<Id>,
    /// The parents whose chains are handed out, the next one last.
    released: Names,
    erased: Names,
    /// Where `count_below` lists what it counts. Empty between calls.
    queue: Vec<Id>,
    /// How many more operations can be held without taking memory.
    room: usize,
}

impl Model for Held {
    ghost use Rattle.std.specs.Prelude.{◌≡◌, [], vec_capacity};
    ghost use Rattle.pending_ops.specs.Waiting.{Waiting};

    ghost Value = { Waiting };

    ghost use Rattle.pending_ops.specs.Code.{coded_waiting};

    ghost coded = { coded_waiting };

    ghost use Rattle.pending_ops.specs.Chains.{AreLinked, HasRoom, waiting_of};

    ghost view = { λ a. waiting_of a.slots.entries a.released.keys a.erased.keys a.room };

    ghost invariant = { λ a. AreLinked a.slots.entries a.firsts.entries a.released.keys
        × ((a.queue.items ≡ [])
        × HasRoom a.slots a.firsts a.released a.erased (vec_capacity a.queue) a.room) };
}

// Written out: a crate above then proves the call, and nothing of the parts.
impl Drop for Held {
    fn drop(self) {
        let Held {
            slots: _,
            firsts: _,
            released: _,
            erased: _,
            queue: _,
            room: _,
        } = self;
    }
}

/// Makes room for n more operations in each table that holding, releasing and counting them needs.
/// A growth stays even if a later one is refused.
fn make_room(
    slots: &mut Table<Slot>,
    firsts: &mut Table<Id>,
    released: &mut Names,
    erased: &mut Names,
    queue: &mut Vec<Id>,
    n: usize,
) -> Result<(), AllocError>
    requires { n ≤ 1_000_000 }
    ensures slots { slots.new.entries ≡ slots.old.entries }
    ensures firsts { firsts.new.entries ≡ firsts.old.entries }
    ensures released { released.new.keys ≡ released.old.keys }
    ensures erased { erased.new.keys ≡ erased.old.keys }
    ensures queue { queue.new.items ≡ queue.old.items }
    ensures ok { OnOk result
        (HasRoom slots.new firsts.new released.new erased.new (vec_capacity queue.new) n) }
    ensures kept { (m : ℕ)
        → HasRoom slots.old firsts.old released.old erased.old (vec_capacity queue.old) m
        → HasRoom slots.new firsts.new released.new erased.new (vec_capacity queue.new) m }
{
    slots.reserve(n)?;
    firsts.reserve(n)?;
    released.reserve(firsts.len() + n)?;
    erased.reserve(n)?;
    queue.reserve(slots.len() + n)
}

impl Held {
    /// An empty store. Its tables are hashed with the key 0: for operations from strangers make the
    /// store by `keyed`.
    pub fn new(alloc: Global) -> Held
        ensures { result ≡ nothing_waits }
    {
        Held::keyed(alloc, 0)
    }

    /// An empty store whose tables are hashed with this key. Without the key, only one who measures the
    /// times of many calls can choose identifiers that make them slow.
    pub fn keyed(alloc: Global, key: u128) -> Held
        ensures { result ≡ nothing_waits }
    {
        let hasher = Keyed::new(key);
        Held {
            slots: IndexMap::with_hasher(alloc, hasher),
            firsts: IndexMap::with_hasher(alloc, hasher),
            released: IndexSet::with_hasher(alloc, hasher),
            erased: IndexSet::with_hasher(alloc, hasher),
            queue: Vec::new(alloc),
            room: 0,
        }
    }

    /// Makes room for n operations (at most 1,000,000), each table in one growth. After `Memory` the
    /// store is as it was.
    /// Cost: O(n), memory for them, one growth a table.
    pub fn reserve(&mut self, n: usize) -> Result<(), Memory>
        requires { n ≤ 1_000_000 }
        ensures ok { OnOk result (self.new.room ≡ max self.old.room n) }
        ensures held { self.new.held ≡ self.old.held }
        ensures released { self.new.released ≡ self.old.released }
        ensures listed { self.new.listed ≡ self.old.listed }
        ensures err { OnErr result (self.new ≡ self.old) }
        ensures enough { n ≤ self.old.room → IsOk result }
    {
        if n <= self.room {
            return Ok(());
        }
        make_room(
            &mut self.slots,
            &mut self.firsts,
            &mut self.released,
            &mut self.erased,
            &mut self.queue,
            n,
        )?;
        self.room = n;
        Ok(())
    }

    /// How many more operations can be held without taking memory.
    pub fn room(&self) -> usize
        ensures { result ≡ self.now.room }
    {
        self.room
    }

    /// Holds an operation, which uses up room for one; where none is left, room is made first. After
    /// `Memory` the store is as it was.
    /// Cost: O(1) expected; memory amortized, none while `room` is at least 1.
    pub fn hold(&mut self, op: Op) -> Result<(), Memory>
        requires { IsNew self.old.held op }
        ensures ok { OnOk result (self.new.held ≡ with_operation self.old.held op) }
        ensures released { self.new.released ≡ self.old.released }
        ensures room { OnOk result (self.new.room ≡ self.old.room - 1) }
        ensures err { OnErr result (self.new ≡ self.old) }
        ensures paid { 0 < self.old.room → IsOk result }
    {
        self.reserve(1)?;
        match op.view() {
            OpView::Insert { id, parent, ch } => self.hold_insertion(id, &parent, ch),
            OpView::Erase { target } => self.hold_erasure(target),
        }
        Ok(())
    }

    fn hold_insertion(&mut self, id: Id, parent: &Place, ch: char)
        requires new { map.get self.old.held.ins id ≡ None }
        requires may { MayFollow parent.now id }
        requires room { 0 < self.old.room }
        ensures held { self.new.held ≡ with_operation self.old.held (Insert id parent.now ch) }
        ensures released { self.new.released ≡ self.old.released }
        ensures room { self.new.room + 1 ≡ self.old.room }
    {
        let next = link(&mut self.firsts, parent, id);
        let slot = Slot {
            parent: *parent,
            ch,
            next,
        };
        self.slots.insert(id, slot).unwrap();
        self.room -= 1;
    }

    fn hold_erasure(&mut self, target: Id)
        requires { 0 < self.old.room }
        ensures held { self.new.held ≡ with_operation self.old.held (Erase target) }
        ensures released { self.new.released ≡ self.old.released }
        ensures room { self.new.room + 1 ≡ self.old.room }
    {
        self.erased.insert(target).unwrap();
        self.room -= 1;
    }

    /// The held insertion with this identifier.
    /// Cost: O(1) expected.
    pub fn insertion(&self, id: Id) -> Option<Op>
        ensures { result
            ≡ option_map (λ node. Insert id node.parent node.ch) (map.get self.now.held.ins id) }
    {
        // With an empty table nothing is hashed: mostly nothing waits.
        if self.slots.is_empty() {
            return None;
        }
        match self.slots.get(&id) {
            Some(slot) => Op::insert(id, slot.parent, slot.ch),
            None => None,
        }
    }

    /// Whether a deletion of this target is held.
    /// Cost: O(1) expected.
    pub fn erased(&self, id: Id) -> bool
        ensures { result ≡ set.contains self.now.held.del id }
    {
        self.erased.contains(&id)
    }

    /// How many operations are held.
    pub fn count(&self) -> usize
        ensures { result ≡ size self.now.held }
    {
        self.slots.len() + self.erased.len()
    }

    /// How many of them are insertions.
    pub fn insertion_count(&self) -> usize
        ensures { result ≡ map.len self.now.held.ins }
    {
        self.slots.len()
    }

    /// Held operation `j`, from 0, of a list of them all. While the store does not change,
    /// neither does the list; its order is not specified.
    pub fn nth(&self, j: usize) -> Op
        requires { j < size self.now.held }
        ensures listed { slice_get self.now.listed j ≡ Some result }
        ensures each_once { ListsOnce self.now.held self.now.listed }
    {
        let insertions = self.slots.len();
        let erasures = self.erased.len();
        prove!(j < insertions + erasures);
        match self.slots.get_index(j) {
            Some((id, slot)) => Op::insert(*id, slot.parent, slot.ch).unwrap(),
            None => Op::erase(self.erased[j - insertions]),
        }
    }

    /// How many held insertions have a chain of parents, through held ones, to this identifier.
    /// Cost: O(m) of those that it counts.
    pub fn count_below(&mut self, id: Id) -> usize
        ensures count { CountsBelow self.old.held id result }
        ensures unchanged { self.new ≡ self.old }
    {
        list_below(&self.slots, &self.firsts, id, &mut self.queue);
        let count = self.queue.len();
        self.queue.clear();
        count
    }

    /// Makes the held insertions right after this identifier ready. As long as one of them is ready,
    /// so is an insertion that is held right after the identifier later.
    /// Cost: O(1) expected.
    #[inline(always)]
    pub fn release_of(&mut self, id: Id)
        ensures { Releases self.old id self.new }
    {
        if first_of(&self.firsts, id).is_none() {
            return;
        }
        if self.released.contains(&id) {
            return;
        }
        self.released.insert(id).unwrap();
    }

    /// Takes a ready insertion out. Those after it stay held, and are not ready until they are
    /// released.
    /// Cost: O(1) expected.
    pub fn next_ready(&mut self) -> Option<Op>
        ensures some { IfSome result (λ op. TakesOut self.old op self.new) }
        ensures none { IsNone result ↔ NoneReady self.old }
        ensures unchanged { IfNone result (self.new ≡ self.old) }
        ensures released { IfNone result (self.old.released ≡ set.empty) }
    {
        let parent = *self.released.last()?;
        let Some((at, _, first)) = self.firsts.get_full(&parent) else {
            unreachable!()
        };
        let id = *first;
        let Some(slot) = self.slots.swap_remove(&id) else {
            unreachable!()
        };
        unlink(&mut self.firsts, &mut self.released, at, parent, slot.next);
        Op::insert(id, slot.parent, slot.ch)
    }

    /// Whether a deletion of this target was held. Afterwards none is.
    /// Cost: O(1) expected.
    #[inline(always)]
    pub fn drop_erasure(&mut self, id: Id) -> bool
        ensures found { result ≡ set.contains self.old.held.del id }
        ensures dropped { self.new.held ≡ without_erasure self.old.held id }
        ensures released { self.new.released ≡ self.old.released }
        ensures room { self.new.room ≡ self.old.room }
        ensures absent { OnFalse result (self.new ≡ self.old) }
    {
        if self.erased.is_empty() {
            return false;
        }
        self.erased.swap_remove(&id)
    }
}

/// Lists the insertions below an identifier: those right after it, then those right after each
/// listed one.
fn list_below(slots: &Table<Slot>, firsts: &Table<Id>, id: Id, queue: &mut Vec<Id>)
    requires chains { (p : Identifier)
        → IsChainOf (slot_in slots.now.entries) p (first_in firsts.now.entries p) }
    requires formed { (q : Identifier) (s : Slot)
        → slot_in slots.now.entries q ≡ Some s → MayFollow s.parent q }
    requires empty { queue.old.items ≡ [] }
    requires room { length slots.now.entries ≤ vec_capacity queue.old }
    ensures count { (s : OperationSet) → s.ins ≡ insertions_of slots.now.entries
        → CountsBelow s id (vec_len queue.new) }
    ensures capacity { vec_capacity queue.new ≡ vec_capacity queue.old }
{
    append_chain(slots, firsts, id, queue);
    let mut done = 0;
    while done < queue.len() {
        append_chain(slots, firsts, queue[done], queue);
        done += 1;
    }
}

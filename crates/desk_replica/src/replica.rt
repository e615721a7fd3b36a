//! The desk.

ghost use Rattle.std.specs.Prelude.{◌≡◌, ◌≤◌, ◌<◌, ◌+◌, ◌↔◌, ◌^◌, max, Some, OnOk, OnErr, IfOk, IfErr, IfSome, IsSome, IsOk, MatchResult, length, slice_get, string_bytes, encode_utf8_all};
ghost use Rattle.bg_types.specs.OperationSet.{no_operations, with_operation, size, next, AllWellFormed};
ghost use Rattle.bg_types.specs.WellFormed.{IsWellFormed};
ghost use Rattle.rga_tree.specs.Attached.{IsAttached};
ghost use Rattle.rga_tree.specs.TextOf.{text, visible, visible_before, visible_ids};
ghost use Rattle.pending_ops.specs.Waiting.{ListsOnce};
ghost use Rattle.desk_replica.specs.Desk.{fresh};
ghost use Rattle.desk_replica.specs.Reply.{IsTaken, IsRefused, IsRefusal};
ghost use Rattle.desk_replica.specs.declared.answer.TakeFault.{TakeFault as Fault};
ghost use Rattle.desk_replica.specs.Listed.{listed};
ghost use Rattle.desk_replica.specs.declared.answer.TypeFault.{TypeFault as Untyped};
ghost use Rattle.desk_replica.specs.Typing.{typed, insertion, parent_at, IsTypedAt, IsTypeRefusal, IsTypeRefused, IsErasedAt};

mod agreeing;
mod in_order;
mod listing;
mod merging;
mod stretch;
mod telling;

use crate::answer::{TakeFault, Taken, TypeFault};
use crate::listener::Nobody;
use crate::placing::{count_waiting, make_room};
use crate::reading::{hidden_at, insertion_of};
use bg_types::{Id, Memory, Op, Place};
use pending_ops::Held;
use rga_tree::{Sequence, text_of};
use std::alloc::Global;
use std::marker::Model;

/// How many operations a desk has at most.
pub const MOST_OPERATIONS: u32 = 1_000_000;

/// One desk: a set of operations, read as a text. Operations come in any order and any number of
/// times; those that wait for one that is not there yet are of its set too.
///
/// Places count visible characters, from 0.
pub struct Replica<S: Sequence> {
    alloc: Global,
    site: u16,
    seq: S,
    held: Held,
    /// How many operations there are.
    kept: u32,
    /// The greatest counter that one of them names, or 0.
    greatest: u32,
    /// How many new operations are paid for.
    spare: usize,
}

impl<S: Sequence> Model for Replica<S> {
    ghost use Rattle.desk_replica.specs.Desk.{Desk, coded_desk};
    ghost use Rattle.desk_replica.specs.Placement.{IsDesk, waiting_in, whole};

    ghost Value = { Desk };

    ghost coded = { coded_desk };

    ghost view = { λ a. record { set = whole (S.content a.seq) a.held; site = a.site; waiting = waiting_in a.held; spare = a.spare } };

    ghost invariant = { λ a. IsDesk (S.content a.seq) (S.free a.seq) a.held a.site a.kept a.greatest a.spare };
}

// Written out: a crate above then proves the call, and nothing of the parts.
impl<S: Sequence + Drop> Drop for Replica<S> {
    fn drop(self) {
        let Replica {
            alloc: _,
            site: _,
            seq: _,
            held: _,
            kept: _,
            greatest: _,
            spare: _,
        } = self;
    }
}

impl<S: Sequence> Replica<S> {
    /// A desk of this site (at least 1) without operations, over an empty sequence. Where the key is secret, only one who
    /// measures the times of many calls can choose identifiers that make them slow.
    pub fn new(alloc: Global, site: u16, seq: S, key: u128) -> Replica<S>
        requires site { 0 < site }
        requires empty { S.content seq ≡ no_operations }
        ensures { result ≡ fresh site }
    {
        Replica {
            alloc,
            site,
            seq,
            held: Held::keyed(alloc, key),
            kept: 0,
            greatest: 0,
            spare: 0,
        }
    }

    /// Reserves memory for n new operations (at most 1,000,000), those that are spare included: then
    /// n are taken, typed or erased without memory. After `Memory` the desk is as it was.
    /// Cost: O(n), memory for them: each table's at once; over `Blocks` a block for each 256, over `Runs` for the worst.
    pub fn reserve(&mut self, n: usize) -> Result<(), Memory>
        requires { n ≤ 1_000_000 }
        ensures ok { OnOk result (self.new.spare ≡ max self.old.spare n) }
        ensures set { self.new.set ≡ self.old.set }
        ensures site { self.new.site ≡ self.old.site }
        ensures waiting { self.new.waiting ≡ self.old.waiting }
        ensures err { OnErr result (self.new ≡ self.old) }
        ensures enough { n ≤ self.old.spare → IsOk result }
    {
        if n <= self.spare {
            return Ok(());
        }
        make_room(&mut self.seq, &mut self.held, n)?;
        self.spare = n;
        Ok(())
    }

    /// How many new operations are paid for.
    pub fn spare(&self) -> usize
        ensures { result ≡ self.now.spare }
    {
        self.spare
    }

    /// Takes an operation, and returns what became of it. A fault changes nothing. While one is
    /// spare, the fault is not `Memory`; a new operation lowers the spare ones by at most one.
    /// Cost: O(1) expected, and `Sequence::place` for each operation that is placed; memory amortized, none while one
    /// is spare.
    pub fn take(&mut self, op: &Op) -> Result<Taken, TakeFault>
        ensures answer { MatchResult result (IsTaken self.old.set op.now) (IsRefused self.old.set op.now) }
        ensures accepted { OnOk result ((fault : Fault) → ¬ (IsRefusal self.old.set op.now fault)) }
        ensures ok { OnOk result (self.new.set ≡ with_operation self.old.set op.now) }
        ensures limited { size self.new.set ≤ 1_000_000 }
        ensures err { OnErr result (self.new ≡ self.old) }
        ensures site { self.new.site ≡ self.old.site }
        ensures spare { size self.old.set + self.old.spare ≤ size self.new.set + self.new.spare }
        ensures unpaid { IfErr result (λ fault. fault ≡ TakeFault.Memory → self.old.spare ≡ 0) }
    {
        self.take_to(op, &mut Nobody)
    }

    /// Types a character at a place: makes the insertion, takes it, and returns it. A fault changes
    /// nothing.
    /// Cost: `id_at`, then `take`; memory likewise.
    #[inline(always)]
    pub fn type_char(&mut self, place: usize, ch: char) -> Result<Op, TypeFault>
        requires { place ≤ length (visible self.old.set) }
        ensures op { IfOk result (λ op. op ≡ insertion (typed self.old.set self.old.site place ch)) }
        ensures well_formed { IfOk result IsWellFormed }
        ensures accepted { OnOk result ((fault : Untyped) → ¬ (IsTypeRefusal self.old.set fault)) }
        ensures ok { OnOk result (self.new.set ≡ with_operation self.old.set (insertion (typed self.old.set self.old.site place ch))) }
        ensures typed { OnOk result (IsTypedAt self.old.set self.new.set place (typed self.old.set self.old.site place ch)) }
        ensures fault { IfErr result (IsTypeRefused self.old.set) }
        ensures err { OnErr result (self.new ≡ self.old) }
        ensures site { self.new.site ≡ self.old.site }
        ensures spare { size self.old.set + self.old.spare ≤ size self.new.set + self.new.spare }
        ensures unpaid { IfErr result (λ fault. fault ≡ TypeFault.Memory → self.old.spare ≡ 0) }
    {
        if self.greatest == u32::MAX {
            return Err(TypeFault::CounterSpent);
        }
        if self.kept >= MOST_OPERATIONS {
            return Err(TypeFault::Full);
        }
        let op = self.make(place, ch);
        match self.take(&op) {
            Ok(_) => Ok(op),
            Err(_) => Err(TypeFault::Memory),
        }
    }

    /// The insertion of a character at a place.
    fn make(&mut self, place: usize, ch: char) -> Op
        requires place { place ≤ length (visible self.old.set) }
        requires counter { next self.old.set < 2 ^ 32 }
        ensures op { result ≡ insertion (typed self.old.set self.old.site place ch) }
        ensures well_formed { IsWellFormed result }
        ensures unchanged { self.new ≡ self.old }
    {
        let id = Id::new(self.greatest + 1, self.site).unwrap();
        let parent = self.parent_for(place);
        Op::insert(id, parent, ch).unwrap()
    }

    /// What a character typed at a place follows.
    fn parent_for(&mut self, place: usize) -> Place
        requires { place ≤ length (visible self.old.set) }
        ensures parent { result ≡ parent_at (visible_ids self.old.set) place }
        ensures unchanged { self.new ≡ self.old }
    {
        if place == 0 {
            return Place::Root;
        }
        Place::After(self.id_at(place - 1))
    }

    /// Erases the visible character at a place: makes the deletion, takes it, and returns it. The
    /// only fault is `Full`, which changes nothing.
    /// Cost: `id_at`, then `take`.
    pub fn erase_at(&mut self, place: usize) -> Result<Op, TypeFault>
        requires { place < length (visible self.old.set) }
        ensures op { IfOk result (λ op. IsErasedAt self.old.set self.new.set place op) }
        ensures accepted { OnOk result (size self.old.set < 1_000_000) }
        ensures fault { IfErr result (λ fault. (fault ≡ TypeFault.Full) × (size self.old.set ≡ 1_000_000)) }
        ensures err { OnErr result (self.new ≡ self.old) }
        ensures site { self.new.site ≡ self.old.site }
        ensures spare { size self.old.set + self.old.spare ≤ size self.new.set + self.new.spare }
    {
        let op = Op::erase(self.id_at(place));
        match self.take(&op) {
            Ok(_) => Ok(op),
            Err(_) => Err(TypeFault::Full),
        }
    }

    /// The visible characters in order, at most 1,000,000.
    /// Cost: O(n), memory for the text: a byte an element in one growth, and up to two growths more where characters
    /// take more.
    pub fn text(&self) -> Result<String, Memory>
        ensures ok { IfOk result (λ t. string_bytes t ≡ encode_utf8_all (text self.now.set)) }
        ensures limited { length (text self.now.set) ≤ 1_000_000 }
    {
        text_of(self.alloc, &self.seq)
    }

    /// How many characters are visible.
    pub fn len(&self) -> usize
        ensures { result ≡ length (visible self.now.set) }
    {
        self.seq.len()
    }

    /// The identifier of the visible character at a place.
    /// Cost: that of `Sequence::id_at`.
    pub fn id_at(&mut self, place: usize) -> Id
        requires { place < length (visible self.old.set) }
        ensures value { slice_get (visible_ids self.old.set) place ≡ Some result }
        ensures unchanged { self.new ≡ self.old }
        // What is true of every desk's set, for the caller's proof.
        ensures well_formed { AllWellFormed self.old.set }
    {
        self.seq.id_at(place)
    }

    /// How many visible characters stand before that of this identifier, or `None` where it is not placed.
    /// Cost: that of `Sequence::visible_before`.
    pub fn place_of(&self, id: Id) -> Option<usize>
        ensures placed { IsSome result ↔ IsAttached self.now.set.ins id }
        ensures value { IfSome result (λ place. place ≡ visible_before self.now.set id) }
    {
        if !self.seq.has(id) {
            return None;
        }
        Some(self.seq.visible_before(id))
    }

    /// How many operations there are, at most 1,000,000.
    pub fn op_count(&self) -> usize
        ensures count { result ≡ size self.now.set }
        ensures limited { size self.now.set ≤ 1_000_000 }
        ensures well_formed { AllWellFormed self.now.set }
    {
        self.kept as usize
    }

    /// Operation `j`, from 0, of a list of them all: the placed insertions in the order of
    /// the walk, then the deletions of placed ones in that order, then those that wait. While the
    /// desk does not change, neither does the list. Goes over the elements if it is a deletion
    /// of a placed one.
    /// Cost: that of `Sequence::nth`; O(n) for a deletion.
    pub fn op_at(&self, j: usize) -> Op
        requires { j < size self.now.set }
        ensures listed { slice_get (listed self.now) j ≡ Some result }
        ensures each_once { ListsOnce self.now.set (listed self.now) }
    {
        let reached = self.kept as usize - count_waiting(&self.held);
        if j >= reached {
            return self.held.nth(j - reached);
        }
        let placed = self.seq.placed();
        if j < placed {
            return insertion_of(&self.seq.nth(j));
        }
        Op::erase(hidden_at(&self.seq, j - placed))
    }
}

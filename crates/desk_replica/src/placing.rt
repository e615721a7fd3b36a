//! Where an operation goes: into the tree, or among those that wait.

ghost use Rattle.std.specs.Prelude.{◌≡◌, ◌≤◌, ◌<◌, ◌+◌, ◌-◌, ◌∷◌, [], ℕ, Some, true, OnOk, OnErr, IfOk, if◌then◌else◌};
ghost use Rattle.std.specs.Option.{option_map};
ghost use Rattle.std.specs.FinMap as map;
ghost use Rattle.std.specs.FinSet as set;
ghost use Rattle.bg_types.specs.OperationSet.{AllWellFormed, with_operation, next, size};
ghost use Rattle.bg_types.specs.WellFormed.{IsWellFormed};
ghost use Rattle.bg_types.specs.declared.op.OpView.TheVariants.{Insert};
ghost use Rattle.rga_tree.specs.Tree.{stands_in};
ghost use Rattle.pending_ops.specs.Releasing.{subject};
ghost use Rattle.pending_ops.specs.Waiting.{ListsOnce, is_ready};
ghost use Rattle.rga_tree.specs.TextOf.{visible_before};
ghost use Rattle.desk_replica.specs.Listening.{HasRoom, HasRoomBelow, HasRoomFor, Tells, extended, told_count};
ghost use Rattle.desk_replica.specs.Telling.{ShowsAll, most_told};
ghost use Rattle.desk_replica.specs.Placement.{IsParted, IsSettled, IsPaid, MayPlace, Places, reaches_in, waiting_in, whole};
ghost use Rattle.desk_replica.specs.Reply.{IsAdmitted, IsTaken, IsHiding, attached_count};
ghost use Rattle.desk_replica.specs.Standing.{IsStanding};

use crate::answer::Taken;
use crate::listener::{Listener, Nobody};
use crate::reading::insertion_of;
use bg_types::{Change, Id, Memory, Op, OpView, Place};
use pending_ops::Held;
use rga_tree::Sequence;

/// For how many operations memory is asked for where one comes that isn't paid for, itself included: those that
/// wait come in numbers.
const AHEAD: usize = 64;

/// Whether a desk knows an operation.
#[derive(Clone, Copy)]
pub enum Standing {
    Known,
    /// Its identifier is there with another parent or character.
    Reused,
    New,
}

/// What is there at this identifier, if anything.
fn insertion_at<S: Sequence>(seq: &S, held: &Held, id: Id) -> Option<Op>
    ensures { result ≡ option_map (λ node. Insert id node.parent node.ch)
        (map.get (whole (S.content seq.now) held.now).ins id) }
{
    match seq.element(id) {
        Some(e) => Some(insertion_of(&e)),
        None => held.insertion(id),
    }
}

/// Whether an operation is among those of a desk, of which none names a counter above `greatest`.
#[inline(always)]
pub fn look_up<S: Sequence>(seq: &S, held: &Held, greatest: u32, op: &Op) -> Standing
    requires settled { IsSettled (S.content seq.now) held.now }
    requires greatest { next (whole (S.content seq.now) held.now) ≡ greatest + 1 }
    ensures { IsStanding (whole (S.content seq.now) held.now) op.now result }
{
    if counter_of(op) > greatest {
        return Standing::New;
    }
    match op.view() {
        OpView::Insert { id, .. } => match insertion_at(seq, held, id) {
            None => Standing::New,
            Some(kept) if kept == *op => Standing::Known,
            Some(_) => Standing::Reused,
        },
        OpView::Erase { target } if is_erased(seq, held, target) => Standing::Known,
        OpView::Erase { .. } => Standing::New,
    }
}

/// Whether a deletion of this target is there.
fn is_erased<S: Sequence>(seq: &S, held: &Held, target: Id) -> bool
    requires { IsSettled (S.content seq.now) held.now }
    ensures { result ≡ set.contains (whole (S.content seq.now) held.now).del target }
{
    match seq.element(target) {
        Some(e) => e.hidden,
        None => held.erased(target),
    }
}

/// Whether a parent is there: the root, or a placed element.
pub fn stands<S: Sequence>(seq: &S, parent: &Place) -> bool
    ensures { result ≡ stands_in (S.content seq.now) parent.now }
{
    match parent {
        Place::Root => true,
        Place::After(id) => seq.has(*id),
    }
}

/// Makes room for n new operations, wherever they go, and for placing what waits.
#[inline(never)]
pub fn make_room<S: Sequence>(seq: &mut S, held: &mut Held, n: usize) -> Result<(), Memory>
    requires n { n ≤ 1_000_000 }
    requires few { map.len held.old.held.ins ≤ 1_000_000 }
    ensures content { S.content seq.new ≡ S.content seq.old }
    ensures held { held.new.held ≡ held.old.held }
    ensures released { held.new.released ≡ held.old.released }
    ensures listed { held.new.listed ≡ held.old.listed }
    ensures ok { OnOk result (IsPaid (S.free seq.new) held.new n) }
    ensures kept { S.free seq.old ≤ S.free seq.new }
    ensures err { OnErr result (held.new ≡ held.old) }
{
    seq.reserve(held.insertion_count() + n)?;
    held.reserve(n)
}

/// Takes one from the spare operations. Where there is none, one is paid for now, and some that may follow. What is told is
/// paid for first.
#[inline(always)]
fn pay<S: Sequence, L: Listener>(
    seq: &mut S,
    held: &mut Held,
    spare: &mut usize,
    op: &Op,
    listener: &mut L,
) -> Result<(), Memory>
    requires paid { IsPaid (S.free seq.old) held.old spare.old }
    requires few { map.len held.old.held.ins ≤ 1_000_000 }
    ensures content { S.content seq.new ≡ S.content seq.old }
    ensures held { held.new.held ≡ held.old.held }
    ensures released { held.new.released ≡ held.old.released }
    ensures paid { OnOk result (IsPaid (S.free seq.new) held.new (spare.new + 1)) }
    ensures spare { OnOk result (spare.new ≡ spare.old - 1) }
    ensures unpaid { HasRoomFor (L.told listener.old) (L.capacity listener.old) held.old.held op.now → OnErr result (spare.old ≡ 0) }
    ensures kept { S.free seq.old ≤ S.free seq.new }
    ensures err { OnErr result (held.new ≡ held.old) }
    ensures same { OnErr result (spare.new ≡ spare.old) }
    ensures told { L.told listener.new ≡ L.told listener.old }
    ensures room { OnOk result (HasRoomFor (L.told listener.new) (L.capacity listener.new) held.old.held op.now) }
    ensures capacity { L.capacity listener.old ≤ L.capacity listener.new }
{
    listener.make_room(held, op)?;
    if *spare > 0 {
        *spare -= 1;
        return Ok(());
    }
    if seq.room() > held.insertion_count() && held.room() > 0 {
        return Ok(());
    }
    make_room(seq, held, AHEAD)
}

/// Takes in a new operation. It is paid for before the first change: but for what is told, hiding an element takes nothing.
pub fn admit<S: Sequence, L: Listener>(
    seq: &mut S,
    held: &mut Held,
    spare: &mut usize,
    op: &Op,
    listener: &mut L,
) -> Result<Taken, Memory>
    requires settled { IsSettled (S.content seq.old) held.old }
    requires admitted { IsAdmitted (whole (S.content seq.old) held.old) op.now }
    requires paid { IsPaid (S.free seq.old) held.old spare.old }
    ensures settled { IsSettled (S.content seq.new) held.new }
    ensures paid { IsPaid (S.free seq.new) held.new spare.new }
    ensures spare { spare.old ≤ spare.new + 1 }
    ensures unpaid { HasRoomFor (L.told listener.old) (L.capacity listener.old) held.old.held op.now
        → OnErr result ((spare.old ≡ 0) × (¬ (IsHiding (whole (S.content seq.old) held.old) op.now))) }
    ensures same { OnErr result (spare.new ≡ spare.old) }
    ensures ok { OnOk result (whole (S.content seq.new) held.new ≡ with_operation (whole (S.content seq.old) held.old) op.now) }
    ensures answer { IfOk result (IsTaken (whole (S.content seq.old) held.old) op.now) }
    ensures content { OnErr result (S.content seq.new ≡ S.content seq.old) }
    ensures held { OnErr result (held.new ≡ held.old) }
    ensures told { Tells (whole (S.content seq.old) held.old) (whole (S.content seq.new) held.new) (L.told listener.old) (L.told listener.new) }
    ensures few { IfOk result (λ taken. told_count (L.told listener.new) ≤ told_count (L.told listener.old) + most_told taken) }
    ensures untold { OnErr result (L.told listener.new ≡ L.told listener.old) }
    ensures capacity { L.capacity listener.old ≤ L.capacity listener.new }
{
    if !reaches(seq, op) {
        pay(seq, held, spare, op, &mut Nobody)?;
        held.hold(*op).unwrap();
        return Ok(Taken::Held);
    }
    match op.view() {
        OpView::Insert { .. } => {
            pay(seq, held, spare, op, listener)?;
            Ok(place_new(seq, held, op, listener))
        }
        OpView::Erase { target } => {
            listener.make_room(held, op)?;
            listener.hear_cut(seq, target);
            seq.hide(target);
            Ok(Taken::Hidden)
        }
    }
}

/// Whether an operation need not wait: its parent or its target is placed.
#[inline(always)]
fn reaches<S: Sequence>(seq: &S, op: &Op) -> bool
    ensures value { result ≡ reaches_in (S.content seq.now) op.now }
    ensures well_formed { IsWellFormed op.now }
{
    match op.view() {
        OpView::Insert { parent, .. } => stands(seq, &parent),
        OpView::Erase { target } => seq.has(target),
    }
}

/// Places a new insertion, and what waits for it.
fn place_new<S: Sequence, L: Listener>(
    seq: &mut S,
    held: &mut Held,
    op: &Op,
    listener: &mut L,
) -> Taken
    requires settled { IsSettled (S.content seq.old) held.old }
    requires admitted { IsAdmitted (whole (S.content seq.old) held.old) op.now }
    requires may { MayPlace (S.content seq.old) op.now }
    requires room { map.len held.old.held.ins + 1 ≤ S.free seq.old }
    requires told_room { HasRoomFor (L.told listener.old) (L.capacity listener.old) held.old.held op.now }
    ensures settled { IsSettled (S.content seq.new) held.new }
    ensures whole { whole (S.content seq.new) held.new ≡ with_operation (whole (S.content seq.old) held.old) op.now }
    ensures answer { IsTaken (whole (S.content seq.old) held.old) op.now result }
    ensures paid { (n : ℕ) → IsPaid (S.free seq.old) held.old (n + 1) → IsPaid (S.free seq.new) held.new n }
    ensures told { Tells (whole (S.content seq.old) held.old) (whole (S.content seq.new) held.new) (L.told listener.old) (L.told listener.new) }
    ensures few { told_count (L.told listener.new) ≤ told_count (L.told listener.old) + most_told result }
    ensures capacity { L.capacity listener.old ≤ L.capacity listener.new }
{
    let before = seq.placed();
    place_one(seq, held, op, listener);
    place_ready(seq, held, listener);
    Taken::Placed(seq.placed() - before - 1)
}

/// Places ready insertions until none is ready.
fn place_ready<S: Sequence, L: Listener>(seq: &mut S, held: &mut Held, listener: &mut L)
    requires parted { IsParted (S.content seq.old) held.old.held (is_ready held.old) }
    requires formed { AllWellFormed held.old.held }
    requires room { map.len held.old.held.ins ≤ S.free seq.old }
    requires told_room { HasRoomBelow (L.told listener.old) (L.capacity listener.old) held.old }
    ensures settled { IsSettled (S.content seq.new) held.new }
    ensures same { whole (S.content seq.new) held.new ≡ whole (S.content seq.old) held.old }
    ensures grows { attached_count (S.content seq.old) ≤ attached_count (S.content seq.new) }
    ensures paid { (n : ℕ) → IsPaid (S.free seq.old) held.old n → IsPaid (S.free seq.new) held.new n }
    ensures told { Tells (S.content seq.old) (S.content seq.new) (L.told listener.old) (L.told listener.new) }
    ensures few { told_count (L.told listener.new) + attached_count (S.content seq.old)
        ≤ told_count (L.told listener.old) + attached_count (S.content seq.new) }
    ensures shows { ShowsAll (S.content seq.old) (S.content seq.new) }
    ensures capacity { L.capacity listener.old ≤ L.capacity listener.new }
{
    while let Some(op) = held.next_ready() {
        place_one(seq, held, &op, listener);
    }
}

/// Places an insertion that no longer waits, tells of it where it is visible, and makes those right after it ready.
#[inline(always)]
fn place_one<S: Sequence, L: Listener>(seq: &mut S, held: &mut Held, op: &Op, listener: &mut L)
    requires may { MayPlace (S.content seq.old) op.now }
    requires room { 1 ≤ S.free seq.old }
    requires told_room { HasRoom (L.told listener.old) (L.capacity listener.old) 1 }
    ensures places { Places (S.content seq.old) held.old op.now (S.content seq.new) held.new }
    ensures room { S.free seq.new + 1 ≡ S.free seq.old }
    ensures grows { attached_count (S.content seq.new) ≡ attached_count (S.content seq.old) + 1 }
    ensures told { Tells (S.content seq.old) (S.content seq.new) (L.told listener.old) (L.told listener.new) }
    ensures few { told_count (L.told listener.new) ≤ told_count (L.told listener.old) + 1 }
    ensures shows { ShowsAll (S.content seq.old) (S.content seq.new) }
    ensures capacity { L.capacity listener.old ≤ L.capacity listener.new }
{
    match op.view() {
        OpView::Insert { id, parent, ch } => {
            let hidden = held.drop_erasure(id);
            seq.place(id, parent, ch, hidden);
            tell_placed(seq, id, ch, hidden, listener);
            held.release_of(id);
        }
        OpView::Erase { .. } => unreachable!(),
    }
}

/// Tells that an element was placed, if it is visible.
#[inline(always)]
fn tell_placed<S: Sequence, L: Listener>(seq: &S, id: Id, ch: char, hidden: bool, listener: &mut L)
    requires placed { map.contains_key (S.content seq.now).ins id ≡ true }
    requires room { HasRoom (L.told listener.old) (L.capacity listener.old) 1 }
    ensures told { L.told listener.new ≡ extended (L.told listener.old)
        (if hidden then [] else Change.Put (visible_before (S.content seq.now) id) ch ∷ []) }
    ensures capacity { L.capacity listener.old ≤ L.capacity listener.new }
{
    if hidden {
        return;
    }
    listener.hear_put(seq, id, ch);
}

/// The greatest counter that an operation names.
pub fn counter_of(op: &Op) -> u32
    ensures counter { result ≡ (subject op.now).counter }
    ensures well_formed { IsWellFormed op.now }
{
    match op.view() {
        OpView::Insert { id, .. } => id.counter(),
        OpView::Erase { target } => target.counter(),
    }
}

/// How many operations wait.
pub fn count_waiting(held: &Held) -> usize
    ensures count { result ≡ size held.now.held }
    ensures each_once { ListsOnce held.now.held (waiting_in held.now) }
{
    let count = held.count();
    if count > 0 {
        // Reading one operation of the list shows the proof that it is whole.
        let _first = held.nth(0);
    }
    count
}

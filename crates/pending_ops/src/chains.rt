//! The tables of a store: the held insertions, and for each parent the chain of those that name it.

ghost use Rattle.std.specs.Prelude.{◌≡◌, ◌&&◌, not, ◌≤◌, ◌<◌, ◌+◌, ◌++◌, ◌∷◌, [], true, ℕ, List, length, slice_get, Some, None, IsSome, if◌then◌else◌, vec_len, vec_capacity};
ghost use Rattle.indexmap.specs.IndexMap.{spare};
ghost use Rattle.indexmap.specs.IndexSet as set;
ghost use Rattle.bg_types.specs.Identifier.{Identifier, same_id};
ghost use Rattle.pending_ops.specs.declared.chains.Slot.{Slot};
ghost use Rattle.pending_ops.specs.Waiting.{is_after};
ghost use Rattle.pending_ops.specs.Chains.{Links, first_in, is_in, slot_in};

use bg_types::{Id, Keyed, Place};
use indexmap::{IndexMap, IndexSet};

/// A table by identifier. Its memory can be reserved in advance, and a removal gives none back.
pub type Table<V> = IndexMap<Id, V, Keyed>;

/// A set of identifiers.
pub type Names = IndexSet<Id, Keyed>;

/// A held insertion, with the next one that names its parent.
#[derive(Clone, Copy)]
pub struct Slot {
    pub parent: Place,
    pub ch: char,
    pub next: Option<Id>,
}

/// Puts an insertion in front of those that name its parent, and returns which was the first of
/// them.
pub fn link(firsts: &mut Table<Id>, parent: &Place, id: Id) -> Option<Id>
    requires { 0 < spare firsts.old }
    ensures first { (p : Identifier) → first_in firsts.new.entries p
        ≡ (if is_after parent.now p then Some id else first_in firsts.old.entries p) }
    ensures next { (p : Identifier)
        → is_after parent.now p ≡ true → result ≡ first_in firsts.old.entries p }
    ensures len { length firsts.new.entries ≤ length firsts.old.entries + 1 }
    ensures spare { spare firsts.old ≤ spare firsts.new + 1 }
{
    match parent {
        Place::Root => None,
        Place::After(above) => firsts.insert(*above, id).unwrap(),
    }
}

/// The first of those that name this parent.
#[inline(always)]
pub fn first_of(firsts: &Table<Id>, parent: Id) -> Option<Id>
    ensures { result ≡ first_in firsts.now.entries parent }
{
    if firsts.is_empty() {
        return None;
    }
    firsts.get(&parent).copied()
}

/// Appends the insertions that name this parent.
pub fn append_chain(slots: &Table<Slot>, firsts: &Table<Id>, parent: Id, queue: &mut Vec<Id>)
    requires { (xs : List Identifier)
        × (Links (slot_in slots.now.entries) (first_in firsts.now.entries parent) xs
        × (vec_len queue.old + length xs ≤ vec_capacity queue.old)) }
    ensures items { (xs : List Identifier)
        × (Links (slot_in slots.now.entries) (first_in firsts.now.entries parent) xs
        × (queue.new.items ≡ queue.old.items ++ xs)) }
    ensures capacity { vec_capacity queue.new ≡ vec_capacity queue.old }
{
    let mut cursor = first_of(firsts, parent);
    while let Some(id) = cursor {
        queue.push_reserved(id);
        cursor = match slots.get(&id) {
            Some(slot) => slot.next,
            None => None,
        };
    }
}

/// Takes the front off the chain of the parent that was released last: the next one is its first then. The parent of an
/// empty chain is no longer released.
pub fn unlink(firsts: &mut Table<Id>, released: &mut Names, at: usize, parent: Id, next: Option<Id>)
    requires first { IsSome (first_in firsts.old.entries parent) }
    requires at { (front : Identifier) × (slice_get firsts.old.entries at ≡ Some (parent, front)) }
    requires last { (before : List Identifier)
        × (released.old.keys ≡ before ++ parent ∷ []) }
    ensures first { (p : Identifier) → first_in firsts.new.entries p
        ≡ (if same_id parent p then next
        else first_in firsts.old.entries p) }
    ensures kept { IsSome next → released.new.keys ≡ released.old.keys }
    ensures emptied { next ≡ None → (p : Identifier)
        → is_in released.new.keys p
        ≡ (not (same_id parent p) && is_in released.old.keys p) }
    ensures room { (n : ℕ)
        → length firsts.old.entries + n ≤ length released.old.keys + set.spare released.old
        → length firsts.new.entries + n ≤ length released.new.keys + set.spare released.new }
    ensures spare { spare firsts.old ≤ spare firsts.new }
{
    match next {
        // Written over the one before, so that no room is used.
        Some(id) => *firsts.get_mut(&parent).unwrap() = id,
        None => {
            firsts.swap_remove_index(at);
            released.pop();
        }
    }
}

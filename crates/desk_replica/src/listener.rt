//! Who is told what becomes of a desk's text.

ghost use Rattle.std.specs.Prelude.{◌≡◌, ◌≤◌, ℕ, List, Option, ◌∷◌, [], None, Some, true, OnOk, IsOk, vec_capacity};
ghost use Rattle.std.specs.FinMap as map;
ghost use Rattle.bg_types.specs.declared.change.Change.{Change as TextChange};
ghost use Rattle.rga_tree.specs.TextOf.{visible_before};
ghost use Rattle.desk_replica.specs.Listening.{extended, HasRoom, HasRoomFor};
ghost use Rattle.desk_replica.specs.Telling.{TellsAtMost};

use bg_types::{Change, Id, Memory, Op, OpView};
use pending_ops::Held;
use rga_tree::Sequence;

/// Is told of changes of a text, one after the other.
pub trait Listener {
    /// The changes that were told, where they are listed.
    ghost told: { Self → Option (List TextChange) };

    /// How many changes can be listed without taking memory.
    ghost capacity: { Self → ℕ };

    /// Makes room for what one operation may tell while these wait: a deletion one change, an insertion one for itself and
    /// one for each that waits below it. What waits for others has no part in it.
    fn make_room(&mut self, held: &mut Held, op: &Op) -> Result<(), Memory>
        requires few { map.len held.old.held.ins ≤ 1_000_000 }
        ensures held { held.new ≡ held.old }
        ensures told { told self.new ≡ told self.old }
        ensures ok { OnOk result (HasRoomFor (told self.new) (capacity self.new) held.old.held op.now) }
        ensures enough { HasRoomFor (told self.old) (capacity self.old) held.old.held op.now → IsOk result }
        ensures capacity { capacity self.old ≤ capacity self.new };

    /// Is told that an element was placed that is visible.
    fn hear_put<S: Sequence>(&mut self, seq: &S, id: Id, ch: char)
        requires placed { map.contains_key (S.content seq.now).ins id ≡ true }
        requires room { HasRoom (told self.old) (capacity self.old) 1 }
        ensures told { told self.new ≡ extended (told self.old) (Change.Put (visible_before (S.content seq.now) id) ch ∷ []) }
        ensures capacity { capacity self.old ≤ capacity self.new };

    /// Is told that a visible element will be hidden.
    fn hear_cut<S: Sequence>(&mut self, seq: &S, id: Id)
        requires placed { map.contains_key (S.content seq.now).ins id ≡ true }
        requires room { HasRoom (told self.old) (capacity self.old) 1 }
        ensures told { told self.new ≡ extended (told self.old) (Change.Cut (visible_before (S.content seq.now) id) ∷ []) }
        ensures capacity { capacity self.old ≤ capacity self.new };
}

/// Is told, and lists nothing. No place is sought for it.
#[derive(Clone, Copy)]
pub struct Nobody;

impl Listener for Nobody {
    ghost told = { λ _. None };

    ghost capacity = { λ _. 0 };

    fn make_room(&mut self, _held: &mut Held, _op: &Op) -> Result<(), Memory> {
        Ok(())
    }

    fn hear_put<S: Sequence>(&mut self, _seq: &S, _id: Id, _ch: char) {}

    fn hear_cut<S: Sequence>(&mut self, _seq: &S, _id: Id) {}
}

/// Appends the changes to those that it has.
impl Listener for Vec<Change> {
    ghost told = { λ v. Some v.items };

    ghost capacity = { λ v. vec_capacity v };

    fn make_room(&mut self, held: &mut Held, op: &Op) -> Result<(), Memory> {
        self.reserve(most_told(held, op))?;
        Ok(())
    }

    fn hear_put<S: Sequence>(&mut self, seq: &S, id: Id, ch: char) {
        let place = seq.visible_before(id);
        self.push_reserved(Change::Put { place, ch });
    }

    fn hear_cut<S: Sequence>(&mut self, seq: &S, id: Id) {
        let place = seq.visible_before(id);
        self.push_reserved(Change::Cut { place });
    }
}

/// How many changes an operation may tell while these wait.
fn most_told(held: &mut Held, op: &Op) -> usize
    requires { map.len held.old.held.ins ≤ 1_000_000 }
    ensures most { TellsAtMost held.old.held op.now result }
    ensures unchanged { held.new ≡ held.old }
{
    match op.view() {
        OpView::Insert { id, .. } => held.count_below(id) + 1,
        OpView::Erase { .. } => 1,
    }
}

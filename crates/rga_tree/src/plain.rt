//! The plain sequence: one list, searched from the front.

ghost use Rattle.std.specs.Prelude.{◌≡◌, ◌-◌, ◌+◌, ◌≤◌, ◌<◌, ◌∷◌, [], Some, not, length, filter, take, count_by, slice_get, vec_len, vec_capacity};
ghost use Rattle.std.proofs.Common.{◌∙◌};
ghost use Rattle.std.proofs.lemmas.List.{append-nil};
ghost use Rattle.std.specs.List.{find as find_in, prefix_len, list_any};
ghost use Rattle.bg_types.specs.Identifier.{same_id};
ghost use Rattle.bg_types.specs.OperationSet.{no_operations};
ghost use Rattle.rga_tree.specs.TextOf.{visible, visible_ids, text};
ghost use Rattle.rga_tree.specs.Row.{operations_of, start_of, place_of};
ghost use Rattle.rga_tree.specs.KeepsWalk.{KeepsWalk, KeepsWalk-prop};
ghost use Rattle.rga_tree.specs.Spot.{seen, IsVisiblePlace};
ghost use Rattle.rga_tree.specs.declared.element.Element.{Element as Shown};

use crate::element::{Element, Unpacked, greater_in_front};
use crate::sequence::{Fresh, Sequence};
use bg_types::{Id, Memory, Place};
use std::alloc::Global;

/// A sequence as one list, in the order of the walk. `room`, `placed` and `nth` read one number or
/// element; every other call goes over the list, and `place` shifts what comes after the new one.
#[derive(Drop)]
pub struct Plain {
    row: Vec<Element>,
    ghost keeps_walk: { KeepsWalk row.items } by { KeepsWalk-prop row.items },
}

impl Plain {
    /// An empty sequence, which takes no memory.
    pub fn new(alloc: Global) -> Plain
        ensures content { ⟦<Plain as Sequence>⟧.content result ≡ no_operations }
        ensures room { ⟦<Plain as Sequence>⟧.free result ≡ 0 }
    {
        Plain {
            row: Vec::new(alloc),
        }
    }

    /// Visible element k.
    fn shown(&self, k: usize) -> Element
        requires { k < length (visible (operations_of self.now.row.items)) }
        ensures id { slice_get (visible_ids (operations_of self.now.row.items)) k ≡ Some result.id }
        ensures ch { slice_get (text (operations_of self.now.row.items)) k ≡ Some result.ch }
    {
        self.row[place_of_visible(&self.row, k)]
    }
}

impl Sequence for Plain {
    ghost content = { λ p. operations_of p.row.items };

    ghost free = { λ p. vec_capacity p.row - vec_len p.row };

    ghost parts = { λ p. p.row.items ∷ [] };

    fn reserve(&mut self, n: usize) -> Result<(), Memory> {
        self.row.reserve(n)?;
        Ok(())
    }

    fn room(&self) -> usize {
        self.row.capacity() - self.row.len()
    }

    fn place(&mut self, id: Id, parent: Place, ch: char, hidden: bool) {
        // Reading the identifier shows the proof that it is well formed.
        let _known = id.counter();
        let at = place_for(&self.row, id, &parent);
        let element = Element {
            id,
            parent,
            ch,
            hidden,
        };
        self.row.insert(at, element).unwrap();
    }

    fn hide(&mut self, id: Id) {
        let at = before(&self.row, id);
        self.row[at].hidden = true;
    }

    fn len(&self) -> usize {
        count_visible(&self.row)
    }

    fn id_at(&mut self, k: usize) -> Id {
        self.shown(k).id
    }

    fn char_at(&mut self, k: usize) -> char {
        self.shown(k).ch
    }

    fn spot_at(&mut self, k: usize) -> (usize, usize) {
        (0, place_of_visible(&self.row, k))
    }

    fn visible_before(&self, id: Id) -> usize {
        count_before(&self.row, id)
    }

    fn placed(&self) -> usize {
        self.row.len()
    }

    fn nth(&self, j: usize) -> Element {
        self.row[j]
    }

    fn part_count(&self) -> usize {
        1
    }

    fn part_len(&self, _p: usize) -> usize {
        self.row.len()
    }

    fn part<'a>(&'a self, _p: usize, _unpacked: &'a mut Unpacked) -> &'a [Element] {
        &self.row
    }

    fn has(&self, id: Id) -> bool {
        contains(&self.row, id)
    }

    fn element(&self, id: Id) -> Option<Element> {
        find(&self.row, id)
    }

    ghost whole = { λ p. append-nil p.row.items ∙ p.keeps_walk.in_order };

    ghost is_tree = { λ p. p.keeps_walk.tree };

    ghost only_placed = { λ p. p.keeps_walk.only_placed };

    ghost well_formed = { λ p. p.keeps_walk.well_formed };
}

impl Fresh for Plain {
    fn fresh(alloc: Global, _key: u128) -> Plain {
        Plain::new(alloc)
    }
}

/// Where a new element goes: after its parent, and after all greater elements that follow there.
fn place_for(row: &[Element], id: Id, parent: &Place) -> usize
    requires { start_of parent.now row.now ≤ length row.now }
    ensures place { result ≡ place_of parent.now id row.now }
    ensures within { result ≤ length row.now }
{
    let start = match parent {
        Place::Root => 0,
        Place::After(above) => before(row, *above) + 1,
    };
    start + greater_in_front(&row[start..], id)
}

/// How many elements stand before the one with this identifier.
fn before(row: &[Element], id: Id) -> usize
    ensures { result ≡ prefix_len (λ e. not (same_id id e.id)) row.now }
{
    row.iter().take_while(|e| id != e.id).count()
}

/// How many visible elements stand before the one with this identifier.
fn count_before(row: &[Element], id: Id) -> usize
    ensures { result ≡ count_by (λ e. not e.hidden) (take (prefix_len (λ e. not (same_id id e.id)) row.now) row.now) }
{
    row.iter()
        .take_while(|e| id != e.id)
        .filter(|e| !e.hidden)
        .count()
}

fn count_visible(row: &[Element]) -> usize
    ensures { result ≡ length (filter (λ e. not e.hidden) row.now) }
{
    row.iter().filter(|e| !e.hidden).count()
}

/// How many elements stand before visible element k.
fn place_of_visible(row: &[Element], k: usize) -> usize
    requires { k < seen row.now }
    ensures { (e : Shown) × IsVisiblePlace (row.now ∷ []) k 0 result e }
{
    let mut left = k;
    for at in 0..row.len() {
        if !row[at].hidden {
            if left == 0 {
                return at;
            }
            left -= 1;
        }
    }
    unreachable!()
}

fn contains(row: &[Element], id: Id) -> bool
    ensures { result ≡ list_any (λ e. same_id id e.id) row.now }
{
    row.iter().any(|e| id == e.id)
}

fn find(row: &[Element], id: Id) -> Option<Element>
    ensures { result ≡ find_in (λ e. same_id id e.id) row.now }
{
    row.iter().copied().find(|e| id == e.id)
}

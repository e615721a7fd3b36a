//! Sequences: the elements of a tree in the order of its walk.

ghost use Rattle.std.specs.Prelude.{◌≡◌, ◌<◌, ◌≤◌, ◌+◌, ◌^◌, ◌++◌, ℕ, List, [], length, get_or, slice_get, true, false, Some, IsTrue, IsOk, OnOk, OnErr, IfOk, string_bytes, encode_utf8_all};
ghost use Rattle.std.specs.List.{flat_map};
ghost use Rattle.std.specs.Option.{option_map};
ghost use Rattle.std.specs.FinMap as map;
ghost use Rattle.std.specs.Str.{chars};
ghost use Rattle.bg_types.specs.OperationSet.{OperationSet, with_operation, no_operations, AllWellFormed};
ghost use Rattle.bg_types.specs.WellFormed.{MayFollow};
ghost use Rattle.bg_types.specs.declared.op.OpView.{OpView};
ghost use Rattle.bg_types.specs.declared.op.OpView.TheVariants.{Erase};
ghost use Rattle.rga_tree.specs.declared.element.Element.{Element};
ghost use Rattle.rga_tree.specs.TextOf.{visible, visible_ids, visible_before, text};
ghost use Rattle.rga_tree.specs.Tree.{stands_in, IsTree, OnlyErasesPlaced};
ghost use Rattle.rga_tree.specs.Elements.{elements, element_of, with_element};
ghost use Rattle.rga_tree.specs.Row.{shown_of};
ghost use Rattle.rga_tree.specs.Run.{insertions, with_operations, AreNew};
ghost use Rattle.rga_tree.specs.Spot.{IsVisiblePlace};

use crate::element::{Element, Unpacked};
use crate::shown::{PIECE_BYTES, push_shown};
use bg_types::{Id, Memory, Place};
use std::alloc::Global;

/// The elements of a tree in the order of its walk: a parent before its children, the children of
/// one parent in falling order of identifier. Places count elements, from 0.
pub trait Sequence {
    /// The insertions that are placed, and the deletions of those that are hidden.
    ghost content: { Self → OperationSet };

    /// How many placings take no memory.
    ghost free: { Self → ℕ };

    /// The elements in parts, each in one piece of memory.
    ghost parts: { Self → List (List Element) };

    /// How often it was looked at in search of a visible element, where that is counted. Only `id_at`, `char_at` and
    /// `spot_at` change the number.
    ghost looked: { Self → ℕ } = { λ _. 0 };

    /// Makes room for n placings (at most 4,000,000). If memory is refused, content and room
    /// stay as they were.
    /// Cost: memory for n elements; `Blocks`, `Runs`: once, O(n).
    fn reserve(&mut self, n: usize) -> Result<(), Memory>
        requires { n ≤ 4_000_000 }
        ensures content { content self.new ≡ content self.old }
        ensures ok { OnOk result (n ≤ free self.new) }
        ensures kept { free self.old ≤ free self.new }
        ensures err { OnErr result (free self.new ≡ free self.old) }
        ensures enough { n ≤ free self.old → IsOk result }
        ensures looked { looked self.new ≡ looked self.old };

    /// How many placings take no memory.
    fn room(&self) -> usize
        ensures { result ≡ free self.now };

    /// Places a new element below its parent, which is the root or already placed. Takes no
    /// memory, and uses up one placing of the room.
    /// Cost: `Blocks`: O(1) expected to the parent's block, O(512) in it, O(1) for 32 blocks that are passed or for
    /// one, now and then a split; `Runs`: O(log n) to the block, O(256) in it, O(1) for one that is passed, now and
    /// then a split; `Plain`: O(n).
    fn place(&mut self, id: Id, parent: Place, ch: char, hidden: bool)
        requires parent { stands_in (content self.old) parent ≡ true }
        requires before { MayFollow parent id }
        requires new { map.contains_key (content self.old).ins id ≡ false }
        requires room { 1 ≤ free self.old }
        ensures content { content self.new ≡ with_element (content self.old)
            (record { id = id; parent = parent; ch = ch; hidden = hidden }) }
        ensures room { free self.new + 1 ≡ free self.old }
        ensures looked { looked self.new ≡ looked self.old };

    /// Places a run: the first character below its parent, which is the root or already placed, with this identifier, and each
    /// further one below the one before, with the next counter. All are visible. Takes no memory, and uses up a placing of
    /// the room for each.
    /// Cost: a `place` for each character; `Runs`: one for 24.
    fn place_run(&mut self, first: Id, parent: Place, characters: &str)
        requires parent { stands_in (content self.old) parent ≡ true }
        requires before { MayFollow parent first }
        requires new { AreNew (content self.old) first (length (chars characters.now)) }
        requires counters { first.counter + length (chars characters.now) ≤ 2 ^ 32 }
        requires room { length (chars characters.now) ≤ free self.old }
        ensures content { content self.new ≡ with_operations (content self.old) (insertions first parent (chars characters.now)) }
        ensures room { free self.new + length (chars characters.now) ≡ free self.old }
        ensures looked { looked self.new ≡ looked self.old }
    {
        let mut counter = first.counter() - 1;
        let mut parent = parent;
        let mut left = characters.chars();
        while let Some(ch) = left.next() {
            counter += 1;
            let id = Id::new(counter, first.site()).unwrap();
            self.place(id, parent, ch, false);
            parent = Place::After(id);
        }
    }

    /// Hides a placed element, which may be hidden already. It stays where it is.
    /// Cost: `Blocks`: O(512), `Runs`: O(log n + 256), both O(1) where the element was put in last; `Plain`: O(n).
    fn hide(&mut self, id: Id)
        requires { map.contains_key (content self.old).ins id ≡ true }
        ensures content { content self.new ≡ with_operation (content self.old) (OpView.Erase id) }
        ensures room { free self.new ≡ free self.old }
        ensures looked { looked self.new ≡ looked self.old };

    /// How many elements are visible.
    /// Cost: `Blocks`, `Runs`: O(1); `Plain`: O(n).
    fn len(&self) -> usize
        ensures { result ≡ length (visible (content self.now)) };

    /// The identifier of visible element k.
    /// Cost: `Blocks`: O(n / 256 + 512); `Runs`: O(n / 4,096 + 256) for n stretches; `Plain`: O(n).
    fn id_at(&mut self, k: usize) -> Id
        requires { k < length (visible (content self.old)) }
        ensures value { slice_get (visible_ids (content self.old)) k ≡ Some result }
        ensures content { content self.new ≡ content self.old }
        ensures room { free self.new ≡ free self.old };

    /// The character of visible element k.
    /// Cost: as `id_at`.
    fn char_at(&mut self, k: usize) -> char
        requires { k < length (visible (content self.old)) }
        ensures value { slice_get (text (content self.old)) k ≡ Some result }
        ensures content { content self.new ≡ content self.old }
        ensures room { free self.new ≡ free self.old };

    /// Where visible element k stands: its part, and its place there. To read from it on, read the rest of that part,
    /// and then part after part.
    /// Cost: as `id_at`.
    fn spot_at(&mut self, k: usize) -> (usize, usize)
        requires { k < length (visible (content self.old)) }
        ensures value { (e : Element) × IsVisiblePlace (parts self.new) k result.0 result.1 e }
        ensures content { content self.new ≡ content self.old }
        ensures room { free self.new ≡ free self.old };

    /// How many visible elements stand before the one with this identifier, which is placed. Takes no memory, and
    /// counts as no look.
    /// Cost: `Blocks`: O(n / 16,384 + 512); `Runs`: O(n / 4,096 + 256) for n stretches; `Plain`: O(n).
    fn visible_before(&self, id: Id) -> usize
        requires { map.contains_key (content self.now).ins id ≡ true }
        ensures { result ≡ visible_before (content self.now) id };

    /// How many elements are placed, hidden ones included.
    fn placed(&self) -> usize
        ensures { result ≡ length (elements (content self.now)) };

    /// Element j, counting hidden ones.
    /// Cost: `Blocks`: O(n / 256); `Runs`: O(n / 128 + 256) for n stretches; `Plain`: O(1).
    fn nth(&self, j: usize) -> Element
        requires { j < length (elements (content self.now)) }
        ensures { slice_get (elements (content self.now)) j ≡ Some result };

    /// How many parts the elements are in. Joined in order, the parts are the elements.
    fn part_count(&self) -> usize
        ensures { result ≡ length (parts self.now) };

    /// How many elements part p has.
    fn part_len(&self, p: usize) -> usize
        requires { p < length (parts self.now) }
        ensures { result ≡ length (get_or (parts self.now) p []) };

    /// The elements of part p. To read all elements in order, read part after part. Where they are not stored as elements, they
    /// are unpacked into what is given.
    /// Cost: `Runs`: O(32) for a part, `Blocks` and `Plain`: O(1).
    fn part<'a>(&'a self, p: usize, unpacked: &'a mut Unpacked) -> &'a [Element]
        requires { p < length (parts self.now) }
        ensures { result.now ≡ get_or (parts self.now) p [] };

    /// Appends the visible characters of part p. The bytes are lent for the work, as is what elements are unpacked into.
    /// Cost: O(n) for n elements of the part, memory for their characters; `Runs`: none is unpacked.
    fn push_part(
        &self,
        p: usize,
        read: &mut String,
        bytes: &mut [u8],
        unpacked: &mut Unpacked,
    ) -> Result<(), Memory>
        requires part { p < length (parts self.now) }
        requires bytes { length bytes.old ≡ 256 }
        ensures { OnOk result (string_bytes read.new ≡ string_bytes read.old ++ encode_utf8_all (shown_of (get_or (parts self.now) p []))) }
    {
        push_shown(read, bytes, self.part(p, unpacked))
    }

    /// Whether the identifier's insertion is placed.
    /// Cost: `Blocks`: O(1) expected; `Runs`: O(log n + 256); `Plain`: O(n).
    fn has(&self, id: Id) -> bool
        ensures { result ≡ map.contains_key (content self.now).ins id };

    /// The placed element with this identifier.
    /// Cost: `Blocks`: O(512), `Runs`: O(log n + 256), both O(1) where the element was put in last; `Plain`: O(n).
    fn element(&self, id: Id) -> Option<Element>
        ensures { result ≡ option_map (λ node. element_of (content self.now) (id, node))
            (map.get (content self.now).ins id) };

    /// The parts together are the elements, in order.
    ghost whole: { (s : Self) → flat_map (λ part. part) (parts s) ≡ elements (content s) };

    /// The parent of each element is the root or an element.
    ghost is_tree: { (s : Self) → IsTree (content s) };

    /// Only elements are hidden.
    ghost only_placed: { (s : Self) → OnlyErasesPlaced (content s) };

    /// Identifiers, parents and characters are those of well-formed operations.
    ghost well_formed: { (s : Self) → AllWellFormed (content s) };
}

/// A sequence that can begin empty, and be let go.
pub trait Fresh: Sequence + Drop {
    /// An empty sequence, which takes no memory. Where it has a table, that is hashed with this key: without
    /// the key, only one who measures the times of many calls can choose identifiers that make them slow.
    fn fresh(alloc: Global, key: u128) -> Self
        ensures { Self.content result ≡ no_operations };
}

/// The visible characters in order.
/// Cost: O(n), memory for the text: a byte an element in one growth, and up to two growths more where characters take
/// more.
pub fn text_of<S: Sequence>(alloc: Global, seq: &S) -> Result<String, Memory>
    ensures { IfOk result (λ t. string_bytes t ≡ encode_utf8_all (text (S.content seq.now))) }
{
    let mut read = String::with_capacity(alloc, seq.placed())?;
    let mut bytes = [0; PIECE_BYTES];
    let mut unpacked = Unpacked::new();
    for p in 0..seq.part_count() {
        seq.push_part(p, &mut read, &mut bytes, &mut unpacked)?;
    }
    Ok(read)
}

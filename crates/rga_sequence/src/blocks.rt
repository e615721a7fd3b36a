//! The sequence in blocks.

ghost use Rattle.std.specs.Prelude.{◌≡◌, ◌+◌, ◌*◌, ◌/◌, ◌-◌, ◌<◌, ◌≤◌, ℕ, true, length, get_or, slice_get, Some, [], vec_len, vec_capacity};
ghost use Rattle.std.specs.HashMap.{hasher_of};
ghost use Rattle.bg_types.specs.Hashing.{keyed};
ghost use Rattle.bg_types.specs.OperationSet.{no_operations};
ghost use Rattle.rga_tree.specs.declared.element.Element.{Element};
ghost use Rattle.rga_tree.specs.TextOf.{visible, visible_ids, text};
ghost use Rattle.rga_tree.specs.Elements.{elements};
ghost use Rattle.rga_tree.specs.Row.{operations_of};
ghost use Rattle.rga_tree.specs.KeepsWalk.{KeepsWalk, KeepsWalk-prop};
ghost use Rattle.rga_sequence.specs.Blocks.{seen, FindsBy, IsVisiblePlace};
ghost use Rattle.rga_sequence.specs.Few.{few_items};
ghost use Rattle.rga_sequence.specs.Indexed.{blocks_in, elements_in, IsIndexed, IsIndexed-prop, HasRoom, HasRoom-prop};

use crate::before::count_before;
use crate::block::{HALF, weight};
use crate::counted;
use crate::index::empty;
use crate::look::{Look, find, find_spot};
use crate::row::{Row, block_at, hide, make_memory, put, spot, stands};
use bg_types::{Hashed, Id, Keyed, Memory, Place};
use rga_tree::{Element, Fresh, Sequence, Unpacked};
use std::alloc::Global;

/// A sequence in blocks.
pub struct Blocks {
    row: Row,
    alloc: Global,
    placed: usize,
    visible: usize,
    room: usize,
    looks: u64,
    ghost keeps_walk: { KeepsWalk (elements_in row) } by { KeepsWalk-prop (elements_in row) },
    ghost indexed: { IsIndexed ⟦<Id as Eq>⟧.eq row } by { IsIndexed-prop ⟦<Id as Eq>⟧.eq row },
    ghost enough: { HasRoom row room } by { HasRoom-prop row room },
    ghost placed_are: { placed ≡ length (elements_in row) },
    ghost visible_are: { visible ≡ seen (elements_in row) },
}

// Written out: a crate above then proves the call, and nothing of the parts.
impl Drop for Blocks {
    fn drop(self) {
        let Blocks {
            row: _,
            alloc: _,
            placed: _,
            visible: _,
            room: _,
            looks: _,
        } = self;
    }
}

impl Blocks {
    /// An empty sequence, which takes no memory. Its index is hashed with the key 0: for operations
    /// from strangers make the sequence by `keyed`.
    pub fn new(alloc: Global) -> Blocks
        ensures content { ⟦<Blocks as Sequence>⟧.content result ≡ no_operations }
        ensures room { ⟦<Blocks as Sequence>⟧.free result ≡ 0 }
        ensures looks { ⟦<Blocks as Look>⟧.looked result ≡ 0 }
        ensures hasher { ⟦<Blocks as Hashed>⟧.hasher result ≡ keyed 0 }
    {
        Blocks::keyed(alloc, 0)
    }

    /// An empty sequence, which takes no memory and whose index is hashed with this key. Without the key,
    /// only one who measures the times of many calls can choose identifiers that make them slow.
    pub fn keyed(alloc: Global, key: u128) -> Blocks
        ensures content { ⟦<Blocks as Sequence>⟧.content result ≡ no_operations }
        ensures room { ⟦<Blocks as Sequence>⟧.free result ≡ 0 }
        ensures looks { ⟦<Blocks as Look>⟧.looked result ≡ 0 }
        ensures hasher { ⟦<Blocks as Hashed>⟧.hasher result ≡ keyed key }
    {
        let hasher = Keyed::new(key);
        Blocks {
            row: Row {
                blocks: Vec::new(alloc),
                spares: Vec::new(alloc),
                index: empty(alloc, hasher),
                places: Vec::new(alloc),
                recent: 0,
                bounds: Vec::new(alloc),
                sums: Vec::new(alloc),
            },
            alloc,
            placed: 0,
            visible: 0,
            room: 0,
            looks: 0,
        }
    }

    /// How many blocks there are.
    pub fn blocks(&self) -> usize
        ensures count { result ≡ length (⟦<Blocks as Look>⟧.blocks self.now) }
        ensures few { result ≤ 1 + length (elements (⟦<Blocks as Sequence>⟧.content self.now)) / 256 }
    {
        self.row.blocks.len()
    }

    /// Visible element k, with the looks counted from 0.
    fn shown(&mut self, k: usize) -> Element
        requires { k < length (visible (⟦<Blocks as Sequence>⟧.content self.old)) }
        ensures id { slice_get (visible_ids (⟦<Blocks as Sequence>⟧.content self.old)) k ≡ Some result.id }
        ensures ch { slice_get (text (⟦<Blocks as Sequence>⟧.content self.old)) k ≡ Some result.ch }
        ensures content { ⟦<Blocks as Sequence>⟧.content self.new ≡ ⟦<Blocks as Sequence>⟧.content self.old }
        ensures room { ⟦<Blocks as Sequence>⟧.free self.new ≡ ⟦<Blocks as Sequence>⟧.free self.old }
        ensures looks { FindsBy (⟦<Blocks as Look>⟧.blocks self.old) k result (⟦<Blocks as Look>⟧.looked self.new) }
    {
        self.looks = 0;
        find(self, k)
    }
}

impl Fresh for Blocks {
    fn fresh(alloc: Global, key: u128) -> Blocks {
        Blocks::keyed(alloc, key)
    }
}

impl Hashed for Blocks {
    ghost hasher = { λ s. hasher_of s.row.index.groups };
}

impl Look for Blocks {
    ghost blocks = { λ s. blocks_in s.row };

    ghost looked = { λ s. s.looks };

    ghost aside = { λ s. s.room };

    fn header(&mut self, b: usize) -> usize {
        self.looks += 1;
        self.row.blocks[b].visible
    }

    fn pass(&mut self, k: usize) -> (usize, usize) {
        let row = &self.row;
        counted::pass(&row.blocks, &row.sums, k, &mut self.looks)
    }

    fn element(&mut self, b: usize, j: usize) -> Element {
        self.looks += 1;
        self.row.blocks[b].elements[j]
    }

    fn visible_in(&mut self, b: usize, visible: usize, from: usize, to: usize) -> usize {
        let row = &self.row.blocks[b].elements;
        counted::visible_in(row, visible, from, to, &mut self.looks)
    }

    fn looks(&self) -> u64 {
        self.looks
    }

    ghost few = { λ s b. few_items s.row.blocks.items b };
}

impl Sequence for Blocks {
    ghost content = { λ s. operations_of (elements_in s.row) };

    ghost free = { λ s. s.room };

    ghost parts = { λ s. blocks_in s.row };

    ghost looked = { λ s. s.looks };

    fn reserve(&mut self, n: usize) -> Result<(), Memory> {
        if n <= self.room {
            return Ok(());
        }
        let more = (n - self.room).div_ceil(HALF);
        let room = self.room + more * HALF;
        make_memory(&mut self.row, self.alloc, room, more)?;
        self.room = room;
        Ok(())
    }

    fn room(&self) -> usize {
        self.room
    }

    fn place(&mut self, id: Id, parent: Place, ch: char, hidden: bool) {
        // Reading the identifier shows the proof that it is well formed.
        let _known = id.counter();
        put(&mut self.row, id, parent, ch, hidden);
        self.placed += 1;
        self.visible += weight(hidden);
        self.room -= 1;
    }

    fn hide(&mut self, id: Id) {
        self.visible -= hide(&mut self.row, id);
    }

    fn len(&self) -> usize {
        self.visible
    }

    fn id_at(&mut self, k: usize) -> Id
        requires { k < length (visible (⟦<Blocks as Sequence>⟧.content self.old)) }
        ensures value { slice_get (visible_ids (⟦<Blocks as Sequence>⟧.content self.old)) k ≡ Some result }
        ensures content { ⟦<Blocks as Sequence>⟧.content self.new ≡ ⟦<Blocks as Sequence>⟧.content self.old }
        ensures room { ⟦<Blocks as Sequence>⟧.free self.new ≡ ⟦<Blocks as Sequence>⟧.free self.old }
        ensures looks { (e : Element) × FindsBy (⟦<Blocks as Look>⟧.blocks self.old) k e (⟦<Blocks as Look>⟧.looked self.new) }
    {
        self.shown(k).id
    }

    fn char_at(&mut self, k: usize) -> char
        requires { k < length (visible (⟦<Blocks as Sequence>⟧.content self.old)) }
        ensures value { slice_get (text (⟦<Blocks as Sequence>⟧.content self.old)) k ≡ Some result }
        ensures content { ⟦<Blocks as Sequence>⟧.content self.new ≡ ⟦<Blocks as Sequence>⟧.content self.old }
        ensures room { ⟦<Blocks as Sequence>⟧.free self.new ≡ ⟦<Blocks as Sequence>⟧.free self.old }
        ensures looks { (e : Element) × FindsBy (⟦<Blocks as Look>⟧.blocks self.old) k e (⟦<Blocks as Look>⟧.looked self.new) }
    {
        self.shown(k).ch
    }

    fn spot_at(&mut self, k: usize) -> (usize, usize)
        requires { k < length (visible (⟦<Blocks as Sequence>⟧.content self.old)) }
        ensures value { (e : Element) × IsVisiblePlace (⟦<Blocks as Sequence>⟧.parts self.new) k result.0 result.1 e }
        ensures content { ⟦<Blocks as Sequence>⟧.content self.new ≡ ⟦<Blocks as Sequence>⟧.content self.old }
        ensures room { ⟦<Blocks as Sequence>⟧.free self.new ≡ ⟦<Blocks as Sequence>⟧.free self.old }
        ensures looks { ⟦<Blocks as Look>⟧.looked self.new ≡ (result.0 + 1) + (result.1 + 1) }
    {
        self.looks = 0;
        let (b, at, _) = find_spot(self, k);
        (b, at)
    }

    fn visible_before(&self, id: Id) -> usize {
        let (b, at) = spot(&self.row, id).unwrap();
        count_before(&self.row.blocks, &self.row.sums, b, at)
    }

    fn placed(&self) -> usize {
        self.placed
    }

    fn nth(&self, j: usize) -> Element {
        let (b, at) = block_at(&self.row.blocks, j);
        self.row.blocks[b].elements[at]
    }

    fn part_count(&self) -> usize {
        self.blocks()
    }

    fn part_len(&self, p: usize) -> usize {
        self.row.blocks[p].elements.len()
    }

    fn part<'a>(&'a self, p: usize, _unpacked: &'a mut Unpacked) -> &'a [Element] {
        &self.row.blocks[p].elements
    }

    fn has(&self, id: Id) -> bool {
        stands(&self.row, id)
    }

    fn element(&self, id: Id) -> Option<Element> {
        let (b, at) = spot(&self.row, id)?;
        Some(self.row.blocks[b].elements[at])
    }

    ghost whole = { λ s. s.keeps_walk.in_order };

    ghost is_tree = { λ s. s.keeps_walk.tree };

    ghost only_placed = { λ s. s.keeps_walk.only_placed };

    ghost well_formed = { λ s. s.keeps_walk.well_formed };
}

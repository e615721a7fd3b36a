//! The sequence in stretches.

ghost use Rattle.std.specs.Prelude.{◌≡◌, ◌+◌, ◌*◌, ◌^◌, ◌<◌, ◌≤◌, true, false, length, get_or, take, drop, ◌∷◌, [], slice_get, Some, IsOk, OnOk, OnErr, vec_len, vec_capacity};
ghost use Rattle.std.proofs.Common.{◌∙◌};
ghost use Rattle.std.specs.FinMap as map;
ghost use Rattle.std.specs.Option.{option_map};
ghost use Rattle.std.specs.Str.{chars, IsUtf8};
ghost use Rattle.std.specs.Str.Iter.{chars_rest};
ghost use Rattle.bg_types.specs.WellFormed.{MayFollow};
ghost use Rattle.bg_types.specs.OperationSet.{no_operations, with_operation, AllWellFormed};
ghost use Rattle.bg_types.specs.declared.op.OpView.{OpView};
ghost use Rattle.bg_types.specs.declared.op.OpView.TheVariants.{Erase};
ghost use Rattle.rga_tree.specs.declared.element.Element.{Element};
ghost use Rattle.rga_tree.specs.TextOf.{visible, visible_ids, visible_before, text};
ghost use Rattle.rga_tree.specs.Tree.{stands_in};
ghost use Rattle.rga_tree.specs.Elements.{elements, element_of, with_element};
ghost use Rattle.rga_tree.specs.Run.{insertions, with_operations, AreNew};
ghost use Rattle.rga_tree.specs.Spot.{IsVisiblePlace};
ghost use Rattle.rga_tree.specs.Row.{operations_of};
ghost use Rattle.rga_tree.specs.KeepsWalk.{KeepsWalk, KeepsWalk-prop};
ghost use Rattle.rga_runs.specs.declared.stretch.Stretch.{Stretch as Kept};
ghost use Rattle.rga_runs.specs.Typed.{later};
ghost use Rattle.rga_runs.specs.Stretches.{elements_of, elements_in, are_stored, visible_in};
ghost use Rattle.rga_runs.specs.Counters.{are_up_to};
ghost use Rattle.rga_runs.specs.Filled.{filled};
ghost use Rattle.rga_runs.specs.BlockRows.{items_of};
ghost use Rattle.rga_runs.specs.Whole.{whole_parts};
ghost use Rattle.rga_runs.specs.Indexed.{stretches_in, stretches_for, IsIndexed, IsIndexed-prop, HasRoom, HasRoom-prop};

use crate::change::{hide, put, take_in};
use crate::cut::FULL;
use crate::keys;
use crate::read::{count_before, nth_spot, visible_spot};
use crate::room::{make_memory, most_for};
use crate::row::{Row, spot, stands};
use crate::stretch::weight;
use bg_types::{Id, Memory, Place};
use rga_tree::{Element, Fresh, Sequence, Unpacked};
use std::alloc::Global;
use std::str::Chars;

/// How many characters there are at most: more than any desk has. So a stretch has its place among them in 32 bits.
const MOST: usize = 4_294_967_296;

/// For how many placings there is room at least, where some is made.
const FEW: usize = 16;

/// The elements of a tree in the order of its walk, in stretches: what one site typed in one go takes the room of its
/// characters. Places count elements, from 0.
pub struct Runs {
    row: Row,
    /// The characters of all elements, in the order of their arrival.
    characters: Vec<char>,
    alloc: Global,
    visible: usize,
    room: usize,
    /// No character has a greater counter.
    highest: u32,
    ghost keeps_walk: { KeepsWalk (elements_in characters.items (stretches_in row)) } by { KeepsWalk-prop (elements_in characters.items (stretches_in row)) },
    ghost stored: { are_stored (length characters.items) (stretches_in row) ≡ true },
    ghost indexed: { IsIndexed row } by { IsIndexed-prop row },
    ghost counted: { vec_len characters ≡ length (elements_in characters.items (stretches_in row)) },
    ghost visible_are: { visible ≡ visible_in (stretches_in row) },
    ghost up_to: { are_up_to highest (elements_in characters.items (stretches_in row)) ≡ true },
    ghost enough: { HasRoom row (stretches_for room (vec_len characters) (length (stretches_in row))) } by { HasRoom-prop row (stretches_for room (vec_len characters) (length (stretches_in row))) },
    ghost enough_characters: { vec_len characters + room ≤ vec_capacity characters },
    ghost few: { vec_len characters + room ≤ 2 ^ 32 },
}

// Written out: a crate above then proves the call, and nothing of the parts.
impl Drop for Runs {
    fn drop(self) {
        let Runs {
            row: _,
            characters: _,
            alloc: _,
            visible: _,
            room: _,
            highest: _,
        } = self;
    }
}

impl Runs {
    /// An empty sequence, which takes no memory.
    pub fn new(alloc: Global) -> Runs
        ensures content { ⟦<Runs as Sequence>⟧.content result ≡ no_operations }
        ensures room { ⟦<Runs as Sequence>⟧.free result ≡ 0 }
    {
        Runs {
            row: Row {
                blocks: Vec::new(alloc),
                spares: Vec::new(alloc),
                keys: keys::none(alloc),
                places: Vec::new(alloc),
                count: 0,
                recent: (0, 0),
                latest: 0,
                bounds: Vec::new(alloc),
                sums: Vec::new(alloc),
            },
            characters: Vec::new(alloc),
            alloc,
            visible: 0,
            room: 0,
            highest: 0,
        }
    }

    /// Places a character, and behind it those that are left, as many as its stretch has room for, and answers how many
    /// those are.
    fn place_stretch(&mut self, id: Id, parent: Place, ch: char, left: &mut Chars<'_>) -> usize
        requires utf8 { IsUtf8 (chars_rest left.old) }
        requires parent { stands_in (⟦<Runs as Sequence>⟧.content self.old) parent ≡ true }
        requires before { MayFollow parent id }
        requires new { AreNew (⟦<Runs as Sequence>⟧.content self.old) id (length (chars (chars_rest left.old)) + 1) }
        requires counters { id.counter + length (chars (chars_rest left.old)) < 2 ^ 32 }
        requires room { length (chars (chars_rest left.old)) + 1 ≤ ⟦<Runs as Sequence>⟧.free self.old }
        ensures within { result ≤ length (chars (chars_rest left.old)) }
        ensures left { chars (chars_rest left.new) ≡ drop result (chars (chars_rest left.old)) }
        ensures utf8 { IsUtf8 (chars_rest left.new) }
        ensures content { ⟦<Runs as Sequence>⟧.content self.new ≡ with_operations (⟦<Runs as Sequence>⟧.content self.old)
            (insertions id parent (ch ∷ take result (chars (chars_rest left.old)))) }
        ensures room { ⟦<Runs as Sequence>⟧.free self.new + (result + 1) ≡ ⟦<Runs as Sequence>⟧.free self.old }
    {
        // Reading the identifier shows the proof that it is well formed.
        let known = id.counter();
        put(&mut self.row, id, parent, self.characters.len(), false);
        self.characters.push_reserved(ch);
        let more = take_in(&mut self.row, &mut self.characters, id, left);
        self.visible += 1 + more;
        self.room -= 1 + more;
        self.highest = self.highest.max(known + more as u32);
        more
    }

    /// Where visible element k stands: its block, its stretch there, and its place in that. One is often put after it, or it is hidden.
    fn shown(&mut self, k: usize) -> (usize, usize, usize)
        requires { k < length (visible (⟦<Runs as Sequence>⟧.content self.old)) }
        ensures block { result.0 < vec_len self.new.row.blocks }
        ensures within { result.1 < length (get_or (items_of self.new.row.blocks.items) result.0 []) }
        ensures inside { (d : Kept) → result.2 < (get_or (get_or (items_of self.new.row.blocks.items) result.0 []) result.1 d).count }
        ensures id { (d : Kept) → slice_get (visible_ids (⟦<Runs as Sequence>⟧.content self.old)) k
            ≡ Some (later (get_or (get_or (items_of self.new.row.blocks.items) result.0 []) result.1 d).first result.2) }
        ensures ch { (d : Kept) (e : Element) → slice_get (elements_of self.new.characters.items (get_or (get_or (items_of self.new.row.blocks.items) result.0 []) result.1 d)) result.2 ≡ Some e
            → slice_get (text (⟦<Runs as Sequence>⟧.content self.old)) k ≡ Some e.ch }
        ensures content { ⟦<Runs as Sequence>⟧.content self.new ≡ ⟦<Runs as Sequence>⟧.content self.old }
        ensures room { ⟦<Runs as Sequence>⟧.free self.new ≡ ⟦<Runs as Sequence>⟧.free self.old }
    {
        let (b, j, i) = visible_spot(&self.row.blocks, &self.row.sums, k);
        self.row.recent = (b, j);
        (b, j, i)
    }

    /// Character k of stretch j of block b, as an element.
    fn at(&self, b: usize, j: usize, k: usize) -> Element
        requires block { b < vec_len self.now.row.blocks }
        requires within { j < length (get_or (items_of self.now.row.blocks.items) b []) }
        requires inside { (d : Kept) → k < (get_or (get_or (items_of self.now.row.blocks.items) b []) j d).count }
        ensures { (d : Kept) → slice_get (elements_of self.now.characters.items (get_or (get_or (items_of self.now.row.blocks.items) b []) j d)) k ≡ Some result }
    {
        self.row.blocks[b].stretches[j].element(&self.characters, k)
    }
}

impl Fresh for Runs {
    fn fresh(alloc: Global, _key: u128) -> Runs {
        Runs::new(alloc)
    }
}

impl Sequence for Runs {
    ghost content = { λ s. operations_of (elements_in s.characters.items (stretches_in s.row)) };

    ghost free = { λ s. s.room };

    ghost parts = { λ s. filled s.characters.items (items_of s.row.blocks.items) };

    fn reserve(&mut self, n: usize) -> Result<(), Memory> {
        if n <= self.room {
            return Ok(());
        }
        let room = n.max(FEW);
        if MOST - self.characters.len() < room {
            return Err(Memory);
        }
        let stretches = most_for(room, self.characters.len(), self.row.count);
        make_memory(&mut self.row, self.alloc, stretches)?;
        // Last, so that a refused growth of the row leaves their list as it was.
        self.characters.reserve(room)?;
        self.room = room;
        Ok(())
    }

    fn room(&self) -> usize {
        self.room
    }

    fn place(&mut self, id: Id, parent: Place, ch: char, hidden: bool) {
        // Reading the identifier shows the proof that it is well formed.
        let known = id.counter();
        put(&mut self.row, id, parent, self.characters.len(), hidden);
        self.characters.push_reserved(ch);
        self.visible += weight(hidden);
        self.room -= 1;
        self.highest = self.highest.max(known);
    }

    fn place_run(&mut self, first: Id, parent: Place, characters: &str) {
        let mut counter = first.counter() - 1;
        let mut parent = parent;
        let mut left = characters.chars();
        while let Some(ch) = left.next() {
            let id = Id::new(counter + 1, first.site()).unwrap();
            counter += 1 + self.place_stretch(id, parent, ch, &mut left) as u32;
            let last = Id::new(counter, first.site()).unwrap();
            parent = Place::After(last);
        }
    }

    fn hide(&mut self, id: Id) {
        self.visible -= hide(&mut self.row, id);
    }

    fn len(&self) -> usize {
        self.visible
    }

    fn id_at(&mut self, k: usize) -> Id {
        let (b, j, i) = self.shown(k);
        self.row.blocks[b].stretches[j].id_at(i)
    }

    fn char_at(&mut self, k: usize) -> char {
        let (b, j, i) = self.shown(k);
        self.at(b, j, i).ch
    }

    fn spot_at(&mut self, k: usize) -> (usize, usize) {
        let (b, j, i) = visible_spot(&self.row.blocks, &self.row.sums, k);
        (FULL * b + j, i)
    }

    fn visible_before(&self, id: Id) -> usize {
        let (b, j, k) = spot(&self.row, id).unwrap();
        count_before(&self.row.blocks, &self.row.sums, b, j, k)
    }

    fn placed(&self) -> usize {
        self.characters.len()
    }

    fn nth(&self, j: usize) -> Element {
        let (b, at, k) = nth_spot(&self.row.blocks, j);
        self.at(b, at, k)
    }

    fn part_count(&self) -> usize {
        FULL * self.row.blocks.len()
    }

    fn part_len(&self, p: usize) -> usize {
        match self.row.blocks[p / FULL].stretches.get(p % FULL) {
            Some(stretch) => stretch.len(),
            None => 0,
        }
    }

    fn part<'a>(&'a self, p: usize, unpacked: &'a mut Unpacked) -> &'a [Element] {
        match self.row.blocks[p / FULL].stretches.get(p % FULL) {
            Some(stretch) => stretch.unpack(&self.characters, unpacked),
            None => &[],
        }
    }

    fn push_part(
        &self,
        p: usize,
        read: &mut String,
        bytes: &mut [u8],
        _unpacked: &mut Unpacked,
    ) -> Result<(), Memory> {
        match self.row.blocks[p / FULL].stretches.get(p % FULL) {
            Some(stretch) => stretch.push_shown(&self.characters, read, bytes),
            None => Ok(()),
        }
    }

    fn has(&self, id: Id) -> bool {
        // A new identifier most often has a greater counter than all.
        id.counter() <= self.highest && stands(&self.row, id)
    }

    fn element(&self, id: Id) -> Option<Element> {
        let (b, j, k) = spot(&self.row, id)?;
        Some(self.at(b, j, k))
    }

    ghost whole = { λ s. whole_parts s.characters.items s.row.blocks.items ∙ s.keeps_walk.in_order };

    ghost is_tree = { λ s. s.keeps_walk.tree };

    ghost only_placed = { λ s. s.keeps_walk.only_placed };

    ghost well_formed = { λ s. s.keeps_walk.well_formed };
}

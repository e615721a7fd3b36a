//! The row of blocks with its index.

ghost use Rattle.std.specs.Prelude.{◌≡◌, ◌+◌, ◌*◌, ◌^◌, ◌<◌, ◌≤◌, ◌∷◌, take, drop, ℕ, length, get_or, slice_index_or, [], insert, slice_set, true, false, not, IfSome, IfNone, OnOk, vec_len, vec_capacity};
ghost use Rattle.std.specs.List.{prefix_len};
ghost use Rattle.bg_types.specs.Identifier.{same_id};
ghost use Rattle.rga_tree.specs.declared.element.Element.{Element};
ghost use Rattle.rga_tree.specs.Row.{start_of, place_of, ids_of, is_distinct};
ghost use Rattle.rga_tree.specs.KeepsWalk.{KeepsWalk};
ghost use Rattle.rga_sequence.specs.Blocks.{seen, joined, offset, sought};
ghost use Rattle.rga_sequence.specs.BlockRows.{has, items_of, numbers_of};
ghost use Rattle.rga_sequence.specs.Indexed.{blocks_in, elements_in, IsIndexed, HasRoom};

use crate::block::{Block, FULL, HALF, Spare, weight};
use crate::bounds::{self, NEIGHBOURS};
use crate::index::{self, Index, home, rehome, renumber};
use crate::skip::place_from;
use crate::sums;
use bg_types::{Id, Memory, Place};
use rga_tree::Element;
use std::alloc::Global;

/// How many blocks there are at most: more than any memory holds. So the index has a block's number in 32 bits.
const MOST: usize = 4_294_967_295;

/// How many elements are compared before the end of a block is looked for.
const COMPARED: usize = 8;

/// Blocks in order, memory for more, the number of the block of each identifier, and where in the
/// row the block of each number is.
#[derive(Drop)]
pub struct Row {
    pub blocks: Vec<Block>,
    pub spares: Vec<Spare>,
    pub index: Index,
    pub places: Vec<usize>,
    /// The block where an element was put in last. The next one is often put after it.
    pub recent: usize,
    /// For each 32 blocks of the row an identifier that is no greater than any of theirs. The last
    /// blocks may have none.
    pub bounds: Vec<Id>,
    /// For each 32 blocks of the row how many of their elements are visible. The last blocks may have none.
    pub sums: Vec<usize>,
}

/// Whether an element has this identifier. The one that was put in last is known without a hash.
pub fn stands(row: &Row, id: Id) -> bool
    requires indexed { IsIndexed ⟦<Id as Eq>⟧.eq row.now }
    requires distinct { is_distinct (ids_of (elements_in row.now)) ≡ true }
    ensures { result ≡ has id (elements_in row.now) }
{
    recent_spot(row, id).is_some() || home(&row.index, id).is_some()
}

/// The block of an identifier, and its place there.
#[inline(always)]
pub fn spot(row: &Row, id: Id) -> Option<(usize, usize)>
    requires indexed { IsIndexed ⟦<Id as Eq>⟧.eq row.now }
    requires distinct { is_distinct (ids_of (elements_in row.now)) ≡ true }
    ensures absent { IfNone result (has id (elements_in row.now) ≡ false) }
    ensures block { IfSome result (λ s. s.0 < vec_len row.now.blocks) }
    ensures within { IfSome result (λ s. s.1 < length (get_or (blocks_in row.now) s.0 [])) }
    ensures place { IfSome result (λ s. offset (blocks_in row.now) s.0 s.1
        ≡ prefix_len (λ e. not (same_id id e.id)) (elements_in row.now)) }
{
    match recent_spot(row, id) {
        Some(found) => Some(found),
        None => indexed_spot(row, id),
    }
}

/// The block of an identifier by the index, and its place there.
#[inline(never)]
fn indexed_spot(row: &Row, id: Id) -> Option<(usize, usize)>
    requires indexed { IsIndexed ⟦<Id as Eq>⟧.eq row.now }
    requires distinct { is_distinct (ids_of (elements_in row.now)) ≡ true }
    ensures absent { IfNone result (has id (elements_in row.now) ≡ false) }
    ensures block { IfSome result (λ s. s.0 < vec_len row.now.blocks) }
    ensures within { IfSome result (λ s. s.1 < length (get_or (blocks_in row.now) s.0 [])) }
    ensures place { IfSome result (λ s. offset (blocks_in row.now) s.0 s.1
        ≡ prefix_len (λ e. not (same_id id e.id)) (elements_in row.now)) }
{
    match home(&row.index, id) {
        None => None,
        Some((number, hint)) => {
            let p = row.places[number];
            let block = &row.blocks[p];
            Some((p, before(&block.elements, hint, id)))
        }
    }
}

/// The block of the element that was put in last, and its place there, if it has this identifier.
/// Identifiers are distinct, so that no other can stand where it is read.
fn recent_spot(row: &Row, id: Id) -> Option<(usize, usize)>
    requires distinct { is_distinct (ids_of (elements_in row.now)) ≡ true }
    ensures stands { IfSome result (λ _. has id (elements_in row.now) ≡ true) }
    ensures block { IfSome result (λ s. s.0 < vec_len row.now.blocks) }
    ensures within { IfSome result (λ s. s.1 < length (get_or (blocks_in row.now) s.0 [])) }
    ensures place { IfSome result (λ s. offset (blocks_in row.now) s.0 s.1
        ≡ prefix_len (λ e. not (same_id id e.id)) (elements_in row.now)) }
{
    let (p, at, last) = recent(row)?;
    if last.id == id { Some((p, at)) } else { None }
}

/// The block where an element was put in last, its place there, and what stands there now. Another one may, since
/// blocks move.
#[inline(always)]
fn recent(row: &Row) -> Option<(usize, usize, Element)>
    ensures block { IfSome result (λ s. s.0 < vec_len row.now.blocks) }
    ensures within { IfSome result (λ s. s.1 < length (get_or (blocks_in row.now) s.0 [])) }
    ensures element { IfSome result (λ s. s.2 ≡ get_or (elements_in row.now) (offset (blocks_in row.now) s.0 s.1) s.2) }
{
    let p = row.recent;
    let block = row.blocks.get(p)?;
    let at = block.recent;
    let last = block.elements.get(at)?;
    Some((p, at, *last))
}

/// How many elements stand before the one with this identifier. It is sought from the hint on first.
fn before(row: &[Element], hint: usize, id: Id) -> usize
    requires { is_distinct (ids_of row.now) ≡ true }
    ensures { result ≡ prefix_len (λ e. not (same_id id e.id)) row.now }
{
    let from = past_eights(row, hint.min(row.len()), id);
    let likely = from + row[from..].iter().take_while(|e| id != e.id).count();
    if likely < row.len() && id == row[likely].id {
        return likely;
    }
    row.iter().take_while(|e| id != e.id).count()
}

/// As far from one place on as eight elements at a time lack this identifier.
fn past_eights(row: &[Element], from: usize, id: Id) -> usize
    requires { from ≤ length row.now }
    ensures { result ≤ length row.now }
{
    let mut at = from;
    while row.len() - at >= COMPARED && !row[at..at + COMPARED].iter().any(|e| id == e.id) {
        at += COMPARED;
    }
    at
}

/// Puts in a new element: after its parent, and after all greater ones that directly follow it.
pub fn put(row: &mut Row, id: Id, parent: Place, ch: char, hidden: bool)
    requires indexed { IsIndexed ⟦<Id as Eq>⟧.eq row.old }
    requires keeps_walk { KeepsWalk (elements_in row.old) }
    requires parent { start_of parent (elements_in row.old) ≤ length (elements_in row.old) }
    requires new { has id (elements_in row.old) ≡ false }
    requires room { HasRoom row.old 1 }
    ensures elements { elements_in row.new ≡ insert (elements_in row.old)
        (place_of parent id (elements_in row.old))
        (record { id = id; parent = parent; ch = ch; hidden = hidden }) }
    ensures indexed { IsIndexed ⟦<Id as Eq>⟧.eq row.new }
    ensures room { (n : ℕ) → HasRoom row.old (n + 1) → HasRoom row.new n }
{
    if row.blocks.is_empty() {
        put_first(row, id, parent, ch, hidden);
    } else {
        let (p, j) = start(row, &parent, id);
        let (q, at) = place_from(&row.blocks, &row.bounds, p, j, id);
        let (q, at) = make_room(row, q, at);
        put_into(row, q, at, id, parent, ch, hidden);
    }
}

/// Puts in the first element.
#[inline(never)]
fn put_first(row: &mut Row, id: Id, parent: Place, ch: char, hidden: bool)
    requires indexed { IsIndexed ⟦<Id as Eq>⟧.eq row.old }
    requires none { vec_len row.old.blocks ≡ 0 }
    requires room { HasRoom row.old 1 }
    ensures elements { elements_in row.new ≡ record { id = id; parent = parent; ch = ch; hidden = hidden } ∷ [] }
    ensures indexed { IsIndexed ⟦<Id as Eq>⟧.eq row.new }
    ensures room { (n : ℕ) → HasRoom row.old (n + 1) → HasRoom row.new n }
{
    let elements = row.spares.pop().unwrap().row;
    let block = Block::lone(elements, 0, id, parent, ch, hidden);
    row.blocks.push(block).unwrap();
    row.places.push(0).unwrap();
    row.bounds.clear();
    index::put(&mut row.index, id, 0, 0);
    row.recent = 0;
}

/// From where on the place of a new element is sought: a block, and a place there. Mostly the parent was put in last.
fn start(row: &Row, parent: &Place, id: Id) -> (usize, usize)
    requires indexed { IsIndexed ⟦<Id as Eq>⟧.eq row.now }
    requires keeps_walk { KeepsWalk (elements_in row.now) }
    requires some { 0 < vec_len row.now.blocks }
    requires parent { start_of parent.now (elements_in row.now) ≤ length (elements_in row.now) }
    ensures block { result.0 < vec_len row.now.blocks }
    ensures within { result.1 ≤ length (get_or (blocks_in row.now) result.0 []) }
    ensures place { sought id (blocks_in row.now) result.0 result.1 ≡ place_of parent.now id (elements_in row.now) }
{
    match recent_parent(row, parent) {
        Some((p, j)) => (p, j + 1),
        None => start_elsewhere(row, parent, id),
    }
}

/// The block of the element that was put in last, and its place there, if it is the parent.
fn recent_parent(row: &Row, parent: &Place) -> Option<(usize, usize)>
    requires distinct { is_distinct (ids_of (elements_in row.now)) ≡ true }
    ensures block { IfSome result (λ s. s.0 < vec_len row.now.blocks) }
    ensures within { IfSome result (λ s. s.1 < length (get_or (blocks_in row.now) s.0 [])) }
    ensures place { IfSome result (λ s. offset (blocks_in row.now) s.0 s.1 + 1 ≡ start_of parent.now (elements_in row.now)) }
{
    match parent {
        Place::Root => None,
        Place::After(above) => recent_spot(row, *above),
    }
}

/// Where the search for a place starts if the parent was not put in last: right behind a greater sibling that was, or right
/// behind the parent.
#[inline(never)]
fn start_elsewhere(row: &Row, parent: &Place, id: Id) -> (usize, usize)
    requires indexed { IsIndexed ⟦<Id as Eq>⟧.eq row.now }
    requires keeps_walk { KeepsWalk (elements_in row.now) }
    requires some { 0 < vec_len row.now.blocks }
    requires parent { start_of parent.now (elements_in row.now) ≤ length (elements_in row.now) }
    ensures block { result.0 < vec_len row.now.blocks }
    ensures within { result.1 ≤ length (get_or (blocks_in row.now) result.0 []) }
    ensures place { sought id (blocks_in row.now) result.0 result.1 ≡ place_of parent.now id (elements_in row.now) }
{
    match recent_sibling(row, parent, id) {
        Some((p, j)) => (p, j + 1),
        None => behind(row, parent),
    }
}

/// The block of the element that was put in last, and its place there, if it is a greater child of the
/// same parent. What stands between the parent and that one is greater still.
fn recent_sibling(row: &Row, parent: &Place, id: Id) -> Option<(usize, usize)>
    requires keeps_walk { KeepsWalk (elements_in row.now) }
    ensures block { IfSome result (λ s. s.0 < vec_len row.now.blocks) }
    ensures within { IfSome result (λ s. s.1 < length (get_or (blocks_in row.now) s.0 [])) }
    ensures place { IfSome result (λ s. sought id (blocks_in row.now) s.0 (s.1 + 1) ≡ place_of parent.now id (elements_in row.now)) }
{
    let (p, at, last) = recent(row)?;
    if last.parent == *parent && id < last.id {
        Some((p, at))
    } else {
        None
    }
}

/// Right behind the parent: a block, and a place there.
fn behind(row: &Row, parent: &Place) -> (usize, usize)
    requires indexed { IsIndexed ⟦<Id as Eq>⟧.eq row.now }
    requires distinct { is_distinct (ids_of (elements_in row.now)) ≡ true }
    requires some { 0 < vec_len row.now.blocks }
    requires parent { start_of parent.now (elements_in row.now) ≤ length (elements_in row.now) }
    ensures block { result.0 < vec_len row.now.blocks }
    ensures within { result.1 ≤ length (get_or (blocks_in row.now) result.0 []) }
    ensures place { offset (blocks_in row.now) result.0 result.1 ≡ start_of parent.now (elements_in row.now) }
{
    match parent {
        Place::Root => (0, 0),
        Place::After(above) => {
            let (p, j) = indexed_spot(row, *above).unwrap();
            (p, j + 1)
        }
    }
}

/// The place in the row that is given by a block and a place there, with room for an element: a
/// full block is split first.
fn make_room(row: &mut Row, q: usize, at: usize) -> (usize, usize)
    requires indexed { IsIndexed ⟦<Id as Eq>⟧.eq row.old }
    requires distinct { is_distinct (ids_of (elements_in row.old)) ≡ true }
    requires block { q < vec_len row.old.blocks }
    requires within { at ≤ length (get_or (blocks_in row.old) q []) }
    requires room { HasRoom row.old 1 }
    ensures block { result.0 < vec_len row.new.blocks }
    ensures within { result.1 ≤ length (get_or (blocks_in row.new) result.0 []) }
    ensures free { length (get_or (blocks_in row.new) result.0 []) < 512 }
    ensures place { offset (blocks_in row.new) result.0 result.1 ≡ offset (blocks_in row.old) q at }
    ensures elements { elements_in row.new ≡ elements_in row.old }
    ensures indexed { IsIndexed ⟦<Id as Eq>⟧.eq row.new }
    ensures room { (n : ℕ) → HasRoom row.old n → HasRoom row.new n }
{
    if row.blocks[q].elements.len() < FULL {
        return (q, at);
    }
    split(row, q);
    if at <= HALF {
        (q, at)
    } else {
        (q + 1, at - HALF)
    }
}

/// Splits a full block into two.
#[inline(never)]
fn split(row: &mut Row, q: usize)
    requires indexed { IsIndexed ⟦<Id as Eq>⟧.eq row.old }
    requires distinct { is_distinct (ids_of (elements_in row.old)) ≡ true }
    requires block { q < vec_len row.old.blocks }
    requires full { length (get_or (blocks_in row.old) q []) ≡ 512 }
    requires room { HasRoom row.old 1 }
    ensures blocks { let x = get_or (blocks_in row.old) q [] in
        blocks_in row.new ≡ insert (slice_set (blocks_in row.old) q (take 256 x)) (q + 1) (drop 256 x) }
    ensures indexed { IsIndexed ⟦<Id as Eq>⟧.eq row.new }
    ensures room { (n : ℕ) → HasRoom row.old n → HasRoom row.new n }
{
    let lower = row.spares.pop().unwrap().row;
    let number = row.blocks.len();
    split_at(&mut row.blocks, q, lower, number);
    rehome(&mut row.index, &row.blocks[q + 1].elements, number);
    row.places.push(number).unwrap();
    renumber(&mut row.places, &row.blocks, q + 1);
    let from = NEIGHBOURS * row.bounds.len().min(q / NEIGHBOURS);
    bounds::add(&mut row.bounds, row.blocks.len(), row.blocks[q].least);
    bounds::renew(&mut row.bounds, &row.blocks, from);
    sums::renew(&mut row.sums, &row.blocks, q);
}

/// Splits block q, which is full: its upper half moves to a new block after it.
fn split_at(blocks: &mut Vec<Block>, q: usize, lower: Vec<Element>, number: usize)
    requires block { q < vec_len blocks.old }
    requires full { length (get_or (items_of blocks.old.items) q []) ≡ 512 }
    requires room { vec_len blocks.old < vec_capacity blocks.old }
    requires empty { lower.items ≡ [] }
    requires lower_room { 512 ≤ vec_capacity lower }
    ensures items { let x = get_or (items_of blocks.old.items) q [] in
        items_of blocks.new.items ≡ insert (slice_set (items_of blocks.old.items) q (take 256 x)) (q + 1) (drop 256 x) }
    ensures numbers { numbers_of blocks.new.items ≡ insert (numbers_of blocks.old.items) (q + 1) number }
    ensures len { vec_len blocks.new ≡ vec_len blocks.old + 1 }
    ensures capacity { vec_capacity blocks.old ≤ vec_capacity blocks.new }
{
    let upper = blocks[q].split(lower, number);
    blocks.insert(q + 1, upper).unwrap();
}

/// Puts a new element into a block that has room.
fn put_into(row: &mut Row, q: usize, at: usize, id: Id, parent: Place, ch: char, hidden: bool)
    requires indexed { IsIndexed ⟦<Id as Eq>⟧.eq row.old }
    requires new { has id (elements_in row.old) ≡ false }
    requires block { q < vec_len row.old.blocks }
    requires within { at ≤ length (get_or (blocks_in row.old) q []) }
    requires free { length (get_or (blocks_in row.old) q []) < 512 }
    requires room { HasRoom row.old 1 }
    ensures elements { elements_in row.new ≡ insert (elements_in row.old) (offset (blocks_in row.old) q at)
        (record { id = id; parent = parent; ch = ch; hidden = hidden }) }
    ensures indexed { IsIndexed ⟦<Id as Eq>⟧.eq row.new }
    ensures room { (n : ℕ) → HasRoom row.old (n + 1) → HasRoom row.new n }
{
    row.blocks[q].insert(at, id, parent, ch, hidden);
    bounds::lower(&mut row.bounds, q, id);
    sums::raise(&mut row.sums, q, weight(hidden));
    let number = row.blocks[q].number;
    index::put(&mut row.index, id, number, at);
    row.recent = q;
}

/// Hides an element, and returns how many fewer are visible.
pub fn hide(row: &mut Row, id: Id) -> usize
    requires indexed { IsIndexed ⟦<Id as Eq>⟧.eq row.old }
    requires distinct { is_distinct (ids_of (elements_in row.old)) ≡ true }
    requires stands { has id (elements_in row.old) ≡ true }
    ensures elements { (d : Element) → let at = prefix_len (λ e. not (same_id id e.id)) (elements_in row.old) in
        let e = slice_index_or (elements_in row.old) at d in
        elements_in row.new ≡ slice_set (elements_in row.old) at (record e { hidden = true }) }
    ensures seen { seen (elements_in row.new) + result ≡ seen (elements_in row.old) }
    ensures indexed { IsIndexed ⟦<Id as Eq>⟧.eq row.new }
    ensures room { (n : ℕ) → HasRoom row.old n → HasRoom row.new n }
{
    let (p, j) = spot(row, id).unwrap();
    let gone = row.blocks[p].hide(j);
    sums::lower(&mut row.sums, p, gone);
    gone
}

/// The block of element j of the row, and its place there.
pub fn block_at(blocks: &[Block], j: usize) -> (usize, usize)
    requires { j < length (joined (items_of blocks.now)) }
    ensures block { result.0 < length blocks.now }
    ensures within { result.1 < length (get_or (items_of blocks.now) result.0 []) }
    ensures place { offset (items_of blocks.now) result.0 result.1 ≡ j }
{
    let mut b = 0;
    let mut left = j;
    while blocks[b].elements.len() <= left {
        left -= blocks[b].elements.len();
        b += 1;
    }
    (b, left)
}

/// Makes memory for `more` more blocks, and for n more identifiers.
pub fn make_memory(row: &mut Row, alloc: Global, n: usize, more: usize) -> Result<(), Memory>
    requires indexed { IsIndexed ⟦<Id as Eq>⟧.eq row.old }
    requires few { n ≤ 2 ^ 40 }
    ensures blocks { row.new.blocks.items ≡ row.old.blocks.items }
    ensures indexed { IsIndexed ⟦<Id as Eq>⟧.eq row.new }
    ensures ok { OnOk result ((m : ℕ) → HasRoom row.old m → m + 256 * more ≤ n → HasRoom row.new (m + 256 * more)) }
    ensures kept { (m : ℕ) → HasRoom row.old m → HasRoom row.new m }
{
    let most = MOST.saturating_sub(row.blocks.len());
    if most.saturating_sub(row.spares.len()) < more {
        return Err(Memory);
    }
    index::reserve(&mut row.index, n)?;
    row.spares.reserve(more)?;
    row.blocks.reserve(row.spares.capacity())?;
    row.places.reserve(row.spares.capacity())?;
    row.bounds.reserve(row.spares.capacity() / NEIGHBOURS + 1)?;
    row.sums.reserve(row.spares.capacity() / NEIGHBOURS + 1)?;
    add_spares(&mut row.spares, alloc, more)
}

/// Makes memory for `more` more blocks.
fn add_spares(spares: &mut Vec<Spare>, alloc: Global, more: usize) -> Result<(), Memory>
    requires { vec_len spares.old + more ≤ vec_capacity spares.old }
    ensures ok { OnOk result (vec_len spares.new ≡ vec_len spares.old + more) }
    ensures kept { vec_len spares.old ≤ vec_len spares.new }
    ensures most { vec_len spares.new ≤ vec_len spares.old + more }
    ensures within { vec_len spares.new ≤ vec_capacity spares.old }
{
    for _ in 0..more {
        let row = Vec::with_capacity(alloc, FULL)?;
        spares.push(Spare { row })?;
    }
    Ok(())
}

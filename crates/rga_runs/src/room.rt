//! Room for stretches: full blocks are split.

ghost use Rattle.std.specs.Prelude.{◌≡◌, ◌+◌, ◌*◌, ◌^◌, ◌<◌, ◌≤◌, [], ℕ, List, All, length, take, drop, get_or, slice_get, insert, slice_set, Some, OnOk, OnErr, vec_len, vec_capacity};
ghost use Rattle.rga_runs.specs.declared.stretch.Stretch.{Stretch as Kept};
ghost use Rattle.rga_runs.specs.Stretches.{IsOutside, AreApart};
ghost use Rattle.rga_runs.specs.Keyed.{look_in};
ghost use Rattle.rga_runs.specs.Leaves.{all_keys};
ghost use Rattle.rga_runs.specs.Blocks.{at_spot};
ghost use Rattle.rga_runs.specs.BlockRows.{items_of, numbers_of};
ghost use Rattle.rga_runs.specs.Indexed.{stretches_in, stretches_for, IsHome, AreKnown, IsIndexed, HasRoom, HasPlace};

use crate::block::Block;
use crate::bounds::{self, NEIGHBOURS};
use crate::counts;
use crate::cut::{BEYOND, FULL, kept_of, missing};
use crate::keys::{self, Keys};
use crate::lists::add_spares;
use crate::row::Row;
use crate::stretch::Stretch;
use bg_types::Memory;
use std::alloc::Global;

/// How many blocks there are at most: more than any memory holds. So a key has a block's number in 32 bits.
const MOST: usize = 4_294_967_295;

/// The spot of the row that is given by a block and a place there, with room for a stretch: a full block is split first. What
/// stood before the spot in its block does so still, unless that is the front.
pub fn make_room(row: &mut Row, q: usize, at: usize) -> (usize, usize)
    requires block { q < vec_len row.old.blocks }
    requires within { at ≤ length (get_or (items_of row.old.blocks.items) q []) }
    requires indexed { IsIndexed row.old }
    requires apart { AreApart (stretches_in row.old) }
    requires room { HasRoom row.old 1 }
    ensures block { result.0 < vec_len row.new.blocks }
    ensures within { result.1 ≤ length (get_or (items_of row.new.blocks.items) result.0 []) }
    ensures behind { 0 < at → 0 < result.1 }
    ensures free { length (get_or (items_of row.new.blocks.items) result.0 []) < 256 }
    ensures place { at_spot (items_of row.new.blocks.items) result.0 result.1 ≡ at_spot (items_of row.old.blocks.items) q at }
    ensures row { stretches_in row.new ≡ stretches_in row.old }
    ensures indexed { IsIndexed row.new }
    ensures room { (n : ℕ) → HasRoom row.old (n + 1) → HasPlace row.new n }
{
    if row.blocks[q].stretches.len() < FULL {
        return (q, at);
    }
    let cut = kept_of(q, row.blocks.len(), at);
    split(row, q, cut);
    if at <= cut {
        (q, at)
    } else {
        (q + 1, at - cut)
    }
}

/// Splits a full block into two, of which the first keeps `cut` stretches: half of them, or more in the last block.
#[inline(never)]
fn split(row: &mut Row, q: usize, cut: usize)
    requires block { q < vec_len row.old.blocks }
    requires full { length (get_or (items_of row.old.blocks.items) q []) ≡ 256 }
    requires least { 128 ≤ cut }
    requires most { cut < 256 }
    requires half { q + 1 < vec_len row.old.blocks → cut ≡ 128 }
    requires indexed { IsIndexed row.old }
    requires apart { AreApart (stretches_in row.old) }
    requires room { HasRoom row.old 1 }
    ensures blocks { let x = get_or (items_of row.old.blocks.items) q [] in
        items_of row.new.blocks.items ≡ insert (slice_set (items_of row.old.blocks.items) q (take cut x)) (q + 1) (drop cut x) }
    ensures indexed { IsIndexed row.new }
    ensures room { (n : ℕ) → HasRoom row.old (n + 1) → HasPlace row.new n }
{
    let lower = row.spares.pop().unwrap().list;
    let number = row.blocks.len();
    split_at(&mut row.blocks, q, cut, lower, number);
    rehome(&mut row.keys, &row.blocks[q + 1].stretches, number);
    row.places.push(number).unwrap();
    renumber(&mut row.places, &row.blocks, q + 1);
    let from = NEIGHBOURS * row.bounds.len().min(row.blocks.len() / NEIGHBOURS);
    bounds::lower_behind(&mut row.bounds, &row.blocks, q / NEIGHBOURS + 1);
    bounds::add(&mut row.bounds, row.blocks.len(), row.blocks[q].least);
    bounds::renew(&mut row.bounds, &row.blocks, from);
    counts::move_on(&mut row.sums, &row.blocks, q);
    counts::add(&mut row.sums, &row.blocks);
}

/// Splits block q, which is full, into two, of which the first keeps `cut` stretches. The second is the block behind it, and has
/// this number.
fn split_at(blocks: &mut Vec<Block>, q: usize, cut: usize, lower: Vec<Stretch>, number: usize)
    requires block { q < vec_len blocks.old }
    requires full { length (get_or (items_of blocks.old.items) q []) ≡ 256 }
    requires some { 0 < cut }
    requires most { cut < 256 }
    requires empty { lower.items ≡ [] }
    requires memory { 256 ≤ vec_capacity lower }
    requires room { vec_len blocks.old < vec_capacity blocks.old }
    ensures items { let x = get_or (items_of blocks.old.items) q [] in
        items_of blocks.new.items ≡ insert (slice_set (items_of blocks.old.items) q (take cut x)) (q + 1) (drop cut x) }
    ensures numbers { numbers_of blocks.new.items ≡ insert (numbers_of blocks.old.items) (q + 1) number }
    ensures len { vec_len blocks.new ≡ vec_len blocks.old + 1 }
    ensures capacity { vec_capacity blocks.new ≡ vec_capacity blocks.old }
{
    let upper = blocks[q].split(cut, lower, number);
    blocks.insert((q + 1) % BEYOND, upper).unwrap();
}

/// Writes down that these stretches are those of another block now. Each has a key already.
fn rehome(keys: &mut Keys, moved: &[Stretch], number: usize)
    requires few { number < 2 ^ 32 }
    requires apart { AreApart moved.now }
    requires homes { (n : ℕ) × All (IsHome (look_in (all_keys keys.old.leaves.items)) n) moved.now }
    ensures homes { All (IsHome (look_in (all_keys keys.new.leaves.items)) number) moved.now }
    ensures others { (s : Kept) (n : ℕ) → All (λ t. IsOutside t.first s) moved.now
        → IsHome (look_in (all_keys keys.old.leaves.items)) n s → IsHome (look_in (all_keys keys.new.leaves.items)) n s }
    ensures known { (ss : List Kept) → AreKnown (look_in (all_keys keys.old.leaves.items)) ss → AreKnown (look_in (all_keys keys.new.leaves.items)) ss }
    ensures len { length (all_keys keys.new.leaves.items) ≡ length (all_keys keys.old.leaves.items) }
    ensures leaves { vec_len keys.new.leaves ≡ vec_len keys.old.leaves }
    ensures spares { vec_len keys.new.spares ≡ vec_len keys.old.spares }
{
    for at in 0..moved.len() {
        keys::renew(keys, moved[at].first, number, at);
    }
}

/// Writes down the place of each block from one on. Those before it are written down already.
fn renumber(places: &mut [usize], blocks: &[Block], from: usize)
    requires known { (p : ℕ) → p < length blocks.now → get_or (numbers_of blocks.now) p 0 < length places.old }
    requires apart { (p r : ℕ) → p < length blocks.now → r < length blocks.now
        → get_or (numbers_of blocks.now) p 0 ≡ get_or (numbers_of blocks.now) r 0 → p ≡ r }
    requires before { (p : ℕ) → p < from → slice_get places.old (get_or (numbers_of blocks.now) p 0) ≡ Some p }
    requires from { from ≤ length blocks.now }
    ensures { (p : ℕ) → p < length blocks.now → slice_get places.new (get_or (numbers_of blocks.now) p 0) ≡ Some p }
{
    for p in from..blocks.len() {
        places[blocks[p].number] = p;
    }
}

/// How many stretches n placings make at most, where so many characters have so many.
pub fn most_for(n: usize, characters: usize, stretches: usize) -> usize
    requires few { n ≤ 2 ^ 32 }
    requires characters { characters ≤ 2 ^ 32 }
    ensures { result ≡ stretches_for n characters stretches }
{
    (2 * n).min((characters + n + 1).saturating_sub(stretches))
}

/// Makes memory with which the next n stretches take none.
pub fn make_memory(row: &mut Row, alloc: Global, n: usize) -> Result<(), Memory>
    requires indexed { IsIndexed row.old }
    requires counted { length (stretches_in row.old) + n < 2 ^ 64 }
    requires few { vec_len row.old.blocks + vec_len row.old.spares < 2 ^ 32 }
    ensures blocks { row.new.blocks.items ≡ row.old.blocks.items }
    ensures indexed { IsIndexed row.new }
    ensures ok { OnOk result (HasRoom row.new n) }
    ensures kept { (m : ℕ) → HasRoom row.old m → HasRoom row.new m }
{
    let all = row.count + n;
    let more = missing(all, n, row.blocks.len(), row.spares.len());
    let most = MOST.saturating_sub(row.blocks.len());
    if most.saturating_sub(row.spares.len()) < more {
        return Err(Memory);
    }
    let leaves = missing(all, n, row.keys.leaves.len(), row.keys.spares.len());
    keys::reserve(&mut row.keys, alloc, leaves)?;
    row.spares.reserve(more)?;
    row.blocks.reserve(row.spares.capacity())?;
    row.places.reserve(row.spares.capacity())?;
    row.bounds.reserve(row.spares.capacity() / NEIGHBOURS + 1)?;
    row.sums.reserve(row.spares.capacity() / NEIGHBOURS + 1)?;
    add_spares(&mut row.spares, alloc, more)
}

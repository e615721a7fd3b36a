//! Where a new element goes: behind those with greater identifiers. Neighbouring blocks are passed at once.

ghost use Rattle.std.specs.Prelude.{◌≡◌, ◌+◌, ◌-◌, ◌<◌, ◌≤◌, length, take, drop, get_or, []};
ghost use Rattle.std.specs.Ordering.{is_lt};
ghost use Rattle.std.specs.List.{prefix_len};
ghost use Rattle.bg_types.specs.Identifier.{id_cmp};
ghost use Rattle.rga_sequence.specs.BlockRows.{items_of};
ghost use Rattle.rga_sequence.specs.Bounds.{AreBounds};
ghost use Rattle.rga_sequence.specs.Blocks.{offset, sought, FallsFrom};

use crate::block::{Block, is_below};
use crate::bounds::NEIGHBOURS;
use bg_types::Id;
use rga_tree::{Element, greater_in_front};

/// How many blocks at the front have only greater elements.
fn passed_in_front(blocks: &[Block], id: Id) -> usize
    ensures count { result ≡ prefix_len (λ b. is_lt (id_cmp id b.least)) blocks.now }
    ensures within { result ≤ length blocks.now }
{
    blocks.iter().take_while(|b| is_below(id, b.least)).count()
}

/// How many elements at the front of a list whose identifiers fall are greater: all, if the last one is, or else by halving.
fn greater_in_falling(row: &[Element], id: Id) -> usize
    requires { FallsFrom 0 row.now }
    ensures count { result ≡ prefix_len (λ e. is_lt (id_cmp id e.id)) row.now }
    ensures within { result ≤ length row.now }
{
    let count = row.len();
    if 0 < count && is_below(id, row[count - 1].id) {
        return count;
    }
    row.partition_point(|e| is_below(id, e.id))
}

/// How many elements of a block from `j` on are greater than the identifier, up to the first that
/// isn't. What is typed in a run goes to the end of its block.
#[inline(always)]
fn greater_from(block: &Block, j: usize, id: Id) -> usize
    requires { j ≤ length block.now.elements.items }
    ensures count { result ≡ prefix_len (λ e. is_lt (id_cmp id e.id)) (drop j block.now.elements.items) }
    ensures within { result ≤ length block.now.elements.items - j }
{
    if j == block.elements.len() {
        return 0;
    }
    greater_inside(block, j, id)
}

/// What `greater_from` counts, where it needs a look into the block. Not inlined.
#[inline(never)]
fn greater_inside(block: &Block, j: usize, id: Id) -> usize
    requires { j ≤ length block.now.elements.items }
    ensures count { result ≡ prefix_len (λ e. is_lt (id_cmp id e.id)) (drop j block.now.elements.items) }
    ensures within { result ≤ length block.now.elements.items - j }
{
    let row = &block.elements;
    let from = j.max(block.falling);
    let count = greater_in_front(&row[j..from], id);
    if count < from - j {
        return count;
    }
    count + greater_in_falling(&row[from..], id)
}

/// How many bounds at the front are greater than the identifier.
fn bounds_in_front(bounds: &[Id], id: Id) -> usize
    ensures count { result ≡ prefix_len (λ m. is_lt (id_cmp id m)) bounds.now }
    ensures within { result ≤ length bounds.now }
{
    bounds.iter().take_while(|m| is_below(id, **m)).count()
}

/// How many bounds from entry g on are greater than the identifier, up to the first that isn't.
fn greater_bounds(bounds: &[Id], g: usize, id: Id) -> usize
    ensures count { result ≡ prefix_len (λ m. is_lt (id_cmp id m)) (drop g bounds.now) }
    ensures within { result ≤ length bounds.now - g }
{
    if bounds.len() <= g {
        return 0;
    }
    bounds_in_front(&bounds[g..], id)
}

/// How many blocks from `p` on have only greater elements, up to the first that hasn't. What is typed
/// in a run often goes to the last block.
#[inline(always)]
fn greater_blocks(blocks: &[Block], bounds: &[Id], p: usize, id: Id) -> usize
    requires within { p ≤ length blocks.now }
    requires bounds { AreBounds bounds.now (items_of blocks.now) }
    ensures count { result ≡ prefix_len (λ b. is_lt (id_cmp id b.least)) (drop p blocks.now) }
    ensures within { result ≤ length blocks.now - p }
{
    if p == blocks.len() {
        return 0;
    }
    greater_neighbours(blocks, bounds, p, id)
}

/// What `greater_blocks` counts, where there are many: neighbours whose bound is greater are passed together. Not inlined.
#[inline(never)]
fn greater_neighbours(blocks: &[Block], bounds: &[Id], p: usize, id: Id) -> usize
    requires within { p ≤ length blocks.now }
    requires bounds { AreBounds bounds.now (items_of blocks.now) }
    ensures count { result ≡ prefix_len (λ b. is_lt (id_cmp id b.least)) (drop p blocks.now) }
    ensures within { result ≤ length blocks.now - p }
{
    let g = p / NEIGHBOURS + 1;
    let end = blocks.len().min(NEIGHBOURS * g);
    let near = passed_in_front(&blocks[p..end], id);
    if near < end - p {
        return near;
    }
    let passed = (g + greater_bounds(bounds, g, id)).min(blocks.len() / NEIGHBOURS);
    let far = end.max(NEIGHBOURS * passed);
    far - p + passed_in_front(&blocks[far..], id)
}

/// Where a new identifier goes, from element `j` of block `p` on: before the first that isn't greater.
/// Blocks in which all are greater are passed whole.
pub fn place_from(blocks: &[Block], bounds: &[Id], p: usize, j: usize, id: Id) -> (usize, usize)
    requires block { p < length blocks.now }
    requires bounds { AreBounds bounds.now (items_of blocks.now) }
    requires within { j ≤ length (get_or (items_of blocks.now) p []) }
    ensures block { result.0 < length blocks.now }
    ensures within { result.1 ≤ length (get_or (items_of blocks.now) result.0 []) }
    ensures place { offset (items_of blocks.now) result.0 result.1 ≡ sought id (items_of blocks.now) p j }
{
    let here = &blocks[p];
    let at = j + greater_from(here, j, id);
    if at < here.elements.len() {
        return (p, at);
    }
    let q = p + 1 + greater_blocks(blocks, bounds, p + 1, id);
    let at = if q < blocks.len() {
        greater_from(&blocks[q], 0, id)
    } else {
        0
    };
    if at == 0 {
        (q - 1, blocks[q - 1].elements.len())
    } else {
        (q, at)
    }
}

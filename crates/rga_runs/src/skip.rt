//! Where a new stretch goes: behind those that begin with a greater identifier. Neighbouring blocks are passed at once.

ghost use Rattle.std.specs.Prelude.{◌≡◌, ◌+◌, ◌-◌, ◌<◌, ◌≤◌, length, take, drop, get_or, [], nat_eq};
ghost use Rattle.std.specs.Ordering.{is_lt};
ghost use Rattle.std.specs.List.{prefix_len};
ghost use Rattle.bg_types.specs.Identifier.{id_cmp};
ghost use Rattle.rga_runs.specs.Blocks.{row_of, at_spot, passed};
ghost use Rattle.rga_runs.specs.BlockRows.{items_of};
ghost use Rattle.rga_runs.specs.Bounds.{AreBounds};

use crate::block::{Block, is_below};
use crate::bounds::NEIGHBOURS;
use crate::search::greater_in_front;
use bg_types::Id;

/// From a spot of the row on, where the first stretch stands that doesn't begin with a greater identifier. Blocks in which all do
/// are passed whole.
pub fn passed_from(blocks: &[Block], bounds: &[Id], b: usize, j: usize, id: Id) -> (usize, usize)
    requires bounds { AreBounds bounds.now (items_of blocks.now) }
    requires block { b < length blocks.now }
    requires within { j ≤ length (get_or (items_of blocks.now) b []) }
    ensures block { result.0 < length blocks.now }
    ensures within { result.1 ≤ length (get_or (items_of blocks.now) result.0 []) }
    ensures place { let start = at_spot (items_of blocks.now) b j in
        at_spot (items_of blocks.now) result.0 result.1 ≡ start + passed id (drop start (row_of (items_of blocks.now))) }
{
    let here = &blocks[b];
    let at = j + greater_in_front(&here.stretches[j..], id);
    if at < here.stretches.len() {
        return (b, at);
    }
    landing(blocks, b + 1 + passed_blocks(blocks, bounds, b + 1, id), id)
}

/// Where the first stretch of block q, or of those behind it, stands that doesn't begin with a greater identifier. Where that is the
/// first of its block, the end of the block before it is answered.
fn landing(blocks: &[Block], q: usize, id: Id) -> (usize, usize)
    requires some { 0 < q }
    requires block { q ≤ length blocks.now }
    ensures block { result.0 < length blocks.now }
    ensures within { result.1 ≤ length (get_or (items_of blocks.now) result.0 []) }
    ensures place { at_spot (items_of blocks.now) result.0 result.1 ≡ length (row_of (take q (items_of blocks.now))) + passed id (get_or (items_of blocks.now) q []) }
{
    if q == blocks.len() {
        return end_of(blocks, q - 1);
    }
    let at = greater_in_front(&blocks[q].stretches, id);
    if at == 0 {
        return end_of(blocks, q - 1);
    }
    (q, at)
}

/// The spot behind the last stretch of a block.
fn end_of(blocks: &[Block], b: usize) -> (usize, usize)
    requires { b < length blocks.now }
    ensures block { result.0 < length blocks.now }
    ensures within { result.1 ≤ length (get_or (items_of blocks.now) result.0 []) }
    ensures place { at_spot (items_of blocks.now) result.0 result.1 ≡ length (row_of (take (b + 1) (items_of blocks.now))) }
{
    (b, blocks[b].stretches.len())
}

/// How many blocks from p on have only stretches that begin with a greater identifier, up to the first that hasn't. What is typed in
/// a run often goes to the last block.
#[inline(always)]
fn passed_blocks(blocks: &[Block], bounds: &[Id], p: usize, id: Id) -> usize
    requires within { p ≤ length blocks.now }
    requires bounds { AreBounds bounds.now (items_of blocks.now) }
    ensures count { result ≡ prefix_len (λ b. nat_eq (passed id b.stretches.items) (length b.stretches.items)) (drop p blocks.now) }
    ensures within { result ≤ length blocks.now - p }
{
    if p == blocks.len() {
        return 0;
    }
    passed_neighbours(blocks, bounds, p, id)
}

/// What `passed_blocks` counts, where there are many: neighbours whose bound is greater are passed together. Not inlined.
#[inline(never)]
fn passed_neighbours(blocks: &[Block], bounds: &[Id], p: usize, id: Id) -> usize
    requires within { p ≤ length blocks.now }
    requires bounds { AreBounds bounds.now (items_of blocks.now) }
    ensures count { result ≡ prefix_len (λ b. nat_eq (passed id b.stretches.items) (length b.stretches.items)) (drop p blocks.now) }
    ensures within { result ≤ length blocks.now - p }
{
    let g = p / NEIGHBOURS + 1;
    let end = blocks.len().min(NEIGHBOURS * g);
    let near = passed_in_front(&blocks[p..end], id);
    if near < end - p {
        return near;
    }
    let passed = (g + greater_bounds(bounds, g, id)).min(blocks.len() / NEIGHBOURS);
    let far = end.max(NEIGHBOURS * passed);
    far - p + passed_in_front(&blocks[far..], id)
}

/// How many bounds from entry g on are greater than the identifier, up to the first that isn't.
fn greater_bounds(bounds: &[Id], g: usize, id: Id) -> usize
    ensures count { result ≡ prefix_len (λ m. is_lt (id_cmp id m)) (drop g bounds.now) }
    ensures within { result ≤ length bounds.now - g }
{
    for k in g..bounds.len() {
        if !is_below(id, bounds[k]) {
            return k - g;
        }
    }
    bounds.len().saturating_sub(g)
}

/// How many blocks at the front have only stretches that begin with a greater identifier.
fn passed_in_front(blocks: &[Block], id: Id) -> usize
    ensures count { result ≡ prefix_len (λ b. nat_eq (passed id b.stretches.items) (length b.stretches.items)) blocks.now }
    ensures within { result ≤ length blocks.now }
{
    blocks.iter().take_while(|b| passes(b, id)).count()
}

/// Whether all stretches of a block begin with a greater identifier.
fn passes(block: &Block, id: Id) -> bool
    ensures { result ≡ nat_eq (passed id block.now.stretches.items) (length block.now.stretches.items) }
{
    is_below(id, block.least) || greater_in_front(&block.stretches, id) == block.stretches.len()
}

//! How many characters of neighbouring blocks are visible, by which many blocks are counted at once.

ghost use Rattle.std.specs.Prelude.{◌≡◌, ◌+◌, ◌*◌, ◌/◌, ◌^◌, ◌<◌, ◌≤◌, ℕ, List, [], length, take, get_or, slice_set, sum};
ghost use Rattle.rga_runs.specs.declared.stretch.Stretch.{Stretch as Kept};
ghost use Rattle.rga_runs.specs.Stretches.{visible_in};
ghost use Rattle.rga_runs.specs.Blocks.{row_of};
ghost use Rattle.rga_runs.specs.BlockRows.{items_of};
ghost use Rattle.rga_runs.specs.Sums.{AreSums, AreSumsBut};

use crate::block::Block;
use crate::bounds::NEIGHBOURS;

/// How many sums are passed at once.
const TOGETHER: usize = 16;

/// How many blocks are passed at once.
const BLOCKS: usize = 8;

/// Raises the sum of block q and its neighbours, if there is one, as so many more of its characters are visible.
pub fn raise(sums: &mut [usize], q: usize, more: usize)
    requires few { (d : ℕ) → q / 32 < length sums.old → get_or sums.old (q / 32) d + more < 2 ^ 64 }
    ensures { (xs : List (List Kept)) (y : List Kept) → q < length xs → visible_in y ≡ visible_in (get_or xs q []) + more
        → AreSums sums.old xs → AreSums sums.new (slice_set xs q y) }
{
    let g = q / NEIGHBOURS;
    if g < sums.len() {
        sums[g] += more;
    }
}

/// Lowers the sum of block q and its neighbours, if there is one, as so many fewer of its characters are visible.
pub fn lower(sums: &mut [usize], q: usize, fewer: usize)
    requires there { (d : ℕ) → q / 32 < length sums.old → fewer ≤ get_or sums.old (q / 32) d }
    ensures { (xs : List (List Kept)) (y : List Kept) → q < length xs → visible_in y + fewer ≡ visible_in (get_or xs q [])
        → AreSums sums.old xs → AreSums sums.new (slice_set xs q y) }
{
    let g = q / NEIGHBOURS;
    if g < sums.len() {
        sums[g] -= fewer;
    }
}

/// Lets the last block of each 32, from those of block q on, count to the next 32: block q was split, so each behind it stands one
/// further on.
pub fn move_on(sums: &mut [usize], blocks: &[Block], q: usize)
    requires few { visible_in (row_of (items_of blocks.now)) < 2 ^ 64 }
    requires sums { AreSumsBut (q / 32) 0 sums.old (items_of blocks.now) }
    ensures { AreSums sums.new (items_of blocks.now) }
{
    let mut came = 0;
    for g in q / NEIGHBOURS..sums.len() {
        let next = NEIGHBOURS * (g + 1);
        let gone = blocks[next].visible;
        sums[g] = sums[g] + came - gone;
        came = gone;
    }
}

/// Makes a sum for the next 32 blocks that are whole, where there is memory for it.
pub fn add(sums: &mut Vec<usize>, blocks: &[Block])
    requires few { visible_in (row_of (items_of blocks.now)) < 2 ^ 64 }
    requires sums { AreSums sums.old.items (items_of blocks.now) }
    ensures { AreSums sums.new.items (items_of blocks.now) }
{
    let whole = blocks.len() / NEIGHBOURS;
    if sums.len() < whole && sums.len() < sums.capacity() {
        let first = NEIGHBOURS * sums.len();
        let visible = visible_in_blocks(&blocks[first..first + NEIGHBOURS]);
        sums.push_reserved(visible);
    }
}

/// Passes blocks from the front as long as visible element k isn't among them, neighbours that have a sum first, and then some at once:
/// how many blocks these are, and how many of the k elements before k are left.
pub fn pass_blocks(blocks: &[Block], sums: &[usize], k: usize) -> (usize, usize)
    requires sums { AreSums sums.now (items_of blocks.now) }
    requires few { visible_in (row_of (items_of blocks.now)) < 2 ^ 64 }
    ensures there { result.0 ≤ length blocks.now }
    ensures before { visible_in (row_of (take result.0 (items_of blocks.now))) + result.1 ≡ k }
{
    let (from, rest) = pass(blocks, sums, k);
    let mut left = rest;
    let mut passed = from;
    while BLOCKS <= blocks.len() - passed {
        let here = visible_in_blocks(&blocks[passed..passed + BLOCKS]);
        if left < here {
            return (passed, left);
        }
        left -= here;
        passed += BLOCKS;
    }
    (passed, left)
}

/// Passes neighbours that have a sum, from the front, as long as visible element k isn't among them: how many blocks these are, and
/// how many of the k elements before k are left.
fn pass(blocks: &[Block], sums: &[usize], k: usize) -> (usize, usize)
    requires sums { AreSums sums.now (items_of blocks.now) }
    requires few { visible_in (row_of (items_of blocks.now)) < 2 ^ 64 }
    ensures there { result.0 ≤ length blocks.now }
    ensures before { visible_in (row_of (take result.0 (items_of blocks.now))) + result.1 ≡ k }
{
    let (from, rest) = pass_together(sums, k);
    let mut left = rest;
    let mut passed = from;
    while passed < sums.len() && sums[passed] <= left {
        left -= sums[passed];
        passed += 1;
    }
    (NEIGHBOURS * passed, left)
}

/// Passes sums from the front, some at once, as long as together they aren't above k: how many these are, and what is left of k.
fn pass_together(sums: &[usize], k: usize) -> (usize, usize)
    requires few { sum sums.now < 2 ^ 64 }
    ensures there { result.0 ≤ length sums.now }
    ensures before { sum (take result.0 sums.now) + result.1 ≡ k }
{
    let mut left = k;
    let mut passed = 0;
    while TOGETHER <= sums.len() - passed {
        let visible = total(&sums[passed..passed + TOGETHER]);
        if left < visible {
            return (passed, left);
        }
        left -= visible;
        passed += TOGETHER;
    }
    (passed, left)
}

/// How many visible elements stand before block b: what the sums tell of the blocks before its neighbours, and those of the blocks
/// before it among them.
pub fn before_block(blocks: &[Block], sums: &[usize], b: usize) -> usize
    requires block { b ≤ length blocks.now }
    requires sums { AreSums sums.now (items_of blocks.now) }
    requires few { visible_in (row_of (items_of blocks.now)) < 2 ^ 64 }
    ensures { result ≡ visible_in (row_of (take b (items_of blocks.now))) }
{
    let g = sums.len().min(b / NEIGHBOURS);
    total(&sums[..g]) + visible_in_blocks(&blocks[NEIGHBOURS * g..b])
}

/// The sums together.
fn total(sums: &[usize]) -> usize
    requires few { sum sums.now < 2 ^ 64 }
    ensures { result ≡ sum sums.now }
{
    sums.iter().sum()
}

/// How many elements of these blocks are visible.
fn visible_in_blocks(blocks: &[Block]) -> usize
    requires few { visible_in (row_of (items_of blocks.now)) < 2 ^ 64 }
    ensures { result ≡ visible_in (row_of (items_of blocks.now)) }
{
    let mut visible = 0;
    for block in blocks {
        visible += block.visible;
    }
    visible
}

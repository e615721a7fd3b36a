//! Where characters stand in blocks of stretches.

ghost use Rattle.std.specs.Prelude.{◌≡◌, ◌+◌, ◌^◌, ◌<◌, ◌≤◌, ℕ, List, [], length, take, get_or, false};
ghost use Rattle.rga_runs.specs.declared.stretch.Stretch.{Stretch as Kept};
ghost use Rattle.rga_runs.specs.Typed.{is_odd, bits_from, unset};
ghost use Rattle.rga_runs.specs.Stretches.{count_in, visible_in, visible_of};
ghost use Rattle.rga_runs.specs.Blocks.{row_of, at_spot};
ghost use Rattle.rga_runs.specs.BlockRows.{items_of};
ghost use Rattle.rga_runs.specs.Sums.{AreSums};

use crate::block::Block;
use crate::counts::{before_block, pass_blocks};
use crate::search::{count_visible, spot_of, visible_stretch};

/// Where element n stands: its block, its stretch there, and its place in that.
pub fn nth_spot(blocks: &[Block], n: usize) -> (usize, usize, usize)
    requires { n < count_in (row_of (items_of blocks.now)) }
    ensures block { result.0 < length blocks.now }
    ensures within { result.1 < length (get_or (items_of blocks.now) result.0 []) }
    ensures inside { (d : Kept) → result.2 < (get_or (get_or (items_of blocks.now) result.0 []) result.1 d).count }
    ensures place { count_in (take (at_spot (items_of blocks.now) result.0 result.1) (row_of (items_of blocks.now))) + result.2 ≡ n }
{
    let mut left = n;
    for b in 0..blocks.len() {
        let block = &blocks[b];
        let count = block.count;
        if left < count {
            let (j, k) = spot_of(&block.stretches, count, left);
            return (b, j, k);
        }
        left -= count;
    }
    unreachable!()
}

/// Where visible element n stands: its block, its stretch there, and its place in that.
pub fn visible_spot(blocks: &[Block], sums: &[usize], n: usize) -> (usize, usize, usize)
    requires there { n < visible_in (row_of (items_of blocks.now)) }
    requires sums { AreSums sums.now (items_of blocks.now) }
    requires few { visible_in (row_of (items_of blocks.now)) < 2 ^ 64 }
    ensures block { result.0 < length blocks.now }
    ensures within { result.1 < length (get_or (items_of blocks.now) result.0 []) }
    ensures inside { (d : Kept) → result.2 < (get_or (get_or (items_of blocks.now) result.0 []) result.1 d).count }
    ensures visible { (d : Kept) → is_odd (bits_from result.2 (get_or (get_or (items_of blocks.now) result.0 []) result.1 d).hidden) ≡ false }
    ensures place { (d : Kept) → visible_in (take (at_spot (items_of blocks.now) result.0 result.1) (row_of (items_of blocks.now)))
        + unset result.2 (get_or (get_or (items_of blocks.now) result.0 []) result.1 d).hidden ≡ n }
{
    let (from, rest) = pass_blocks(blocks, sums, n);
    let mut left = rest;
    for b in from..blocks.len() {
        let block = &blocks[b];
        let visible = block.visible;
        if left < visible {
            let (j, rest) = stretch_of(block, left);
            return (b, j, block.stretches[j].visible_at(rest));
        }
        left -= visible;
    }
    unreachable!()
}

/// The stretch of a block that has visible element k of it, and how many visible ones are before that there. Where none is hidden,
/// each is passed by how long it is.
fn stretch_of(block: &Block, k: usize) -> (usize, usize)
    requires { k < visible_in block.now.stretches.items }
    ensures block { result.0 < length block.now.stretches.items }
    ensures within { (d : Kept) → result.1 < visible_of (get_or block.now.stretches.items result.0 d) }
    ensures place { visible_in (take result.0 block.now.stretches.items) + result.1 ≡ k }
{
    if block.visible == block.count {
        spot_of(&block.stretches, block.count, k)
    } else {
        visible_stretch(&block.stretches, k)
    }
}

/// How many visible elements stand before character k of a stretch.
pub fn count_before(blocks: &[Block], sums: &[usize], b: usize, j: usize, k: usize) -> usize
    requires sums { AreSums sums.now (items_of blocks.now) }
    requires few { visible_in (row_of (items_of blocks.now)) < 2 ^ 64 }
    requires block { b < length blocks.now }
    requires within { j < length (get_or (items_of blocks.now) b []) }
    requires inside { (d : Kept) → k ≤ (get_or (get_or (items_of blocks.now) b []) j d).count }
    ensures { (d : Kept) → result ≡ visible_in (take (at_spot (items_of blocks.now) b j) (row_of (items_of blocks.now)))
        + unset k (get_or (get_or (items_of blocks.now) b []) j d).hidden }
{
    let block = &blocks[b];
    before_block(blocks, sums, b) + before_stretch(block, j) + block.stretches[j].visible_before(k)
}

/// How many visible elements of a block stand before a stretch of it. They are counted from the nearer end.
fn before_stretch(block: &Block, j: usize) -> usize
    requires { j ≤ length block.now.stretches.items }
    ensures { result ≡ visible_in (take j block.now.stretches.items) }
{
    let (front, behind) = block.stretches.split_at(j);
    if front.len() <= behind.len() {
        count_visible(front)
    } else {
        block.visible - count_visible(behind)
    }
}

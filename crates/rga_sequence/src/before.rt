//! How many visible elements stand before a place of the row.

ghost use Rattle.std.specs.Prelude.{◌≡◌, ◌+◌, ◌^◌, ◌<◌, ◌≤◌, length, take, get_or, sum, []};
ghost use Rattle.rga_sequence.specs.BlockRows.{items_of};
ghost use Rattle.rga_sequence.specs.Blocks.{seen, seen_all};
ghost use Rattle.rga_sequence.specs.Sums.{AreSums};

use crate::block::{Block, count_visible};
use crate::bounds::NEIGHBOURS;

/// How many visible elements stand before element `at` of block b: what the sums say of the blocks before its neighbours, the
/// headers of those before it, and those before it there.
pub fn count_before(blocks: &[Block], sums: &[usize], b: usize, at: usize) -> usize
    requires block { b < length blocks.now }
    requires within { at ≤ length (get_or (items_of blocks.now) b []) }
    requires sums { AreSums sums.now (items_of blocks.now) }
    requires few { seen_all (items_of blocks.now) < 2 ^ 64 }
    ensures { result ≡ seen_all (take b (items_of blocks.now)) + seen (take at (get_or (items_of blocks.now) b [])) }
{
    let g = sums.len().min(b / NEIGHBOURS);
    let before = total(&sums[..g]) + visible_in(&blocks[NEIGHBOURS * g..b]);
    before + in_front(&blocks[b], at)
}

/// The sums together.
fn total(sums: &[usize]) -> usize
    requires few { sum sums.now < 2 ^ 64 }
    ensures { result ≡ sum sums.now }
{
    sums.iter().sum()
}

/// How many elements of these blocks are visible.
pub fn visible_in(blocks: &[Block]) -> usize
    requires few { seen_all (items_of blocks.now) < 2 ^ 64 }
    ensures { result ≡ seen_all (items_of blocks.now) }
{
    let mut visible = 0;
    for block in blocks {
        visible += block.visible;
    }
    visible
}

/// How many of the first elements of a block are visible.
fn in_front(block: &Block, at: usize) -> usize
    requires { at ≤ length block.now.elements.items }
    ensures { result ≡ seen (take at block.now.elements.items) }
{
    if block.visible == block.elements.len() {
        at
    } else {
        count_visible(&block.elements[..at])
    }
}

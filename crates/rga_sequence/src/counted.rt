//! Counts of visible elements. Each look is counted where it is taken.

ghost use Rattle.std.specs.Prelude.{◌≡◌, ◌+◌, ◌-◌, ◌^◌, ◌<◌, ◌≤◌, length, take, drop};
ghost use Rattle.rga_sequence.specs.BlockRows.{items_of};
ghost use Rattle.rga_sequence.specs.Blocks.{seen, seen_all};
ghost use Rattle.rga_sequence.specs.Sums.{AreSums};

use crate::block::Block;
use crate::bounds::NEIGHBOURS;
use rga_tree::Element;

/// Passes neighbours that have a sum, from the front, as long as k isn't among them: how many blocks these are, and how many of
/// the k elements before k are left. That is as many looks as they have headers.
pub fn pass(blocks: &[Block], sums: &[usize], k: usize, looks: &mut u64) -> (usize, usize)
    requires sums { AreSums sums.now (items_of blocks.now) }
    requires room { looks.old + length blocks.now < 2 ^ 64 }
    ensures there { result.0 ≤ length blocks.now }
    ensures before { seen_all (take result.0 (items_of blocks.now)) + result.1 ≡ k }
    ensures looks { looks.new ≡ looks.old + result.0 }
{
    let mut left = k;
    let mut passed = 0;
    while passed < sums.len() && sums[passed] <= left {
        left -= sums[passed];
        passed += 1;
    }
    let count = NEIGHBOURS * passed;
    *looks += count as u64;
    (count, left)
}

/// How many elements of a block, from one up to another, are visible, where in all `visible` are. Each is looked at; where
/// none of the block is hidden, they are passed in one step, which is as many looks.
pub fn visible_in(row: &[Element], visible: usize, from: usize, to: usize, looks: &mut u64) -> usize
    requires visible { visible ≡ seen row.now }
    requires order { from ≤ to }
    requires there { to ≤ length row.now }
    requires few { to ≤ from + 255 }
    requires room { looks.old + (to - from) < 2 ^ 64 }
    ensures visible { result ≡ seen (take (to - from) (drop from row.now)) }
    ensures looks { looks.new ≡ looks.old + (to - from) }
{
    if visible == row.len() {
        *looks += (to - from) as u64;
        to - from
    } else {
        to - from - usize::from(hidden_in(&row[from..to], looks))
    }
}

/// How many of these elements are hidden. Each is looked at, and no branch depends on one.
fn hidden_in(row: &[Element], looks: &mut u64) -> u8
    requires few { length row.now ≤ 255 }
    requires room { looks.old + length row.now < 2 ^ 64 }
    ensures hidden { result + seen row.now ≡ length row.now }
    ensures looks { looks.new ≡ looks.old + length row.now }
{
    let mut hidden = 0;
    let mut read = 0;
    for e in row {
        read += 1;
        hidden += u8::from(e.hidden);
    }
    *looks += read;
    hidden
}

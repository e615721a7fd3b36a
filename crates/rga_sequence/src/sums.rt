//! How many elements of neighbouring blocks are visible, by which many blocks are counted at once.

ghost use Rattle.std.specs.Prelude.{◌≡◌, ◌+◌, ◌*◌, ◌/◌, ◌^◌, ◌<◌, ◌≤◌, ℕ, List, length, get_or, slice_set, []};
ghost use Rattle.rga_tree.specs.declared.element.Element.{Element};
ghost use Rattle.rga_sequence.specs.BlockRows.{items_of};
ghost use Rattle.rga_sequence.specs.Blocks.{seen, seen_all};
ghost use Rattle.rga_sequence.specs.Sums.{AreSums, AreSumsBelow};

use crate::before::visible_in;
use crate::block::Block;
use crate::bounds::NEIGHBOURS;

/// Raises the sum of block q and its neighbours, if there is one, as so many more of its elements are visible.
pub fn raise(sums: &mut [usize], q: usize, more: usize)
    requires few { (d : ℕ) → q / 32 < length sums.old → get_or sums.old (q / 32) d + more < 2 ^ 64 }
    ensures { (xs : List (List Element)) (y : List Element) → q < length xs → seen y ≡ seen (get_or xs q []) + more
        → AreSums sums.old xs → AreSums sums.new (slice_set xs q y) }
{
    let g = q / NEIGHBOURS;
    if g < sums.len() {
        sums[g] += more;
    }
}

/// Lowers the sum of block q and its neighbours, if there is one, as so many fewer of its elements are visible.
pub fn lower(sums: &mut [usize], q: usize, fewer: usize)
    requires there { (d : ℕ) → q / 32 < length sums.old → fewer ≤ get_or sums.old (q / 32) d }
    ensures { (xs : List (List Element)) (y : List Element) → q < length xs → seen y + fewer ≡ seen (get_or xs q [])
        → AreSums sums.old xs → AreSums sums.new (slice_set xs q y) }
{
    let g = q / NEIGHBOURS;
    if g < sums.len() {
        sums[g] -= fewer;
    }
}

/// Counts anew from block q on, which was split. The next 32 blocks get a sum, where there is memory for it.
pub fn renew(sums: &mut Vec<usize>, blocks: &[Block], q: usize)
    requires few { seen_all (items_of blocks.now) < 2 ^ 64 }
    requires whole { 32 * length sums.old.items ≤ length blocks.now }
    requires before { AreSumsBelow (q / 32) sums.old.items (items_of blocks.now) }
    ensures { AreSums sums.new.items (items_of blocks.now) }
{
    let from = sums.len().min(q / NEIGHBOURS);
    add(sums, blocks.len());
    count(sums, blocks, from);
}

/// Makes a sum for the next blocks of a row of this many, where there is memory for it.
fn add(sums: &mut Vec<usize>, blocks: usize)
    ensures whole { 32 * length sums.old.items ≤ blocks → 32 * length sums.new.items ≤ blocks }
    ensures kept { (n : ℕ) (xs : List (List Element)) → n ≤ length sums.old.items → AreSumsBelow n sums.old.items xs → AreSumsBelow n sums.new.items xs }
{
    if sums.len() < blocks / NEIGHBOURS && sums.len() < sums.capacity() {
        sums.push_reserved(0);
    }
}

/// Counts the sums from one on. Those before it are true already.
fn count(sums: &mut [usize], blocks: &[Block], from: usize)
    requires few { seen_all (items_of blocks.now) < 2 ^ 64 }
    requires whole { 32 * length sums.old ≤ length blocks.now }
    requires before { AreSumsBelow from sums.old (items_of blocks.now) }
    ensures { AreSums sums.new (items_of blocks.now) }
{
    for g in from..sums.len() {
        let first = NEIGHBOURS * g;
        sums[g] = visible_in(&blocks[first..first + NEIGHBOURS]);
    }
}

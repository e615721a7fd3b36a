//! Lower bounds of the identifiers with which the stretches of neighbouring blocks begin, by which many blocks are passed at once.

ghost use Rattle.std.specs.Prelude.{◌≡◌, ◌+◌, ◌*◌, ◌<◌, ◌≤◌, ℕ, List, length, get_or, slice_set, insert, [], true};
ghost use Rattle.rga_runs.specs.declared.stretch.Stretch.{Stretch as Kept};
ghost use Rattle.rga_runs.specs.BlockRows.{items_of};
ghost use Rattle.rga_runs.specs.Bounds.{AreBounds, AreBoundsBelow, AreBoundsBut};
ghost use Rattle.rga_runs.specs.Blocks.{none_below};

use crate::block::{Block, lesser};
use bg_types::Id;

/// How many neighbouring blocks share a bound.
pub const NEIGHBOURS: usize = 32;

/// Lowers the bound of block q, if it has one, as a stretch that begins with this identifier goes into it.
pub fn lower(bounds: &mut [Id], q: usize, id: Id)
    ensures { (xs : List (List Kept)) (at : ℕ) (s : Kept) → s.first ≡ id → AreBounds bounds.old xs
        → AreBounds bounds.new (slice_set xs q (insert (get_or xs q []) at s)) }
{
    let g = q / NEIGHBOURS;
    if g < bounds.len() {
        bounds[g] = lesser(id, bounds[g]);
    }
}

/// Lowers the bounds of the neighbours from entry `from` on: the first block of each was the last of those before it, until a block
/// in front was split.
pub fn lower_behind(bounds: &mut [Id], blocks: &[Block], from: usize)
    requires { AreBoundsBut from bounds.old (items_of blocks.now) }
    ensures { AreBounds bounds.new (items_of blocks.now) }
{
    let groups = blocks.len().div_ceil(NEIGHBOURS);
    let end = bounds.len().min(groups);
    for g in from..end {
        let first = NEIGHBOURS * g;
        bounds[g] = lesser(blocks[first].least, bounds[g]);
    }
}

/// Makes a bound for the next blocks of a row of this many, where there is memory for it.
pub fn add(bounds: &mut Vec<Id>, blocks: usize, any: Id)
    ensures { (n : ℕ) (xs : List (List Kept)) → n ≤ 32 * length bounds.old.items → AreBoundsBelow n bounds.old.items xs → AreBoundsBelow n bounds.new.items xs }
{
    if bounds.len() < blocks / NEIGHBOURS && bounds.len() < bounds.capacity() {
        bounds.push_reserved(any);
    }
}

/// Writes down the bounds of the blocks from one on. Those of the blocks before it are true already.
pub fn renew(bounds: &mut [Id], blocks: &[Block], from: usize)
    requires { AreBoundsBelow from bounds.old (items_of blocks.now) }
    ensures { AreBounds bounds.new (items_of blocks.now) }
{
    for p in from..blocks.len() {
        note(bounds, p, blocks[p].least);
    }
}

/// Writes down that no stretch of block p begins with a lesser identifier, once the blocks before it are written down.
fn note(bounds: &mut [Id], p: usize, least: Id)
    ensures len { length bounds.new ≡ length bounds.old }
    ensures bounds { (xs : List (List Kept)) → none_below least (get_or xs p []) ≡ true → AreBoundsBelow p bounds.old xs → AreBoundsBelow (p + 1) bounds.new xs }
{
    let g = p / NEIGHBOURS;
    if g < bounds.len() {
        bounds[g] = if p % NEIGHBOURS == 0 {
            least
        } else {
            lesser(least, bounds[g])
        };
    }
}

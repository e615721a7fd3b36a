//! The visual order of a line: L2.

ghost use Rattle.std.specs.Prelude.{◌≡◌, ℕ, ◌<◌, ◌≤◌, length, All, IfOk, OnOk, IsPermutation, slice_index};
ghost use Rattle.std.specs.List.{range_with_len};
ghost use Rattle.reorder.specs.VisualList.{arranged, numbers, visual_list};
ghost use Rattle.reorder.specs.Links.{IsLinked, clusters_between};

use crate::links::{Piece, walk_into};
use bg_types::Memory;
use std::alloc::Global;

/// The greatest number of clusters of a line.
const CLUSTERS: usize = 4_000_000;

/// A stretch of a line, as it stands in the line's visual order.
#[derive(Clone, Copy)]
struct Stretch {
    piece: Piece,
    end: usize,
}

/// The longest stretch of levels from `floor` up that begins at `start`.
///
/// Each recursive call has a higher floor, so the calls are at most 256 deep; each cluster is joined once.
fn stretch_from(levels: &[u8], links: &mut [u32], start: usize, floor: u8) -> Stretch
    requires size { length levels.now ≤ CLUSTERS }
    requires links { length links.old ≡ length levels.now }
    requires start { start < length levels.now }
    requires floor { floor ≤ slice_index levels.now start }
    ensures begun { start < result.end }
    ensures within { result.end ≤ length levels.now }
    ensures high { (k : ℕ) → start ≤ k → k < result.end → floor ≤ slice_index levels.now k }
    ensures whole { result.end < length levels.now → slice_index levels.now result.end < floor }
    ensures linked { IsLinked links.new result.piece.first result.piece.last (numbers (arranged levels.now (clusters_between levels.now start result.end))) }
    ensures before { (k : ℕ) → k < start → slice_index links.new k ≡ slice_index links.old k }
    ensures length { length links.new ≡ length links.old }
{
    let mut piece = Piece::of(start as u32);
    let mut level = levels[start];
    let mut end = start + 1;
    while end < levels.len() && floor <= levels[end] {
        let later;
        if level < levels[end] {
            let upper = stretch_from(levels, links, end, level + 1);
            later = upper.piece;
            end = upper.end;
        } else {
            level = levels[end];
            later = Piece::of(end as u32);
            end += 1;
        }
        piece = piece.then(later, level, links);
    }
    Stretch { piece, end }
}

/// Puts the numbers of a line's clusters from left to right, by their levels (UAX #9, L2), into a list, in place of what it
/// has. `links` is another list to work in, whatever it has.
/// Cost: O(n), 4 bytes of memory a cluster in each list.
pub fn visual_into(order: &mut Vec<u32>, links: &mut Vec<u32>, levels: &[u8]) -> Result<(), Memory>
    requires { length levels.now ≤ CLUSTERS }
    ensures list { OnOk result (order.new.items ≡ visual_list levels.now) }
    ensures rearrangement { OnOk result (IsPermutation (range_with_len 0 (length levels.now)) order.new.items) }
{
    if levels.is_empty() {
        order.clear();
        return Ok(());
    }
    links.clear();
    links.resize(levels.len(), 0)?;
    let line = stretch_from(levels, links, 0, 0);
    walk_into(order, links, line.piece.first)
}

/// The numbers of a line's clusters from left to right, by their levels (UAX #9, L2).
/// Cost: O(n), 4 bytes of memory a cluster.
pub fn visual(alloc: Global, levels: &[u8]) -> Result<Vec<u32>, Memory>
    requires { length levels.now ≤ CLUSTERS }
    ensures list { IfOk result (λ order. order.items ≡ visual_list levels.now) }
    ensures rearrangement { IfOk result (λ order. IsPermutation (range_with_len 0 (length levels.now)) order.items) }
{
    let mut order = Vec::with_capacity(alloc, levels.len())?;
    let mut links = Vec::new(alloc);
    visual_into(&mut order, &mut links, levels)?;
    Ok(order)
}

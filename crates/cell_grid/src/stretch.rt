//! The order of a line's pieces: L2, on stretches of one level.

ghost use Rattle.std.specs.Prelude.{◌≡◌, ℕ, ◌<◌, ◌≤◌, ◌++◌, length, map, reverse, IfOk, OnOk, if◌then◌else◌};
ghost use Rattle.std.specs.List.{All, flat_map};
ghost use Rattle.reorder.specs.Pieces.{piece_order};
ghost use Rattle.reorder.specs.VisualList.{is_odd};
ghost use Rattle.cell_grid.specs.declared.stretch.Stretch.{Stretch};
ghost use Rattle.cell_grid.specs.Pieces.{piece_at, arranged};
ghost use Rattle.cell_grid.specs.Stretches.{level_piece, AreStretches};

use crate::cluster_run::ClusterRun;
use bg_types::Memory;
use reorder::laws::pieces_move_as_one;
use reorder::visual_into;
use std::alloc::Global;

/// Pieces of one level that follow each other in a line: from the one with this number up to the one with that.
#[derive(Clone, Copy)]
pub(crate) struct Stretch {
    first: u32,
    end: u32,
    level: u8,
}

/// What puts a line's pieces in order, in lists that are used for one line after the other.
#[derive(Drop)]
pub(crate) struct Order {
    stretches: Vec<Stretch>,
    /// The level of each.
    levels: Vec<u8>,
    /// The number of each, from left to right.
    numbers: Vec<u32>,
    links: Vec<u32>,
}

/// Up to which piece all have the level of this one.
#[inline]
fn level_end(pieces: &[ClusterRun], first: usize) -> usize
    requires { first < length pieces.now }
    ensures some { first < result }
    ensures within { result ≤ length pieces.now }
    ensures level { (k : ℕ) → first ≤ k → k < result → (piece_at pieces.now k).level ≡ (piece_at pieces.now first).level }
{
    let level = pieces[first].level;
    let mut end = first + 1;
    while end < pieces.len() && pieces[end].level == level {
        end += 1;
    }
    end
}

/// Appends the pieces of a stretch from left to right: at an odd level in the opposite order.
#[inline]
fn append(runs: &mut Vec<ClusterRun>, pieces: &[ClusterRun], level: u8) -> Result<(), Memory>
    ensures { OnOk result (runs.new.items ≡ runs.old.items ++ (if is_odd level then reverse pieces.now else pieces.now)) }
{
    if level % 2 == 0 {
        runs.extend_from_slice(pieces)?;
        return Ok(());
    }
    for number in (0..pieces.len()).rev() {
        runs.push(pieces[number])?;
    }
    Ok(())
}

/// The pieces of the stretches with these numbers, from left to right.
fn in_order(
    alloc: Global,
    pieces: &[ClusterRun],
    stretches: &[Stretch],
    numbers: &[u32],
) -> Result<Vec<ClusterRun>, Memory>
    requires stretches { AreStretches pieces.now stretches.now }
    requires numbers { All (λ k. k < length stretches.now) numbers.now }
    ensures { IfOk result (λ runs. runs.items ≡ map (piece_at pieces.now) (flat_map (piece_order (map level_piece stretches.now)) numbers.now)) }
{
    let mut runs = Vec::with_capacity(alloc, pieces.len())?;
    for number in numbers {
        let stretch = stretches[*number as usize];
        let own = &pieces[stretch.first as usize..stretch.end as usize];
        append(&mut runs, own, stretch.level)?;
    }
    Ok(runs)
}

impl Order {
    /// With empty lists.
    pub(crate) fn new(alloc: Global) -> Order {
        Order {
            stretches: Vec::new(alloc),
            levels: Vec::new(alloc),
            numbers: Vec::new(alloc),
            links: Vec::new(alloc),
        }
    }

    /// Finds the stretches of a line that has these pieces, and their levels.
    fn find(&mut self, pieces: &[ClusterRun]) -> Result<(), Memory>
        requires { length pieces.now ≤ 4_000_000 }
        ensures stretches { OnOk result (AreStretches pieces.now self.new.stretches.items) }
        ensures levels { OnOk result (self.new.levels.items ≡ map (λ (s : Stretch). s.level) self.new.stretches.items) }
    {
        self.stretches.clear();
        self.levels.clear();
        let mut first = 0;
        while first < pieces.len() {
            let end = level_end(pieces, first);
            let level = pieces[first].level;
            let stretch = Stretch {
                first: first as u32,
                end: end as u32,
                level,
            };
            self.stretches.push(stretch)?;
            self.levels.push(level)?;
            first = end;
        }
        Ok(())
    }

    /// The runs of a line that has these pieces, from left to right (UAX #9, L2).
    pub(crate) fn arranged(
        &mut self,
        alloc: Global,
        pieces: &[ClusterRun],
    ) -> Result<Vec<ClusterRun>, Memory>
        requires { length pieces.now ≤ 4_000_000 }
        ensures { IfOk result (λ runs. runs.items ≡ arranged pieces.now) }
    {
        pieces_move_as_one();
        self.find(pieces)?;
        visual_into(&mut self.numbers, &mut self.links, &self.levels)?;
        in_order(alloc, pieces, &self.stretches, &self.numbers)
    }
}

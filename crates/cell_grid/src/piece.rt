//! The pieces of a line: runs of clusters that are alike in shape, level and columns.

ghost use Rattle.std.specs.Prelude.{◌≡◌, ℕ, ◌*◌, ◌<◌, ◌≤◌, length, sum, take, slice_index, OnOk};
ghost use Rattle.std.specs.List.{All};
ghost use Rattle.reorder.specs.LineLevels.{group_firsts};
ghost use Rattle.line_break.specs.Runs.{AllHaveSome};
ghost use Rattle.cell_grid.specs.Cuts.{AreFitting, IsFirstPiece};
ghost use Rattle.cell_grid.specs.Hanging.{hung};
ghost use Rattle.cell_grid.specs.Parts.{all_spans, all_sizes, all_columns, IsWithin, left_of, ArePassed};
ghost use Rattle.cell_grid.specs.Pieces.{spans_of, levels_of, columns_of};
ghost use Rattle.cell_grid.specs.Runs.{IsInReach};

use crate::cluster_run::ClusterRun;
use crate::kept_span::KeptSpan;
use crate::part::{Cursor, behind};
use bg_types::Memory;
use line_break::ShapeRun;
use paragraphs::Span;

/// How many clusters a piece has at most.
const CLUSTERS: u32 = 256;

/// What the first of some clusters take up in a line: as many as have the same columns there.
#[derive(Clone, Copy)]
struct Fitting {
    count: u32,
    /// How many columns each of them has.
    columns: u8,
    /// How much room is left behind them.
    room: u16,
}

/// Of so many clusters, each of so many columns, the first ones that all fit in this room, or all of them where the first
/// does not fit: they and all later ones take 0.
#[inline]
fn first_fitting(count: u32, columns: u8, room: u16) -> Fitting
    requires some { 0 < count }
    requires most { count ≤ CLUSTERS }
    ensures { AreFitting count columns room result }
{
    let wide = u16::from(columns);
    let all = count * u32::from(wide);
    if all <= u32::from(room) {
        return Fitting {
            count,
            columns,
            room: room - all as u16,
        };
    }
    if wide > room {
        return Fitting {
            count,
            columns: 0,
            room: 0,
        };
    }
    let fitting = room / wide;
    Fitting {
        count: u32::from(fitting),
        columns,
        room: room - fitting * wide,
    }
}

/// Of at most so many clusters, each of so many code points, how many of the first have one level: each that of its first
/// code point.
#[inline]
fn alike(levels: &[u8], points: usize, most: usize) -> usize
    requires points { 0 < points }
    requires most { 0 < most }
    requires within { most * points ≤ length levels.now }
    ensures some { 0 < result }
    ensures most { result ≤ most }
    ensures level { (k : ℕ) → k < result → slice_index levels.now (k * points) ≡ slice_index levels.now 0 }
{
    let level = levels[0];
    let mut count = 1;
    let mut place = points;
    while count < most && levels[place] == level {
        count += 1;
        place += points;
    }
    count
}

/// The first piece of a run, of at most so many clusters, whose code points begin with these levels, and the room that is
/// left behind it.
#[inline]
fn first_piece(run: ShapeRun, most: u32, levels: &[u8], room: u16) -> (ClusterRun, u16)
    requires some { 0 < most }
    requires most { most ≤ run.count }
    requires within { IsWithin run }
    requires levels { most * run.points ≤ length levels.now }
    ensures { IsFirstPiece run most levels.now room result.0 result.1 }
{
    let most = most.min(CLUSTERS);
    let alike = alike(levels, run.points as usize, most as usize);
    let fit = first_fitting(alike as u32, run.columns, room);
    let span = Span {
        first_byte: run.first_byte,
        end_byte: run.first_byte + run.bytes,
        first_place: run.first_place,
        end_place: run.first_place + run.points,
    };
    let span = KeptSpan::of(span, (fit.count - 1) as u8);
    let piece = ClusterRun {
        span,
        level: levels[0],
        columns: fit.columns,
    };
    (piece, fit.room)
}

/// Puts the pieces of a line, which has the next so many clusters, in order, by the levels of its code points, into a list,
/// in place of what it has. Each cluster takes its columns while there is room; the first that does not fit and all later
/// ones take 0. The clusters are passed.
/// Never inlined: as a part of its caller its loop would have fewer registers.
#[inline(never)]
pub(crate) fn cut(
    pieces: &mut Vec<ClusterRun>,
    cursor: &mut Cursor,
    runs: &[ShapeRun],
    clusters: u32,
    levels: &[u8],
    width: u16,
) -> Result<(), Memory>
    requires clusters { clusters ≤ length (all_spans (left_of runs.now cursor.old)) }
    requires runs { AllHaveSome runs.now }
    requires within { All IsWithin (left_of runs.now cursor.old) }
    requires levels { sum (take clusters (all_sizes (left_of runs.now cursor.old))) ≡ length levels.now }
    ensures spans { OnOk result (spans_of pieces.new.items ≡ take clusters (all_spans (left_of runs.now cursor.old))) }
    ensures levels { OnOk result (levels_of pieces.new.items ≡ group_firsts (take clusters (all_sizes (left_of runs.now cursor.old))) levels.now) }
    ensures columns { OnOk result (columns_of pieces.new.items ≡ hung width (take clusters (all_columns (left_of runs.now cursor.old)))) }
    ensures reach { OnOk result (All IsInReach pieces.new.items) }
    ensures passed { OnOk result (ArePassed clusters (left_of runs.now cursor.old) (left_of runs.now cursor.new)) }
    ensures within { OnOk result (All IsWithin (left_of runs.now cursor.new)) }
{
    pieces.clear();
    let mut reader = *cursor;
    let mut ahead = levels;
    let mut room = width;
    let mut left = clusters;
    while left > 0 {
        reader.begin(runs);
        let run = reader.first;
        let most = run.count.min(left);
        let (piece, behind_it) = first_piece(run, most, ahead, room);
        let count = piece.count();
        ahead = &ahead[(count * run.points) as usize..];
        reader.first = behind(count, run);
        room = behind_it;
        left -= count;
        pieces.push(piece)?;
    }
    *cursor = reader;
    Ok(())
}

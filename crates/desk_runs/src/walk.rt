//! The walk of a caret over a grid, as lines.

ghost use Rattle.std.specs.Prelude.{◌≡◌, ◌++◌, string_bytes, OnOk, IfOk};
ghost use Rattle.std.specs.List.{flat_map};
ghost use Rattle.caret.specs.Gaps.{IsCaretOf};
ghost use Rattle.desk_runs.specs.Carets.{moved, walk, caret_line};

use bg_types::Memory;
use caret::{Caret, Move, down, left, right, up};
use cell_grid::Grid;
use std::alloc::{AllocError, Global};

/// The caret after a move.
fn moved(grid: &Grid, caret: Caret, step: Move) -> Caret
    requires { IsCaretOf grid.now.rows caret }
    ensures caret { result ≡ moved grid.now.rows caret step }
    ensures within { IsCaretOf grid.now.rows result }
{
    match step {
        Move::Left => left(grid, caret),
        Move::Right => right(grid, caret),
        Move::Up => up(grid, caret),
        Move::Down => down(grid, caret),
    }
}

/// Appends a caret's line: `row gap place`.
fn push_line(caret: Caret, lines: &mut String) -> Result<(), AllocError>
    ensures { OnOk result (string_bytes lines.new ≡ string_bytes lines.old ++ caret_line caret) }
{
    let Caret { row, gap, place } = caret;
    writeln!(lines, "{} {} {}", row, gap, place)
}

/// The lines of a walk: one for the caret, and one after each move.
pub fn walk_lines(
    alloc: Global,
    grid: &Grid,
    start: Caret,
    moves: &[Move],
) -> Result<String, Memory>
    requires { IsCaretOf grid.now.rows start }
    ensures { IfOk result (λ lines. string_bytes lines ≡ flat_map caret_line (walk grid.now.rows start moves.now)) }
{
    let mut lines = String::new(alloc);
    let mut caret = start;
    push_line(caret, &mut lines)?;
    for step in moves {
        caret = moved(grid, caret, *step);
        push_line(caret, &mut lines)?;
    }
    Ok(lines)
}

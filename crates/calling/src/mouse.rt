//! The mouse: from a cell to a place of the text, and from there to a caret.

ghost use Rattle.std.specs.Prelude.{◌≡◌, ◌<◌, IfSome, length};
ghost use Rattle.std.specs.Str.{chars};
ghost use Rattle.caret.specs.Gaps.{IsCaretOf};
ghost use Rattle.caret.specs.Laws.{StandsBeforeCluster};
ghost use Rattle.calling.specs.Mouse.{entry_under, place_under};

use caret::laws::each_place;
use caret::{Caret, at_place};
use cell_grid::{Cell, Entry, Grid, Row, laws};

/// The entry that is seen in a column of a row, if there is one.
fn entry_under(row: &Row, column: usize) -> Option<Entry>
    ensures { result ≡ entry_under row.now column }
{
    match row.cell(column)? {
        Cell::Blank => None,
        Cell::Head(number) | Cell::Tail(number) => row.entry(number as usize),
    }
}

/// The place of the cluster seen in a cell, counted in code points: none in a blank cell, and
/// none outside the grid.
pub fn place_under(grid: &Grid, row: usize, column: usize) -> Option<usize>
    ensures place { result ≡ place_under grid.now row column }
    ensures within { IfSome result (λ place. place < length (chars grid.now.text)) }
{
    laws::rows_follow();
    laws::places_once();
    let entry = entry_under(grid.rows().get(row)?, column)?;
    Some(entry.span.first_place as usize)
}

/// The caret at a place of the text: before the cluster that has it, on the side where its reading
/// begins.
pub fn caret_before(grid: &Grid, place: usize) -> Caret
    requires { place < length (chars grid.now.text) }
    ensures stands { StandsBeforeCluster grid.now place result }
    ensures within { IsCaretOf grid.now.rows result }
{
    each_place();
    // Reading a grid's rows shows the proof that it is drawn, as the law asks.
    let _rows = grid.rows();
    at_place(grid, place)
}

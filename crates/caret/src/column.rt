//! The caret at a column of a row.

ghost use Rattle.std.specs.Prelude.{◌≡◌, ◌<◌, length};
ghost use Rattle.caret.specs.Gaps.{IsCaretOf};
ghost use Rattle.caret.specs.Moves.{caret_under};

use crate::caret::Caret;
use crate::gaps::caret_by;
use cell_grid::{Grid, Row};

/// The caret where a mouse points: in the row with this number at the last gap whose column isn't
/// greater than `column`, else at its gap 0, as `up` and `down` come to a row.
/// Cost: O(n) of the row's entries.
pub fn at_column(grid: &Grid, row: usize, column: usize) -> Caret
    requires { row < length grid.now.rows }
    ensures caret { result ≡ caret_under grid.now.rows row column }
    ensures within { IsCaretOf grid.now.rows result }
{
    at_column_among(grid.rows(), row, column)
}

/// `at_column` among these rows, as on a grid of them.
/// Cost: O(n) of the row's entries.
pub fn at_column_among(rows: &[Row], row: usize, column: usize) -> Caret
    requires { row < length rows.now }
    ensures caret { result ≡ caret_under rows.now row column }
    ensures within { IsCaretOf rows.now result }
{
    caret_by(&rows[row], row, column)
}

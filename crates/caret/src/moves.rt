//! Moves of a caret on a grid: right, left, up and down.

ghost use Rattle.std.specs.Prelude.{◌≡◌};
ghost use Rattle.caret.specs.Gaps.{IsCaretOf};
ghost use Rattle.caret.specs.Moves.{right_of, left_of, up_of, down_of};

use crate::among::{down_among, left_among, right_among, up_among};
use crate::caret::Caret;
use cell_grid::Grid;

/// A move of a caret.
#[derive(Clone, Copy, Debug, PartialEq, Eq)]
pub enum Move {
    Left,
    Right,
    Up,
    Down,
}

/// The caret after one step to the right.
///
/// Inside a row it crosses the entry right of it. From a row's right edge it goes to the next row's
/// logical start in a paragraph of even level, and to the logical end of the row before in one of
/// odd level; if there is no such row, nothing changes.
/// Cost: that of `Row::entry`.
pub fn right(grid: &Grid, caret: Caret) -> Caret
    requires { IsCaretOf grid.now.rows caret }
    ensures caret { result ≡ right_of grid.now.rows caret }
    ensures within { IsCaretOf grid.now.rows result }
{
    right_among(grid.rows(), caret)
}

/// The caret after one step to the left.
///
/// Inside a row it crosses the entry left of it. From a row's left edge it goes to the logical end of
/// the row before in a paragraph of even level, and to the next row's logical start in one of odd
/// level; if there is no such row, nothing changes.
/// Cost: that of `Row::entry`.
pub fn left(grid: &Grid, caret: Caret) -> Caret
    requires { IsCaretOf grid.now.rows caret }
    ensures caret { result ≡ left_of grid.now.rows caret }
    ensures within { IsCaretOf grid.now.rows result }
{
    left_among(grid.rows(), caret)
}

/// The caret one row higher: at that row's last gap whose column isn't greater than the caret's,
/// else at its gap 0. In the first row nothing changes.
/// Cost: O(n) of the row's entries.
pub fn up(grid: &Grid, caret: Caret) -> Caret
    requires { IsCaretOf grid.now.rows caret }
    ensures caret { result ≡ up_of grid.now.rows caret }
    ensures within { IsCaretOf grid.now.rows result }
{
    up_among(grid.rows(), caret)
}

/// The caret one row lower: at that row's last gap whose column isn't greater than the caret's,
/// else at its gap 0. In the last row nothing changes.
/// Cost: O(n) of the row's entries.
pub fn down(grid: &Grid, caret: Caret) -> Caret
    requires { IsCaretOf grid.now.rows caret }
    ensures caret { result ≡ down_of grid.now.rows caret }
    ensures within { IsCaretOf grid.now.rows result }
{
    down_among(grid.rows(), caret)
}

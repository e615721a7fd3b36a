//! A caret that walks through a grid.

ghost use Rattle.std.specs.Prelude.{◌≡◌};
ghost use Rattle.caret.specs.Gaps.{IsCaretOf};
ghost use Rattle.caret.specs.Moves.{right_of};
ghost use Rattle.caret.specs.Laws.{moved};

use caret::{Caret, right};
use cell_grid::Grid;

/// The caret after a number of steps to the right, as the eye sees it.
pub fn steps_right(grid: &Grid, from: Caret, steps: usize) -> Caret
    requires { IsCaretOf grid.now.rows from }
    ensures caret { result ≡ moved (right_of grid.now.rows) steps from }
    ensures within { IsCaretOf grid.now.rows result }
{
    let mut caret = from;
    for _ in 0..steps {
        caret = right(grid, caret);
    }
    caret
}

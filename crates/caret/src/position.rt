//! A caret without the number of its row.

ghost use Rattle.std.specs.Prelude.{◌≡◌};
ghost use Rattle.cell_grid.specs.Windows.{FirstPlacesRise};
ghost use Rattle.caret.specs.Gaps.{IsCaretOf};
ghost use Rattle.caret.specs.Positions.{position_of, caret_of, IsPositionOf};

use crate::caret::Caret;
use crate::place::row_at;
use cell_grid::Row;

/// A caret by the first place of its row, which no other row has. It says where the caret stands
/// whatever rows are at hand.
#[derive(Debug, Clone, Copy, PartialEq, Eq)]
pub struct Position {
    /// The first place of its row, in code points.
    pub row: usize,
    /// The gap of the row, from 0, as that of a `Caret`.
    pub gap: usize,
    /// The place in the text, in code points.
    pub place: usize,
}

impl Position {
    /// The position of a caret of these rows.
    pub fn of(rows: &[Row], caret: Caret) -> Position
        requires { IsCaretOf rows.now caret }
        ensures { result ≡ position_of rows.now caret }
    {
        Position {
            row: rows[caret.row].first_place(),
            gap: caret.gap,
            place: caret.place,
        }
    }

    /// The caret of the position among these rows, one of which has its first place. The row is found
    /// by binary search.
    /// Cost: O(log n) of the rows.
    pub fn caret_among(self, rows: &[Row]) -> Caret
        requires rises { FirstPlacesRise rows.now }
        requires stands { IsPositionOf rows.now self }
        ensures caret { result ≡ caret_of rows.now self }
        ensures within { IsCaretOf rows.now result }
    {
        Caret {
            row: row_at(rows, self.row),
            gap: self.gap,
            place: self.place,
        }
    }
}

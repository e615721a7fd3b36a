//! Laws of the definitions: each function's contract is the law, and its body does nothing.

ghost use Rattle.std.specs.Prelude.{◌≡◌, ℕ, List, ◌++◌};
ghost use Rattle.cell_grid.specs.Rows.{DrawnRow};
ghost use Rattle.cell_grid.specs.Grids.{DrawnGrid, IsDrawn};
ghost use Rattle.cell_grid.specs.Windows.{FirstPlacesRise, HasWindow};
ghost use Rattle.caret.specs.declared.position.Position.{Position};
ghost use Rattle.caret.specs.Places.{caret_at, caret_among};
ghost use Rattle.caret.specs.Positions.{position_at, IsPositionOf, PositionsAreCarets, MovesInWindow};
ghost use Rattle.caret.specs.Laws.{CrossesOneEntry, VisitsEveryGap, UndoneByOpposite, EachPlaceHasItsCaret};

use cell_grid::laws;

/// A step inside a row crosses one entry.
pub fn one_entry()
    ensures { CrossesOneEntry }
{}

/// From one edge of a row, as many steps as the row has entries visit each of its gaps.
pub fn every_gap()
    ensures { VisitsEveryGap }
{}

/// A step inside a row and then its opposite give back row and gap.
pub fn opposites()
    ensures { UndoneByOpposite }
{}

/// The caret at a place of a drawn text stands before the cluster that has the place, and that at
/// the text's end after the cluster that ends there, or in an empty row.
pub fn each_place()
    ensures { EachPlaceHasItsCaret }
{
    laws::rows_follow();
    laws::places_once();
}

/// Of rows no two of which begin at one place the positions are the carets, one for one.
pub fn positions_are_carets()
    ensures { (rows : List DrawnRow) → FirstPlacesRise rows → PositionsAreCarets rows }
{}

/// The moves look at no row but the caret's own and its neighbours: in a part of the rows that has
/// one more above and below, or no more are there, each move of a position is that among all rows.
pub fn moves_in_windows()
    ensures { (before rows after : List DrawnRow) (position : Position) → HasWindow before rows after 1 1 position.row
        → IsPositionOf rows position → MovesInWindow before rows after position }
{}

/// A place has the same position in such a part as among all rows; and the caret at a place among
/// the rows of a drawn text is that on its grid.
pub fn places_in_windows()
    ensures stretch { (before rows after : List DrawnRow) (above below place : ℕ) → HasWindow before rows after above below place
        → position_at (before ++ (rows ++ after)) place ≡ position_at rows place }
    ensures whole { (grid : DrawnGrid) (place : ℕ) → IsDrawn grid → caret_among grid.rows place ≡ caret_at grid place }
{
    laws::rows_follow();
}

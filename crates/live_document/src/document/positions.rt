//! Carets of a document, named without the numbers of rows: *CaretMoves* on the grid of the whole text.

ghost use Rattle.std.specs.Prelude.{◌≡◌, ◌≤◌, ◌<◌, ◌⊎◌, true, length, IfOk, OnOk, OnErr};
ghost use Rattle.std.specs.Bool.{OnTrue, OnFalse};
ghost use Rattle.rga_tree.specs.TextOf.{visible};
ghost use Rattle.cell_grid.specs.Grids.{IsDrawn};
ghost use Rattle.cell_grid.specs.Windows.{row_at, begins_by, FirstPlacesRise};
ghost use Rattle.caret.specs.Moves.{right_of, left_of, up_of, down_of, caret_under};
ghost use Rattle.caret.specs.Positions.{position_at, position_moved, position_of, IsPositionOf};
ghost use Rattle.live_document.specs.Cost.{IsLaidOut};
ghost use Rattle.live_document.specs.Documents.{whole_grid, whole_rows, window_round, IsDrawnAlike};

use crate::document::Document;
use crate::following::catch_up;
use crate::laws_below::laws_below;
use crate::shown::Shown;
use bg_types::Memory;
use caret::{
    Position, at_column_among, at_place_among, down_among, left_among, right_among, row_at,
    up_among,
};
use cell_grid::Row;

impl Document {
    /// The position of the caret at a place, as `caret::at_place` answers. Then the place's row is shown.
    /// Cost: that of `Document::show` with no row above and below, and of `at_place`; memory for a copy of the row too.
    pub fn position_at(&mut self, place: usize) -> Result<Position, Memory>
        requires { place ≤ length (visible self.old.desk.set) }
        ensures position { IfOk result (λ position. position ≡ position_at (whole_rows self.old) place) }
        ensures stands { IfOk result (λ position. IsPositionOf (whole_rows self.old) position) }
        ensures rows { whole_rows self.new ≡ whole_rows self.old }
        ensures desk { self.new.desk ≡ self.old.desk }
        ensures drawn { IsDrawnAlike self.old self.new }
        ensures window { OnOk result (self.new.window ≡ window_round self.old place 0 0) }
        ensures laid { OnOk result (IsLaidOut self.old self.new place 0 0) }
        ensures uncounted { OnErr result ((self.new.laid ≡ self.old.laid) ⊎ IsLaidOut self.old self.new place 0 0) }
    {
        laws_below();
        let rows = self.rows_round(place, 0)?;
        Ok(Position::of(&rows, at_place_among(&rows, place)))
    }

    /// The position where a mouse points in the row of a place, as `caret::at_column` answers. Then this row is shown.
    /// Cost: that of `Document::show` with no row above and below, and of `at_column`; memory for a copy of the row
    /// too.
    pub fn position_in(&mut self, place: usize, column: usize) -> Result<Position, Memory>
        requires { place ≤ length (visible self.old.desk.set) }
        ensures position { IfOk result (λ position. position
            ≡ position_of (whole_rows self.old) (caret_under (whole_rows self.old) (row_at (whole_rows self.old) place) column)) }
        ensures stands { IfOk result (λ position. IsPositionOf (whole_rows self.old) position) }
        ensures rows { whole_rows self.new ≡ whole_rows self.old }
        ensures desk { self.new.desk ≡ self.old.desk }
        ensures drawn { IsDrawnAlike self.old self.new }
        ensures window { OnOk result (self.new.window ≡ window_round self.old place 0 0) }
        ensures laid { OnOk result (IsLaidOut self.old self.new place 0 0) }
        ensures uncounted { OnErr result ((self.new.laid ≡ self.old.laid) ⊎ IsLaidOut self.old self.new place 0 0) }
    {
        laws_below();
        let rows = self.rows_round(place, 0)?;
        Ok(Position::of(&rows, at_column_among(&rows, 0, column)))
    }

    /// Whether a position's row and gap are those of the text's grid. Then the row of this place is shown, if the text has it.
    /// Cost: that of `Document::show` with no row above and below; memory for a copy of the row too.
    pub fn holds(&mut self, position: Position) -> Result<bool, Memory>
        ensures yes { IfOk result (λ holds. OnTrue holds (IsPositionOf (whole_rows self.old) position)) }
        ensures no { IfOk result (λ holds. OnFalse holds (¬ (IsPositionOf (whole_rows self.old) position))) }
        ensures within { IfOk result (λ holds. OnTrue holds (position.row ≤ length (visible self.old.desk.set))) }
        ensures rows { whole_rows self.new ≡ whole_rows self.old }
        ensures desk { self.new.desk ≡ self.old.desk }
        ensures drawn { IsDrawnAlike self.old self.new }
        ensures window { OnOk result (position.row ≤ length (visible self.old.desk.set) → self.new.window ≡ window_round self.old position.row 0 0) }
        ensures laid { OnOk result (position.row ≤ length (visible self.old.desk.set) → IsLaidOut self.old self.new position.row 0 0) }
        ensures outside { OnOk result (length (visible self.old.desk.set) < position.row → (self.new.laid ≡ self.old.laid) × (self.new.paragraphs ≡ self.old.paragraphs)) }
        ensures uncounted { OnErr result ((self.new.laid ≡ self.old.laid) ⊎ IsLaidOut self.old self.new position.row 0 0) }
    {
        laws_below();
        self.refresh()?;
        if position.row > self.desk.len() {
            return Ok(false);
        }
        let rows = self.rows_round(position.row, 0)?;
        Ok(stands_among(&rows, position))
    }

    /// The position one step to the right, as `caret::right` answers. Then the row that it came from is shown, with its neighbours.
    /// Cost: that of `Document::show` with a row above and one below, and of `right`; memory for copies of the rows
    /// too.
    pub fn right(&mut self, position: Position) -> Result<Position, Memory>
        requires { IsPositionOf (whole_rows self.old) position }
        ensures position { IfOk result (λ moved. moved ≡ position_moved right_of (whole_rows self.old) position) }
        ensures stands { IfOk result (λ moved. IsPositionOf (whole_rows self.old) moved) }
        ensures rows { whole_rows self.new ≡ whole_rows self.old }
        ensures desk { self.new.desk ≡ self.old.desk }
        ensures drawn { IsDrawnAlike self.old self.new }
        ensures window { OnOk result (self.new.window ≡ window_round self.old position.row 1 1) }
        ensures laid { OnOk result (IsLaidOut self.old self.new position.row 1 1) }
        ensures uncounted { OnErr result ((self.new.laid ≡ self.old.laid) ⊎ IsLaidOut self.old self.new position.row 1 1) }
    {
        laws_below();
        let rows = self.rows_round(position.row, 1)?;
        let caret = position.caret_among(&rows);
        Ok(Position::of(&rows, right_among(&rows, caret)))
    }

    /// The position one step to the left, as `caret::left` answers. Then the row that it came from is shown, with its neighbours.
    /// Cost: that of `Document::right`, memory too.
    pub fn left(&mut self, position: Position) -> Result<Position, Memory>
        requires { IsPositionOf (whole_rows self.old) position }
        ensures position { IfOk result (λ moved. moved ≡ position_moved left_of (whole_rows self.old) position) }
        ensures stands { IfOk result (λ moved. IsPositionOf (whole_rows self.old) moved) }
        ensures rows { whole_rows self.new ≡ whole_rows self.old }
        ensures desk { self.new.desk ≡ self.old.desk }
        ensures drawn { IsDrawnAlike self.old self.new }
        ensures window { OnOk result (self.new.window ≡ window_round self.old position.row 1 1) }
        ensures laid { OnOk result (IsLaidOut self.old self.new position.row 1 1) }
        ensures uncounted { OnErr result ((self.new.laid ≡ self.old.laid) ⊎ IsLaidOut self.old self.new position.row 1 1) }
    {
        laws_below();
        let rows = self.rows_round(position.row, 1)?;
        let caret = position.caret_among(&rows);
        Ok(Position::of(&rows, left_among(&rows, caret)))
    }

    /// The position one row higher, as `caret::up` answers. Then the row that it came from is shown, with its neighbours.
    /// Cost: that of `Document::show` with a row above and one below, and of `up`; memory for copies of the rows too.
    pub fn up(&mut self, position: Position) -> Result<Position, Memory>
        requires { IsPositionOf (whole_rows self.old) position }
        ensures position { IfOk result (λ moved. moved ≡ position_moved up_of (whole_rows self.old) position) }
        ensures stands { IfOk result (λ moved. IsPositionOf (whole_rows self.old) moved) }
        ensures rows { whole_rows self.new ≡ whole_rows self.old }
        ensures desk { self.new.desk ≡ self.old.desk }
        ensures drawn { IsDrawnAlike self.old self.new }
        ensures window { OnOk result (self.new.window ≡ window_round self.old position.row 1 1) }
        ensures laid { OnOk result (IsLaidOut self.old self.new position.row 1 1) }
        ensures uncounted { OnErr result ((self.new.laid ≡ self.old.laid) ⊎ IsLaidOut self.old self.new position.row 1 1) }
    {
        laws_below();
        let rows = self.rows_round(position.row, 1)?;
        let caret = position.caret_among(&rows);
        Ok(Position::of(&rows, up_among(&rows, caret)))
    }

    /// The position one row lower, as `caret::down` answers. Then the row that it came from is shown, with its neighbours.
    /// Cost: that of `Document::up`, memory too.
    pub fn down(&mut self, position: Position) -> Result<Position, Memory>
        requires { IsPositionOf (whole_rows self.old) position }
        ensures position { IfOk result (λ moved. moved ≡ position_moved down_of (whole_rows self.old) position) }
        ensures stands { IfOk result (λ moved. IsPositionOf (whole_rows self.old) moved) }
        ensures rows { whole_rows self.new ≡ whole_rows self.old }
        ensures desk { self.new.desk ≡ self.old.desk }
        ensures drawn { IsDrawnAlike self.old self.new }
        ensures window { OnOk result (self.new.window ≡ window_round self.old position.row 1 1) }
        ensures laid { OnOk result (IsLaidOut self.old self.new position.row 1 1) }
        ensures uncounted { OnErr result ((self.new.laid ≡ self.old.laid) ⊎ IsLaidOut self.old self.new position.row 1 1) }
    {
        laws_below();
        let rows = self.rows_round(position.row, 1)?;
        let caret = position.caret_among(&rows);
        Ok(Position::of(&rows, down_among(&rows, caret)))
    }

    /// Makes the paragraphs anew where they are behind. Then nothing is shown.
    fn refresh(&mut self) -> Result<(), Memory>
        ensures whole { OnOk result (IsDrawn (whole_grid self.old)) }
        ensures desk { self.new.desk ≡ self.old.desk }
        ensures drawn { IsDrawnAlike self.old self.new }
        ensures paragraphs { self.new.paragraphs ≡ self.old.paragraphs }
        ensures laid { self.new.laid ≡ self.old.laid }
    {
        self.shown = Shown::NOTHING;
        catch_up(
            self.alloc,
            &self.tables,
            &self.desk,
            &mut self.buffer,
            self.behind,
        )?;
        self.behind = false;
        // The text is no longer than one that is drawn.
        let _bytes = self.buffer.bytes();
        Ok(())
    }

    /// The rows from so many above the row of a place to so many below it, copied. Then they are shown.
    fn rows_round(&mut self, place: usize, around: usize) -> Result<Vec<Row>, Memory>
        requires place { IsDrawn (whole_grid self.old) → place ≤ length (visible self.old.desk.set) }
        requires around { around ≤ 1_000 }
        ensures whole { OnOk result (IsDrawn (whole_grid self.old)) }
        ensures copies { IfOk result (λ rows. rows.items ≡ (window_round self.old place around around).rows) }
        ensures desk { self.new.desk ≡ self.old.desk }
        ensures drawn { IsDrawnAlike self.old self.new }
        ensures window { OnOk result (self.new.window ≡ window_round self.old place around around) }
        ensures laid { OnOk result (IsLaidOut self.old self.new place around around) }
        ensures uncounted { OnErr result ((self.new.laid ≡ self.old.laid) ⊎ IsLaidOut self.old self.new place around around) }
    {
        self.refresh()?;
        self.show(place, around, around)?;
        self.window().to_rows(self.alloc)
    }
}

/// Whether a position's row and gap are those of one of these rows.
fn stands_among(rows: &[Row], position: Position) -> bool
    requires rises { FirstPlacesRise rows.now }
    requires begun { begins_by rows.now position.row 0 ≡ true }
    ensures yes { OnTrue result (IsPositionOf rows.now position) }
    ensures no { OnFalse result (¬ (IsPositionOf rows.now position)) }
{
    let row = &rows[row_at(rows, position.row)];
    row.first_place() == position.row && position.gap <= row.entry_count()
}

//! A picture of a text.

ghost use Rattle.std.specs.Prelude.{◌≡◌, ◌++◌, ◌<◌, ◌≤◌, drop, length, IfOk};
ghost use Rattle.std.specs.Bool.{OnTrue, OnFalse};
ghost use Rattle.std.specs.Str.{chars};
ghost use Rattle.cell_grid.specs.Grids.{grid_of, IsDrawn};
ghost use Rattle.cell_grid.specs.Print.{printed, printed_row, printed_sizes, IsSizeOf};
ghost use Rattle.caret.specs.Gaps.{IsCaretOf};
ghost use Rattle.caret.specs.Places.{caret_at};

use crate::shared_tables::SharedTables;
use bg_types::{Base, Memory};
use caret::laws::places_in_windows;
use caret::{Caret, at_place_among};
use cell_grid::laws::{entries_are_slices, first_places_rise, rows_follow};
use cell_grid::{InMemory, Row, draw, print_row, print_rows, row_entry_sizes, row_print_size};
use std::alloc::Global;
use std::marker::Model;
use std::rc::Rc;
use unicode_tables::Tables;

/// A text as it is drawn, with the tables and the text of its own. Clauses see it as its grid.
pub struct Picture {
    alloc: Global,
    tables: Rc<Tables>,
    text: String,
    rows: Vec<Row>,
}

impl Model for Picture {
    ghost use Rattle.std.specs.Prelude.{string_bytes};
    ghost use Rattle.cell_grid.specs.Grids.{DrawnGrid, IsDrawn};

    ghost Value = { DrawnGrid };

    ghost view = { λ p. record { tables = p.tables.value; text = string_bytes p.text; rows = p.rows.items } };

    ghost invariant = { λ p. IsDrawn (record { tables = p.tables.value; text = string_bytes p.text; rows = p.rows.items }) };
}

// Written out: a crate above then proves the call, and nothing of the parts.
impl Drop for Picture {
    fn drop(self) {
        let Picture {
            alloc: _,
            tables: _,
            text: _,
            rows: _,
        } = self;
    }
}

impl Picture {
    /// Draws a copy of a text, as `cell_grid::draw` does.
    /// Cost: that of `draw`, memory too and for a copy of the text.
    pub fn draw(
        alloc: Global,
        tables: &SharedTables,
        width: u16,
        base: Base,
        text: &str,
    ) -> Result<Picture, Memory>
        requires at_least { 2 ≤ width }
        requires at_most { width ≤ 500 }
        requires size { length text.now ≤ 4_000_000 }
        ensures { IfOk result (λ picture. picture ≡ grid_of tables.now width base text.now) }
    {
        let tables = tables.to_rc()?;
        let text = String::from_str(alloc, text)?;
        let rows = draw(alloc, &tables, width, base, text.as_str())?.into_rows();
        Ok(Picture {
            alloc,
            tables,
            text,
            rows,
        })
    }

    /// Its tables.
    #[inline]
    pub fn tables(&self) -> &Tables
        ensures { result.now ≡ self.now.tables }
    {
        &self.tables
    }

    /// The text that it was drawn from.
    #[inline]
    pub fn text(&self) -> &str
        ensures { result.now ≡ self.now.text }
    {
        self.text.as_str()
    }

    /// How many code points the text has: its last row ends behind them.
    #[inline]
    pub fn len(&self) -> usize
        ensures { result ≡ length (chars self.now.text) }
    {
        rows_follow();
        let rows = self.rows();
        let last = rows.len() - 1;
        rows[last].last_place()
    }

    /// Its rows from the top, at least one.
    #[inline]
    pub fn rows(&self) -> &[Row]
        ensures rows { result.now ≡ self.now.rows }
        // What is true of every picture, for the caller's proof.
        ensures drawn { IsDrawn self.now }
    {
        &self.rows
    }

    /// Whether a caret's row and gap are the picture's.
    pub fn holds(&self, caret: Caret) -> bool
        ensures yes { OnTrue result (IsCaretOf self.now.rows caret) }
        ensures no { OnFalse result (¬ (IsCaretOf self.now.rows caret)) }
    {
        match self.rows.get(caret.row) {
            Some(row) => caret.gap <= row.entry_count(),
            None => false,
        }
    }

    /// Its print: the text of each cell, and one LF after each row.
    /// Cost: that of `print`, memory for its bytes.
    pub fn printed(&self) -> Result<Vec<u8>, Memory>
        ensures { IfOk result (λ bytes. bytes.items ≡ printed self.now) }
    {
        entries_are_slices();
        let mut sink = InMemory::new(self.alloc);
        match print_rows(self.tables(), self.text(), self.rows(), &mut sink) {
            Ok(()) => Ok(sink.bytes),
            Err(_) => Err(Memory),
        }
    }

    /// How many bytes its print has. Takes no memory. `Memory` where they are 2^64 or more.
    /// Cost: that of `row_print_size` for each row.
    pub fn print_size(&self) -> Result<usize, Memory>
        ensures { IsSizeOf (printed self.now) result }
    {
        let mut size = 0usize;
        for number in 0..self.rows().len() {
            let row = self.row_print_size(number)?;
            size = size.checked_add(row).ok_or(Memory)?;
        }
        Ok(size)
    }

    /// How many bytes the print of the row with this number has, counted from 0. Takes no memory. `Memory` where they are
    /// 2^64 or more.
    /// Cost: that of `cell_grid::row_print_size`.
    pub fn row_print_size(&self, number: usize) -> Result<usize, Memory>
        requires { number < length self.now.rows }
        ensures { IsSizeOf (printed_row self.now number) result }
    {
        entries_are_slices();
        row_print_size(self.tables(), self.text(), &self.rows()[number])
    }

    /// Answers how many bytes the cells of each entry of that row have in its print, as `cell_grid::row_entry_sizes` does, at
    /// the front of a list with room for them.
    /// Cost: that of `cell_grid::row_entry_sizes`.
    pub fn row_entry_sizes(&self, number: usize, sizes: &mut [usize])
        requires row { number < length self.now.rows }
        requires room { length (printed_sizes self.now number) ≤ length sizes.old }
        ensures { sizes.new ≡ printed_sizes self.now number ++ drop (length (printed_sizes self.now number)) sizes.old }
    {
        entries_are_slices();
        row_entry_sizes(self.tables(), self.text(), &self.rows()[number], sizes);
    }

    /// The print of the row with this number, counted from 0, with its LF.
    /// Cost: that of `print_row`, memory for its bytes.
    pub fn printed_row(&self, number: usize) -> Result<Vec<u8>, Memory>
        requires { number < length self.now.rows }
        ensures { IfOk result (λ bytes. bytes.items ≡ printed_row self.now number) }
    {
        entries_are_slices();
        let mut sink = InMemory::new(self.alloc);
        match print_row(self.tables(), self.text(), &self.rows()[number], &mut sink) {
            Ok(()) => Ok(sink.bytes),
            Err(_) => Err(Memory),
        }
    }

    /// The caret at a place of the text, as `caret::at_place` answers.
    /// Cost: that of `at_place`.
    pub fn at_place(&self, place: usize) -> Caret
        requires { place ≤ length (chars self.now.text) }
        ensures caret { result ≡ caret_at self.now place }
        ensures within { IsCaretOf self.now.rows result }
    {
        rows_follow();
        first_places_rise();
        places_in_windows();
        at_place_among(self.rows(), place)
    }
}

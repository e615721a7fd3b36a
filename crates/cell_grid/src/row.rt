//! A row of a grid.

ghost use Rattle.std.specs.Prelude.{◌≡◌, ℕ, ◌^◌, ◌++◌, ◌<◌, ◌≤◌, length, replicate, slice_get, IfOk};
ghost use Rattle.std.specs.List.{All};
ghost use Rattle.cell_grid.specs.declared.cell.Cell.TheVariants.{Blank};
ghost use Rattle.cell_grid.specs.Cells.{entries_cells};
ghost use Rattle.cell_grid.specs.Pieces.{spans_of, levels_of, columns_of};
ghost use Rattle.cell_grid.specs.Rows.{row_with, shifted};
ghost use Rattle.cell_grid.specs.RunCounts.{run_count};
ghost use Rattle.cell_grid.specs.Runs.{runs_columns, runs_entries, IsInReach};
ghost use Rattle.cell_grid.specs.Separators.{separator_row};
ghost use Rattle.cell_grid.specs.Shifting.{MayShiftRow};
ghost use Rattle.cell_grid.specs.Spans.{extent};

use crate::cell::{Cell, Cells, cell_in};
use crate::cluster_run::ClusterRun;
use crate::column::{end_column, start_column};
use crate::entries::Entries;
use crate::entry::Entry;
use crate::laws_below::laws_below;
use crate::run_count::run_count;
use crate::runs::{entry_in, shift_runs};
use crate::stretch::Order;
use bg_types::Memory;
use paragraphs::Span;
use std::alloc::Global;
use std::marker::Model;

/// A row of a grid: a line with its entries from left to right. It stores them as runs of like clusters, and no cells: they
/// follow from the width, the column where the entries begin and the entries.
pub struct Row {
    width: u16,
    start: u16,
    first_place: u32,
    last_place: u32,
    para_level: u8,
    /// How many entries the runs have.
    count: u32,
    runs: Vec<ClusterRun>,
}

impl Model for Row {
    ghost use Rattle.cell_grid.specs.Cells.{cells_of};
    ghost use Rattle.cell_grid.specs.Rows.{DrawnRow};
    ghost use Rattle.cell_grid.specs.Runs.{runs_entries, AreKept};

    ghost Value = { DrawnRow };

    ghost view = { λ r. record {
      first_place = r.first_place;
      last_place = r.last_place;
      para_level = r.para_level;
      entries = runs_entries r.start r.runs.items;
      cells = cells_of r.width r.start (runs_entries r.start r.runs.items);
    } };

    ghost invariant = { λ r. AreKept r.width r.start r.count r.runs.items };
}

// Written out: a crate above then proves the call, and nothing of the parts.
impl Drop for Row {
    fn drop(self) {
        let Row {
            width: _,
            start: _,
            first_place: _,
            last_place: _,
            para_level: _,
            count: _,
            runs: _,
        } = self;
    }
}

impl Row {
    /// The row of a line of so many clusters that stands here in the text and has these pieces, in logical order.
    pub(crate) fn of_pieces(
        alloc: Global,
        width: u16,
        para_level: u8,
        whole: Span,
        count: u32,
        pieces: &[ClusterRun],
        order: &mut Order,
    ) -> Result<Row, Memory>
        requires whole { whole ≡ extent (spans_of pieces.now) }
        requires count { count ≡ length (spans_of pieces.now) }
        requires most { count ≤ 4_000_000 }
        requires reach { All IsInReach pieces.now }
        requires room { runs_columns pieces.now ≤ width }
        requires width { width ≤ 500 }
        ensures { IfOk result (λ row. row
            ≡ row_with width para_level (spans_of pieces.now) (levels_of pieces.now) (columns_of pieces.now)) }
    {
        laws_below();
        let start = start_column(width, para_level, end_column(pieces, 0));
        let runs = order.arranged(alloc, pieces)?;
        Ok(Row {
            width,
            start,
            first_place: whole.first_place,
            last_place: whole.end_place,
            para_level,
            count,
            runs,
        })
    }

    /// The row of a separator alone, of this many bytes, counted from its paragraph's start.
    pub(crate) fn of_separator(
        alloc: Global,
        width: u16,
        para_level: u8,
        bytes: u32,
    ) -> Result<Row, Memory>
        requires width { width ≤ 500 }
        requires few { bytes ≤ 4_000_000 }
        ensures { IfOk result (λ row. row ≡ separator_row width para_level bytes) }
    {
        let start = start_column(width, para_level, 0);
        let span = Span {
            first_byte: 0,
            end_byte: bytes,
            first_place: 0,
            end_place: 1,
        };
        let entry = Entry {
            span,
            column: start,
            level: para_level,
            columns: 0,
        };
        let run = ClusterRun::of(entry);
        Ok(Row {
            width,
            start,
            first_place: 0,
            last_place: 1,
            para_level,
            count: 1,
            runs: Vec::from_slice(alloc, &[run])?,
        })
    }

    /// A copy that stands this many bytes and places later. No number of it may pass 4,000,000.
    /// Cost: O(n) of its runs of like clusters, memory for them.
    pub fn shifted(&self, alloc: Global, bytes: u32, places: u32) -> Result<Row, Memory>
        requires { MayShiftRow bytes places self.now }
        ensures { IfOk result (λ row. row ≡ shifted bytes places self.now) }
    {
        let mut row = Row {
            width: self.width,
            start: self.start,
            first_place: self.first_place,
            last_place: self.last_place,
            para_level: self.para_level,
            count: self.count,
            runs: Vec::from_slice(alloc, &self.runs)?,
        };
        row.shift(bytes, places);
        Ok(row)
    }

    /// Moves the row this many bytes and places later.
    pub(crate) fn shift(&mut self, bytes: u32, places: u32)
        requires { MayShiftRow bytes places self.old }
        ensures { self.new ≡ shifted bytes places self.old }
    {
        self.first_place += places;
        self.last_place += places;
        shift_runs(&mut self.runs, bytes, places);
    }

    /// The place of its first code point. An empty row has its own place.
    #[inline]
    pub fn first_place(&self) -> usize
        ensures { result ≡ self.now.first_place }
    {
        self.first_place as usize
    }

    /// The place after its last code point, a separator included.
    #[inline]
    pub fn last_place(&self) -> usize
        ensures { result ≡ self.now.last_place }
    {
        self.last_place as usize
    }

    /// The level of its paragraph, 0 or 1.
    #[inline]
    pub fn para_level(&self) -> u8
        ensures { result ≡ self.now.para_level }
    {
        self.para_level
    }

    /// How many entries it has, one for each cluster of the line.
    #[inline]
    pub fn entry_count(&self) -> usize
        ensures count { result ≡ length self.now.entries }
        ensures most { result ≤ 4_000_000 }
    {
        self.count as usize
    }

    /// How many runs its entries make, each as long as it can be: of clusters that are alike in their level and in how many bytes,
    /// code points and columns they have, and follow each other in the text and in the row.
    /// Cost: O(n) of its runs of like clusters.
    pub fn run_count(&self) -> usize
        ensures count { result ≡ run_count self.now.entries }
        ensures most { result ≤ 4_000_000 }
    {
        run_count(&self.runs)
    }

    /// Its entries from left to right, one for each cluster of the line.
    /// Cost: O(1), and so is a step.
    #[inline]
    pub fn entries(&self) -> Entries<'_>
        ensures { result ≡ self.now.entries }
    {
        Entries::of(&self.runs, self.start)
    }

    /// The entry with this number, counted from 0 at the left; none behind the last.
    /// Cost: O(n) of its runs of like clusters.
    pub fn entry(&self, number: usize) -> Option<Entry>
        ensures { result ≡ slice_get self.now.entries number }
    {
        entry_in(&self.runs, self.start, number)
    }

    /// Its runs from left to right.
    #[inline]
    pub(crate) fn runs(&self) -> &[ClusterRun]
        ensures entries { (start : ℕ) × (runs_entries start result.now ≡ self.now.entries) }
        ensures columns { runs_columns result.now < 2 ^ 16 }
        ensures reach { All IsInReach result.now }
    {
        &self.runs
    }

    /// How many columns it has, each with a cell.
    #[inline]
    pub fn width(&self) -> u16
        ensures { result ≡ length self.now.cells }
    {
        self.width
    }

    /// Its cells from left to right, one for each column.
    /// Cost: O(n) of its runs of like clusters, and of all cells O(n) of its columns and entries.
    pub fn cells(&self) -> Cells<'_>
        ensures { result ≡ self.now.cells }
    {
        Cells::of(self)
    }

    /// The cell in a column, counted from 0 at the left edge; none after the right edge.
    /// Cost: O(n) of its runs of like clusters.
    pub fn cell(&self, column: usize) -> Option<Cell>
        ensures { result ≡ slice_get self.now.cells column }
    {
        let width = usize::from(self.width());
        if column < width {
            Some(cell_in(&self.runs, self.start, column))
        } else {
            None
        }
    }

    /// How many blanks stand left of the entries' cells, and how many right of them.
    pub(crate) fn blanks(&self) -> (u16, u16)
        ensures { self.now.cells
            ≡ replicate result.0 Blank ++ (entries_cells 0 self.now.entries ++ replicate result.1 Blank) }
    {
        let width = self.width;
        let end = end_column(&self.runs, self.start);
        (self.start, width - end)
    }
}

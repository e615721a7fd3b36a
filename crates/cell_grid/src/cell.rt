//! The cells of a row.

ghost use Rattle.std.specs.Prelude.{◌≡◌, ◌+◌, ◌^◌, ◌<◌, ◌≤◌, length};
ghost use Rattle.std.specs.Option.{MatchOption};
ghost use Rattle.cell_grid.specs.Cells.{IsSeenAt};
ghost use Rattle.cell_grid.specs.Coming.{HasColumns, NoneHasColumns};
ghost use Rattle.cell_grid.specs.Runs.{runs_columns, runs_entries};

use crate::cluster_run::ClusterRun;
use crate::entries::Entries;
use crate::row::Row;
use std::marker::Model;

/// A cell: blank, or the first (the head) or a further one (a tail) of the entry with this number,
/// which counts the row's entries from the left, from 0.
#[derive(Clone, Copy, Debug, PartialEq, Eq)]
pub enum Cell {
    Blank,
    Head(u32),
    Tail(u32),
}

/// The cell that is seen in a column, where these runs stand side by side from column `start` on.
pub(crate) fn cell_in(runs: &[ClusterRun], start: u16, column: usize) -> Cell
    requires fits { start + runs_columns runs.now < 2 ^ 16 }
    requires few { length (runs_entries start runs.now) ≤ 4_000_000 }
    ensures { IsSeenAt (runs_entries start runs.now) column result }
{
    let mut left = usize::from(start);
    if column < left {
        return Cell::Blank;
    }
    let mut number = 0usize;
    for run in runs {
        let end = left + run.all_columns() as usize;
        if column < end {
            let columns = usize::from(run.columns);
            let behind = column - left;
            let entry = number + behind / columns;
            if behind % columns == 0 {
                return Cell::Head(entry as u32);
            }
            return Cell::Tail(entry as u32);
        }
        left = end;
        number += run.count() as usize;
    }
    Cell::Blank
}

/// Iterates over the cells of a row, from left to right. Takes no memory.
#[derive(Drop)]
pub struct Cells<'a> {
    /// How many blanks stand before the entries.
    left: u16,
    /// How many tails are left of the entry before these.
    tails: u8,
    entries: Entries<'a>,
    /// The number of the first of them.
    number: u32,
    /// How many blanks stand behind them.
    right: u16,
}

impl<'a> Model for Cells<'a> {
    ghost use Rattle.std.specs.Prelude.{List};
    ghost use Rattle.cell_grid.specs.declared.cell.Cell.{Cell};
    ghost use Rattle.cell_grid.specs.Coming.{cells_left, AreComing};

    // The cells still to come.
    ghost Value = { List Cell };

    ghost view = { λ s. cells_left s.left s.tails s.number s.entries s.right };

    ghost invariant = { λ s. AreComing s.tails s.number s.entries };
}

impl<'a> Cells<'a> {
    /// All cells of a row.
    pub(crate) fn of(row: &'a Row) -> Cells<'a>
        ensures { result ≡ row.now.cells }
    {
        let (left, right) = row.blanks();
        // A row has no more entries than can be counted.
        let _count = row.entry_count();
        Cells {
            left,
            tails: 0,
            entries: row.entries(),
            number: 0,
            right,
        }
    }
}

impl<'a> Iterator for Cells<'a> {
    ghost use Rattle.std.specs.Iterator.{YieldsFirst, item_count};

    type Item = Cell;

    ghost next_gives = { YieldsFirst (λ left. left) };

    ghost remaining = { item_count (λ left. left) };

    fn next(&mut self) -> Option<Cell> {
        if self.left > 0 {
            self.left -= 1;
            return Some(Cell::Blank);
        }
        if self.tails > 0 {
            self.tails -= 1;
            return Some(Cell::Tail(self.number - 1));
        }
        if let Some((passed, columns)) = next_with_columns(&mut self.entries) {
            let number = self.number + passed;
            self.number = number + 1;
            self.tails = columns - 1;
            return Some(Cell::Head(number));
        }
        if self.right > 0 {
            self.right -= 1;
            return Some(Cell::Blank);
        }
        None
    }
}

/// How many columns the next entry has that has any, and how many entries stand before it.
fn next_with_columns(entries: &mut Entries) -> Option<(u32, u8)>
    requires { length entries.old ≤ 4_000_000 }
    ensures { MatchOption result (NoneHasColumns entries.old entries.new) (HasColumns entries.old entries.new) }
{
    let mut passed = 0u32;
    while let Some(entry) = entries.next() {
        if entry.columns > 0 {
            return Some((passed, entry.columns));
        }
        passed += 1;
    }
    None
}

//! The entries of a row, one after the other.

ghost use Rattle.std.specs.Prelude.{◌≡◌, ◌+◌, ◌^◌, ◌<◌};
ghost use Rattle.std.specs.List.{All};
ghost use Rattle.cell_grid.specs.Runs.{runs_columns, runs_entries, IsInReach};

use crate::cluster_run::ClusterRun;
use crate::entry::Entry;
use std::marker::Model;

/// Iterates over the entries of a row, from left to right, by steps of O(1). Takes no memory.
#[derive(Drop)]
pub struct Entries<'a> {
    /// The runs that are left.
    runs: &'a [ClusterRun],
    /// Where the first of them begins.
    column: u16,
    /// How many of its entries are passed.
    passed: u8,
}

impl<'a> Model for Entries<'a> {
    ghost use Rattle.std.specs.Prelude.{List, drop};
    ghost use Rattle.cell_grid.specs.declared.entry.Entry.{Entry};

    // The entries still to come.
    ghost Value = { List Entry };

    ghost use Rattle.cell_grid.specs.Runs.{runs_entries, AreLeft};

    ghost view = { λ s. drop s.passed (runs_entries s.column s.runs.now) };

    ghost invariant = { λ s. AreLeft s.column s.passed s.runs.now };
}

impl<'a> Entries<'a> {
    /// The entries of runs that begin at a column.
    #[inline]
    pub(crate) fn of(runs: &'a [ClusterRun], column: u16) -> Entries<'a>
        requires reach { All IsInReach runs.now }
        requires fits { column + runs_columns runs.now < 2 ^ 16 }
        ensures { result ≡ runs_entries column runs.now }
    {
        Entries {
            runs,
            column,
            passed: 0,
        }
    }
}

impl<'a> Iterator for Entries<'a> {
    ghost use Rattle.std.specs.Iterator.{YieldsFirst, item_count};

    type Item = Entry;

    ghost next_gives = { YieldsFirst (λ left. left) };

    ghost remaining = { item_count (λ left. left) };

    #[inline]
    fn next(&mut self) -> Option<Entry> {
        let runs = self.runs;
        if runs.is_empty() {
            return None;
        }
        let run = &runs[0];
        let entry = run.entry(self.column, self.passed);
        if self.passed < run.span.further {
            self.passed += 1;
            return Some(entry);
        }
        self.runs = runs.split_at(1).1;
        self.column += run.all_columns() as u16;
        self.passed = 0;
        Some(entry)
    }
}

//! Where clusters are read out of the runs.

ghost use Rattle.std.specs.Prelude.{◌≡◌, ◌+◌, ◌^◌, ◌<◌, ◌≤◌, length, take, MatchOption};
ghost use Rattle.line_break.specs.LineClusters.{line_clusters};

use crate::cluster::{Cluster, is_space};
use crate::run::ShapeRun;
use crate::status::Break;
use paragraphs::laws;
use unicode_tables::Tables;

/// A run of a paragraph, and the number of its first cluster, from which on clusters are read.
#[derive(Clone, Copy)]
pub(crate) struct Cursor {
    pub(crate) run: usize,
    pub(crate) first: u32,
}

impl Cursor {
    ghost use Rattle.line_break.specs.Cursors.{AreRunsOf, count_of, IsBefore, IsReadAt};

    /// The cluster of this number, if there is one, with any status after it. Those before it are passed.
    /// Cost: O(n) of the runs that are passed and of the cluster.
    pub(crate) fn read(
        &mut self,
        tables: &Tables,
        text: &str,
        runs: &[ShapeRun],
        number: u32,
    ) -> Option<Cluster>
        requires size { length text.now ≤ 4_000_000 }
        requires runs { AreRunsOf tables.now text.now runs.now }
        requires before { IsBefore runs.now self.old number }
        ensures before { IsBefore runs.now self.new number }
        ensures read { MatchOption result (length (line_clusters tables.now text.now) ≤ number)
            (λ c. IsReadAt (line_clusters tables.now text.now) number c) }
    {
        laws::clusters_join();
        self.seek(runs, number);
        if self.run == runs.len() {
            return None;
        }
        let run = runs[self.run];
        let first = run.first_byte + (number - self.first) * run.bytes;
        let cluster = &text[first as usize..(first + run.bytes) as usize];
        Some(Cluster {
            columns: run.columns,
            is_space: is_space(tables, cluster),
            after: Break::No,
        })
    }

    /// Goes to the run that has the cluster of this number, or behind the last one.
    fn seek(&mut self, runs: &[ShapeRun], number: u32)
        requires few { count_of runs.now < 2 ^ 32 }
        requires before { IsBefore runs.now self.old number }
        ensures before { IsBefore runs.now self.new number }
        ensures here { self.new.run < length runs.now → number < count_of (take (self.new.run + 1) runs.now) }
    {
        while self.run < runs.len() {
            let end = self.first + runs[self.run].count;
            if number < end {
                return;
            }
            self.first = end;
            self.run += 1;
        }
    }
}

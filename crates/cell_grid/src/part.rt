//! A paragraph's runs, read one line after the other.

ghost use Rattle.std.specs.Prelude.{◌≡◌, ◌<◌, ◌≤◌, length, take};
ghost use Rattle.std.specs.List.{All};
ghost use Rattle.line_break.specs.Runs.{AllHaveSome};
ghost use Rattle.cell_grid.specs.Parts.{behind, all_spans, IsWithin, left_of, ArePassed};
ghost use Rattle.cell_grid.specs.Spans.{extent};

use line_break::ShapeRun;
use paragraphs::Span;

/// How far a paragraph's runs are read.
#[derive(Clone, Copy)]
pub(crate) struct Cursor {
    /// What is left of the run that is read.
    pub(crate) first: ShapeRun,
    /// The number of the run behind it.
    pub(crate) next: usize,
}

/// A run without so many of its first clusters.
#[inline]
pub(crate) fn behind(count: u32, run: ShapeRun) -> ShapeRun
    requires count { count ≤ run.count }
    requires within { IsWithin run }
    ensures { result ≡ behind count run }
{
    ShapeRun {
        first_byte: run.first_byte + count * run.bytes,
        first_place: run.first_place + count * run.points,
        count: run.count - count,
        ..run
    }
}

impl Cursor {
    /// Before the first run.
    pub(crate) fn start() -> Cursor
        ensures first { result.first.count ≡ 0 }
        ensures next { result.next ≡ 0 }
        ensures within { IsWithin result.first }
    {
        let first = ShapeRun {
            first_byte: 0,
            first_place: 0,
            count: 0,
            bytes: 1,
            points: 1,
            columns: 0,
        };
        Cursor { first, next: 0 }
    }

    /// Passes what is left of the run that is read, where clusters are left behind it.
    #[inline]
    fn go_on(&mut self, runs: &[ShapeRun])
        requires more { self.old.first.count < length (all_spans (left_of runs.now self.old)) }
        requires runs { AllHaveSome runs.now }
        ensures first { 0 < self.new.first.count }
        ensures passed { ArePassed self.old.first.count (left_of runs.now self.old) (left_of runs.now self.new) }
        ensures within { All IsWithin (left_of runs.now self.old) → All IsWithin (left_of runs.now self.new) }
    {
        self.first = runs[self.next];
        self.next += 1;
    }

    /// Goes on to the next run where nothing is left of the one that is read.
    #[inline]
    pub(crate) fn begin(&mut self, runs: &[ShapeRun])
        requires left { 0 < length (all_spans (left_of runs.now self.old)) }
        requires runs { AllHaveSome runs.now }
        ensures first { 0 < self.new.first.count }
        ensures same { ArePassed 0 (left_of runs.now self.old) (left_of runs.now self.new) }
        ensures within { All IsWithin (left_of runs.now self.old) → All IsWithin (left_of runs.now self.new) }
    {
        if self.first.count == 0 {
            self.go_on(runs);
        }
    }

    /// Where the next so many clusters stand, from the first to the last. If there are none, the paragraph's start.
    pub(crate) fn extent(self, runs: &[ShapeRun], clusters: u32) -> Span
        requires clusters { clusters ≤ length (all_spans (left_of runs.now self)) }
        requires runs { AllHaveSome runs.now }
        requires within { All IsWithin (left_of runs.now self) }
        ensures { result ≡ extent (take clusters (all_spans (left_of runs.now self))) }
    {
        if clusters == 0 {
            return Span {
                first_byte: 0,
                end_byte: 0,
                first_place: 0,
                end_place: 0,
            };
        }
        let mut reader = self;
        reader.begin(runs);
        let first = reader.first;
        let mut left = clusters;
        while left > reader.first.count {
            left -= reader.first.count;
            reader.go_on(runs);
        }
        let last = reader.first;
        let end_byte = last.first_byte + left * last.bytes;
        let end_place = last.first_place + left * last.points;
        Span {
            first_byte: first.first_byte,
            end_byte,
            first_place: first.first_place,
            end_place,
        }
    }
}

//! Clusters of a row that are alike and follow each other.

ghost use Rattle.std.specs.Prelude.{◌≡◌, ◌+◌, ◌^◌, ◌<◌, ◌≤◌, [], ◌∷◌};
ghost use Rattle.cell_grid.specs.KeptSpans.{IsShort};
ghost use Rattle.cell_grid.specs.Runs.{run_span, span_after, cluster_count, cluster_from_left, run_entry, run_entries, run_columns, IsInReach};

use crate::entry::Entry;
use crate::kept_span::KeptSpan;
use crate::span::span_after;
use paragraphs::Span;
use std::mem::size_of;

/// Clusters that follow each other in the text and stand side by side in a row, alike in their level and in how many bytes,
/// code points and columns they have. At an even level they stand from left to right in the order of the text, at an odd
/// one in the opposite order.
#[derive(Clone, Copy)]
pub(crate) struct ClusterRun {
    /// Where the first of them in the text stands, and how many more there are.
    pub(crate) span: KeptSpan,
    pub(crate) level: u8,
    /// How many columns each has.
    pub(crate) columns: u8,
}

// Less than an `Entry` has, so that no row keeps more than it would with one for each cluster.
const _: () = prove!(size_of::<ClusterRun>() <= 14);

impl ClusterRun {
    /// One cluster.
    #[inline]
    pub(crate) fn of(entry: Entry) -> ClusterRun
        requires { IsShort entry.span }
        ensures entries { run_entries entry.column result ≡ entry ∷ [] }
        ensures columns { run_columns result ≡ entry.columns }
        ensures reach { IsInReach result }
    {
        let span = KeptSpan::of(entry.span, 0);
        ClusterRun {
            span,
            level: entry.level,
            columns: entry.columns,
        }
    }

    /// How many clusters it has.
    #[inline]
    pub(crate) fn count(&self) -> u32
        ensures number { result ≡ cluster_count self.now }
        ensures most { result ≤ 256 }
    {
        u32::from(self.span.further) + 1
    }

    /// The columns of all of them.
    #[inline]
    pub(crate) fn all_columns(&self) -> u32
        ensures { result ≡ run_columns self.now }
    {
        let columns = u32::from(self.columns);
        let count = u32::from(self.span.further) + 1;
        count * columns
    }

    /// Where the cluster behind so many of them in the text stands.
    #[inline]
    pub(crate) fn cluster(&self, number: u8) -> Span
        requires within { number ≤ self.now.span.further }
        requires reach { IsInReach self.now }
        ensures { result ≡ span_after number (run_span self.now) }
    {
        span_after(number, self.span.read())
    }

    /// Where the last of them in the text ends.
    #[inline]
    pub(crate) fn end_byte(&self) -> u32
        requires { IsInReach self.now }
        ensures { result ≡ (span_after self.now.span.further (run_span self.now)).end_byte }
    {
        let first = self.span.read();
        let bytes = first.end_byte - first.first_byte;
        first.first_byte + self.count() * bytes
    }

    /// Which cluster, in the order of the text, stands behind so many from the left.
    #[inline]
    pub(crate) fn cluster_from_left(&self, number: u8) -> u8
        requires { number ≤ self.now.span.further }
        ensures which { result ≡ cluster_from_left self.now number }
        ensures within { result ≤ self.now.span.further }
    {
        if self.level % 2 == 1 {
            self.span.further - number
        } else {
            number
        }
    }

    /// The entry with this number, from the left, where the run begins at a column.
    #[inline]
    pub(crate) fn entry(&self, column: u16, number: u8) -> Entry
        requires within { number ≤ self.now.span.further }
        requires reach { IsInReach self.now }
        requires fits { column + run_columns self.now < 2 ^ 16 }
        ensures { result ≡ run_entry column self.now number }
    {
        let cluster = self.cluster_from_left(number);
        let span = self.cluster(cluster);
        let before = u16::from(number) * u16::from(self.columns);
        let column = column + before;
        Entry {
            span,
            column,
            level: self.level,
            columns: self.columns,
        }
    }
}

//! The open line, while opportunities are read in order.

ghost use Rattle.std.specs.Prelude.{◌≡◌, ◌<◌, ◌≤◌, ◌∷◌, [], length, MatchOption};
ghost use Rattle.line_break.specs.Cursors.{AreRunsOf, IsBefore};
ghost use Rattle.line_break.specs.LineClusters.{line_clusters};
ghost use Rattle.line_break.specs.Open.{IsBoundary, IsLastFitting};

use crate::cursor::Cursor;
use crate::line::Line;
use crate::opportunity::Boundary;
use crate::outline::Outline;
use crate::run::ShapeRun;
use paragraphs::laws;
use unicode_tables::Tables;

/// The open line, up to the last opportunity that was read.
#[derive(Clone, Copy)]
pub(crate) struct Open {
    /// Where the line starts.
    pub(crate) start: Boundary,
    /// The last opportunity that was read, or the start where that lies behind it.
    pub(crate) reached: Boundary,
    /// The number of the next opportunity.
    pub(crate) next: usize,
}

impl Open {
    ghost use Rattle.line_break.specs.Open.{IsOpen, lines_left};

    /// Reads opportunities until a line ends, and gives it. Clusters are read only of a line that
    /// doesn't fit up to the first opportunity in it, and of such a line once.
    pub(crate) fn next_line(
        &mut self,
        cursor: &mut Cursor,
        tables: &Tables,
        text: &str,
        outline: &Outline,
        width: u32,
    ) -> Option<Line>
        requires size { length text.now ≤ 4_000_000 }
        requires width { 2 ≤ width }
        requires runs { AreRunsOf tables.now text.now outline.now.runs.items }
        requires state { IsOpen (line_clusters tables.now text.now) outline.now.opportunities.items width self.old }
        requires cursor { IsBefore outline.now.runs.items cursor.old self.old.start.clusters }
        ensures state { IsOpen (line_clusters tables.now text.now) outline.now.opportunities.items width self.new }
        ensures cursor { IsBefore outline.now.runs.items cursor.new self.new.start.clusters }
        ensures lines { MatchOption result (lines_left (line_clusters tables.now text.now) width self.old.start.clusters ≡ [])
            (λ line. lines_left (line_clusters tables.now text.now) width self.old.start.clusters
            ≡ line ∷ lines_left (line_clusters tables.now text.now) width self.new.start.clusters) }
    {
        let opportunities = &outline.opportunities[..];
        while self.next < opportunities.len() {
            let opportunity = opportunities[self.next];
            if !opportunity.boundary.fits(self.start, width) {
                let end = self.end_before(cursor, tables, text, &outline.runs, width);
                return Some(self.cut(end));
            }
            self.reached = opportunity.boundary;
            self.next += 1;
            if opportunity.must {
                return Some(self.cut(self.reached));
            }
        }
        if self.start.clusters < self.reached.clusters {
            Some(self.cut(self.reached))
        } else {
            None
        }
    }

    /// Where the line ends that doesn't fit up to the next opportunity: at the last one, or where it
    /// is full.
    fn end_before(
        self,
        cursor: &mut Cursor,
        tables: &Tables,
        text: &str,
        runs: &[ShapeRun],
        width: u32,
    ) -> Boundary
        requires size { length text.now ≤ 4_000_000 }
        requires runs { AreRunsOf tables.now text.now runs.now }
        requires start { IsBoundary (line_clusters tables.now text.now) self.start }
        requires order { self.start.clusters ≤ self.reached.clusters }
        requires cursor { IsBefore runs.now cursor.old self.start.clusters }
        ensures cursor { IsBefore runs.now cursor.new result.clusters }
        ensures last { self.start.clusters < self.reached.clusters → result ≡ self.reached }
        ensures full { self.reached.clusters ≤ self.start.clusters → IsLastFitting (line_clusters tables.now text.now) width self.start result }
    {
        if self.reached.clusters <= self.start.clusters {
            last_fitting(cursor, tables, text, runs, self.start, width)
        } else {
            self.reached
        }
    }

    /// Ends the line there, and opens the next one.
    fn cut(&mut self, end: Boundary) -> Line
        ensures line { result ≡ record { start = self.old.start.clusters; end = end.clusters } }
        ensures state { self.new ≡ record self.old { start = end; reached = end } }
    {
        let line = Line {
            start: self.start.clusters as usize,
            end: end.clusters as usize,
        };
        self.start = end;
        self.reached = end;
        line
    }
}

/// The last boundary up to which a line that starts there fits.
/// Cost: O(n) of the clusters up to it.
fn last_fitting(
    cursor: &mut Cursor,
    tables: &Tables,
    text: &str,
    runs: &[ShapeRun],
    start: Boundary,
    width: u32,
) -> Boundary
    requires size { length text.now ≤ 4_000_000 }
    requires runs { AreRunsOf tables.now text.now runs.now }
    requires start { IsBoundary (line_clusters tables.now text.now) start }
    requires cursor { IsBefore runs.now cursor.old start.clusters }
    ensures cursor { IsBefore runs.now cursor.new result.clusters }
    ensures last { IsLastFitting (line_clusters tables.now text.now) width start result }
{
    laws::clusters_join();
    let mut end = start;
    while let Some(cluster) = cursor.read(tables, text, runs, end.clusters) {
        let next = end.behind(&cluster);
        if !next.fits(start, width) {
            return end;
        }
        end = next;
    }
    end
}

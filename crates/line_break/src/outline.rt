//! The clusters of a paragraph.

ghost use Rattle.std.specs.Prelude.{◌≡◌, ◌+◌, ◌++◌, ◌^◌, ◌<◌, ◌≤◌, [], length, map, true, OnOk};
ghost use Rattle.std.specs.List.{flat_map};
ghost use Rattle.unicode_tables.specs.Word.{word_of};
ghost use Rattle.paragraphs.specs.Text.{code_points};
ghost use Rattle.paragraphs.specs.Clusters.{cluster_sizes};
ghost use Rattle.paragraphs.specs.Spans.{spans};
ghost use Rattle.line_break.specs.LineClusters.{line_clusters};
ghost use Rattle.line_break.specs.Opportunities.{opportunities_of};
ghost use Rattle.line_break.specs.Runs.{AllHaveSome, AreJoined, EndsAt, are_longest, columns_of, if_some, sizes_of, spans_of};

use crate::cluster::Cluster;
use crate::measure::Measure;
use crate::opportunity::{Boundary, Opportunity};
use crate::reached::Reached;
use crate::run::ShapeRun;
use crate::status::{Break, statuses_into};
use bg_types::Memory;
use paragraphs::{Para, laws};
use std::alloc::Global;
use unicode_tables::{Tables, Word};

/// The clusters of a paragraph, in order, and the boundaries between them at which a line may end.
#[derive(Drop)]
pub struct Outline {
    /// Those of one shape, as far as they follow each other.
    pub runs: Vec<ShapeRun>,
    /// Where a line may end.
    pub opportunities: Vec<Opportunity>,
}

impl Outline {
    /// The outline of no clusters. Takes no memory.
    pub fn new(alloc: Global) -> Outline
        ensures runs { result.runs.items ≡ [] }
        ensures opportunities { result.opportunities.items ≡ [] }
    {
        Outline {
            runs: Vec::new(alloc),
            opportunities: Vec::new(alloc),
        }
    }

    /// Empties it, and makes room for what most texts have of so many clusters: three of them a run, and four between
    /// opportunities.
    fn begin(&mut self, clusters: usize) -> Result<(), Memory>
        ensures runs { OnOk result (self.new.runs.items ≡ []) }
        ensures opportunities { OnOk result (self.new.opportunities.items ≡ []) }
    {
        self.runs.clear();
        self.opportunities.clear();
        self.runs.reserve(clusters / 3)?;
        self.opportunities.reserve(clusters / 4)?;
        Ok(())
    }
}

/// Appends a run, where it has clusters.
#[inline]
fn close(runs: &mut Vec<ShapeRun>, run: ShapeRun) -> Result<(), Memory>
    ensures { OnOk result (runs.new.items ≡ runs.old.items ++ if_some run) }
{
    if run.count == 0 {
        return Ok(());
    }
    // Put together anew: a copy takes along what lies between the fields.
    runs.push(ShapeRun {
        first_byte: run.first_byte,
        first_place: run.first_place,
        count: run.count,
        bytes: run.bytes,
        points: run.points,
        columns: run.columns,
    })?;
    Ok(())
}

/// Puts a cluster behind runs of which the last one may go on: that one does, or the cluster is a run
/// of its own. Before the first cluster the last one is empty.
#[inline]
pub(crate) fn join(
    runs: &mut Vec<ShapeRun>,
    last: &mut ShapeRun,
    next: ShapeRun,
) -> Result<(), Memory>
    requires last { EndsAt last.old next.first_byte next.first_place }
    requires first { last.old.count ≡ 0 → runs.old.items ≡ [] }
    requires one { next.count ≡ 1 }
    requires some { 0 < next.points }
    requires few { next.first_place + 1 < 2 ^ 32 }
    ensures runs { OnOk result (AreJoined (runs.old.items ++ if_some last.old) next (runs.new.items ++ if_some last.new)) }
    ensures some { OnOk result (0 < last.new.count) }
    ensures end { OnOk result (EndsAt last.new (next.first_byte + next.bytes) (next.first_place + next.points)) }
{
    if last.goes_on(next) {
        last.lengthen();
        return Ok(());
    }
    close(runs, *last)?;
    // Field by field for the same reason.
    last.first_byte = next.first_byte;
    last.first_place = next.first_place;
    last.count = next.count;
    last.bytes = next.bytes;
    last.points = next.points;
    last.columns = next.columns;
    Ok(())
}

/// Puts the clusters of a paragraph of at most 4,000,000 bytes, which has these code points with
/// these words, into an outline, in place of what it has. The paragraph is cut into clusters once, and
/// each is measured once. `statuses` is a list to work in, whatever it has. It is compiled apart, where
/// its loop has the registers to itself.
/// Cost: O(n), memory for the clusters.
#[inline(never)]
pub fn outline_into(
    outline: &mut Outline,
    statuses: &mut Vec<Break>,
    tables: &Tables,
    para: &Para,
    points: &[char],
    words: &[Word],
) -> Result<(), Memory>
    requires size { length para.now.text ≤ 4_000_000 }
    requires points { points.now ≡ code_points para.now.text }
    requires words { words.now ≡ map (word_of tables.now) points.now }
    ensures spans { OnOk result (flat_map spans_of outline.new.runs.items ≡ spans para.now.text) }
    ensures sizes { OnOk result (flat_map sizes_of outline.new.runs.items ≡ cluster_sizes para.now.text) }
    ensures columns { OnOk result (flat_map columns_of outline.new.runs.items ≡ map (λ c. c.columns) (line_clusters tables.now para.now.text)) }
    ensures some { OnOk result (AllHaveSome outline.new.runs.items) }
    ensures longest { OnOk result (are_longest outline.new.runs.items ≡ true) }
    ensures opportunities { OnOk result (outline.new.opportunities.items ≡ opportunities_of (line_clusters tables.now para.now.text)) }
{
    laws::clusters_join();
    laws::cluster_places();
    statuses_into(statuses, words)?;
    // No paragraph has more clusters than code points.
    outline.begin(points.len())?;
    let mut clusters = para.clusters();
    let mut reached = Reached {
        last: ShapeRun::empty(),
        end: Boundary::before_all(),
        byte: 0,
        place: 0,
    };
    let mut measure = Measure {
        size: 0,
        columns: 0,
        is_space: false,
    };
    while let Some(bytes) = measure.read_next(
        tables,
        &mut clusters,
        &points[reached.place as usize..],
        &words[reached.place as usize..],
    ) {
        let cluster = Cluster {
            columns: measure.columns,
            is_space: measure.is_space,
            after: statuses[(reached.place + measure.size) as usize - 1],
        };
        reached.put(outline, bytes as u32, measure.size, &cluster)?;
        reached.put_plain(outline, &mut clusters, tables, points, words, statuses)?;
    }
    close(&mut outline.runs, reached.last)?;
    Ok(())
}

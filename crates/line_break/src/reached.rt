//! How far the clusters of a paragraph are outlined.

ghost use Rattle.std.specs.Prelude.{◌≡◌, ℕ, ◌+◌, ◌++◌, ◌^◌, ◌<◌, ◌≤◌, true, [], List, length, map, slice_index, encode_utf8_all, OnOk};
ghost use Rattle.unicode_tables.specs.Word.{word_of};
ghost use Rattle.unicode_tables.specs.declared.word.Word.{Word};
ghost use Rattle.paragraphs.specs.Clusters.{is_plain};
ghost use Rattle.paragraphs.specs.Text.{code_points};
ghost use Rattle.line_break.specs.Opportunities.{behind, offered};
ghost use Rattle.line_break.specs.Reached.{IsAt, span_ahead};
ghost use Rattle.line_break.specs.Runs.{AreJoined, EndsAt, alone, if_some};
ghost use Rattle.line_break.specs.Statuses.{breaks};

use crate::cluster::Cluster;
use crate::opportunity::{Boundary, offer};
use crate::outline::{Outline, join};
use crate::run::ShapeRun;
use crate::status::Break;
use bg_types::Memory;
use paragraphs::{Clusters, Span, columns_of_one};
use unicode_tables::{Tables, Word};

/// The clusters that are outlined so far, by what stands at their end.
#[derive(Clone, Copy)]
pub(crate) struct Reached {
    /// The last run, which may go on in the next cluster.
    pub(crate) last: ShapeRun,
    /// The boundary behind them.
    pub(crate) end: Boundary,
    /// How many bytes they have.
    pub(crate) byte: u32,
    /// How many code points they have.
    pub(crate) place: u32,
}

impl Reached {
    /// Puts the next cluster, of so many bytes and code points, behind those of an outline.
    #[inline]
    pub(crate) fn put(
        &mut self,
        outline: &mut Outline,
        bytes: u32,
        points: u32,
        cluster: &Cluster,
    ) -> Result<(), Memory>
        requires last { EndsAt self.old.last self.old.byte self.old.place }
        requires first { self.old.last.count ≡ 0 → outline.old.runs.items ≡ [] }
        requires some { 0 < points }
        requires bytes { self.old.byte + bytes < 2 ^ 32 }
        requires points { self.old.place + points < 2 ^ 32 }
        requires clusters { self.old.end.clusters + 1 < 2 ^ 32 }
        requires columns { self.old.end.columns + cluster.now.columns < 2 ^ 32 }
        ensures runs { OnOk result (AreJoined (outline.old.runs.items ++ if_some self.old.last)
            (alone (span_ahead self.old bytes points) cluster.now.columns) (outline.new.runs.items ++ if_some self.new.last)) }
        ensures some { OnOk result (0 < self.new.last.count) }
        ensures last { OnOk result (EndsAt self.new.last self.new.byte self.new.place) }
        ensures end { OnOk result (self.new.end ≡ behind self.old.end cluster.now) }
        ensures opportunities { OnOk result (outline.new.opportunities.items ≡ outline.old.opportunities.items ++ offered self.new.end cluster.now.after) }
        ensures byte { OnOk result (self.new.byte ≡ self.old.byte + bytes) }
        ensures place { OnOk result (self.new.place ≡ self.old.place + points) }
    {
        let span = Span {
            first_byte: self.byte,
            end_byte: self.byte + bytes,
            first_place: self.place,
            end_place: self.place + points,
        };
        let next = ShapeRun::of_one(span, cluster.columns);
        join(&mut outline.runs, &mut self.last, next)?;
        self.end = self.end.behind(cluster);
        offer(&mut outline.opportunities, self.end, cluster.after)?;
        self.byte = span.end_byte;
        self.place = span.end_place;
        Ok(())
    }

    /// Puts the clusters from there on that are plain characters before plain ones, as far as they
    /// follow each other, where it is worth the call: behind one code point, and where there are two at
    /// least.
    /// Cost: O(n) of them.
    #[inline]
    pub(crate) fn put_plain(
        &mut self,
        outline: &mut Outline,
        clusters: &mut Clusters,
        tables: &Tables,
        points: &[char],
        words: &[Word],
        statuses: &[Break],
    ) -> Result<(), Memory>
        requires size { length (encode_utf8_all points.now) ≤ 4_000_000 }
        requires points { points.now ≡ code_points (encode_utf8_all points.now) }
        requires words { words.now ≡ map (word_of tables.now) points.now }
        requires statuses { statuses.now ≡ breaks tables.now (encode_utf8_all points.now) }
        requires at { IsAt tables.now (encode_utf8_all points.now) clusters.old outline.old.runs.items outline.old.opportunities.items self.old }
        ensures at { OnOk result (IsAt tables.now (encode_utf8_all points.now) clusters.new outline.new.runs.items outline.new.opportunities.items self.new) }
        ensures on { OnOk result (self.old.place ≤ self.new.place) }
    {
        if self.last.points == 1 && begins_plain(words, self.place as usize) {
            return self.put_plain_ones(outline, clusters, tables, points, words, statuses);
        }
        Ok(())
    }

    /// Puts them, where the next one is plain. It is apart, and works on what is its own: the loop
    /// over all clusters has more at hand than there are registers.
    #[inline(never)]
    fn put_plain_ones(
        &mut self,
        outline: &mut Outline,
        clusters: &mut Clusters,
        tables: &Tables,
        points: &[char],
        words: &[Word],
        statuses: &[Break],
    ) -> Result<(), Memory>
        requires size { length (encode_utf8_all points.now) ≤ 4_000_000 }
        requires points { points.now ≡ code_points (encode_utf8_all points.now) }
        requires words { words.now ≡ map (word_of tables.now) points.now }
        requires statuses { statuses.now ≡ breaks tables.now (encode_utf8_all points.now) }
        requires at { IsAt tables.now (encode_utf8_all points.now) clusters.old outline.old.runs.items outline.old.opportunities.items self.old }
        requires plain { is_plain (slice_index points.now self.old.place) ≡ true }
        ensures at { OnOk result (IsAt tables.now (encode_utf8_all points.now) clusters.new outline.new.runs.items outline.new.opportunities.items self.new) }
        ensures on { OnOk result (self.old.place ≤ self.new.place) }
    {
        let mut reached = *self;
        let mut left = clusters.again();
        while is_plain_at(words, reached.place as usize + 1) {
            let place = reached.place as usize;
            let c = points[place];
            let word = &words[place];
            let bytes = left.next_plain(&points[place..]);
            let cluster = Cluster {
                columns: columns_of_one(tables, word, c),
                is_space: word.is_space,
                after: statuses[place],
            };
            reached.put(outline, bytes as u32, 1, &cluster)?;
        }
        *clusters = left;
        *self = reached;
        Ok(())
    }
}

/// Whether the three words from a place on are those of plain characters.
#[inline]
fn begins_plain(words: &[Word], place: usize) -> bool
    requires { place < 2 ^ 32 }
    ensures { result ≡ true → (points : List ℕ) → map (λ (w : Word). w.is_plain) words.now ≡ map is_plain points → is_plain (slice_index points place) ≡ true }
{
    // After most clusters a mark is the first to end it.
    place + 2 < words.len()
        && words[place + 1].is_plain
        && words[place + 2].is_plain
        && is_plain_at(words, place)
}

/// Whether the word at a place is that of a plain character.
#[inline]
fn is_plain_at(words: &[Word], place: usize) -> bool
    ensures { result ≡ true → (points : List ℕ) → map (λ (w : Word). w.is_plain) words.now ≡ map is_plain points → is_plain (slice_index points place) ≡ true }
{
    match words.get(place) {
        Some(word) => word.is_plain,
        None => false,
    }
}

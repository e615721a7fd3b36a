//! What is read of a cluster by itself.

ghost use Rattle.std.specs.Prelude.{◌≡◌, ◌+◌, ◌<◌, ◌^◌, [], length, map, IfSome, MatchOption};
ghost use Rattle.std.specs.List.{All, concat};
ghost use Rattle.unicode_tables.specs.Word.{word_of};
ghost use Rattle.paragraphs.specs.Text.{code_points};

use crate::cluster::is_space;
use paragraphs::{Clusters, columns, columns_of_marked, columns_of_one};
use unicode_tables::{Tables, Word};

/// How many code points a cluster has, its columns, and whether it has only spaces.
#[derive(Clone, Copy)]
pub(crate) struct Measure {
    pub(crate) size: u32,
    pub(crate) columns: u8,
    pub(crate) is_space: bool,
}

impl Measure {
    ghost use Rattle.line_break.specs.Measures.{IsNext};

    /// Takes the next cluster, if there is one, measures it, and gives how many bytes it has. `points`
    /// are the code points still to come, and `words` are theirs. A measure is read in place: one that is handed out would be
    /// packed into a register and unpacked again.
    #[inline]
    pub(crate) fn read_next(
        &mut self,
        tables: &Tables,
        clusters: &mut Clusters,
        points: &[char],
        words: &[Word],
    ) -> Option<usize>
        requires some { All (λ cluster. 0 < length cluster) clusters.old }
        requires few { length (concat clusters.old) < 2 ^ 32 }
        requires points { points.now ≡ code_points (concat clusters.old) }
        requires words { words.now ≡ map (word_of tables.now) points.now }
        ensures next { MatchOption result (clusters.old ≡ []) (λ _. IsNext tables.now self.new clusters.old clusters.new) }
        ensures bytes { IfSome result (λ bytes. bytes + length (concat clusters.new) ≡ length (concat clusters.old)) }
    {
        let left = clusters.bytes_left();
        if let Some(c) = clusters.next_alone(points, words) {
            let word = &words[0];
            self.size = 1;
            self.columns = columns_of_one(tables, word, c);
            self.is_space = word.is_space;
            return Some(left - clusters.bytes_left());
        }
        if let Some(size) = clusters.next_marked(points, words) {
            let own = &words[..size];
            self.size = size as u32;
            self.columns = columns_of_marked(tables, &points[..size], own);
            self.is_space = own.iter().all(|word| word.is_space);
            return Some(left - clusters.bytes_left());
        }
        let cluster = clusters.next()?;
        self.size = cluster.chars().count() as u32;
        self.columns = columns(tables, cluster);
        self.is_space = is_space(tables, cluster);
        Some(left - clusters.bytes_left())
    }
}

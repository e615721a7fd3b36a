//! The clusters of a text (UAX #29).

ghost use Rattle.std.specs.Prelude.{◌≡◌, ℕ, ◌-◌, ◌<◌, ◌≤◌, true, false, map, List, [], ◌∷◌, length, slice_index, take, drop, encode_utf8, encode_utf8_all, IfSome, MatchOption};
ghost use Rattle.std.specs.Char.{len_utf8};
ghost use Rattle.std.specs.List.{concat, list_any};
ghost use Rattle.paragraphs.specs.Text.{code_points};
ghost use Rattle.unicode_tables.specs.declared.word.Word.{Word};
ghost use Rattle.paragraphs.specs.Clusters.{clusters, is_plain};
ghost use Rattle.paragraphs.specs.Classes.{is_wide};
ghost use Rattle.paragraphs.specs.Marked.{is_mark};

use std::marker::Model;
use unicode_segmentation::UnicodeSegmentation;
use unicode_tables::{Word, is_wide};

/// How many bytes each mark of `is_mark` has.
const MARK_LEN: usize = 2;

/// Iterates over clusters, each as a slice of the text. Takes no memory.
#[derive(Debug, Drop)]
pub struct Clusters<'a> {
    text: &'a str,
    /// Where in it the next cluster begins.
    byte: usize,
}

impl<'a> Model for Clusters<'a> {
    ghost use Rattle.std.specs.Prelude.{List, ℕ, drop};
    ghost use Rattle.std.specs.Str.{IsCharBoundary};
    ghost use Rattle.paragraphs.specs.Clusters.{clusters};

    // The clusters still to come, each as its bytes.
    ghost Value = { List (List ℕ) };

    ghost view = { λ s. clusters (drop s.byte s.text.now) };

    ghost invariant = { λ s. IsCharBoundary s.text.now s.byte };
}

impl<'a> Clusters<'a> {
    /// The clusters of a text.
    #[inline]
    pub(crate) fn of(text: &'a str) -> Clusters<'a>
        ensures { result ≡ clusters text.now }
    {
        Clusters { text, byte: 0 }
    }

    /// How many bytes the clusters still to come have.
    #[inline]
    pub fn bytes_left(&self) -> usize
        ensures { result ≡ length (concat self.now) }
    {
        let rest = &self.text[self.byte..];
        rest.len()
    }

    /// Takes the next cluster where it is seen at once that it is a single character, and gives
    /// this character. `points` are the code points still to come, and `words` are theirs.
    #[inline]
    pub fn next_alone(&mut self, points: &[char], words: &[Word]) -> Option<char>
        requires points { points.now ≡ code_points (concat self.old) }
        requires words { map (λ (w : Word). w.is_plain) words.now ≡ map is_plain points.now }
        ensures taken { MatchOption result (self.new ≡ self.old) (λ c. self.old ≡ encode_utf8 c ∷ self.new) }
        ensures first { IfSome result (λ c. points.now ≡ c ∷ drop 1 points.now) }
    {
        // What is left is a text.
        let _rest = &self.text[self.byte..];
        let c = *points.first()?;
        // A plain character stands alone before a plain one (GB999), and any at the end (GB2).
        if points.len() > 1 && !(words[0].is_plain && words[1].is_plain) {
            return None;
        }
        self.byte += c.len_utf8();
        Some(c)
    }

    /// A copy, whose clusters are taken by themselves.
    #[inline]
    pub fn again(&self) -> Clusters<'a>
        ensures { result ≡ self.now }
    {
        Clusters {
            text: self.text,
            byte: self.byte,
        }
    }

    /// Takes the next cluster, a plain character that a plain one follows (GB999), and gives how many
    /// bytes it has. `points` are the code points still to come.
    #[inline]
    pub fn next_plain(&mut self, points: &[char]) -> usize
        requires points { points.now ≡ code_points (concat self.old) }
        requires plain { is_plain (slice_index points.now 0) ≡ true }
        requires next { is_plain (slice_index points.now 1) ≡ true }
        ensures taken { self.old ≡ encode_utf8 (slice_index points.now 0) ∷ self.new }
        ensures bytes { result ≡ len_utf8 (slice_index points.now 0) }
    {
        // What is left is a text.
        let _rest = &self.text[self.byte..];
        let bytes = plain_len(points[0]);
        self.byte += bytes;
        bytes
    }

    /// Takes the next cluster where it is seen at once that it is a character that has columns by
    /// itself, and marks that aren't wide, and gives how many code points it has. `points` are the
    /// code points still to come, and `words` are theirs.
    /// Cost: O(n) of the cluster.
    #[inline]
    pub fn next_marked(&mut self, points: &[char], words: &[Word]) -> Option<usize>
        requires points { points.now ≡ code_points (concat self.old) }
        requires words { map (λ (w : Word). w.is_plain) words.now ≡ map is_plain points.now }
        ensures taken { MatchOption result (self.new ≡ self.old) (λ n. self.old ≡ encode_utf8_all (take n points.now) ∷ self.new) }
        ensures points { IfSome result (λ n. code_points (encode_utf8_all (take n points.now)) ≡ take n points.now) }
        ensures size { IfSome result (λ n. (0 < n) × (n ≤ length points.now)) }
        ensures seen { IfSome result (λ _. 0 < slice_index (map (λ (w : Word). w.columns) words.now) 0) }
        ensures narrow { IfSome result (λ n. list_any (λ (w : Word). is_wide w.ea) (take (n - 1) (drop 1 words.now)) ≡ false) }
    {
        // What is left is a text.
        let _rest = &self.text[self.byte..];
        let c = *points.first()?;
        if !words[0].is_plain || words[0].columns == 0 {
            return None;
        }
        // Marks belong to it (GB9), and it ends where a plain one follows them (GB999), or nothing (GB2).
        let size = marks_end(points, words)?;
        self.byte += plain_len(c) + (size - 1) * MARK_LEN;
        Some(size)
    }
}

impl<'a> Iterator for Clusters<'a> {
    ghost use Rattle.std.specs.Iterator.{YieldsFirstBy, item_count};

    type Item = &'a str;

    ghost next_gives = { YieldsFirstBy (λ cluster. cluster.now) (λ left. left) };

    ghost remaining = { item_count (λ left. left) };

    #[inline]
    fn next(&mut self) -> Option<&'a str> {
        let rest = &self.text[self.byte..];
        let mut graphemes = rest.graphemes(true);
        let cluster = graphemes.next()?;
        self.byte = self.text.len() - graphemes.as_str().len();
        Some(cluster)
    }
}

/// How many bytes a plain character has, which one comparison tells.
#[inline]
fn plain_len(c: char) -> usize
    requires { is_plain c ≡ true }
    ensures { result ≡ len_utf8 c }
{
    if c < '\u{80}' { 1 } else { 2 }
}

/// The place of the first plain code point behind the first of these, or their end, if there are
/// only marks before it, and none of them is wide.
#[inline]
fn marks_end(points: &[char], words: &[Word]) -> Option<usize>
    requires some { 0 < length points.now }
    requires words { map (λ (w : Word). w.is_plain) words.now ≡ map is_plain points.now }
    ensures some { IfSome result (λ n. 0 < n) }
    ensures within { IfSome result (λ n. n ≤ length points.now) }
    ensures marks { IfSome result (λ n. (k : ℕ) → 0 < k → k < n → is_mark (slice_index points.now k) ≡ true) }
    ensures narrow { IfSome result (λ n. list_any (λ (w : Word). is_wide w.ea) (take (n - 1) (drop 1 words.now)) ≡ false) }
    ensures behind { IfSome result (λ n. n < length points.now → is_plain (slice_index points.now n) ≡ true) }
{
    for k in 1..points.len() {
        if words[k].is_plain {
            return Some(k);
        }
        if !is_mark(points[k] as usize) || is_wide(words[k].ea) {
            return None;
        }
    }
    Some(points.len())
}

/// Whether a code point is one of the marks that most marked text has (Grapheme_Cluster_Break
/// Extend). Each has two bytes.
#[inline]
fn is_mark(c: usize) -> bool
    ensures { result ≡ is_mark c }
{
    matches!(
        c,
        0x591..=0x5BD
            | 0x64B..=0x65F
            | 0x300..=0x36F
            | 0x5BF
            | 0x5C1..=0x5C2
            | 0x5C4..=0x5C5
            | 0x5C7
            | 0x670
    )
}

//! The columns of a cluster.

ghost use Rattle.std.specs.Prelude.{◌≡◌, ◌<◌, ◌==◌, ◌&&◌, false, length, map, drop, slice_index, [], ◌∷◌};
ghost use Rattle.std.specs.List.{list_any};
ghost use Rattle.unicode_tables.specs.Word.{word_of};
ghost use Rattle.unicode_tables.specs.declared.word.Word.{Word};
ghost use Rattle.paragraphs.specs.Text.{code_points};
ghost use Rattle.paragraphs.specs.Classes.{is_ambiguous, is_wide};
ghost use Rattle.paragraphs.specs.Columns.{ends_line, is_invisible, takes_two_by_choice, columns_of};

use unicode_tables::{
    Tables, Word, is_ambiguous, is_direction_mark, is_line_end, is_separator, is_wide,
};

/// The columns of a cluster, 0 to 2. It has none if it begins with what ends a line or a
/// paragraph, or if each of its characters is invisible; and two if one of them is wide, or
/// if the first is ambiguous and the tables make such characters wide.
/// Cost: O(n) of the cluster.
pub fn columns(tables: &Tables, cluster: &str) -> u8
    // At least one code point.
    requires { 0 < length cluster.now }
    ensures { result ≡ columns_of tables.now (code_points cluster.now) }
{
    let mut chars = cluster.chars();
    match chars.next() {
        Some(c) if chars.as_str().is_empty() => columns_of_one(tables, &tables.word(c), c),
        Some(c) => columns_of_several(tables, c, cluster),
        None => 0,
    }
}

/// The columns of a cluster of one code point, of which this is the word.
#[inline]
pub fn columns_of_one(tables: &Tables, word: &Word, c: char) -> u8
    requires { word.now ≡ word_of tables.now c }
    ensures { result ≡ columns_of tables.now (c ∷ []) }
{
    // A choice between two values takes more moves.
    word.columns + u8::from(is_made_wide(tables, word))
}

/// Whether the tables make a character of this word wider than its word says.
#[inline]
fn is_made_wide(tables: &Tables, word: &Word) -> bool
    ensures { result ≡ (tables.now.wide_ambiguous && (word.now.columns == 1 && is_ambiguous word.now.ea)) }
{
    tables.wide_ambiguous() && word.columns == 1 && is_ambiguous(word.ea)
}

/// The columns of a cluster of these code points, which have these words, where the first has
/// columns by itself and none of the others is wide: those of the first alone.
#[inline]
pub fn columns_of_marked(tables: &Tables, points: &[char], words: &[Word]) -> u8
    requires words { words.now ≡ map (word_of tables.now) points.now }
    requires seen { 0 < slice_index (map (λ (w : Word). w.columns) words.now) 0 }
    requires narrow { list_any (λ (w : Word). is_wide w.ea) (drop 1 words.now) ≡ false }
    ensures { result ≡ columns_of tables.now points.now }
{
    columns_of_one(tables, &words[0], points[0])
}

/// The columns of a cluster of any number of code points, of which this is the first.
fn columns_of_several(tables: &Tables, first: char, cluster: &str) -> u8
    requires { code_points cluster.now ≡ first ∷ drop 1 (code_points cluster.now) }
    ensures { result ≡ columns_of tables.now (code_points cluster.now) }
{
    if ends_line(tables, first) || cluster.chars().all(|c| is_invisible(tables, c)) {
        0
    } else if cluster.chars().any(|c| is_wide(tables.ea(c))) || takes_two_by_choice(tables, first) {
        2
    } else {
        1
    }
}

/// Whether a character ends a line or a paragraph.
#[inline]
fn ends_line(tables: &Tables, c: char) -> bool
    ensures { result ≡ ends_line tables.now c }
{
    is_separator(tables.bidi(c)) || is_line_end(tables.lb(c))
}

/// Whether X9 removes a character, or it is an isolate control or a mark of direction.
#[inline]
fn is_invisible(tables: &Tables, c: char) -> bool
    ensures { result ≡ is_invisible tables.now c }
{
    let class = tables.bidi(c);
    class.is_removed() || class.is_isolate_control() || is_direction_mark(c as usize)
}

/// Whether a character is ambiguous, and the tables make such characters wide.
#[inline]
fn takes_two_by_choice(tables: &Tables, c: char) -> bool
    ensures { result ≡ takes_two_by_choice tables.now c }
{
    tables.wide_ambiguous() && is_ambiguous(tables.ea(c))
}

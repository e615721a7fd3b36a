//! Laws of the definitions: the contract is the law, and the body is empty.

ghost use Rattle.std.specs.Prelude.{◌≡◌, ℕ, ◌+◌, ◌-◌, ◌<◌, ◌++◌, true, List, length, map, slice_index, sum, take};
ghost use Rattle.std.specs.List.{All, concat};
ghost use Rattle.std.specs.Str.{IsUtf8};
ghost use Rattle.unicode_tables.specs.Tables.{TableValues, bidi_of};
ghost use Rattle.bg_types.specs.declared.class.Bidi.{Bidi};
ghost use Rattle.paragraphs.specs.Text.{code_points};
ghost use Rattle.paragraphs.specs.Clusters.{clusters, cluster_code_points, cluster_sizes};
ghost use Rattle.paragraphs.specs.Spans.{spans};
ghost use Rattle.paragraphs.specs.Paragraphs.{is_cut, meets_at_cut, paragraphs, ParagraphsFollow, StandsIn};

/// The clusters of a text make up its code points, and each has at least one. A cluster stands after the
/// code points of all earlier ones, and ends after its own.
pub fn cluster_places()
    ensures joined { (text : List ℕ) → IsUtf8 text → concat (cluster_code_points text) ≡ code_points text }
    ensures sum { (text : List ℕ) → IsUtf8 text → sum (cluster_sizes text) ≡ length (code_points text) }
    ensures some { (text : List ℕ) → IsUtf8 text → All (λ size. 0 < size) (cluster_sizes text) }
    ensures start { (text : List ℕ) (k : ℕ) → k < length (cluster_sizes text)
        → slice_index (map (λ s. s.first_place) (spans text)) k ≡ sum (take k (cluster_sizes text)) }
    ensures end { (text : List ℕ) (k : ℕ) → k < length (cluster_sizes text)
        → slice_index (map (λ s. s.end_place) (spans text)) k ≡ sum (take (k + 1) (cluster_sizes text)) }
{}

/// The clusters of a text are texts themselves, none of them empty, and joined they are the text.
pub fn clusters_join()
    ensures joined { (text : List ℕ) → IsUtf8 text → concat (clusters text) ≡ text }
    ensures utf8 { (text : List ℕ) → IsUtf8 text → All IsUtf8 (clusters text) }
    ensures some { (text : List ℕ) → All (λ cluster. 0 < length cluster) (clusters text) }
{}

/// A text has a paragraph. Joined, its paragraphs are the text; each is a slice of it between
/// characters, and they follow one another from its start.
pub fn paragraphs_join()
    ensures joined { (tables : TableValues) (text : List ℕ) → IsUtf8 text
        → concat (map (λ p. p.text) (paragraphs tables text)) ≡ text }
    ensures some { (tables : TableValues) (text : List ℕ) → 0 < length (paragraphs tables text) }
    ensures slices { (tables : TableValues) (text : List ℕ) → IsUtf8 text → All (StandsIn text) (paragraphs tables text) }
    ensures follow { (tables : TableValues) (text : List ℕ) → IsUtf8 text → ParagraphsFollow 0 0 (paragraphs tables text) }
{}

/// A cut depends on the two code points beside it: the cuts of a text after an edit are those before it, away from the
/// edit. So whether one text may be cut from another behind it depends on their ends alone.
pub fn cuts_are_local()
    ensures before { (class : ℕ → Bidi) (before old new after : List ℕ) (place : ℕ) → 0 < place → place < length before
        → is_cut class (before ++ old ++ after) place ≡ is_cut class (before ++ new ++ after) place }
    ensures after { (class : ℕ → Bidi) (before old new after : List ℕ) (place : ℕ) → 0 < place
        → is_cut class (before ++ old ++ after) (length before + length old + place)
        ≡ is_cut class (before ++ new ++ after) (length before + length new + place) }
    ensures seam { (class : ℕ → Bidi) (before after : List ℕ) → 0 < length before
        → meets_at_cut class before after ≡ is_cut class (before ++ after) (length before) }
{}

/// Where a text is cut, its paragraphs are those of what stands in front, without the last, empty one, and those of what
/// stands behind.
pub fn paragraphs_at_cut()
    ensures { (tables : TableValues) (before after : List ℕ) → IsUtf8 before → IsUtf8 after
        → meets_at_cut (bidi_of tables) (code_points before) (code_points after) ≡ true
        → map (λ p. p.text) (paragraphs tables (before ++ after))
        ≡ take (length (paragraphs tables before) - 1) (map (λ p. p.text) (paragraphs tables before))
        ++ map (λ p. p.text) (paragraphs tables after) }
{}

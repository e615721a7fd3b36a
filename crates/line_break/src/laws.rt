//! Laws of the definitions: the contract is the law, and the body is empty.

ghost use Rattle.std.specs.Prelude.{◌≡◌, ℕ, ◌<◌, ◌≤◌, true, List, [], ◌∷◌, length, slice_range};
ghost use Rattle.std.specs.List.{All, flat_map};
ghost use Rattle.unicode_tables.specs.Tables.{TableValues};
ghost use Rattle.paragraphs.specs.Clusters.{clusters};
ghost use Rattle.line_break.specs.LineClusters.{line_clusters};
ghost use Rattle.line_break.specs.Lines.{fits, lines};
ghost use Rattle.line_break.specs.Ranges.{Follow};

/// The lines of a paragraph, joined, are its clusters.
pub fn lines_join()
    ensures { (tables : TableValues) (text : List ℕ) (width : ℕ)
        → flat_map (λ line. slice_range (clusters text) line.start line.end) (lines tables text width) ≡ clusters text }
{}

/// The lines of a paragraph that isn't empty are in order: the first starts at its first cluster,
/// each other one where the one before it ends, and the last ends after its last cluster; each has
/// a cluster.
pub fn lines_follow()
    ensures { (tables : TableValues) (text : List ℕ) (width : ℕ) → 0 < length (clusters text)
        → Follow 0 (lines tables text width) (length (clusters text)) }
{}

/// A line fits the width, not counting spaces at its end.
pub fn lines_fit()
    ensures { (tables : TableValues) (text : List ℕ) (width : ℕ) → 2 ≤ width
        → All (λ line. fits width (slice_range (line_clusters tables text) line.start line.end) ≡ true) (lines tables text width) }
{}

/// A paragraph that is empty has one line, which is empty.
pub fn empty_line()
    ensures { (tables : TableValues) (text : List ℕ) (width : ℕ) → length (clusters text) ≡ 0
        → lines tables text width ≡ record { start = 0; end = 0 } ∷ [] }
{}

/// A paragraph is measured cluster by cluster.
pub fn each_measured()
    ensures { (tables : TableValues) (text : List ℕ) → length (line_clusters tables text) ≡ length (clusters text) }
{}

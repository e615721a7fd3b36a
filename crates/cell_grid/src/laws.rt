//! Laws of the definitions: each function's contract is the law, and its body does nothing.

ghost use Rattle.std.specs.Prelude.{◌≡◌, ℕ, ◌+◌, ◌<◌, ◌≤◌, List, ◌++◌, length, map, sum_by, IsPermutation};
ghost use Rattle.std.specs.List.{All, flat_map};
ghost use Rattle.std.specs.Str.{IsUtf8};
ghost use Rattle.bg_types.specs.declared.class.Base.{Base};
ghost use Rattle.unicode_tables.specs.Tables.{TableValues};
ghost use Rattle.paragraphs.specs.Text.{code_points};
ghost use Rattle.paragraphs.specs.Paragraphs.{Paragraph, paragraphs, ParagraphsFollow};
ghost use Rattle.cell_grid.specs.Grids.{DrawnGrid, IsDrawn, paragraph_rows};
ghost use Rattle.cell_grid.specs.Rows.{DrawnRow, rows_of, shifted};
ghost use Rattle.cell_grid.specs.Print.{own_sizes, printed_paragraph, row_text, shown};
ghost use Rattle.cell_grid.specs.Printable.{AreSlices};
ghost use Rattle.cell_grid.specs.Shifting.{MayShiftRow, shifted_paragraph};
ghost use Rattle.cell_grid.specs.Laws.{text_spans, entry_spans, RowsFollow, HoldsPlacesOnce, CoversCellsOnce};
ghost use Rattle.cell_grid.specs.Windows.{FirstPlacesRise, window_of, HasWindow};

use crate::laws_below::laws_below;

/// Each cluster of each paragraph is one entry of one row.
pub fn clusters_once()
    ensures { (g : DrawnGrid) → IsDrawn g → IsPermutation (text_spans g.tables g.text) (entry_spans g.rows) }
{
    laws_below();
}

/// Entries with columns cover their cells once and Blank the rest; an entry of no columns has no cell.
pub fn cells_once()
    ensures { (g : DrawnGrid) (drawn : IsDrawn g) → All (CoversCellsOnce drawn.width) g.rows }
{
    laws_below();
}

/// A grid has at least one row. The rows take up the text's places in order.
pub fn rows_follow()
    ensures some { (g : DrawnGrid) → IsDrawn g → 0 < length g.rows }
    ensures follow { (g : DrawnGrid) → IsDrawn g → RowsFollow 0 g.rows (length (code_points g.text)) }
{
    laws_below();
}

/// Each place of a row lies in exactly one of its entries.
pub fn places_once()
    ensures { (g : DrawnGrid) → IsDrawn g → All HoldsPlacesOnce g.rows }
{
    laws_below();
}

/// The rows of a paragraph, counted from its start, may be shifted as long as the paragraph ends at
/// 4,000,000 or before.
pub fn rows_may_shift()
    ensures { (tables : TableValues) (width : ℕ) (base : Base) (text : List ℕ) → 2 ≤ width → IsUtf8 text
        → (bytes places : ℕ) → bytes + length text ≤ 4_000_000 → places + length (code_points text) ≤ 4_000_000
        → All (MayShiftRow bytes places) (rows_of tables width base text) }
{
    laws_below();
}

/// No two rows of a grid have one first place: each row but the last begins before the next one.
pub fn first_places_rise()
    ensures { (g : DrawnGrid) → IsDrawn g → FirstPlacesRise g.rows }
{
    laws_below();
}

/// A part of the rows that has the row of a place, and enough rows above and below it, has the
/// window round it: that of all rows, before the part and after it too.
pub fn windows_in_stretches()
    ensures { (before rows after : List DrawnRow) (above below place : ℕ) → HasWindow before rows after above below place
        → window_of above below place (before ++ (rows ++ after)) ≡ window_of above below place rows }
{}

/// The rows of paragraphs that follow one another take up their places in order. Those of paragraphs
/// behind a place all begin behind it. No paragraph is without a row.
pub fn rows_of_paragraphs()
    ensures follow { (tables : TableValues) (width : ℕ) (base : Base) (byte place : ℕ) (paras : List Paragraph) → 2 ≤ width
        → All (λ p. IsUtf8 p.text) paras → ParagraphsFollow byte place paras
        → RowsFollow place (flat_map (paragraph_rows tables width base) paras) (place + sum_by (λ p. length (code_points p.text)) paras) }
    ensures behind { (place from to : ℕ) (rows : List DrawnRow) → RowsFollow from rows to → place < from
        → All (λ r. place < r.first_place) rows }
    ensures some { (tables : TableValues) (width : ℕ) (base : Base) (paras : List Paragraph) → 0 < length paras
        → 0 < length (flat_map (paragraph_rows tables width base) paras) }
{
    laws_below();
}

/// The rows of paragraphs that stand later in a text are theirs, moved as far.
pub fn rows_move_with_paragraphs()
    ensures { (tables : TableValues) (width : ℕ) (base : Base) (bytes places : ℕ) (paras : List Paragraph)
        → flat_map (paragraph_rows tables width base) (map (shifted_paragraph bytes places) paras)
        ≡ map (shifted bytes places) (flat_map (paragraph_rows tables width base) paras) }
{}

/// The entries of a paragraph's rows, counted from its start, are slices of its text. Such a row prints the same where the
/// paragraph stands in a longer text, and so does each of its entries.
pub fn rows_print_alike()
    ensures slices { (tables : TableValues) (width : ℕ) (base : Base) (text : List ℕ) → 2 ≤ width → IsUtf8 text
        → All (AreSlices text) (rows_of tables width base text) }
    ensures alike { (tables : TableValues) (before text after : List ℕ) (places : ℕ) (row : DrawnRow) → AreSlices text row
        → row_text tables (before ++ (text ++ after)) (shifted (length before) places row) ≡ row_text tables text row }
    ensures sizes { (tables : TableValues) (before text after : List ℕ) (places : ℕ) (row : DrawnRow) → AreSlices text row
        → own_sizes tables (before ++ (text ++ after)) (shifted (length before) places row) ≡ own_sizes tables text row }
{
    laws_below();
}

/// A text prints what its paragraphs print, each by itself, one after the other.
pub fn paragraphs_print_alike()
    ensures { (tables : TableValues) (width : ℕ) (base : Base) (text : List ℕ) → 2 ≤ width → IsUtf8 text
        → shown tables width base text ≡ flat_map (λ p. printed_paragraph tables width base p.text) (paragraphs tables text) }
{
    laws_below();
}

/// The entries of a grid's rows are slices of its text.
pub fn entries_are_slices()
    ensures { (g : DrawnGrid) → IsDrawn g → All (AreSlices g.text) g.rows }
{
    laws_below();
}

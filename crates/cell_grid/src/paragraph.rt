//! The rows of a paragraph.

ghost use Rattle.std.specs.Prelude.{◌≡◌, ℕ, ◌+◌, ◌≤◌, length, map, IfOk, OnOk};
ghost use Rattle.std.specs.List.{All};
ghost use Rattle.std.specs.Str.{IsUtf8};
ghost use Rattle.unicode_tables.specs.declared.word.Word.{Word};
ghost use Rattle.paragraphs.specs.Text.{code_points};
ghost use Rattle.paragraphs.specs.Clusters.{clusters};
ghost use Rattle.bidi_explicit.specs.Embedding.{classes_of};
ghost use Rattle.line_break.specs.LineClusters.{line_clusters};
ghost use Rattle.line_break.specs.Lines.{lines};
ghost use Rattle.line_break.specs.Opportunities.{opportunities_of};
ghost use Rattle.line_break.specs.Runs.{AllHaveSome};
ghost use Rattle.cell_grid.specs.Outline.{IsLine};
ghost use Rattle.cell_grid.specs.Parts.{IsWithin, left_of, AreFrom};
ghost use Rattle.cell_grid.specs.Rows.{row_of, rows_of};
ghost use Rattle.cell_grid.specs.Shifting.{MayShiftRow};

use crate::laws_below::laws_below;
use crate::lists::{LineLists, Lists};
use crate::part::Cursor;
use crate::piece::cut;
use crate::row::Row;
use crate::separator::{is_separator_alone, separator_rows};
use bg_types::{Base, Bidi, Memory};
use bidi_explicit::paragraph_level;
use bidi_weak_neutral::levels_into;
use line_break::{Line, Outline, lines_into, outline_into};
use paragraphs::{Para, code_points_into};
use reorder::levels_after_l1;
use std::alloc::Global;
use std::mem;
use unicode_tables::{Tables, Word};

/// What the rows of a paragraph are made of.
#[derive(Drop)]
struct Material<'a> {
    tables: &'a Tables,
    text: &'a str,
    para_level: u8,
    /// The class of each code point.
    classes: &'a [Bidi],
    /// The level of each code point.
    levels: &'a [u8],
    clusters: &'a Outline,
}

/// The row of the next line, counted from the paragraph's start. Its clusters are passed.
fn row_of(
    alloc: Global,
    material: &Material,
    width: u16,
    cursor: &mut Cursor,
    lists: &mut LineLists,
    line: Line,
) -> Result<Row, Memory>
    requires width { width ≤ 500 }
    requires size { length (clusters material.now.text.now) ≤ 4_000_000 }
    requires classes { material.now.classes.now ≡ classes_of material.now.tables.now material.now.text.now }
    requires levels { length material.now.levels.now ≡ length (code_points material.now.text.now) }
    requires runs { AllHaveSome material.now.clusters.now.runs.items }
    requires within { All IsWithin (left_of material.now.clusters.now.runs.items cursor.old) }
    requires at_start { AreFrom material.now.tables.now material.now.text.now line.start (left_of material.now.clusters.now.runs.items cursor.old) }
    requires line { IsLine material.now.tables.now width material.now.text.now line }
    ensures row { IfOk result (λ row. row
        ≡ row_of material.now.tables.now width material.now.para_level material.now.text.now material.now.levels.now line) }
    ensures at_end { IfOk result (λ row. AreFrom material.now.tables.now material.now.text.now line.end (left_of material.now.clusters.now.runs.items cursor.new)) }
    ensures within { IfOk result (λ row. All IsWithin (left_of material.now.clusters.now.runs.items cursor.new)) }
{
    let count = (line.end - line.start) as u32;
    let whole = cursor.extent(&material.clusters.runs, count);
    let first = whole.first_place as usize;
    let end = whole.end_place as usize;
    // L1 resets what stands at the line's end, whatever follows in the paragraph.
    let classes = &material.classes[first..end];
    let before = &material.levels[first..end];
    levels_after_l1(&mut lists.levels, classes, before, material.para_level)?;
    cut(
        &mut lists.pieces,
        cursor,
        &material.clusters.runs,
        count,
        &lists.levels,
        width,
    )?;
    Row::of_pieces(
        alloc,
        width,
        material.para_level,
        whole,
        count,
        &lists.pieces,
        &mut lists.order,
    )
}

/// The rows of a paragraph's lines, from the top, counted from the paragraph's start.
fn rows_in(
    alloc: Global,
    material: &Material,
    width: u16,
    found: &mut Vec<Line>,
    lists: &mut LineLists,
) -> Result<Vec<Row>, Memory>
    requires at_least { 2 ≤ width }
    requires at_most { width ≤ 500 }
    requires text { IsUtf8 material.now.text.now }
    requires size { length material.now.text.now ≤ 4_000_000 }
    requires classes { material.now.classes.now ≡ classes_of material.now.tables.now material.now.text.now }
    requires levels { length material.now.levels.now ≡ length (code_points material.now.text.now) }
    requires some { AllHaveSome material.now.clusters.now.runs.items }
    requires runs { AreFrom material.now.tables.now material.now.text.now 0 material.now.clusters.now.runs.items }
    requires opportunities { material.now.clusters.now.opportunities.items ≡ opportunities_of (line_clusters material.now.tables.now material.now.text.now) }
    ensures { IfOk result (λ rows. rows.items
        ≡ map (row_of material.now.tables.now width material.now.para_level material.now.text.now material.now.levels.now)
        (lines material.now.tables.now material.now.text.now width)) }
{
    laws_below();
    lines_into(
        found,
        material.tables,
        material.text,
        material.clusters,
        width,
    )?;
    let mut rows = Vec::with_capacity(alloc, found.len())?;
    let mut cursor = Cursor::start();
    for line in found.iter() {
        rows.push(row_of(alloc, material, width, &mut cursor, lists, *line)?)?;
    }
    Ok(rows)
}

/// Puts the Bidi class that each of these words says into a list, in place of what it has.
fn classes_into(classes: &mut Vec<Bidi>, words: &[Word]) -> Result<(), Memory>
    ensures { OnOk result (classes.new.items ≡ map (λ (w : Word). w.bidi) words.now) }
{
    classes.clear();
    classes.reserve(words.len())?;
    // A list that is lent would have its length written at each push.
    let empty = Vec::new(*classes.allocator());
    let mut own = mem::replace(classes, empty);
    for word in words {
        own.push_reserved(word.bidi);
    }
    *classes = own;
    Ok(())
}

/// The rows of a paragraph of at most 4,000,000 bytes at a width in columns, from the top, with bytes and
/// places counted from the paragraph's start.
/// Cost: O(n), at most 20 bytes of memory a cluster.
pub fn rows(
    alloc: Global,
    tables: &Tables,
    width: u16,
    base: Base,
    para: &Para,
) -> Result<Vec<Row>, Memory>
    requires at_least { 2 ≤ width }
    requires at_most { width ≤ 500 }
    requires size { length para.now.text ≤ 4_000_000 }
    ensures rows { IfOk result (λ rows. rows.items ≡ rows_of tables.now width base para.now.text) }
    // They may be shifted to where the paragraph stands.
    ensures may_shift { IfOk result (λ rows. (bytes places : ℕ) → bytes + length para.now.text ≤ 4_000_000
        → places + length (code_points para.now.text) ≤ 4_000_000 → All (MayShiftRow bytes places) rows.items) }
{
    let mut lists = Lists::new(alloc);
    rows_with(alloc, tables, width, base, para, &mut lists)
}

/// What `rows` answers, made in these lists, whatever they have.
/// Cost: O(n), at most 20 bytes of memory a cluster.
pub fn rows_with(
    alloc: Global,
    tables: &Tables,
    width: u16,
    base: Base,
    para: &Para,
    lists: &mut Lists,
) -> Result<Vec<Row>, Memory>
    requires at_least { 2 ≤ width }
    requires at_most { width ≤ 500 }
    requires size { length para.now.text ≤ 4_000_000 }
    ensures rows { IfOk result (λ rows. rows.items ≡ rows_of tables.now width base para.now.text) }
    ensures may_shift { IfOk result (λ rows. (bytes places : ℕ) → bytes + length para.now.text ≤ 4_000_000
        → places + length (code_points para.now.text) ≤ 4_000_000 → All (MayShiftRow bytes places) rows.items) }
{
    laws_below();
    let text = para.text();
    let para_level = paragraph_level(tables, para, base);
    if is_separator_alone(tables, text) {
        return separator_rows(alloc, width, para_level, text);
    }
    code_points_into(&mut lists.points, text)?;
    tables.words_into(&mut lists.words, &lists.points)?;
    classes_into(&mut lists.classes, &lists.words)?;
    levels_into(
        alloc,
        &mut lists.levels,
        &mut lists.buffers,
        tables,
        para_level,
        &lists.points,
        &lists.classes,
    )?;
    outline_into(
        &mut lists.clusters,
        &mut lists.statuses,
        tables,
        para,
        &lists.points,
        &lists.words,
    )?;
    let material = Material {
        tables,
        text,
        para_level,
        classes: &lists.classes,
        levels: &lists.levels,
        clusters: &lists.clusters,
    };
    rows_in(alloc, &material, width, &mut lists.lines, &mut lists.line)
}

//! The rows of a window are laid out and kept.

ghost use Rattle.std.specs.Prelude.{◌≡◌, ◌≤◌, ◌<◌, ◌+◌, ◌-◌, ◌*◌, ◌⊎◌, ℕ, true, false, [], min, max, length, get_or, not, count_by, slice_range, slice_set, encode_utf8_all, IfOk, OnErr, IsOk, if◌then◌else◌};
ghost use Rattle.cell_grid.specs.Grids.{grid_rows};
ghost use Rattle.cell_grid.specs.Windows.{window_of};
ghost use Rattle.text_buffer.specs.Buffers.{paragraphs_in, text_in};
ghost use Rattle.text_buffer.specs.Edits.{IsParagraphOf};
ghost use Rattle.live_document.specs.Cost.{allowed, top_of, bottom_of, AreKept, HasRow};
ghost use Rattle.live_document.specs.Keeping.{flags, is_kept, rows_of_text, rows_weight, weight_held, held_outside, IsKeptAt};
ghost use Rattle.live_document.specs.Showing.{window_in, IsAtHand, IsRowOf};

use crate::keeping::{Reach, forget_others, lay_out, reach_down, reach_up};
use crate::laws_below::laws_below;
use crate::paragraph_rows::{ParagraphRows, ROW_BYTES};
use crate::reading::rows_under;
use crate::shown::Shown;
use bg_types::{Base, Memory};
use caret::row_at;
use cell_grid::Row;
use std::alloc::Global;
use text_buffer::Buffer;
use unicode_tables::Tables;

/// So much may be kept at least: the rows of this many windows, with an entry for each column.
const WINDOWS: usize = 4;

/// How many bytes an entry has.
const ENTRY_BYTES: usize = 20;

/// So many rows are a window's at least: a caret's move shows a row or three, and must leave what an editor draws.
const FEWEST_ROWS: usize = 64;

/// A window, the number behind that of its last paragraph, how many paragraphs were laid out for it, and what weighs that is kept
/// at most.
#[derive(Clone, Copy)]
pub struct Outcome {
    pub shown: Shown,
    pub end: usize,
    pub laid: usize,
    pub held: usize,
}

/// The row of a place in its paragraph, which is laid out.
#[derive(Clone, Copy)]
pub struct OwnRow {
    /// The number of the paragraph.
    pub number: usize,
    /// Which of its rows has the place.
    pub row: usize,
    /// How many rows it has.
    pub rows: usize,
    /// What they weigh.
    pub weight: usize,
    /// How many paragraphs were laid out: 0 or 1.
    pub laid: usize,
    /// What this made weighs.
    pub made: usize,
}

/// Lays out the paragraph of a place, and finds the place's row in it.
fn own_row(
    alloc: Global,
    tables: &Tables,
    width: u16,
    base: Base,
    buffer: &mut Buffer<ParagraphRows>,
    place: usize,
) -> Result<OwnRow, Memory>
    requires kept { IsKeptAt tables.now width base buffer.old }
    requires place { place ≤ length (text_in buffer.old) }
    ensures kept { IsKeptAt tables.now width base buffer.new }
    ensures paragraphs { paragraphs_in buffer.new ≡ paragraphs_in buffer.old }
    ensures number { IfOk result (λ own. IsParagraphOf (paragraphs_in buffer.old) place own.number) }
    ensures marks { IfOk result (λ own. flags buffer.new ≡ slice_set (flags buffer.old) own.number true) }
    ensures row { IfOk result (λ own. IsRowOf tables.now width base (paragraphs_in buffer.old) place own.number own.row own.rows) }
    ensures few { IfOk result (λ own. own.rows ≤ 4_000_001) }
    ensures held { IfOk result (λ own. weight_held buffer.new ≡ weight_held buffer.old + own.made) }
    ensures weight { IfOk result (λ own. own.weight ≡ rows_weight (rows_of_text tables.now width base (get_or (paragraphs_in buffer.old) own.number []))) }
    ensures most { IfOk result (λ own. own.weight ≤ 56_000_048 * own.rows) }
    ensures made { IfOk result (λ own. own.made ≤ own.weight) }
    ensures laid { IfOk result (λ own. own.laid ≡ (if is_kept (flags buffer.old) own.number then 0 else 1)) }
    ensures refused { OnErr result ((number : ℕ) × IsParagraphOf (paragraphs_in buffer.old) place number × (is_kept (flags buffer.old) number ≡ false)) }
{
    // All that is looked up for a window is near its place.
    buffer.go_to(place);
    let number = buffer.paragraph_of(place);
    let out = lay_out(alloc, tables, width, base, buffer, number)?;
    laws_below();
    let _bytes = buffer.bytes();
    let cursor = buffer.cursor(number);
    let first_place = cursor.paragraph().first_place();
    let rows = rows_under(&cursor);
    Ok(OwnRow {
        number,
        row: row_at(rows, place - first_place),
        rows: out.rows,
        weight: out.weight,
        laid: out.laid,
        made: out.made,
    })
}

/// Lays out what isn't kept of the window round the row of a place. Where more is kept then than the most rows weigh with an
/// entry for each column, and than those of four such windows do, so many rows of other paragraphs are forgotten, and else none.
pub fn lay_window_out(
    alloc: Global,
    tables: &Tables,
    width: u16,
    base: Base,
    buffer: &mut Buffer<ParagraphRows>,
    place: usize,
    above: usize,
    below: usize,
    held: usize,
    most: usize,
) -> Result<Outcome, Memory>
    requires kept { IsKeptAt tables.now width base buffer.old }
    requires place { place ≤ length (text_in buffer.old) }
    requires above { above ≤ 1_000 }
    requires below { below ≤ 1_000 }
    requires held { weight_held buffer.old ≤ held }
    requires held_few { held ≤ 900_000_000_000_000 }
    requires most { most ≤ 1_000_000 }
    ensures kept { IsKeptAt tables.now width base buffer.new }
    ensures paragraphs { paragraphs_in buffer.new ≡ paragraphs_in buffer.old }
    ensures window { IfOk result (λ outcome. window_in buffer.new outcome.shown
        ≡ window_of above below place (grid_rows tables.now width base (encode_utf8_all (text_in buffer.old)))) }
    ensures at_hand { IfOk result (λ outcome. IsAtHand buffer.new outcome.shown) }
    ensures order { IfOk result (λ outcome. outcome.shown.first < outcome.end) }
    ensures top { IfOk result (λ outcome. HasRow tables.now width base (paragraphs_in buffer.old) outcome.shown.first
        (top_of place above (grid_rows tables.now width base (encode_utf8_all (text_in buffer.old))))) }
    ensures bottom { IfOk result (λ outcome. HasRow tables.now width base (paragraphs_in buffer.old) (outcome.end - 1)
        (bottom_of place below (grid_rows tables.now width base (encode_utf8_all (text_in buffer.old))))) }
    ensures marked { IfOk result (λ outcome. (k : ℕ) → outcome.shown.first ≤ k → k < outcome.end → is_kept (flags buffer.new) k ≡ true) }
    ensures stays { IfOk result (λ outcome. held_outside buffer.old outcome.shown.first outcome.end + weight_held (slice_range buffer.new outcome.shown.first outcome.end)
        ≤ allowed most width outcome.shown.count → (k : ℕ) → is_kept (flags buffer.old) k ≡ true → is_kept (flags buffer.new) k ≡ true) }
    ensures no_more { IfOk result (λ outcome. (k : ℕ) → is_kept (flags buffer.new) k ≡ true
        → (is_kept (flags buffer.old) k ≡ true) ⊎ ((outcome.shown.first ≤ k) × (k < outcome.end))) }
    ensures bounded { IfOk result (λ outcome. (weight_held buffer.new ≤ allowed most width outcome.shown.count)
        ⊎ ((k : ℕ) → is_kept (flags buffer.new) k ≡ true → (outcome.shown.first ≤ k) × (k < outcome.end))) }
    ensures held { IfOk result (λ outcome. weight_held buffer.new ≤ outcome.held) }
    ensures few { IfOk result (λ outcome. outcome.held ≤ 900_000_000_000_000) }
    ensures laid { IfOk result (λ outcome. outcome.laid ≡ count_by not (slice_range (flags buffer.old) outcome.shown.first outcome.end)) }
    ensures enough { AreKept tables.now width base (paragraphs_in buffer.old) (flags buffer.old)
        (top_of place above (grid_rows tables.now width base (encode_utf8_all (text_in buffer.old))))
        (bottom_of place below (grid_rows tables.now width base (encode_utf8_all (text_in buffer.old)))) → IsOk result }
{
    laws_below();
    // There are no more paragraphs than can be counted, and no more bytes than a text may have.
    let _count = buffer.paragraph_count();
    let _bytes = buffer.bytes();
    let own = own_row(alloc, tables, width, base, buffer, place)?;
    let wanted_up = above.saturating_sub(own.row);
    let wanted_down = (below + own.row + 1).saturating_sub(own.rows);
    let up = reach_up(alloc, tables, width, base, buffer, own.number, wanted_up)?;
    let down = reach_down(
        alloc,
        tables,
        width,
        base,
        buffer,
        own.number + 1,
        wanted_down,
    )?;
    let shown = cut_out(up, own, down, above, below);
    let rows = most.max(WINDOWS * shown.count.max(FEWEST_ROWS));
    let held = forget_others(
        buffer,
        up.number,
        down.number,
        up.weight + own.weight + down.weight,
        held + up.made + own.made + down.made,
        rows * (ROW_BYTES + ENTRY_BYTES * usize::from(width)),
    );
    Ok(Outcome {
        shown,
        end: down.number,
        laid: own.laid + up.laid + down.laid,
        held,
    })
}

/// Where the window stands in the rows of what was reached.
fn cut_out(up: Reach, own: OwnRow, down: Reach, above: usize, below: usize) -> Shown
    requires above { above ≤ 1_000 }
    requires below { below ≤ 1_000 }
    requires row { own.row < own.rows }
    requires up { up.rows ≤ 5_000_000 }
    requires own { own.rows ≤ 4_000_001 }
    requires down { down.rows ≤ 5_000_000 }
    ensures first { result.first ≡ up.number }
    ensures skip { result.skip ≡ up.rows + own.row - above }
    ensures count { result.count ≡ min (up.rows + (own.rows + down.rows)) (up.rows + own.row + below + 1) - (up.rows + own.row - above) }
    ensures number { result.number ≡ up.rows + own.row - (up.rows + own.row - above) }
{
    let at = up.rows + own.row;
    let rows = up.rows + (own.rows + down.rows);
    let skip = at.saturating_sub(above);
    let end = rows.min(at + below + 1);
    Shown {
        first: up.number,
        skip,
        count: end - skip,
        number: at - skip,
    }
}

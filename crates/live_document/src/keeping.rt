//! Rows that are kept beside paragraphs.

ghost use Rattle.std.specs.Prelude.{◌≡◌, ◌+◌, ◌-◌, ◌*◌, ◌≤◌, ◌<◌, ◌⊎◌, ℕ, [], true, false, max, All, map, length, not, get_or, slice_set, slice_range, count_by, IfOk, OnOk, OnErr, IsOk, if◌then◌else◌};
ghost use Rattle.bg_types.specs.declared.class.Base.{Base};
ghost use Rattle.unicode_tables.specs.Tables.{TableValues};
ghost use Rattle.text_buffer.specs.Buffers.{paragraphs_in};
ghost use Rattle.text_buffer.specs.Edits.{anew};
ghost use Rattle.live_document.specs.Keeping.{flags, is_kept, rows_of_text, rows_of_texts, rows_weight, weight_held, IsLaid, IsKeptAt, IsMarked};

use crate::laws_below::laws_below;
use crate::paragraph_rows::ParagraphRows;
use bg_types::{Base, Memory};
use cell_grid::rows;
use std::alloc::Global;
use text_buffer::Buffer;
use unicode_tables::Tables;

/// Each paragraph of so many is forgotten first.
const FIRST_STEP: usize = 16;

/// How many rows may be kept, where a window doesn't need more.
#[derive(Clone, Copy)]
pub struct Most {
    pub rows: usize,
    ghost few: { rows ≤ 1_000_000 },
}

/// Drops the rows of all paragraphs, as is needed before another width or base direction.
pub fn forget_rows(buffer: &mut Buffer<ParagraphRows>)
    ensures paragraphs { paragraphs_in buffer.new ≡ paragraphs_in buffer.old }
    ensures bare { buffer.new ≡ map anew (paragraphs_in buffer.old) }
    ensures held { weight_held buffer.new ≡ 0 }
    ensures none { (tables : TableValues) (width : ℕ) (base : Base) → All (IsLaid tables width base) buffer.new }
{
    buffer.forget_but(0, 0);
}

/// Where more is kept than the most, drops rows of other paragraphs than those from one number up to another, which weigh so
/// much, until no more is kept, or of all others. At most `held` is kept. Returns what is kept then at most.
pub fn forget_others(
    buffer: &mut Buffer<ParagraphRows>,
    from: usize,
    to: usize,
    weight: usize,
    held: usize,
    most: usize,
) -> usize
    requires order { from ≤ to }
    requires within { to ≤ length buffer.old }
    requires held { weight_held buffer.old ≤ held }
    requires few { held ≤ 2_000_000_000_000_000 }
    requires weight { weight_held (slice_range buffer.old from to) ≤ weight }
    ensures paragraphs { paragraphs_in buffer.new ≡ paragraphs_in buffer.old }
    ensures laid { (tables : TableValues) (width : ℕ) (base : Base) → All (IsLaid tables width base) buffer.old → All (IsLaid tables width base) buffer.new }
    ensures inside { (k : ℕ) → from ≤ k → k < to → is_kept (flags buffer.new) k ≡ is_kept (flags buffer.old) k }
    ensures no_more { (k : ℕ) → is_kept (flags buffer.new) k ≡ true → is_kept (flags buffer.old) k ≡ true }
    ensures stays { weight_held buffer.old ≤ most → buffer.new ≡ buffer.old }
    ensures held { weight_held buffer.new ≤ result }
    ensures few { result ≤ max most weight }
    ensures bounded { (weight_held buffer.new ≤ most) ⊎ ((k : ℕ) → is_kept (flags buffer.new) k ≡ true → (from ≤ k) × (k < to)) }
{
    if held <= most {
        return held;
    }
    // What edits dropped was not counted.
    let kept = buffer.kept_weight();
    if kept <= most {
        return kept;
    }
    let left = thin_out(buffer, from, to, most);
    if left <= most {
        return left;
    }
    buffer.forget_but(from, to);
    weight
}

/// Drops the rows of each sixteenth paragraph, then of each eighth, and so on to each second, but of none from one number up to
/// another, until what is kept weighs no more than the most. Returns what is kept.
fn thin_out(buffer: &mut Buffer<ParagraphRows>, from: usize, to: usize, most: usize) -> usize
    requires { weight_held buffer.old ≤ 2_000_000_000_000_000 }
    ensures paragraphs { paragraphs_in buffer.new ≡ paragraphs_in buffer.old }
    ensures laid { (tables : TableValues) (width : ℕ) (base : Base) → All (IsLaid tables width base) buffer.old → All (IsLaid tables width base) buffer.new }
    ensures inside { (k : ℕ) → from ≤ k → k < to → is_kept (flags buffer.new) k ≡ is_kept (flags buffer.old) k }
    ensures no_more { (k : ℕ) → is_kept (flags buffer.new) k ≡ true → is_kept (flags buffer.old) k ≡ true }
    ensures within { weight_held (slice_range buffer.new from to) ≤ weight_held (slice_range buffer.old from to) }
    ensures less { weight_held buffer.new ≤ weight_held buffer.old }
    ensures held { result ≡ weight_held buffer.new }
{
    let mut step = FIRST_STEP;
    while step > 1 {
        // The same ones go again and again, so that a window elsewhere lacks few.
        buffer.forget_in_turn(from, to, step, 0);
        let left = buffer.kept_weight();
        if left <= most {
            return left;
        }
        step /= 2;
    }
    buffer.kept_weight()
}

/// How many rows a paragraph has, what they weigh, how many paragraphs it took to lay out, 0 or 1, and what this made weighs.
#[derive(Clone, Copy)]
pub struct LaidOut {
    pub rows: usize,
    pub weight: usize,
    pub laid: usize,
    pub made: usize,
}

/// Lays a paragraph out where its rows are not kept, and keeps them.
pub fn lay_out(
    alloc: Global,
    tables: &Tables,
    width: u16,
    base: Base,
    buffer: &mut Buffer<ParagraphRows>,
    number: usize,
) -> Result<LaidOut, Memory>
    requires kept { IsKeptAt tables.now width base buffer.old }
    requires number { number < length buffer.old }
    ensures kept { IsKeptAt tables.now width base buffer.new }
    ensures paragraphs { paragraphs_in buffer.new ≡ paragraphs_in buffer.old }
    ensures marks { OnOk result (flags buffer.new ≡ slice_set (flags buffer.old) number true) }
    ensures rows { IfOk result (λ out. out.rows ≡ length (rows_of_text tables.now width base (get_or (paragraphs_in buffer.old) number []))) }
    ensures few { IfOk result (λ out. out.rows ≤ 4_000_001) }
    ensures weight { IfOk result (λ out. out.weight ≡ rows_weight (rows_of_text tables.now width base (get_or (paragraphs_in buffer.old) number []))) }
    ensures most { IfOk result (λ out. out.weight ≤ 56_000_048 * out.rows) }
    ensures laid { IfOk result (λ out. out.laid ≡ (if is_kept (flags buffer.old) number then 0 else 1)) }
    ensures held { IfOk result (λ out. weight_held buffer.new ≡ weight_held buffer.old + out.made) }
    ensures made { IfOk result (λ out. out.made ≤ out.weight) }
    ensures err { OnErr result (buffer.new ≡ buffer.old) }
    ensures enough { is_kept (flags buffer.old) number ≡ true → IsOk result }
{
    laws_below();
    // The text has no more bytes than it may.
    let _bytes = buffer.bytes();
    if let Some(kept) = buffer.kept(number) {
        return Ok(LaidOut {
            rows: kept.as_slice().len(),
            weight: kept.total(),
            laid: 0,
            made: 0,
        });
    }
    let made = rows(alloc, tables, width, base, &buffer.paragraph(number))?;
    let rows = made.len();
    let made = ParagraphRows::of(made);
    let weight = made.total();
    buffer.keep(number, made);
    Ok(LaidOut {
        rows,
        weight,
        laid: 1,
        made: weight,
    })
}

/// Paragraphs that a window reaches: up to which number, how many rows they have, what these weigh, how many of them were laid
/// out, and what this made weighs.
#[derive(Clone, Copy)]
pub struct Reach {
    pub number: usize,
    pub rows: usize,
    pub weight: usize,
    pub laid: usize,
    pub made: usize,
}

/// Lays out the paragraphs in front of one, going up, until they have so many rows or there are no more.
pub fn reach_up(
    alloc: Global,
    tables: &Tables,
    width: u16,
    base: Base,
    buffer: &mut Buffer<ParagraphRows>,
    number: usize,
    wanted: usize,
) -> Result<Reach, Memory>
    requires kept { IsKeptAt tables.now width base buffer.old }
    requires number { number ≤ length buffer.old }
    requires wanted { wanted ≤ 1_000 }
    ensures kept { IsKeptAt tables.now width base buffer.new }
    ensures paragraphs { paragraphs_in buffer.new ≡ paragraphs_in buffer.old }
    ensures order { IfOk result (λ reach. reach.number ≤ number) }
    ensures marked { IfOk result (λ reach. IsMarked (flags buffer.old) reach.number number (flags buffer.new)) }
    ensures rows { IfOk result (λ reach. reach.rows ≡ length (rows_of_texts tables.now width base (slice_range (paragraphs_in buffer.old) reach.number number))) }
    ensures weight { IfOk result (λ reach. reach.weight ≡ rows_weight (rows_of_texts tables.now width base (slice_range (paragraphs_in buffer.old) reach.number number))) }
    ensures enough { IfOk result (λ reach. (wanted ≤ reach.rows) ⊎ (reach.number ≡ 0)) }
    ensures needed { IfOk result (λ reach. reach.number < number
        → length (rows_of_texts tables.now width base (slice_range (paragraphs_in buffer.old) (reach.number + 1) number)) < wanted) }
    ensures few { IfOk result (λ reach. reach.rows ≤ 5_000_000) }
    ensures most { IfOk result (λ reach. reach.weight ≤ 56_000_048 * reach.rows) }
    ensures laid { IfOk result (λ reach. reach.laid ≡ count_by not (slice_range (flags buffer.old) reach.number number)) }
    ensures once { IfOk result (λ reach. reach.laid + reach.number ≤ number) }
    ensures held { IfOk result (λ reach. weight_held buffer.new ≡ weight_held buffer.old + reach.made) }
    ensures made { IfOk result (λ reach. reach.made ≤ reach.weight) }
    // Memory is taken for those alone that are wanted and not kept.
    ensures refused { OnErr result ((k : ℕ) × (k < number) × (is_kept (flags buffer.old) k ≡ false)
        × (length (rows_of_texts tables.now width base (slice_range (paragraphs_in buffer.old) (k + 1) number)) < wanted)) }
{
    let mut first = number;
    let mut rows = 0;
    let mut weight = 0;
    let mut laid = 0;
    let mut made = 0;
    while first > 0 && rows < wanted {
        first -= 1;
        let out = lay_out(alloc, tables, width, base, buffer, first)?;
        rows += out.rows;
        weight += out.weight;
        laid += out.laid;
        made += out.made;
    }
    Ok(Reach {
        number: first,
        rows,
        weight,
        laid,
        made,
    })
}

/// Lays out the paragraphs from one on, going down, until they have so many rows or there are no more.
pub fn reach_down(
    alloc: Global,
    tables: &Tables,
    width: u16,
    base: Base,
    buffer: &mut Buffer<ParagraphRows>,
    number: usize,
    wanted: usize,
) -> Result<Reach, Memory>
    requires kept { IsKeptAt tables.now width base buffer.old }
    requires number { number ≤ length buffer.old }
    requires wanted { wanted ≤ 1_001 }
    ensures kept { IsKeptAt tables.now width base buffer.new }
    ensures paragraphs { paragraphs_in buffer.new ≡ paragraphs_in buffer.old }
    ensures order { IfOk result (λ reach. number ≤ reach.number) }
    ensures within { IfOk result (λ reach. reach.number ≤ length buffer.old) }
    ensures marked { IfOk result (λ reach. IsMarked (flags buffer.old) number reach.number (flags buffer.new)) }
    ensures rows { IfOk result (λ reach. reach.rows ≡ length (rows_of_texts tables.now width base (slice_range (paragraphs_in buffer.old) number reach.number))) }
    ensures weight { IfOk result (λ reach. reach.weight ≡ rows_weight (rows_of_texts tables.now width base (slice_range (paragraphs_in buffer.old) number reach.number))) }
    ensures enough { IfOk result (λ reach. (wanted ≤ reach.rows) ⊎ (reach.number ≡ length buffer.old)) }
    ensures needed { IfOk result (λ reach. number < reach.number
        → length (rows_of_texts tables.now width base (slice_range (paragraphs_in buffer.old) number (reach.number - 1))) < wanted) }
    ensures few { IfOk result (λ reach. reach.rows ≤ 5_000_000) }
    ensures most { IfOk result (λ reach. reach.weight ≤ 56_000_048 * reach.rows) }
    ensures laid { IfOk result (λ reach. reach.laid ≡ count_by not (slice_range (flags buffer.old) number reach.number)) }
    ensures once { IfOk result (λ reach. reach.laid + number ≤ reach.number) }
    ensures held { IfOk result (λ reach. weight_held buffer.new ≡ weight_held buffer.old + reach.made) }
    ensures made { IfOk result (λ reach. reach.made ≤ reach.weight) }
    ensures refused { OnErr result ((k : ℕ) × (number ≤ k) × (k < length buffer.old) × (is_kept (flags buffer.old) k ≡ false)
        × (length (rows_of_texts tables.now width base (slice_range (paragraphs_in buffer.old) number k)) < wanted)) }
{
    let count = buffer.paragraph_count();
    let mut end = number;
    let mut rows = 0;
    let mut weight = 0;
    let mut laid = 0;
    let mut made = 0;
    while end < count && rows < wanted {
        let out = lay_out(alloc, tables, width, base, buffer, end)?;
        rows += out.rows;
        weight += out.weight;
        laid += out.laid;
        made += out.made;
        end += 1;
    }
    Ok(Reach {
        number: end,
        rows,
        weight,
        laid,
        made,
    })
}

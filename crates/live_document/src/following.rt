//! Paragraphs follow the text of a desk.

ghost use Rattle.std.specs.Prelude.{◌≡◌, ◌≤◌, ℕ, Bool, true, false, [], ◌∷◌, map, length, IfOk, OnOk, OnErr, IsOk};
ghost use Rattle.bg_types.specs.declared.class.Base.{Base};
ghost use Rattle.paragraphs.specs.Text.{code_points};
ghost use Rattle.rga_tree.specs.TextOf.{text};
ghost use Rattle.text_buffer.specs.Buffers.{paragraphs_in, text_in, IsSplit};
ghost use Rattle.text_buffer.specs.Edits.{anew, replaced, all_changed, AreInRange, AreTouched, IsTouched};
ghost use Rattle.text_buffer.specs.declared.touched.Touched.{Touched};
ghost use Rattle.live_document.specs.Keeping.{weight_held, StaysKept, IsKeptAt};

use crate::document::Desk;
use crate::paragraph_rows::ParagraphRows;
use bg_types::{Change, Memory};
use std::alloc::Global;
use text_buffer::Buffer;
use unicode_tables::Tables;

/// The paragraphs of a text of at most 4,000,000 bytes, beside which no rows are kept.
pub fn buffer_of(
    alloc: Global,
    tables: &Tables,
    text: &str,
) -> Result<Buffer<ParagraphRows>, Memory>
    ensures text { IfOk result (λ buffer. text_in buffer ≡ code_points text.now) }
    ensures nothing { IfOk result (λ buffer. buffer ≡ map anew (paragraphs_in buffer)) }
    ensures kept { IfOk result (λ buffer. (width : ℕ) (base : Base) → 2 ≤ width → width ≤ 500 → IsKeptAt tables.now width base buffer) }
{
    match Buffer::of(alloc, tables, text) {
        Ok(buffer) => Ok(buffer),
        Err(_) => Err(Memory),
    }
}

/// Puts a text in the place of the characters from one place up to another, unless the paragraphs are behind already.
/// Returns whether they are behind then.
pub fn follow(
    tables: &Tables,
    buffer: &mut Buffer<ParagraphRows>,
    behind: bool,
    from: usize,
    to: usize,
    characters: &str,
) -> bool
    requires split { IsSplit tables.now (paragraphs_in buffer.old) }
    requires order { from ≤ to }
    requires within { behind ≡ false → to ≤ length (text_in buffer.old) }
    ensures before { result ≡ false → behind ≡ false }
    ensures text { result ≡ false → text_in buffer.new ≡ replaced (text_in buffer.old) from to (code_points characters.now) }
    ensures held { weight_held buffer.new ≤ weight_held buffer.old }
    ensures touched { result ≡ false → (touched : Touched) × IsTouched buffer.old from to touched buffer.new }
    ensures kept { StaysKept tables.now buffer.old buffer.new }
{
    if behind {
        return true;
    }
    buffer.edit(tables, from, to, characters).is_err()
}

/// Puts a character at a place, unless the paragraphs are behind already. Returns whether they are behind then.
pub fn follow_typed(
    tables: &Tables,
    buffer: &mut Buffer<ParagraphRows>,
    behind: bool,
    place: usize,
    ch: char,
) -> bool
    requires split { IsSplit tables.now (paragraphs_in buffer.old) }
    requires within { behind ≡ false → place ≤ length (text_in buffer.old) }
    ensures before { result ≡ false → behind ≡ false }
    ensures text { result ≡ false → text_in buffer.new ≡ replaced (text_in buffer.old) place place (ch ∷ []) }
    ensures held { weight_held buffer.new ≤ weight_held buffer.old }
    ensures touched { result ≡ false → (touched : Touched) × IsTouched buffer.old place place touched buffer.new }
    ensures kept { StaysKept tables.now buffer.old buffer.new }
{
    if behind {
        return true;
    }
    buffer.put(tables, place, ch).is_err()
}

/// Makes changes of the text in turn, unless the paragraphs are behind already. Returns whether they are behind then.
pub fn follow_all(
    tables: &Tables,
    buffer: &mut Buffer<ParagraphRows>,
    behind: bool,
    changes: &[Change],
) -> bool
    requires split { IsSplit tables.now (paragraphs_in buffer.old) }
    requires places { behind ≡ false → AreInRange (text_in buffer.old) changes.now }
    ensures before { result ≡ false → behind ≡ false }
    ensures held { weight_held buffer.new ≤ weight_held buffer.old }
    ensures text { result ≡ false → text_in buffer.new ≡ all_changed (text_in buffer.old) changes.now }
    ensures touched { result ≡ false → AreTouched buffer.old changes.now buffer.new }
    ensures kept { StaysKept tables.now buffer.old buffer.new }
{
    if behind {
        return true;
    }
    buffer.apply_all(tables, changes).is_err()
}

/// Makes the paragraphs anew from the text of a desk, where they are behind. After `Memory` they are as they were.
pub fn catch_up(
    alloc: Global,
    tables: &Tables,
    desk: &Desk,
    buffer: &mut Buffer<ParagraphRows>,
    behind: bool,
) -> Result<(), Memory>
    requires text { behind ≡ false → text_in buffer.old ≡ text desk.now.set }
    ensures text { OnOk result (text_in buffer.new ≡ text desk.now.set) }
    ensures kept { StaysKept tables.now buffer.old buffer.new }
    ensures held { weight_held buffer.new ≤ weight_held buffer.old }
    ensures same { behind ≡ false → buffer.new ≡ buffer.old }
    ensures nothing { OnOk result (behind ≡ true → buffer.new ≡ map anew (paragraphs_in buffer.new)) }
    ensures enough { behind ≡ false → IsOk result }
    ensures err { OnErr result (buffer.new ≡ buffer.old) }
{
    if !behind {
        return Ok(());
    }
    let text = desk.text()?;
    *buffer = buffer_of(alloc, tables, text.as_str())?;
    Ok(())
}

//! The stretch of paragraphs that an edit makes anew.

ghost use Rattle.std.specs.Prelude.{◌≡◌, ◌↔◌, ◌⊎◌, ◌+◌, ◌-◌, ◌<◌, ◌≤◌, ◌++◌, ◌==◌, ℕ, true, false, List, [], Err, length, get_or, string_bytes, IfOk, IfSome};
ghost use Rattle.std.specs.List.{concat, list_any};
ghost use Rattle.unicode_tables.specs.Tables.{bidi_of};
ghost use Rattle.paragraphs.specs.Text.{code_points};
ghost use Rattle.paragraphs.specs.Paragraphs.{meets_at_cut};
ghost use Rattle.text_buffer.specs.Buffers.{bytes_in, Fits, IsSplit};
ghost use Rattle.text_buffer.specs.Edits.{replaced, IsParagraphOf};
ghost use Rattle.text_buffer.specs.Blocks.{texts_in};
ghost use Rattle.text_buffer.specs.Places.{IsInFront, IsBlockOf};
ghost use Rattle.text_buffer.specs.Stretches.{IsBegun, IsRemade, IsOne, separates, text_with};
ghost use Rattle.text_buffer.specs.declared.fault.BufferFault.TheVariants.{TooLong};

use crate::block::Block;
use crate::fault::BufferFault;
use crate::find::{Before, back_to_place, block_in_front};
use crate::parted::{joined_text, text_between};
use crate::place::{Place, piece_of, place_at, place_behind};
use bg_types::Memory;
use paragraphs::meets_at_cut;
use std::alloc::Global;
use unicode_tables::{Tables, is_separator};

/// How many bytes a text has at most.
pub const LIMIT: usize = 4_000_000;

/// Paragraphs `from` up to `to`, the block in which they begin, and the text that stands in their place.
#[derive(Drop)]
pub struct Stretch {
    pub block: Before,
    pub from: usize,
    pub to: usize,
    pub text: String,
}

/// What an edit makes anew, how many code points that has where it is known to be one paragraph, and how many bytes the text
/// has then.
#[derive(Drop)]
pub struct Plan {
    pub stretch: Stretch,
    pub one: Option<usize>,
    pub bytes: usize,
}

/// What is made anew where a text takes the place of what stands from one place up to another, found from any block on. The
/// paragraph of the second place is, with what stands behind the place: so the stretch ends as that paragraph does.
pub fn plan_edit<K>(
    alloc: Global,
    tables: &Tables,
    blocks: &[Block<K>],
    near: Before,
    bytes: usize,
    from: usize,
    to: usize,
    text: &str,
) -> Result<Plan, BufferFault>
    requires near { IsInFront blocks.now near }
    requires bytes { bytes ≡ bytes_in (concat (texts_in blocks.now)) }
    requires few { bytes ≤ 4_000_000 }
    requires order { from ≤ to }
    requires within { to ≤ length (concat (texts_in blocks.now)) }
    requires fits { Fits (texts_in blocks.now) }
    requires split { IsSplit tables.now (texts_in blocks.now) }
    ensures block { IfOk result (λ p. IsBlockOf blocks.now p.stretch.block p.stretch.from) }
    ensures stretch { IfOk result (λ p. IsRemade tables.now (texts_in blocks.now) p.stretch.from p.stretch.to (code_points (string_bytes p.stretch.text))) }
    ensures some { IfOk result (λ p. p.stretch.to < length (texts_in blocks.now) → 0 < length (code_points (string_bytes p.stretch.text))) }
    ensures text { IfOk result (λ p. text_with (texts_in blocks.now) p.stretch.from p.stretch.to (code_points (string_bytes p.stretch.text))
        ≡ replaced (concat (texts_in blocks.now)) from to (code_points text.now)) }
    ensures one { IfOk result (λ p. IfSome p.one (IsOne tables.now (p.stretch.to == length (texts_in blocks.now)) (string_bytes p.stretch.text))) }
    ensures bytes { IfOk result (λ p. p.bytes ≡ bytes_in (replaced (concat (texts_in blocks.now)) from to (code_points text.now))) }
    ensures few { IfOk result (λ p. p.bytes ≤ 4_000_000) }
    ensures first { IfOk result (λ p. IsParagraphOf (texts_in blocks.now) from p.stretch.from ⊎ IsParagraphOf (texts_in blocks.now) from (p.stretch.from + 1)) }
    ensures last { IfOk result (λ p. IsParagraphOf (texts_in blocks.now) to (p.stretch.to - 1)) }
    ensures too_long { (result ≡ Err TooLong) ↔ (4_000_000 < bytes_in (replaced (concat (texts_in blocks.now)) from to (code_points text.now))) }
{
    let first = place_at(blocks, back_to_place(blocks, near, from), from);
    let last = place_behind(blocks, first, from, to);
    let others = bytes - (last.bytes - first.bytes);
    if text.len() > LIMIT - others {
        return Err(BufferFault::TooLong);
    }
    let whole = text_between(alloc, first.front, text, last.back)?;
    let stretch = stretch_at(alloc, tables, blocks, &first, last.number + 1, whole)?;
    let more = text.chars().count();
    let one = stays_one(tables, &first, last.number, stretch.from, text);
    let places = first.offset + more + last.rest;
    Ok(Plan {
        stretch,
        one: one.then_some(places),
        bytes: others + text.len(),
    })
}

/// Whether it is seen at once that what is made anew stays one paragraph: a part of one is replaced by a text without
/// separators, and none stands in front.
/// Cost: O(n) of the text.
fn stays_one(tables: &Tables, first: &Place, last: usize, from: usize, text: &str) -> bool
    ensures from { result ≡ true → from ≡ first.now.number }
    ensures last { result ≡ true → last ≡ first.now.number }
    ensures front { result ≡ true → 0 < length (code_points first.now.front.now) → meets_at_cut (bidi_of tables.now) (code_points first.now.front.now) [] ≡ false }
    ensures text { result ≡ true → list_any (separates tables.now) (code_points text.now) ≡ false }
{
    if from != first.number || last != first.number {
        return false;
    }
    if ends_with_separator(tables, first.front) {
        return false;
    }
    !has_separator(tables, text)
}

/// Whether a code point of a text is a separator.
fn has_separator(tables: &Tables, text: &str) -> bool
    ensures { result ≡ list_any (separates tables.now) (code_points text.now) }
{
    text.chars().any(|c| is_separator(tables.bidi(c)))
}

/// Whether the last code point of a text is a separator.
fn ends_with_separator(tables: &Tables, text: &str) -> bool
    ensures { result ≡ false → 0 < length (code_points text.now) → meets_at_cut (bidi_of tables.now) (code_points text.now) [] ≡ false }
{
    if text.is_empty() {
        return false;
    }
    meets_at_cut(tables, text, "")
}

/// What is made anew where a text takes the place of paragraphs up to `to`, from that of a place on: these, and the one in
/// front of them, where it no longer ends there. If nothing is left of the text, that one is the last, and is made anew too.
fn stretch_at<K>(
    alloc: Global,
    tables: &Tables,
    blocks: &[Block<K>],
    first: &Place,
    to: usize,
    text: String,
) -> Result<Stretch, Memory>
    requires block { IsBlockOf blocks.now first.now.block first.now.number }
    requires order { first.now.number < to }
    requires within { to ≤ length (texts_in blocks.now) }
    requires offset { first.now.offset ≡ length (code_points first.now.front.now) }
    requires own { code_points first.now.front.now ++ code_points first.now.back.now ≡ get_or (texts_in blocks.now) first.now.number [] }
    requires begins { (t : List ℕ) × (code_points (string_bytes text) ≡ code_points first.now.front.now ++ t) }
    requires fits { Fits (texts_in blocks.now) }
    requires split { IsSplit tables.now (texts_in blocks.now) }
    ensures block { IfOk result (λ s. IsBlockOf blocks.now s.block s.from) }
    ensures begun { IfOk result (λ s. IsBegun tables.now (texts_in blocks.now) s.from s.to (code_points (string_bytes s.text))) }
    ensures text { IfOk result (λ s. text_with (texts_in blocks.now) s.from s.to (code_points (string_bytes s.text))
        ≡ text_with (texts_in blocks.now) first.now.number to (code_points (string_bytes text))) }
    ensures from { IfOk result (λ s. (s.from ≡ first.now.number) ⊎ (s.from + 1 ≡ first.now.number)) }
    ensures to { IfOk result (λ s. s.to ≡ to) }
    ensures same { IfOk result (λ s. s.from ≡ first.now.number → string_bytes s.text ≡ string_bytes text) }
    ensures ends { IfOk result (λ s. (front : List ℕ) × (code_points (string_bytes s.text) ≡ front ++ code_points (string_bytes text))) }
{
    if first.number == 0 || first.offset > 0 {
        return Ok(Stretch {
            block: first.block,
            from: first.number,
            to,
            text,
        });
    }
    let in_front = block_in_front(blocks, first.block, first.number);
    let before = piece_of(blocks, in_front, first.number - 1).text.as_str();
    if !text.is_empty() && meets_at_cut(tables, before, &text) {
        return Ok(Stretch {
            block: first.block,
            from: first.number,
            to,
            text,
        });
    }
    Ok(Stretch {
        block: in_front,
        from: first.number - 1,
        to,
        text: joined_text(alloc, before, &text)?,
    })
}

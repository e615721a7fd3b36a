//! A stretch of paragraphs is made anew.

ghost use Rattle.std.specs.Prelude.{◌≡◌, ◌+◌, ◌-◌, ◌<◌, ◌≤◌, ◌++◌, ◌==◌, ℕ, List, length, map as each, take, drop, string_bytes, IfOk, IfSome, OnOk, OnErr, if◌then◌else◌};
ghost use Rattle.std.specs.List.{concat};
ghost use Rattle.paragraphs.specs.Text.{code_points};
ghost use Rattle.paragraphs.specs.Paragraphs.{paragraphs};
ghost use Rattle.text_buffer.specs.Buffers.{bytes_in, IsSplit};
ghost use Rattle.text_buffer.specs.Edits.{anew};
ghost use Rattle.text_buffer.specs.Pieces.{seen};
ghost use Rattle.text_buffer.specs.Blocks.{rows_of, pieces_in, texts_in, seen_in};
ghost use Rattle.text_buffer.specs.Places.{IsBlockOf};
ghost use Rattle.text_buffer.specs.Stretches.{IsRemade, IsOne, text_with};

use crate::block::Block;
use crate::piece::Piece;
use crate::replace::replace;
use crate::stretch::Stretch;
use crate::touched::Touched;
use bg_types::Memory;
use paragraphs::split;
use std::alloc::Global;
use unicode_tables::Tables;

/// The paragraphs of a text.
pub fn pieces_of<K: Drop>(
    alloc: Global,
    tables: &Tables,
    text: &str,
) -> Result<Vec<Piece<K>>, Memory>
    ensures { IfOk result (λ pieces. each seen pieces.items ≡ each anew (each (λ p. code_points p.text) (paragraphs tables.now text.now))) }
{
    let paras = split(alloc, tables, text)?;
    let mut pieces = Vec::with_capacity(alloc, paras.len())?;
    for para in &paras {
        pieces.push(Piece::of(alloc, para.text())?)?;
    }
    Ok(pieces)
}

/// The paragraphs of a text, all but the last one unless that is asked for. A text that is known to be one, of so many code
/// points, is not copied.
fn pieces_of_stretch<K: Drop>(
    alloc: Global,
    tables: &Tables,
    text: String,
    last: bool,
    one: Option<usize>,
) -> Result<Vec<Piece<K>>, Memory>
    requires { IfSome one (IsOne tables.now last (string_bytes text)) }
    ensures { let all = each (λ p. code_points p.text) (paragraphs tables.now (string_bytes text)) in
        IfOk result (λ pieces. each seen pieces.items ≡ each anew (if last then all else take (length all - 1) all)) }
{
    if let Some(places) = one {
        let mut pieces = Vec::with_capacity(alloc, 1)?;
        pieces.push(Piece::holding(text, places))?;
        return Ok(pieces);
    }
    let mut pieces = pieces_of(alloc, tables, &text)?;
    if last {
        return Ok(pieces);
    }
    pieces.pop();
    Ok(pieces)
}

/// Puts the paragraphs of a stretch's text in the place of those that it has.
pub fn change<K: Drop>(
    alloc: Global,
    tables: &Tables,
    blocks: &mut Vec<Block<K>>,
    count: usize,
    stretch: Stretch,
    one: Option<usize>,
) -> Result<Touched, Memory>
    requires block { IsBlockOf blocks.old.items stretch.block stretch.from }
    requires count { count ≡ length (texts_in blocks.old.items) }
    requires few { bytes_in (concat (texts_in blocks.old.items)) ≤ 4_000_000 }
    requires split { IsSplit tables.now (texts_in blocks.old.items) }
    requires stretch { IsRemade tables.now (texts_in blocks.old.items) stretch.from stretch.to (code_points (string_bytes stretch.text)) }
    requires some { stretch.to < length (texts_in blocks.old.items) → 0 < length (code_points (string_bytes stretch.text)) }
    requires one { IfSome one (IsOne tables.now (stretch.to == count) (string_bytes stretch.text)) }
    requires new { bytes_in (text_with (texts_in blocks.old.items) stretch.from stretch.to (code_points (string_bytes stretch.text))) ≤ 4_000_000 }
    ensures first { IfOk result (λ t. t.first ≡ stretch.from) }
    ensures old { IfOk result (λ t. t.first + t.old ≡ stretch.to) }
    ensures made { IfOk result (λ t. (made : List (List ℕ)) × (length made ≡ t.new) × (seen_in blocks.new.items ≡ take stretch.from (seen_in blocks.old.items) ++ (each anew made ++ drop stretch.to (seen_in blocks.old.items)))) }
    ensures text { OnOk result (concat (texts_in blocks.new.items) ≡ text_with (texts_in blocks.old.items) stretch.from stretch.to (code_points (string_bytes stretch.text))) }
    ensures split { OnOk result (IsSplit tables.now (texts_in blocks.new.items)) }
    ensures count { IfOk result (λ t. length (texts_in blocks.new.items) + t.old ≡ count + t.new) }
    ensures err { OnErr result (pieces_in blocks.new.items ≡ pieces_in blocks.old.items) }
    ensures front { take (stretch.block.block - 1) (rows_of blocks.new.items) ≡ take (stretch.block.block - 1) (rows_of blocks.old.items) }
    ensures there { stretch.from < length (pieces_in blocks.new.items) }
{
    let last = stretch.to == count;
    let pieces = pieces_of_stretch(alloc, tables, stretch.text, last, one)?;
    let touched = Touched {
        first: stretch.from,
        old: stretch.to - stretch.from,
        new: pieces.len(),
    };
    replace(
        alloc,
        blocks,
        stretch.block,
        stretch.from,
        stretch.to,
        pieces,
    )?;
    Ok(touched)
}

//! Where paragraphs stand in their blocks.

ghost use Rattle.std.specs.Prelude.{◌≡◌, ◌+◌, ◌-◌, ◌<◌, ◌≤◌, [], length, get_or};
ghost use Rattle.std.specs.List.{concat};
ghost use Rattle.text_buffer.specs.Buffers.{bytes_in, Fits};
ghost use Rattle.text_buffer.specs.Pieces.{points_in};
ghost use Rattle.text_buffer.specs.Blocks.{rows_of, texts_in};
ghost use Rattle.text_buffer.specs.Places.{IsInFront, IsBlockOf, StandsAt};

use crate::block::Block;
use crate::piece::Piece;
use crate::rows::count_in;

/// A block, and what stands in the blocks before it.
#[derive(Clone, Copy)]
pub struct Before {
    pub block: usize,
    pub paragraphs: usize,
    pub bytes: usize,
    pub places: usize,
}

/// The block behind one that is not the last.
pub fn next_to<K>(blocks: &[Block<K>], before: Before) -> Before
    requires stands { IsInFront blocks.now before }
    requires more { before.block + 1 < length blocks.now }
    requires fits { Fits (texts_in blocks.now) }
    ensures stands { IsInFront blocks.now result }
    ensures paragraphs { result.paragraphs ≡ before.paragraphs + length (get_or (rows_of blocks.now) before.block []) }
    ensures places { result.places ≡ before.places + length (concat (points_in (get_or (rows_of blocks.now) before.block []))) }
    ensures block { result.block ≡ before.block + 1 }
{
    let own = &blocks[before.block];
    Before {
        block: before.block + 1,
        paragraphs: before.paragraphs + own.pieces.len(),
        bytes: before.bytes + own.bytes,
        places: before.places + own.places,
    }
}

/// The block in front of one that is not the first.
fn previous_to<K>(blocks: &[Block<K>], before: Before) -> Before
    requires stands { IsInFront blocks.now before }
    requires some { 0 < before.block }
    ensures stands { IsInFront blocks.now result }
    ensures block { result.block + 1 ≡ before.block }
    ensures paragraphs { result.paragraphs + length (get_or (rows_of blocks.now) result.block []) ≡ before.paragraphs }
{
    let block = before.block - 1;
    let own = &blocks[block];
    Before {
        block,
        paragraphs: before.paragraphs - own.pieces.len(),
        bytes: before.bytes - own.bytes,
        places: before.places - own.places,
    }
}

/// The block of the paragraph in front of one that stands in this block.
pub fn block_in_front<K>(blocks: &[Block<K>], before: Before, number: usize) -> Before
    requires block { IsBlockOf blocks.now before number }
    requires some { 0 < number }
    ensures { IsBlockOf blocks.now result (number - 1) }
{
    if before.paragraphs < number {
        return before;
    }
    previous_to(blocks, before)
}

/// The block of paragraph `number`, found from any block on.
/// Cost: O(n) of the blocks between the two.
pub fn block_near<K>(blocks: &[Block<K>], near: Before, number: usize) -> Before
    requires near { IsInFront blocks.now near }
    requires there { number < length (texts_in blocks.now) }
    requires fits { Fits (texts_in blocks.now) }
    ensures { IsBlockOf blocks.now result number }
{
    block_of(blocks, back_to_paragraph(blocks, near, number), number)
}

/// A block, or the nearest one in front of it that isn't behind paragraph `number`.
fn back_to_paragraph<K>(blocks: &[Block<K>], near: Before, number: usize) -> Before
    requires near { IsInFront blocks.now near }
    ensures stands { IsInFront blocks.now result }
    ensures reached { result.paragraphs ≤ number }
{
    let mut before = near;
    while before.paragraphs > number {
        before = previous_to(blocks, before);
    }
    before
}

/// A block, or the nearest one in front of it that isn't behind a place.
pub fn back_to_place<K>(blocks: &[Block<K>], near: Before, place: usize) -> Before
    requires near { IsInFront blocks.now near }
    ensures stands { IsInFront blocks.now result }
    ensures reached { result.places ≤ place }
{
    let mut before = near;
    while before.places > place {
        before = previous_to(blocks, before);
    }
    before
}

/// A block, or the one in front of it where there is one.
pub fn at_or_in_front<K>(blocks: &[Block<K>], before: Before) -> Before
    requires stands { IsInFront blocks.now before }
    ensures stands { IsInFront blocks.now result }
    ensures block { result.block ≡ before.block - 1 }
    ensures order { result.paragraphs ≤ before.paragraphs }
{
    if before.block == 0 {
        return before;
    }
    previous_to(blocks, before)
}

/// How many code points block q has.
fn places_in<K>(blocks: &[Block<K>], q: usize) -> usize
    requires { q < length blocks.now }
    ensures { result ≡ length (concat (points_in (get_or (rows_of blocks.now) q []))) }
{
    blocks[q].places
}

/// The block in which paragraph `number` stands, from one on that isn't behind it.
pub fn block_of<K>(blocks: &[Block<K>], start: Before, number: usize) -> Before
    requires start { IsInFront blocks.now start }
    requires behind { start.paragraphs ≤ number }
    requires there { number < length (texts_in blocks.now) }
    requires fits { Fits (texts_in blocks.now) }
    ensures stands { IsInFront blocks.now result }
    ensures reached { result.paragraphs ≤ number }
    ensures here { number < result.paragraphs + length (get_or (rows_of blocks.now) result.block []) }
    ensures order { start.block ≤ result.block }
{
    let mut before = start;
    while before.paragraphs + count_in(blocks, before.block) <= number {
        before = next_to(blocks, before);
    }
    before
}

/// The block in which a place stands, from one on that isn't behind it. A place behind all that the others have is the
/// last one's.
pub fn block_at<K>(blocks: &[Block<K>], start: Before, place: usize) -> Before
    requires start { IsInFront blocks.now start }
    requires behind { start.places ≤ place }
    requires within { place ≤ length (concat (texts_in blocks.now)) }
    requires fits { Fits (texts_in blocks.now) }
    ensures stands { IsInFront blocks.now result }
    ensures reached { result.places ≤ place }
    ensures here { place ≤ result.places + length (concat (points_in (get_or (rows_of blocks.now) result.block []))) }
    ensures inside { result.block + 1 < length blocks.now → place < result.places + length (concat (points_in (get_or (rows_of blocks.now) result.block []))) }
{
    let mut before = start;
    while before.block + 1 < blocks.len()
        && before.places + places_in(blocks, before.block) <= place
    {
        before = next_to(blocks, before);
    }
    before
}

/// Where a place stands: in which paragraph, how many bytes stand before that, and how many code points of it stand before
/// the place.
#[derive(Clone, Copy)]
pub struct Spot {
    pub number: usize,
    pub bytes: usize,
    pub offset: usize,
}

/// The spot of a place, and its block, from one on that isn't behind it.
pub fn spot_at<K>(blocks: &[Block<K>], start: Before, place: usize) -> (Before, Spot)
    requires start { IsInFront blocks.now start }
    requires behind { start.places ≤ place }
    requires within { place ≤ length (concat (texts_in blocks.now)) }
    requires fits { Fits (texts_in blocks.now) }
    ensures stands { IsInFront blocks.now result.0 }
    ensures reached { result.0.places ≤ place }
    ensures first { result.0.paragraphs ≤ result.1.number }
    ensures here { result.1.number < result.0.paragraphs + length (get_or (rows_of blocks.now) result.0.block []) }
    ensures spot { StandsAt (texts_in blocks.now) place result.1 }
{
    let before = block_at(blocks, start, place);
    let here = spot_in(&blocks[before.block].pieces, place - before.places);
    let spot = Spot {
        number: before.paragraphs + here.number,
        bytes: before.bytes + here.bytes,
        offset: here.offset,
    };
    (before, spot)
}

/// The spot of a place among the paragraphs of a block.
fn spot_in<K>(pieces: &[Piece<K>], place: usize) -> Spot
    requires some { 0 < length pieces.now }
    requires within { place ≤ length (concat (points_in pieces.now)) }
    requires few { bytes_in (concat (points_in pieces.now)) ≤ 9_000_000 }
    ensures spot { StandsAt (points_in pieces.now) place result }
    ensures inside { place < length (concat (points_in pieces.now)) → result.offset < length (get_or (points_in pieces.now) result.number []) }
{
    let mut number = 0;
    let mut bytes = 0;
    let mut offset = place;
    while number + 1 < pieces.len() && places_of(pieces, number) <= offset {
        bytes += bytes_of(pieces, number);
        offset -= places_of(pieces, number);
        number += 1;
    }
    Spot {
        number,
        bytes,
        offset,
    }
}

/// How many code points one of some paragraphs has.
fn places_of<K>(pieces: &[Piece<K>], number: usize) -> usize
    requires { number < length pieces.now }
    ensures { result ≡ length (get_or (points_in pieces.now) number []) }
{
    pieces[number].places
}

/// How many bytes one of some paragraphs has.
fn bytes_of<K>(pieces: &[Piece<K>], number: usize) -> usize
    requires { number < length pieces.now }
    ensures { result ≡ bytes_in (get_or (points_in pieces.now) number []) }
{
    pieces[number].text.as_str().len()
}

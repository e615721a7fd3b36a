//! A paragraph that was found in its block, and its neighbours.

ghost use Rattle.std.specs.Prelude.{◌≡◌, ◌↔◌, ◌+◌, ◌<◌, ◌≤◌, [], IfSome, None, IsTrue, is_some, length, take, get_or};
ghost use Rattle.std.specs.List.{concat};
ghost use Rattle.text_buffer.specs.Buffers.{Fits};
ghost use Rattle.text_buffer.specs.Edits.{IsParagraphOf};
ghost use Rattle.text_buffer.specs.Pieces.{points_of, kept_of};
ghost use Rattle.text_buffer.specs.Blocks.{rows_of, joined, pieces_in, texts_in};
ghost use Rattle.text_buffer.specs.Places.{IsInFront, IsFound};

use crate::block::{Block, sum_up};
use crate::find::{Before, back_to_place, block_near, spot_at};
use crate::piece::Piece;
use crate::rows::count_in;

/// A paragraph: its block, its number there and among all, and how many bytes and code points stand before it.
#[derive(Clone, Copy)]
pub struct Found {
    pub block: usize,
    pub index: usize,
    pub number: usize,
    pub bytes: usize,
    pub places: usize,
}

/// Paragraph `number`, found from any block on.
pub fn find<K>(blocks: &[Block<K>], near: Before, number: usize) -> Found
    requires near { IsInFront blocks.now near }
    requires there { number < length (texts_in blocks.now) }
    requires fits { Fits (texts_in blocks.now) }
    ensures found { IsFound blocks.now result }
    ensures number { result.number ≡ number }
{
    let before = block_near(blocks, near, number);
    let index = number - before.paragraphs;
    let sums = sum_up(&blocks[before.block].pieces[..index]);
    Found {
        block: before.block,
        index,
        number,
        bytes: before.bytes + sums.bytes,
        places: before.places + sums.places,
    }
}

/// The paragraph in which a place stands, found from any block on.
pub fn find_at<K>(blocks: &[Block<K>], near: Before, place: usize) -> Found
    requires near { IsInFront blocks.now near }
    requires within { place ≤ length (concat (texts_in blocks.now)) }
    requires fits { Fits (texts_in blocks.now) }
    ensures found { IsFound blocks.now result }
    ensures number { IsParagraphOf (texts_in blocks.now) place result.number }
{
    let (before, spot) = spot_at(blocks, back_to_place(blocks, near, place), place);
    Found {
        block: before.block,
        index: spot.number - before.paragraphs,
        number: spot.number,
        bytes: spot.bytes,
        places: place - spot.offset,
    }
}

/// The paragraph as it is stored.
pub fn piece_at<'a, K>(blocks: &'a [Block<K>], found: Found) -> &'a Piece<K>
    requires { IsFound blocks.now found }
    ensures points { points_of result.now ≡ get_or (texts_in blocks.now) found.number [] }
    ensures kept { result.now.kept ≡ get_or (kept_of (pieces_in blocks.now)) found.number None }
{
    &blocks[found.block].pieces[found.index]
}

/// The next paragraph, if there is one.
pub fn next_of<K>(blocks: &[Block<K>], found: Found) -> Option<Found>
    requires found { IsFound blocks.now found }
    requires fits { Fits (texts_in blocks.now) }
    ensures found { IfSome result (λ next. IsFound blocks.now next) }
    ensures number { IfSome result (λ next. next.number ≡ found.number + 1) }
    ensures some { IsTrue (is_some result) ↔ (found.number + 1 < length (texts_in blocks.now)) }
{
    if found.index + 1 < count_in(blocks, found.block) {
        return Some(on_to(blocks, found, found.block, found.index + 1));
    }
    if found.block + 1 == blocks.len() {
        return None;
    }
    Some(on_to(blocks, found, found.block + 1, 0))
}

/// The next paragraph, which stands there.
fn on_to<K>(blocks: &[Block<K>], found: Found, block: usize, index: usize) -> Found
    requires found { IsFound blocks.now found }
    requires fits { Fits (texts_in blocks.now) }
    requires block { block < length blocks.now }
    requires inside { index < length (get_or (rows_of blocks.now) block []) }
    requires number { found.number + 1 ≡ length (joined (take block (rows_of blocks.now))) + index }
    ensures found { IsFound blocks.now result }
    ensures number { result.number ≡ found.number + 1 }
{
    let piece = piece_at(blocks, found);
    Found {
        block,
        index,
        number: found.number + 1,
        bytes: found.bytes + piece.text.as_str().len(),
        places: found.places + piece.places,
    }
}

/// The paragraph before, if there is one.
pub fn before_of<K>(blocks: &[Block<K>], found: Found) -> Option<Found>
    requires { IsFound blocks.now found }
    ensures found { IfSome result (λ before. IsFound blocks.now before) }
    ensures number { IfSome result (λ before. before.number + 1 ≡ found.number) }
    ensures some { IsTrue (is_some result) ↔ (0 < found.number) }
{
    if found.index > 0 {
        return Some(back_to(blocks, found, found.block, found.index - 1));
    }
    if found.block == 0 {
        return None;
    }
    let block = found.block - 1;
    let last = last_in(blocks, block);
    Some(back_to(blocks, found, block, last))
}

/// The number of the last paragraph of a block.
fn last_in<K>(blocks: &[Block<K>], block: usize) -> usize
    requires { block < length blocks.now }
    ensures { result + 1 ≡ length (get_or (rows_of blocks.now) block []) }
{
    count_in(blocks, block) - 1
}

/// The paragraph before, which stands there.
fn back_to<K>(blocks: &[Block<K>], found: Found, block: usize, index: usize) -> Found
    requires found { IsFound blocks.now found }
    requires block { block < length blocks.now }
    requires inside { index < length (get_or (rows_of blocks.now) block []) }
    requires number { found.number ≡ length (joined (take block (rows_of blocks.now))) + index + 1 }
    ensures found { IsFound blocks.now result }
    ensures number { result.number + 1 ≡ found.number }
{
    let piece = &blocks[block].pieces[index];
    Found {
        block,
        index,
        number: found.number - 1,
        bytes: found.bytes - piece.text.as_str().len(),
        places: found.places - piece.places,
    }
}

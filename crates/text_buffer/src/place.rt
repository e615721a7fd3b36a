//! A place in its paragraph.

ghost use Rattle.std.specs.Prelude.{◌≡◌, ◌≤◌, [], length, get_or};
ghost use Rattle.std.specs.List.{concat};
ghost use Rattle.paragraphs.specs.Text.{code_points};
ghost use Rattle.text_buffer.specs.Buffers.{Fits};
ghost use Rattle.text_buffer.specs.Pieces.{points_of};
ghost use Rattle.text_buffer.specs.Blocks.{texts_in};
ghost use Rattle.text_buffer.specs.Places.{IsInFront, IsBlockOf, IsParted};

use crate::block::Block;
use crate::find::{Before, spot_at};
use crate::parted::parted;
use crate::piece::Piece;

/// A place: its block, its paragraph, how many bytes of the text stand before it, and how many code points and what of the
/// paragraph before it and behind it.
#[derive(Clone, Copy)]
pub struct Place<'a> {
    pub block: Before,
    pub number: usize,
    pub bytes: usize,
    pub offset: usize,
    pub rest: usize,
    pub front: &'a str,
    pub back: &'a str,
}

/// A place, found from a block on that isn't behind it. One between two paragraphs stands in the later one.
pub fn place_at<'a, K>(blocks: &'a [Block<K>], start: Before, place: usize) -> Place<'a>
    requires start { IsInFront blocks.now start }
    requires behind { start.places ≤ place }
    requires within { place ≤ length (concat (texts_in blocks.now)) }
    requires fits { Fits (texts_in blocks.now) }
    ensures block { IsBlockOf blocks.now result.block result.number }
    ensures reached { result.block.places ≤ place }
    ensures offset { result.offset ≡ length (code_points result.front.now) }
    ensures rest { result.rest ≡ length (code_points result.back.now) }
    ensures parted { IsParted (texts_in blocks.now) place result.number result.bytes result.front.now result.back.now }
{
    let (block, spot) = spot_at(blocks, start, place);
    let piece = piece_of(blocks, block, spot.number);
    let (front, back) = parted(piece.text.as_str(), spot.offset);
    Place {
        block,
        number: spot.number,
        bytes: spot.bytes + front.len(),
        offset: spot.offset,
        rest: piece.places - spot.offset,
        front,
        back,
    }
}

/// The place up to which a stretch goes from another one on. Where the stretch is empty, it is that one.
pub fn place_behind<'a, K>(
    blocks: &'a [Block<K>],
    first: Place<'a>,
    from: usize,
    to: usize,
) -> Place<'a>
    requires block { IsBlockOf blocks.now first.block first.number }
    requires behind { first.block.places ≤ to }
    requires within { to ≤ length (concat (texts_in blocks.now)) }
    requires fits { Fits (texts_in blocks.now) }
    requires rest { first.rest ≡ length (code_points first.back.now) }
    requires first { IsParted (texts_in blocks.now) from first.number first.bytes first.front.now first.back.now }
    ensures rest { result.rest ≡ length (code_points result.back.now) }
    ensures parted { IsParted (texts_in blocks.now) to result.number result.bytes result.front.now result.back.now }
{
    if from == to {
        return first;
    }
    place_at(blocks, first.block, to)
}

/// Paragraph `number`, of this block, as it is stored.
pub fn piece_of<K>(blocks: &[Block<K>], before: Before, number: usize) -> &Piece<K>
    requires { IsBlockOf blocks.now before number }
    ensures { points_of result.now ≡ get_or (texts_in blocks.now) number [] }
{
    &blocks[before.block].pieces[number - before.paragraphs]
}

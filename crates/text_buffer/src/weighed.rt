//! How much what is kept beside paragraphs weighs.

ghost use Rattle.std.specs.Prelude.{◌≡◌, ◌≤◌, ℕ};
ghost use Rattle.text_buffer.specs.Pieces.{weight_of, weight_in};
ghost use Rattle.text_buffer.specs.Blocks.{pieces_in};

use crate::block::Block;
use crate::piece::Piece;

/// What may be kept beside a paragraph: it weighs something, which counts against a bound.
pub trait Weighed {
    ghost weight: { Self → ℕ };

    /// How much it weighs.
    fn weight(&self) -> usize
        ensures { result ≡ weight self.now };
}

/// What is kept of a paragraph.
#[inline]
fn of_piece<K: Weighed>(piece: &Piece<K>) -> usize
    ensures { result ≡ weight_of K.weight piece.now }
{
    match &piece.kept {
        Some(kept) => kept.weight(),
        None => 0,
    }
}

/// What is kept of some paragraphs.
fn of_pieces<K: Weighed>(pieces: &[Piece<K>]) -> usize
    requires few { weight_in K.weight pieces.now ≤ 2_000_000_000_000_000 }
    ensures { result ≡ weight_in K.weight pieces.now }
{
    let mut weight = 0;
    for piece in pieces {
        weight += of_piece(piece);
    }
    weight
}

/// What is kept of all blocks. One of which nothing is kept is passed.
pub fn of_blocks<K: Weighed>(blocks: &[Block<K>]) -> usize
    requires few { weight_in K.weight (pieces_in blocks.now) ≤ 2_000_000_000_000_000 }
    ensures { result ≡ weight_in K.weight (pieces_in blocks.now) }
{
    let mut weight = 0;
    for block in blocks {
        if block.kept > 0 {
            weight += of_pieces(&block.pieces);
        }
    }
    weight
}

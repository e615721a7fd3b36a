//! What is kept is dropped, but of the paragraphs that are spared.

ghost use Rattle.std.specs.Prelude.{◌≡◌, ◌<◌, map as each};
ghost use Rattle.text_buffer.specs.Buffers.{Fits};
ghost use Rattle.text_buffer.specs.Pieces.{points_in, kept_of};
ghost use Rattle.text_buffer.specs.Blocks.{rows_of, pieces_in, texts_in};
ghost use Rattle.text_buffer.specs.Forgetting.{left_of};

use crate::block::Block;
use crate::rows::count_in;
use crate::spared::Spared;

/// Drops what is kept of all but these paragraphs. Only blocks that keep something are gone over.
pub fn forget_but<K: Drop>(blocks: &mut [Block<K>], spared: Spared)
    requires texts { Fits (texts_in blocks.old) }
    requires step { 0 < spared.step }
    ensures rows { each points_in (rows_of blocks.new) ≡ each points_in (rows_of blocks.old) }
    ensures texts { texts_in blocks.new ≡ texts_in blocks.old }
    ensures kept { kept_of (pieces_in blocks.new) ≡ left_of spared 0 (kept_of (pieces_in blocks.old)) }
{
    let mut before: usize = 0;
    for q in 0..blocks.len() {
        let count = count_in(blocks, q);
        blocks[q].forget_but(spared, before);
        before += count;
    }
}

//! Blocks in the order of the text.

ghost use Rattle.std.specs.Prelude.{◌≡◌, ◌+◌, ◌<◌, ◌≤◌, [], length, take, get_or, vec_len, OnOk};
ghost use Rattle.std.specs.List.{concat};
ghost use Rattle.text_buffer.specs.Buffers.{bytes_in};
ghost use Rattle.text_buffer.specs.Blocks.{rows_of, pieces_in, texts_in};

use crate::block::Block;
use bg_types::Memory;

/// How many paragraphs block q has.
pub fn count_in<K>(blocks: &[Block<K>], q: usize) -> usize
    requires { q < length blocks.now }
    ensures { result ≡ length (get_or (rows_of blocks.now) q []) }
{
    blocks[q].pieces.len()
}

/// Splits block q before its paragraph `number`. The paragraphs stay.
pub fn part_at<K: Drop>(blocks: &mut Vec<Block<K>>, q: usize, number: usize) -> Result<(), Memory>
    requires block { q < vec_len blocks.old }
    requires some { 0 < number }
    requires within { number < length (get_or (rows_of blocks.old.items) q []) }
    requires few { bytes_in (concat (texts_in blocks.old.items)) ≤ 9_000_000 }
    ensures kept { pieces_in blocks.new.items ≡ pieces_in blocks.old.items }
    ensures front { take q (rows_of blocks.new.items) ≡ take q (rows_of blocks.old.items) }
    ensures low { OnOk result (get_or (rows_of blocks.new.items) q [] ≡ take number (get_or (rows_of blocks.old.items) q [])) }
    ensures more { OnOk result (vec_len blocks.new ≡ vec_len blocks.old + 1) }
{
    blocks.reserve(1)?;
    let upper = blocks[q].part(number)?;
    blocks.insert(q + 1, upper).unwrap();
    Ok(())
}

/// Joins block q with the next one, if there is memory for that. The paragraphs stay.
pub fn join_at<K: Drop>(blocks: &mut Vec<Block<K>>, q: usize)
    requires next { q + 1 < vec_len blocks.old }
    requires few { bytes_in (concat (texts_in blocks.old.items)) ≤ 9_000_000 }
    ensures kept { pieces_in blocks.new.items ≡ pieces_in blocks.old.items }
    ensures front { take q (rows_of blocks.new.items) ≡ take q (rows_of blocks.old.items) }
{
    let next = blocks.remove(q + 1);
    let Err(next) = blocks[q].take_on(next) else {
        return;
    };
    blocks.insert(q + 1, next).unwrap();
}

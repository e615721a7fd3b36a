//! Paragraphs in the place of others, whatever blocks they stand in.

ghost use Rattle.std.specs.Prelude.{◌≡◌, ◌+◌, ◌-◌, ◌<◌, ◌≤◌, ◌++◌, [], true, length, take, drop, get_or, vec_len, IfOk, OnOk, OnErr};
ghost use Rattle.std.specs.List.{concat};
ghost use Rattle.text_buffer.specs.Buffers.{bytes_in, Fits};
ghost use Rattle.text_buffer.specs.Pieces.{points_in};
ghost use Rattle.text_buffer.specs.Blocks.{rows_of, joined, pieces_in, texts_in};
ghost use Rattle.text_buffer.specs.Places.{IsInFront, IsBlockOf};

use crate::block::Block;
use crate::find::{Before, block_of, next_to};
use crate::piece::Piece;
use crate::row::splice;
use crate::rows::{count_in, join_at, part_at};
use bg_types::Memory;
use std::alloc::Global;

/// How many paragraphs a block has at most.
const FULL: usize = 64;

/// How many paragraphs a block has where many come at once.
const HALF: usize = 32;

/// Paragraphs in blocks.
pub fn blocks_of<K: Drop>(alloc: Global, pieces: Vec<Piece<K>>) -> Result<Vec<Block<K>>, Memory>
    requires some { 0 < vec_len pieces }
    requires few { bytes_in (concat (points_in pieces.items)) ≤ 9_000_000 }
    ensures { IfOk result (λ blocks. pieces_in blocks.items ≡ pieces.items) }
{
    let mut blocks = Vec::new(alloc);
    let mut left = pieces;
    while left.len() > HALF {
        let last = left.split_off(left.len() - HALF)?;
        blocks.push(Block::of(last))?;
    }
    // It had room for all of them.
    left.shrink_to_fit();
    blocks.push(Block::of(left))?;
    // They were taken from the end, so that none was moved twice.
    blocks.reverse();
    Ok(blocks)
}

/// Puts others, at least one, in the place of paragraphs `from` up to `to`, of which the first stands in this block. What may
/// be refused comes first, but for the joining of blocks, which is then left out.
pub fn replace<K: Drop>(
    alloc: Global,
    blocks: &mut Vec<Block<K>>,
    before: Before,
    from: usize,
    to: usize,
    pieces: Vec<Piece<K>>,
) -> Result<(), Memory>
    requires block { IsBlockOf blocks.old.items before from }
    requires order { from < to }
    requires within { to ≤ length (pieces_in blocks.old.items) }
    requires some { 0 < vec_len pieces }
    requires few { bytes_in (concat (texts_in blocks.old.items)) + bytes_in (concat (points_in pieces.items)) ≤ 9_000_000 }
    requires paragraphs { length (pieces_in blocks.old.items) + vec_len pieces ≤ 9_000_000 }
    ensures ok { OnOk result (pieces_in blocks.new.items ≡ take from (pieces_in blocks.old.items) ++ (pieces.items ++ drop to (pieces_in blocks.old.items))) }
    ensures err { OnErr result (pieces_in blocks.new.items ≡ pieces_in blocks.old.items) }
    ensures front { take (before.block - 1) (rows_of blocks.new.items) ≡ take (before.block - 1) (rows_of blocks.old.items) }
{
    // These blocks come at most, beside what is left of the first and the last one.
    let more = pieces.len() / HALF + 1;
    replace_apart(alloc, blocks, before, from, to, pieces)?;
    join_sparse(
        blocks,
        before.block.saturating_sub(1),
        before.block + more + 2,
    );
    Ok(())
}

/// Puts these paragraphs in the place of those; blocks may become sparse by it.
fn replace_apart<K: Drop>(
    alloc: Global,
    blocks: &mut Vec<Block<K>>,
    before: Before,
    from: usize,
    to: usize,
    pieces: Vec<Piece<K>>,
) -> Result<(), Memory>
    requires block { IsBlockOf blocks.old.items before from }
    requires order { from < to }
    requires within { to ≤ length (pieces_in blocks.old.items) }
    requires some { 0 < vec_len pieces }
    requires few { bytes_in (concat (texts_in blocks.old.items)) + bytes_in (concat (points_in pieces.items)) ≤ 9_000_000 }
    requires paragraphs { length (pieces_in blocks.old.items) + vec_len pieces ≤ 9_000_000 }
    ensures ok { OnOk result (pieces_in blocks.new.items ≡ take from (pieces_in blocks.old.items) ++ (pieces.items ++ drop to (pieces_in blocks.old.items))) }
    ensures err { OnErr result (pieces_in blocks.new.items ≡ pieces_in blocks.old.items) }
    ensures front { take before.block (rows_of blocks.new.items) ≡ take before.block (rows_of blocks.old.items) }
{
    let count = count_in(blocks, before.block);
    if to > before.paragraphs + count || count - (to - from) + pieces.len() > FULL {
        return replace_far(alloc, blocks, before, from, to, pieces);
    }
    blocks[before.block].replace(from - before.paragraphs, to - before.paragraphs, pieces)
}

/// Joins each of these blocks with the one behind it, where the two are sparse.
fn join_sparse<K: Drop>(blocks: &mut Vec<Block<K>>, from: usize, to: usize)
    requires { bytes_in (concat (texts_in blocks.old.items)) ≤ 9_000_000 }
    ensures kept { pieces_in blocks.new.items ≡ pieces_in blocks.old.items }
    ensures front { take from (rows_of blocks.new.items) ≡ take from (rows_of blocks.old.items) }
{
    for q in (from..to).rev() {
        if is_sparse(blocks, q) {
            join_at(blocks, q);
        }
    }
}

/// Whether a block and the one behind it have no more paragraphs than a block where many come at once.
fn is_sparse<K>(blocks: &[Block<K>], q: usize) -> bool
    ensures { result ≡ true → q + 1 < length blocks.now }
{
    if blocks.len() < 2 || q > blocks.len() - 2 || count_in(blocks, q) > HALF {
        return false;
    }
    count_in(blocks, q + 1) <= HALF - count_in(blocks, q)
}

/// Puts these paragraphs in the place of some that reach into other blocks: new blocks stand in the place of all that end
/// before `to`, and what is left of the next one follows them.
fn replace_far<K: Drop>(
    alloc: Global,
    blocks: &mut Vec<Block<K>>,
    before: Before,
    from: usize,
    to: usize,
    pieces: Vec<Piece<K>>,
) -> Result<(), Memory>
    requires stands { IsInFront blocks.old.items before }
    requires reached { before.paragraphs ≤ from }
    requires here { from < before.paragraphs + length (get_or (rows_of blocks.old.items) before.block []) }
    requires order { from < to }
    requires within { to ≤ length (pieces_in blocks.old.items) }
    requires some { 0 < vec_len pieces }
    requires few { bytes_in (concat (texts_in blocks.old.items)) + bytes_in (concat (points_in pieces.items)) ≤ 9_000_000 }
    requires paragraphs { length (pieces_in blocks.old.items) + vec_len pieces ≤ 9_000_000 }
    ensures ok { OnOk result (pieces_in blocks.new.items ≡ take from (pieces_in blocks.old.items) ++ (pieces.items ++ drop to (pieces_in blocks.old.items))) }
    ensures err { OnErr result (pieces_in blocks.new.items ≡ pieces_in blocks.old.items) }
    ensures front { take before.block (rows_of blocks.new.items) ≡ take before.block (rows_of blocks.old.items) }
{
    let others = blocks_of(alloc, pieces)?;
    let count = others.len();
    let start = begin_at(blocks, before, from)?;
    let end = end_of(blocks, start, to);
    splice(blocks, start.block, end.block, others)?;
    if end.rest == 0 {
        return Ok(());
    }
    blocks[start.block + count].drop_front(end.rest);
    Ok(())
}

/// The block that begins with paragraph `number`, which stands in this one: it is split there.
fn begin_at<K: Drop>(
    blocks: &mut Vec<Block<K>>,
    before: Before,
    number: usize,
) -> Result<Before, Memory>
    requires stands { IsInFront blocks.old.items before }
    requires reached { before.paragraphs ≤ number }
    requires here { number < before.paragraphs + length (get_or (rows_of blocks.old.items) before.block []) }
    requires few { bytes_in (concat (texts_in blocks.old.items)) ≤ 9_000_000 }
    requires paragraphs { length (pieces_in blocks.old.items) ≤ 9_000_000 }
    ensures kept { pieces_in blocks.new.items ≡ pieces_in blocks.old.items }
    ensures stands { IfOk result (λ b. IsInFront blocks.new.items b) }
    ensures begins { IfOk result (λ b. b.paragraphs ≡ number) }
    ensures front { take before.block (rows_of blocks.new.items) ≡ take before.block (rows_of blocks.old.items) }
    ensures order { IfOk result (λ b. before.block ≤ b.block) }
{
    if number == before.paragraphs {
        return Ok(before);
    }
    part_at(blocks, before.block, number - before.paragraphs)?;
    Ok(next_to(blocks, before))
}

/// Where paragraphs end that go: the first block that doesn't go whole, and how many of its own do.
#[derive(Clone, Copy)]
struct End {
    block: usize,
    rest: usize,
}

/// Where the paragraphs up to `to` end, found from a block on that doesn't begin behind the last of them.
fn end_of<K>(blocks: &[Block<K>], start: Before, to: usize) -> End
    requires start { IsInFront blocks.now start }
    requires behind { start.paragraphs < to }
    requires within { to ≤ length (pieces_in blocks.now) }
    requires fits { Fits (texts_in blocks.now) }
    ensures order { start.block ≤ result.block }
    ensures within { result.block ≤ length blocks.now }
    ensures rest { 0 < result.rest → result.rest < length (get_or (rows_of blocks.now) result.block []) }
    ensures there { 0 < result.rest → result.block < length blocks.now }
    ensures behind { drop result.rest (joined (drop result.block (rows_of blocks.now))) ≡ drop to (pieces_in blocks.now) }
{
    let last = block_of(blocks, start, to - 1);
    let rest = to - last.paragraphs;
    if rest < count_in(blocks, last.block) {
        return End {
            block: last.block,
            rest,
        };
    }
    End {
        block: last.block + 1,
        rest: 0,
    }
}

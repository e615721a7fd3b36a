//! Blocks of paragraphs.

ghost use Rattle.std.specs.Prelude.{◌≡◌, ◌+◌, ◌<◌, ◌≤◌, ◌++◌, Some, length, take, drop, slice_set, vec_len, IfOk, IfErr, OnOk, OnErr};
ghost use Rattle.std.specs.List.{concat};
ghost use Rattle.text_buffer.specs.Buffers.{bytes_in};
ghost use Rattle.text_buffer.specs.Pieces.{points_in, kept_of, kept_count};
ghost use Rattle.text_buffer.specs.Forgetting.{left_of};

use crate::piece::Piece;
use crate::row::{drop_front, splice};
use crate::spared::Spared;
use bg_types::Memory;

/// How many bytes and code points some paragraphs have, and of how many of them something is kept.
#[derive(Clone, Copy)]
pub struct Sums {
    pub bytes: usize,
    pub places: usize,
    pub kept: usize,
}

/// The sums of these paragraphs.
pub fn sum_up<K>(pieces: &[Piece<K>]) -> Sums
    requires few { bytes_in (concat (points_in pieces.now)) ≤ 9_000_000 }
    ensures bytes { result.bytes ≡ bytes_in (concat (points_in pieces.now)) }
    ensures places { result.places ≡ length (concat (points_in pieces.now)) }
    ensures kept { result.kept ≡ kept_count pieces.now }
{
    let mut bytes = 0;
    let mut places = 0;
    let mut kept = 0;
    for piece in pieces {
        bytes += piece.text.as_str().len();
        places += piece.places;
        kept += piece.kept_count();
    }
    Sums {
        bytes,
        places,
        kept,
    }
}

/// Paragraphs that follow one another, at least one, with how many bytes and code points they have, and of how many of them
/// something is kept.
#[derive(Drop)]
pub struct Block<K> {
    pub pieces: Vec<Piece<K>>,
    pub bytes: usize,
    pub places: usize,
    pub kept: usize,
    ghost some: { 0 < vec_len pieces },
    ghost bytes_is: { bytes ≡ bytes_in (concat (points_in pieces.items)) },
    ghost places_is: { places ≡ length (concat (points_in pieces.items)) },
    ghost kept_is: { kept ≡ kept_count pieces.items },
}

impl<K: Drop> Block<K> {
    pub fn of(pieces: Vec<Piece<K>>) -> Block<K>
        requires some { 0 < vec_len pieces }
        requires few { bytes_in (concat (points_in pieces.items)) ≤ 9_000_000 }
        ensures { result.pieces ≡ pieces }
    {
        let sums = sum_up(&pieces);
        Block {
            pieces,
            bytes: sums.bytes,
            places: sums.places,
            kept: sums.kept,
        }
    }

    /// Its paragraphs from `number` on, which it loses.
    pub fn part(&mut self, number: usize) -> Result<Block<K>, Memory>
        requires some { 0 < number }
        requires within { number < length self.old.pieces.items }
        requires few { bytes_in (concat (points_in self.old.pieces.items)) ≤ 9_000_000 }
        ensures low { OnOk result (self.new.pieces.items ≡ take number self.old.pieces.items) }
        ensures high { IfOk result (λ upper. upper.pieces.items ≡ drop number self.old.pieces.items) }
        ensures err { OnErr result (self.new.pieces.items ≡ self.old.pieces.items) }
    {
        let upper = Block::of(self.pieces.split_off(number)?);
        // It had room for all of them.
        self.pieces.shrink_to_fit();
        self.bytes -= upper.bytes;
        self.places -= upper.places;
        self.kept -= upper.kept;
        Ok(upper)
    }

    /// Puts others, at least one, in the place of paragraphs `from` up to `to`.
    pub fn replace(&mut self, from: usize, to: usize, pieces: Vec<Piece<K>>) -> Result<(), Memory>
        requires order { from ≤ to }
        requires within { to ≤ length self.old.pieces.items }
        requires some { 0 < vec_len pieces }
        requires few { bytes_in (concat (points_in self.old.pieces.items)) + bytes_in (concat (points_in pieces.items)) ≤ 9_000_000 }
        ensures ok { OnOk result (self.new.pieces.items ≡ take from self.old.pieces.items ++ (pieces.items ++ drop to self.old.pieces.items)) }
        ensures err { OnErr result (self.new.pieces.items ≡ self.old.pieces.items) }
    {
        let gone = sum_up(&self.pieces[from..to]);
        let come = sum_up(&pieces);
        splice(&mut self.pieces, from, to, pieces)?;
        self.bytes = self.bytes - gone.bytes + come.bytes;
        self.places = self.places - gone.places + come.places;
        self.kept = self.kept - gone.kept + come.kept;
        Ok(())
    }

    /// Takes on the paragraphs of the next block, which is given back where the growth is refused.
    pub fn take_on(&mut self, next: Block<K>) -> Result<(), Block<K>>
        requires few { bytes_in (concat (points_in self.old.pieces.items)) + bytes_in (concat (points_in next.pieces.items)) ≤ 9_000_000 }
        ensures ok { OnOk result (self.new.pieces.items ≡ self.old.pieces.items ++ next.pieces.items) }
        ensures err { OnErr result (self.new.pieces.items ≡ self.old.pieces.items) }
        ensures back { IfErr result (λ block. block.pieces.items ≡ next.pieces.items) }
    {
        let Block {
            mut pieces,
            bytes,
            places,
            kept,
        } = next;
        if self.pieces.append(&mut pieces).is_err() {
            return Err(Block {
                pieces,
                bytes,
                places,
                kept,
            });
        }
        self.bytes += bytes;
        self.places += places;
        self.kept += kept;
        Ok(())
    }

    /// Takes its first `count` paragraphs away, of which it has more.
    pub fn drop_front(&mut self, count: usize)
        requires within { count < length self.old.pieces.items }
        requires few { bytes_in (concat (points_in self.old.pieces.items)) ≤ 9_000_000 }
        ensures { self.new.pieces.items ≡ drop count self.old.pieces.items }
    {
        let gone = sum_up(&self.pieces[..count]);
        drop_front(&mut self.pieces, count);
        self.bytes -= gone.bytes;
        self.places -= gone.places;
        self.kept -= gone.kept;
    }

    /// Keeps a value beside paragraph `number`.
    pub fn keep(&mut self, number: usize, value: K)
        requires { number < length self.old.pieces.items }
        ensures points { points_in self.new.pieces.items ≡ points_in self.old.pieces.items }
        ensures kept { kept_of self.new.pieces.items ≡ slice_set (kept_of self.old.pieces.items) number (Some value) }
    {
        let was = self.pieces[number].kept_count();
        let piece = &mut self.pieces[number];
        piece.kept = Some(value);
        self.kept = self.kept - was + 1;
    }

    /// Drops what is kept of all but these of its paragraphs, of which the first has this number.
    #[inline(always)]
    pub fn forget_but(&mut self, spared: Spared, first: usize)
        requires few { bytes_in (concat (points_in self.old.pieces.items)) ≤ 9_000_000 }
        requires step { 0 < spared.step }
        requires first { first ≤ 9_000_000 }
        ensures points { points_in self.new.pieces.items ≡ points_in self.old.pieces.items }
        ensures kept { kept_of self.new.pieces.items ≡ left_of spared first (kept_of self.old.pieces.items) }
    {
        if self.kept == 0 {
            return;
        }
        forget_outside(&mut self.pieces, spared, first);
        self.kept = sum_up(&self.pieces).kept;
    }
}

/// Drops what is kept of all but these paragraphs, of which the first has this number.
fn forget_outside<K: Drop>(pieces: &mut [Piece<K>], spared: Spared, first: usize)
    requires step { 0 < spared.step }
    requires first { first ≤ 9_000_000 }
    ensures points { points_in pieces.new ≡ points_in pieces.old }
    ensures kept { kept_of pieces.new ≡ left_of spared first (kept_of pieces.old) }
{
    for number in 0..pieces.len() {
        pieces[number].forget_unless(spared, first + number);
    }
}

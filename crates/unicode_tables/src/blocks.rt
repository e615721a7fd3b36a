//! A value for each code point, in blocks of 256.

ghost use Rattle.std.specs.Prelude.{◌≡◌, ℕ, ◌+◌, ◌*◌, ◌<◌, ◌≤◌, ◌&&◌, nat_le, nat_lt, true, if◌then◌else◌, vec_len, IfOk, OnOk, OnErr, slice_index_or};
ghost use Rattle.unicode_tables.specs.Blocks.{value_at, value_in, is_paged, IsWhole};

use crate::page::{BLOCK, Page, fill};
use std::alloc::{AllocError, Global};

/// How many blocks there are: the last code point is 10FFFF.
pub(crate) const BLOCKS: usize = 4352;

/// A value for each code point. All code points of a block have one value, or the block is paged: then they have those of
/// its page. A block that gets one value again keeps its page's memory.
#[derive(Drop)]
pub(crate) struct Blocks<V> {
    pub(crate) values: Vec<V>,
    pub(crate) paged: Vec<bool>,
    pub(crate) pages: Vec<Page<V>>,
}

/// As many pages as there are blocks, each without values.
fn empty_pages<V: Copy>(alloc: Global) -> Result<Vec<Page<V>>, AllocError>
    ensures { IfOk result (λ pages. vec_len pages ≡ 4352) }
{
    let mut pages = Vec::with_capacity(alloc, BLOCKS)?;
    for _ in 0..BLOCKS {
        pages.push(Page::empty(alloc))?;
    }
    Ok(pages)
}

impl<V: Copy> Blocks<V> {
    /// One value for all code points.
    pub(crate) fn of(alloc: Global, value: V) -> Result<Blocks<V>, AllocError>
        ensures whole { IfOk result (λ blocks. IsWhole blocks) }
        ensures value { IfOk result (λ blocks. (c : ℕ) (d : V) → c < 0x110000 → value_in blocks c d ≡ value) }
    {
        let mut values = Vec::new(alloc);
        values.resize(BLOCKS, value)?;
        let mut paged = Vec::new(alloc);
        paged.resize(BLOCKS, false)?;
        let pages = empty_pages(alloc)?;
        Ok(Blocks {
            values,
            paged,
            pages,
        })
    }

    /// The value at a place of a block.
    #[inline]
    pub(crate) fn in_block(&self, block: usize, place: usize) -> V
        requires whole { IsWhole self.now }
        requires block { block < 4352 }
        requires place { place < 256 }
        ensures { (d : V) → result ≡ value_at self.now.paged.items self.now.pages.items self.now.values.items block place d }
    {
        if self.paged[block] {
            return self.pages[block].at(place);
        }
        self.values[block]
    }

    /// The value of a code point.
    #[inline]
    pub(crate) fn at(&self, c: usize) -> V
        requires whole { IsWhole self.now }
        requires code_point { c < 0x110000 }
        ensures { (d : V) → result ≡ value_in self.now c d }
    {
        self.in_block(c / BLOCK, c % BLOCK)
    }

    /// Gives a block a page. Each code point keeps its value.
    fn give_page(&mut self, block: usize) -> Result<(), AllocError>
        requires whole { IsWhole self.old }
        requires block { block < 4352 }
        ensures whole { IsWhole self.new }
        ensures same { (c : ℕ) (d : V) → value_in self.new c d ≡ value_in self.old c d }
        ensures paged { OnOk result (is_paged self.new block ≡ true) }
        ensures others { (b : ℕ) → is_paged self.old b ≡ true → is_paged self.new b ≡ true }
    {
        if self.paged[block] {
            return Ok(());
        }
        let value = self.values[block];
        self.pages[block].set_all(value)?;
        self.paged[block] = true;
        Ok(())
    }

    /// Gives the code points of a paged block from one up to another this value.
    fn set_part(&mut self, block: usize, from: usize, to: usize, value: V)
        requires whole { IsWhole self.old }
        requires block { block < 4352 }
        requires paged { is_paged self.old block ≡ true }
        requires within { to ≤ 256 }
        ensures whole { IsWhole self.new }
        ensures value { (c : ℕ) (d : V) → value_in self.new c d
            ≡ (if nat_le (block * 256 + from) c && nat_lt c (block * 256 + to) then value else value_in self.old c d) }
        ensures paged { (b : ℕ) → is_paged self.new b ≡ is_paged self.old b }
    {
        self.pages[block].set(from, to, value);
    }

    /// Gives the blocks from one up to another this one value.
    fn set_whole(&mut self, from: usize, to: usize, value: V)
        requires whole { IsWhole self.old }
        requires within { to ≤ 4352 }
        ensures whole { IsWhole self.new }
        ensures value { (c : ℕ) (d : V) → c < 0x110000 → value_in self.new c d
            ≡ (if nat_le (from * 256) c && nat_lt c (to * 256) then value else value_in self.old c d) }
    {
        fill(&mut self.values, from, to, value);
        fill(&mut self.paged, from, to, false);
    }

    /// Gives the code points from `first` to `last` this value.
    pub(crate) fn set(&mut self, first: usize, last: usize, value: V) -> Result<(), AllocError>
        requires whole { IsWhole self.old }
        requires rising { first ≤ last }
        requires last { last < 0x110000 }
        ensures whole { IsWhole self.new }
        ensures ok { OnOk result ((c : ℕ) (d : V) → c < 0x110000 → value_in self.new c d
            ≡ (if nat_le first c && nat_le c last then value else value_in self.old c d)) }
        ensures err { OnErr result ((c : ℕ) (d : V) → value_in self.new c d ≡ value_in self.old c d) }
    {
        let front = first / BLOCK;
        let back = last / BLOCK;
        self.give_page(front)?;
        self.give_page(back)?;
        if front == back {
            self.set_part(front, first % BLOCK, last % BLOCK + 1, value);
            return Ok(());
        }
        self.set_part(front, first % BLOCK, BLOCK, value);
        self.set_part(back, 0, last % BLOCK + 1, value);
        self.set_whole(front + 1, back, value);
        Ok(())
    }
}

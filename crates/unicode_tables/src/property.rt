//! A property of code points.

ghost use Rattle.std.specs.Prelude.{◌≡◌, ℕ, ◌+◌, ◌*◌, ◌<◌, ◌&&◌, nat_le, true, if◌then◌else◌, IfOk, OnOk, OnErr, slice_index_or};
ghost use Rattle.unicode_tables.specs.Tables.{each_code_point};

use crate::blocks::Blocks;
use crate::page::BLOCK;
use bg_types::Memory;
use std::alloc::Global;
use std::marker::Model;

/// The last code point.
const LAST: u32 = 0x10FFFF;

/// A property of code points (UAX #44): a value for each. It is made range by range, as data files give it, and takes
/// memory for the blocks of 256 code points that don't have one value.
#[derive(Drop)]
pub struct Property<V> {
    blocks: Blocks<V>,
    first: V,
}

impl<V> Model for Property<V> {
    ghost use Rattle.std.specs.Prelude.{List};
    ghost use Rattle.unicode_tables.specs.Tables.{each_code_point};

    ghost Value = { List V };

    ghost use Rattle.unicode_tables.specs.Blocks.{value_in, IsWhole};

    ghost view = { λ p. each_code_point (λ c. value_in p.blocks c p.first) };

    ghost invariant = { λ p. IsWhole p.blocks };
}

impl<V: Copy> Property<V> {
    /// The property whose value is the same everywhere.
    /// Cost: O(1), memory for a value a block of 256 code points.
    pub fn of(alloc: Global, value: V) -> Result<Property<V>, Memory>
        ensures { IfOk result (λ property. property ≡ each_code_point (λ _. value)) }
    {
        let blocks = Blocks::of(alloc, value)?;
        Ok(Property {
            blocks,
            first: value,
        })
    }

    /// Gives the code points from `first` to `last` this value, if there are any. After an error each has the value
    /// that it had.
    /// Cost: O(1), a step for each block of the range; memory for two pages of 256 values.
    pub fn set(&mut self, first: u32, last: u32, value: V) -> Result<(), Memory>
        ensures ok { OnOk result ((c : ℕ) (d : V) → c < 0x110000 → slice_index_or self.new c d
            ≡ (if nat_le first c && nat_le c last then value else slice_index_or self.old c d)) }
        ensures err { OnErr result (self.new ≡ self.old) }
    {
        let last = last.min(LAST);
        if first > last {
            return Ok(());
        }
        self.blocks.set(first as usize, last as usize, value)?;
        Ok(())
    }

    /// The value of a character.
    #[inline]
    pub fn get(&self, c: char) -> V
        ensures { (d : V) → result ≡ slice_index_or self.now c d }
    {
        self.blocks.at(c as usize)
    }

    /// The value of a code point.
    #[inline]
    pub(crate) fn at(&self, c: usize) -> V
        requires { c < 0x110000 }
        ensures { (d : V) → result ≡ slice_index_or self.now c d }
    {
        self.blocks.at(c)
    }

    /// The value at a place of a block.
    #[inline]
    pub(crate) fn in_block(&self, block: usize, place: usize) -> V
        requires block { block < 4352 }
        requires place { place < 256 }
        ensures { (d : V) → result ≡ slice_index_or self.now (block * 256 + place) d }
    {
        self.blocks.in_block(block, place)
    }

    /// Whether a block is known to have one value.
    pub(crate) fn is_even(&self, block: usize) -> bool
        requires { block < 4352 }
        ensures { result ≡ true → (k : ℕ) (d : V) → k < 256
            → slice_index_or self.now (block * 256 + k) d ≡ slice_index_or self.now (block * 256) d }
    {
        !self.blocks.paged[block]
    }
}

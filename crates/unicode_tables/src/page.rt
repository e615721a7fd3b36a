//! The values of a block, code point by code point.

ghost use Rattle.std.specs.Prelude.{◌≡◌, ℕ, ◌<◌, ◌≤◌, ◌&&◌, nat_le, nat_lt, [], length, if◌then◌else◌, OnOk, slice_index_or};

use std::alloc::{AllocError, Global};
use std::marker::Model;

/// How many code points a block has.
pub(crate) const BLOCK: usize = 256;

/// Writes a value at the places from one up to another.
pub(crate) fn fill<V: Copy>(row: &mut [V], from: usize, to: usize, value: V)
    requires { to ≤ length row.old }
    ensures value { (k : ℕ) (d : V) → slice_index_or row.new k d
        ≡ (if nat_le from k && nat_lt k to then value else slice_index_or row.old k d) }
    ensures len { length row.new ≡ length row.old }
{
    for k in from..to {
        row[k] = value;
    }
}

/// A value for each code point of a block, or none.
#[derive(Drop)]
pub(crate) struct Page<V> {
    values: Vec<V>,
}

impl<V> Model for Page<V> {
    ghost use Rattle.std.specs.Prelude.{List};

    ghost Value = { List V };

    ghost view = { λ p. p.values.items };
}

impl<V: Copy> Page<V> {
    /// A page without values, which takes no memory.
    pub(crate) fn empty(alloc: Global) -> Page<V>
        ensures { result ≡ [] }
    {
        Page {
            values: Vec::new(alloc),
        }
    }

    /// Gives each code point of the block this value. After an error it has no values.
    pub(crate) fn set_all(&mut self, value: V) -> Result<(), AllocError>
        ensures len { OnOk result (length self.new ≡ 256) }
        ensures value { OnOk result ((k : ℕ) (d : V) → k < 256 → slice_index_or self.new k d ≡ value) }
    {
        self.values.clear();
        self.values.resize(BLOCK, value)?;
        Ok(())
    }

    /// Gives the code points from one of the block up to another this value.
    pub(crate) fn set(&mut self, from: usize, to: usize, value: V)
        requires { to ≤ length self.old }
        ensures value { (k : ℕ) (d : V) → slice_index_or self.new k d
            ≡ (if nat_le from k && nat_lt k to then value else slice_index_or self.old k d) }
        ensures len { length self.new ≡ length self.old }
    {
        fill(&mut self.values, from, to, value);
    }

    /// The value of a code point of the block.
    #[inline]
    pub(crate) fn at(&self, place: usize) -> V
        requires { place < length self.now }
        ensures { (d : V) → result ≡ slice_index_or self.now place d }
    {
        self.values[place]
    }
}

//! Looking for a visible element block by block, with a count of the looks.

ghost use Rattle.std.specs.Prelude.{◌≡◌, ◌+◌, ◌-◌, ◌<◌, ◌≤◌, ◌^◌, ℕ, List, length, take, drop, filter, not, false, slice_get, get_or, [], Some};
ghost use Rattle.rga_tree.specs.declared.element.Element.{Element};
ghost use Rattle.rga_sequence.specs.Blocks.{seen, seen_all, joined, FindsBy, IsVisiblePlace};

use rga_tree::Element;

/// How many elements are passed together at least. Of fewer each is looked at alone, so that no step leads over one.
const FEWEST_ELEMENTS: usize = 16;

/// How many elements are counted together at most: as many as a byte can count.
const COUNTED: usize = 255;

/// A row of blocks of at most 512 elements each, which counts how often it is looked at. Blocks,
/// and elements of a block, are counted from 0.
pub trait Look {
    /// The elements of each block.
    ghost blocks: { Self → List (List Element) };

    /// How often it was looked at.
    ghost looked: { Self → ℕ };

    /// What else callers know of it. No look changes that.
    ghost aside: { Self → ℕ } = { λ _. 0 };

    /// How many elements of block b are visible. This is one look.
    fn header(&mut self, b: usize) -> usize
        requires there { b < length (blocks self.old) }
        requires room { looked self.old + 1 < 2 ^ 64 }
        ensures value { result ≡ seen (get_or (blocks self.old) b []) }
        ensures looks { looked self.new ≡ looked self.old + 1 }
        ensures content { blocks self.new ≡ blocks self.old }
        ensures aside { aside self.new ≡ aside self.old };

    /// Passes neighbouring blocks whole, from the front, as far as it is known how many of their elements are visible
    /// together and k isn't among them: how many blocks these are, and how many of the k elements before k are left. This is a
    /// look at the header of each.
    /// Cost: O(n / 32) of the blocks.
    fn pass(&mut self, k: usize) -> (usize, usize)
        requires room { looked self.old + length (blocks self.old) < 2 ^ 64 }
        ensures there { result.0 ≤ length (blocks self.old) }
        ensures before { seen_all (take result.0 (blocks self.old)) + result.1 ≡ k }
        ensures looks { looked self.new ≡ looked self.old + result.0 }
        ensures content { blocks self.new ≡ blocks self.old }
        ensures aside { aside self.new ≡ aside self.old };

    /// Element j of block b. This is one look.
    fn element(&mut self, b: usize, j: usize) -> Element
        requires there { j < length (get_or (blocks self.old) b []) }
        requires room { looked self.old + 1 < 2 ^ 64 }
        ensures value { slice_get (get_or (blocks self.old) b []) j ≡ Some result }
        ensures looks { looked self.new ≡ looked self.old + 1 }
        ensures content { blocks self.new ≡ blocks self.old }
        ensures aside { aside self.new ≡ aside self.old };

    /// How many of at most 255 elements of block b, from one up to another, which is left out, are
    /// visible, where its header says how many of all are. This is a look at each.
    /// Cost: O(n) of the elements.
    fn visible_in(&mut self, b: usize, visible: usize, from: usize, to: usize) -> usize
        requires block { b < length (blocks self.old) }
        requires order { from ≤ to }
        requires there { to ≤ length (get_or (blocks self.old) b []) }
        requires few { to ≤ from + 255 }
        requires visible { visible ≡ seen (get_or (blocks self.old) b []) }
        requires room { looked self.old + (to - from) < 2 ^ 64 }
        ensures value { result ≡ seen (take (to - from) (drop from (get_or (blocks self.old) b []))) }
        ensures looks { looked self.new ≡ looked self.old + (to - from) }
        ensures content { blocks self.new ≡ blocks self.old }
        ensures aside { aside self.new ≡ aside self.old };

    /// How often it was looked at.
    fn looks(&self) -> u64
        ensures { result ≡ looked self.now };

    /// No block is long.
    ghost few: { (s : Self) (b : ℕ) → length (get_or (blocks s) b []) ≤ 512 };
}

/// Visible element k. Looks at as much as `find_spot` does.
/// Cost: O(n / 256 + 512).
pub fn find<L: Look>(row: &mut L, k: usize) -> Element
    requires there { k < seen_all (L.blocks row.old) }
    requires room { L.looked row.old + length (L.blocks row.old) + 512 < 2 ^ 64 }
    ensures value { slice_get (filter (λ e. not e.hidden) (joined (L.blocks row.old))) k ≡ Some result }
    ensures looks { (n : ℕ) × FindsBy (L.blocks row.old) k result n
        × (L.looked row.new ≡ L.looked row.old + n) }
    ensures content { L.blocks row.new ≡ L.blocks row.old }
    ensures aside { L.aside row.new ≡ L.aside row.old }
{
    find_spot(row, k).2
}

/// The block of visible element k, its place there, and the element. Looks at the header of each block up to that one,
/// and at each element there up to it: as often as the place of the block and the place of the element in it together
/// say, both counted from 1.
#[inline(always)]
pub fn find_spot<L: Look>(row: &mut L, k: usize) -> (usize, usize, Element)
    requires there { k < seen_all (L.blocks row.old) }
    requires room { L.looked row.old + length (L.blocks row.old) + 512 < 2 ^ 64 }
    ensures place { IsVisiblePlace (L.blocks row.old) k result.0 result.1 result.2 }
    ensures looks { L.looked row.new ≡ L.looked row.old + ((result.0 + 1) + (result.1 + 1)) }
    ensures content { L.blocks row.new ≡ L.blocks row.old }
    ensures aside { L.aside row.new ≡ L.aside row.old }
{
    let (b, visible, left) = block_of(row, k);
    let (at, element) = element_of(row, b, visible, left);
    (b, at, element)
}

/// The block in which visible element k stands, how many visible ones it has, and how many of them are before it there.
#[inline(always)]
fn block_of<L: Look>(row: &mut L, k: usize) -> (usize, usize, usize)
    requires there { k < seen_all (L.blocks row.old) }
    requires room { L.looked row.old + length (L.blocks row.old) < 2 ^ 64 }
    ensures there { result.0 < length (L.blocks row.old) }
    ensures visible { result.1 ≡ seen (get_or (L.blocks row.old) result.0 []) }
    ensures left { result.2 < result.1 }
    ensures before { seen_all (take result.0 (L.blocks row.old)) + result.2 ≡ k }
    ensures looks { L.looked row.new ≡ L.looked row.old + (result.0 + 1) }
    ensures content { L.blocks row.new ≡ L.blocks row.old }
    ensures aside { L.aside row.new ≡ L.aside row.old }
{
    let (mut b, mut left) = row.pass(k);
    let mut visible = row.header(b);
    while visible <= left {
        left -= visible;
        b += 1;
        visible = row.header(b);
    }
    (b, visible, left)
}

/// The place of a visible element in its block, and the element. As many elements as visible ones are left before it are
/// passed at once, or as many as can be counted.
#[inline(always)]
fn element_of<L: Look>(row: &mut L, b: usize, visible: usize, k: usize) -> (usize, Element)
    requires block { b < length (L.blocks row.old) }
    requires visible { visible ≡ seen (get_or (L.blocks row.old) b []) }
    requires there { k < visible }
    requires few { length (get_or (L.blocks row.old) b []) ≤ 512 }
    requires room { L.looked row.old + 512 < 2 ^ 64 }
    ensures there { slice_get (get_or (L.blocks row.old) b []) result.0 ≡ Some result.1 }
    ensures visible { result.1.hidden ≡ false }
    ensures before { seen (take result.0 (get_or (L.blocks row.old) b [])) ≡ k }
    ensures looks { L.looked row.new ≡ L.looked row.old + (result.0 + 1) }
    ensures content { L.blocks row.new ≡ L.blocks row.old }
    ensures aside { L.aside row.new ≡ L.aside row.old }
{
    let mut at = 0;
    let mut left = k;
    while left >= FEWEST_ELEMENTS {
        let end = at + left.min(COUNTED);
        left -= row.visible_in(b, visible, at, end);
        at = end;
    }
    visible_from(row, b, at, left)
}

/// The place of the visible element that has k visible ones between it and a place of its block, and the element.
fn visible_from<L: Look>(row: &mut L, b: usize, from: usize, k: usize) -> (usize, Element)
    requires there { seen (take from (get_or (L.blocks row.old) b [])) + k < seen (get_or (L.blocks row.old) b []) }
    requires room { L.looked row.old + (length (get_or (L.blocks row.old) b []) - from) < 2 ^ 64 }
    ensures there { slice_get (get_or (L.blocks row.old) b []) result.0 ≡ Some result.1 }
    ensures visible { result.1.hidden ≡ false }
    ensures before { seen (take result.0 (get_or (L.blocks row.old) b [])) ≡ seen (take from (get_or (L.blocks row.old) b [])) + k }
    ensures looks { L.looked row.new + from ≡ L.looked row.old + (result.0 + 1) }
    ensures content { L.blocks row.new ≡ L.blocks row.old }
    ensures aside { L.aside row.new ≡ L.aside row.old }
{
    let mut found = first_visible(row, b, from);
    for _ in 0..k {
        found = first_visible(row, b, found.0 + 1);
    }
    found
}

/// The place of the first visible element of a block from one on, and the element.
fn first_visible<L: Look>(row: &mut L, b: usize, from: usize) -> (usize, Element)
    requires there { seen (take from (get_or (L.blocks row.old) b [])) < seen (get_or (L.blocks row.old) b []) }
    requires room { L.looked row.old + (length (get_or (L.blocks row.old) b []) - from) < 2 ^ 64 }
    ensures there { slice_get (get_or (L.blocks row.old) b []) result.0 ≡ Some result.1 }
    ensures visible { result.1.hidden ≡ false }
    ensures before { seen (take result.0 (get_or (L.blocks row.old) b [])) ≡ seen (take from (get_or (L.blocks row.old) b [])) }
    ensures looks { L.looked row.new + from ≡ L.looked row.old + (result.0 + 1) }
    ensures content { L.blocks row.new ≡ L.blocks row.old }
    ensures aside { L.aside row.new ≡ L.aside row.old }
{
    let mut at = from;
    let mut element = row.element(b, at);
    while element.hidden {
        at += 1;
        element = row.element(b, at);
    }
    (at, element)
}

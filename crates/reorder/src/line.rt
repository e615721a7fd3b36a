//! The levels of a line's code points and clusters: L1.

ghost use Rattle.std.specs.Prelude.{◌≡◌, ℕ, ◌-◌, ◌<◌, ◌≤◌, ◌++◌, true, false, length, sum, take, drop, replicate, slice_index_or, All, IfOk, OnOk};
ghost use Rattle.std.specs.List.{list_any};
ghost use Rattle.std.specs.Str.{chars};
ghost use Rattle.bg_types.specs.declared.class.Bidi.TheVariants.{L};
ghost use Rattle.reorder.specs.LineLevels.{is_separator, may_be_reset, levels_after_l1, line_levels_of};

use bg_types::{Bidi, Memory};
use std::alloc::Global;
use unicode_tables::Tables;

/// How many classes are looked at together.
const BLOCK: usize = 16;

/// Whether L1 resets a code point of a class at the line's end, and before one that it resets.
#[tactic(auto, unfolding(crate::specs::LineLevels::is_separator, crate::specs::LineLevels::is_run_class, bg_types::specs::Classes::is_removed, bg_types::specs::Classes::is_isolate_control))]
#[inline]
fn may_be_reset(class: Bidi) -> bool
    ensures { result ≡ may_be_reset class }
{
    matches!(
        class,
        Bidi::S
            | Bidi::B
            | Bidi::Ws
            | Bidi::Lri
            | Bidi::Rli
            | Bidi::Fsi
            | Bidi::Pdi
            | Bidi::Lre
            | Bidi::Rle
            | Bidi::Lro
            | Bidi::Rlo
            | Bidi::Pdf
            | Bidi::Bn
    )
}

#[tactic(auto, unfolding(crate::specs::LineLevels::is_separator))]
#[inline]
fn is_separator(class: Bidi) -> bool
    ensures { result ≡ is_separator class }
{
    matches!(class, Bidi::S | Bidi::B)
}

/// Whether one of some classes is a separator's.
#[inline]
fn has_separator(classes: &[Bidi]) -> bool
    ensures { result ≡ list_any is_separator classes.now }
{
    // A loop that ends at none of them looks at sixteen at once.
    let mut found = false;
    for class in classes {
        found |= is_separator(*class);
    }
    found
}

/// A place from which on there is no separator before `end`: blocks without one are passed.
#[inline]
fn pass_blocks(classes: &[Bidi], end: usize) -> usize
    requires { end ≤ length classes.now }
    ensures within { result ≤ end }
    ensures passed { (k : ℕ) → result ≤ k → k < end → is_separator (slice_index_or classes.now k L) ≡ false }
{
    let mut start = end;
    while start >= BLOCK && !has_separator(&classes[start - BLOCK..start]) {
        start -= BLOCK;
    }
    start
}

/// The place behind the last separator before `end`, or 0 where there is none.
#[inline]
fn separator_end(classes: &[Bidi], end: usize) -> usize
    requires { end ≤ length classes.now }
    ensures within { result ≤ end }
    ensures passed { (k : ℕ) → result ≤ k → k < end → is_separator (slice_index_or classes.now k L) ≡ false }
    ensures separator { 0 < result → is_separator (slice_index_or classes.now (result - 1) L) ≡ true }
{
    let mut place = pass_blocks(classes, end);
    while place > 0 && !is_separator(classes[place - 1]) {
        place -= 1;
    }
    place
}

/// Puts the paragraph level at the places right before `end` that may be reset. Returns the first of them, or `end`.
#[inline]
fn reset_before(after: &mut [u8], classes: &[Bidi], end: usize, para_level: u8) -> usize
    requires levels { length after.old ≡ length classes.now }
    requires end { end ≤ length classes.now }
    ensures within { result ≤ end }
    ensures reset { (k : ℕ) → result ≤ k → k < end → may_be_reset (slice_index_or classes.now k L) ≡ true }
    ensures kept { 0 < result → may_be_reset (slice_index_or classes.now (result - 1) L) ≡ false }
    ensures levels { after.new ≡ take result after.old ++ replicate (end - result) para_level ++ drop end after.old }
{
    let mut start = end;
    while start > 0 && may_be_reset(classes[start - 1]) {
        start -= 1;
        after[start] = para_level;
    }
    start
}

/// Puts into a list, in place of what it has, the level of each code point of a line after L1, by their classes and their
/// levels before. Never inlined: as a part of its caller its loop would have fewer registers.
/// Cost: O(n), a byte of memory a code point.
#[inline(never)]
pub fn levels_after_l1(
    after: &mut Vec<u8>,
    classes: &[Bidi],
    levels: &[u8],
    para_level: u8,
) -> Result<(), Memory>
    requires { length levels.now ≡ length classes.now }
    ensures { OnOk result (after.new.items ≡ levels_after_l1 para_level classes.now levels.now) }
{
    after.clear();
    after.extend_from_slice(levels)?;
    let mut end = classes.len();
    while end > 0 {
        let start = reset_before(after, classes, end, para_level);
        end = separator_end(classes, start);
    }
    Ok(())
}

/// A level for each cluster of a line (UAX #9, L1): that of its first code point.
///
/// `levels` has a level for each code point of the line, and `sizes` the number of code points of each cluster.
/// Cost: O(n), a byte of memory a code point and a cluster.
pub fn line_levels(
    alloc: Global,
    tables: &Tables,
    line: &str,
    levels: &[u8],
    sizes: &[u32],
    para_level: u8,
) -> Result<Vec<u8>, Memory>
    requires each_code_point { length levels.now ≡ length (chars line.now) }
    requires positive { All (λ size. 0 < size) sizes.now }
    requires whole { sum sizes.now ≡ length (chars line.now) }
    ensures { IfOk result (λ of_clusters. of_clusters.items ≡ line_levels_of tables.now line.now levels.now sizes.now para_level) }
{
    let classes = tables.bidi_of_text(alloc, line)?;
    let mut after = Vec::new(alloc);
    levels_after_l1(&mut after, &classes, levels, para_level)?;
    let mut firsts = Vec::with_capacity(alloc, sizes.len())?;
    let mut start = 0usize;
    for size in sizes {
        firsts.push(after[start])?;
        start += *size as usize;
    }
    Ok(firsts)
}

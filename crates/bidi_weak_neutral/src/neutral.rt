//! 3.3.5 and 3.3.6 Resolving Neutral and Isolate Formatting Types, and Implicit Levels: N1, N2, I1, I2.

ghost use Rattle.std.specs.Prelude.{◌≡◌, ℕ, ◌-◌, ◌<◌, ◌≤◌, ◌++◌, true, not, length, map, replicate, take, drop, slice_index_or};
ghost use Rattle.bg_types.specs.declared.class.Bidi.{Bidi};
ghost use Rattle.bg_types.specs.declared.class.Bidi.TheVariants.{L};
ghost use Rattle.bidi_weak_neutral.specs.Classes.{is_neutral};
ghost use Rattle.bidi_weak_neutral.specs.Context.{nearest};
ghost use Rattle.bidi_weak_neutral.specs.Neutral.{n1, n2, i1, i2, implicit_level};
ghost use Rattle.bidi_weak_neutral.specs.Pass.{neutral_type};

use crate::class::{direction, embedding_direction, is_neutral, is_number, type_at};
use bg_types::Bidi;

/// The first place from `start` on whose type isn't neutral.
fn run_end(types: &[Bidi], start: usize) -> usize
    requires { start ≤ length types.now }
    ensures from { start ≤ result }
    ensures within { result ≤ length types.now }
    ensures run { (k : ℕ) → start ≤ k → k < result → is_neutral (slice_index_or types.now k L) ≡ true }
    ensures end { (d : Bidi) → nearest (λ x. not (is_neutral x)) d (drop start types.now) ≡ slice_index_or types.now result d }
{
    let mut end = start;
    while end < types.len() && is_neutral(types[end]) {
        end += 1;
    }
    end
}

/// The type that N1 and N2 give each neutral of a run between two types: the direction of both, or else the embedding direction.
#[inline]
fn neutral_type(level: u8, before: Bidi, after: Bidi) -> Bidi
    ensures { result ≡ neutral_type level before after }
{
    let side = direction(before);
    if side == direction(after) && !is_neutral(side) {
        side
    } else {
        embedding_direction(level)
    }
}

/// I1: the level of a type in a sequence of an even level.
#[inline]
fn i1(level: u8, class: Bidi) -> u8
    requires { level ≤ 124 }
    ensures { result ≡ i1 level class }
{
    if class == Bidi::R {
        level + 1
    } else if is_number(class) {
        level + 2
    } else {
        level
    }
}

/// I2: the level of a type in a sequence of an odd level.
#[inline]
fn i2(level: u8, class: Bidi) -> u8
    requires { level ≤ 125 }
    ensures { result ≡ i2 level class }
{
    if class == Bidi::L || is_number(class) {
        level + 1
    } else {
        level
    }
}

/// I1 and I2: the level of a type in a sequence of this level.
#[inline]
fn implicit_level(level: u8, class: Bidi) -> u8
    requires { level ≤ 125 }
    ensures level { result ≡ implicit_level level class }
    ensures bound { result ≤ 126 }
{
    if level % 2 == 1 {
        i2(level, class)
    } else {
        i1(level, class)
    }
}

/// Puts a level at a place, and at those of its class that follow it directly. Returns the place behind them.
#[inline(always)]
fn put_row(levels: &mut [u8], types: &[Bidi], start: usize, class: Bidi, level: u8) -> usize
    requires start { start < length types.now }
    requires levels { length levels.old ≡ length types.now }
    ensures from { start < result }
    ensures within { result ≤ length types.now }
    ensures row { (k : ℕ) → start < k → k < result → slice_index_or types.now k L ≡ class }
    ensures levels { take result levels.new ≡ take start levels.old ++ replicate (result - start) level }
{
    levels[start] = level;
    let mut end = start + 1;
    while end < types.len() && types[end] == class {
        levels[end] = level;
        end += 1;
    }
    end
}

/// Puts the level of each type of a sequence (N1, N2, I1, I2).
pub(crate) fn put_levels(levels: &mut [u8], types: &[Bidi], level: u8, sos: Bidi, eos: Bidi)
    requires types { length types.now ≡ length levels.old }
    requires level { level ≤ 125 }
    ensures { levels.new ≡ map (implicit_level level) (n2 level (n1 sos eos types.now)) }
{
    let mut before = sos;
    let mut end = 0;
    let mut neutral = level;
    let mut k = 0;
    while k < types.len() {
        let class = types[k];
        if !is_neutral(class) {
            before = class;
            k = put_row(levels, types, k, class, implicit_level(level, class));
            continue;
        }
        if end <= k {
            end = run_end(types, k + 1);
            let after = type_at(types, end, eos);
            neutral = implicit_level(level, neutral_type(level, before, after));
        }
        levels[k] = neutral;
        k += 1;
    }
}

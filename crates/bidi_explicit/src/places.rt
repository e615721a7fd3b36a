//! The explicit level and class of each place (UAX #9, X1 to X9).

ghost use Rattle.std.specs.Prelude.{◌≡◌, ℕ, ◌<◌, ◌≤◌, ◌++◌, OnOk, false, length, map, slice_index_or, slice_range, take};
ghost use Rattle.std.specs.List.{list_any};
ghost use Rattle.bg_types.specs.declared.class.Bidi.TheVariants.{L};
ghost use Rattle.bidi_explicit.specs.Levels.{place_of, kept_under, explicit_places};
ghost use Rattle.bidi_explicit.specs.Uniform.{is_apart};
ghost use Rattle.bidi_explicit.specs.Controls.{controls_from};

use crate::class::{BLOCK, is_control};
use crate::controls::Control;
use crate::kept::Kept;
use crate::kind::Direction;
use crate::stack::LevelStack;
use bg_types::{Bidi, Memory};

/// A place of a class under a direction, in a paragraph of this level.
#[tactic(auto, unfolding(paragraphs::specs::Classes::is_separator))]
fn place_of(level: u8, direction: Direction, class: Bidi) -> Option<Kept>
    ensures { result ≡ place_of level direction class }
{
    if class.is_removed() {
        None
    } else if matches!(class, Bidi::B) {
        Some(Kept { level, class })
    } else {
        kept_under(direction, class)
    }
}

/// Whether a class does not simply take the direction of the stack's last entry (X6).
#[inline]
#[tactic(auto, unfolding(paragraphs::specs::Classes::is_separator))]
fn is_apart(class: Bidi) -> bool
    ensures { result ≡ is_apart class }
{
    is_control(class) || matches!(class, Bidi::B)
}

/// A place of a class that takes a direction.
#[inline]
fn kept_under(direction: Direction, class: Bidi) -> Option<Kept>
    ensures { result ≡ kept_under direction class }
{
    Some(Kept {
        level: direction.level,
        class: direction.forced.unwrap_or(class),
    })
}

/// Whether one of some classes does not simply take the direction of the stack's last entry.
#[inline]
fn has_apart(classes: &[Bidi]) -> bool
    ensures { result ≡ list_any is_apart classes.now }
{
    // A loop that ends at none of them looks at sixteen at once.
    let mut found = false;
    for class in classes {
        found |= is_apart(*class);
    }
    found
}

/// A place up to which all from `start` on simply take a direction: blocks of such classes are passed.
#[inline]
fn pass_blocks(classes: &[Bidi], start: usize) -> usize
    requires { start ≤ length classes.now }
    ensures from { start ≤ result }
    ensures within { result ≤ length classes.now }
    ensures simple { (k : ℕ) → start ≤ k → k < result → is_apart (slice_index_or classes.now k L) ≡ false }
{
    let mut end = start;
    while classes.len() - end >= BLOCK && !has_apart(&classes[end..end + BLOCK]) {
        end += BLOCK;
    }
    end
}

/// The first place from `start` on whose class does not simply take a direction, or the places' end.
#[inline]
fn simple_end(classes: &[Bidi], start: usize) -> usize
    requires { start ≤ length classes.now }
    ensures from { start ≤ result }
    ensures within { result ≤ length classes.now }
    ensures simple { (k : ℕ) → start ≤ k → k < result → is_apart (slice_index_or classes.now k L) ≡ false }
{
    let mut end = pass_blocks(classes, start);
    while end < classes.len() && !is_apart(classes[end]) {
        end += 1;
    }
    end
}

/// Puts what is kept under a direction from `start` on, up to the next class that does not simply take it. Returns the
/// place of that one, or the places' end.
#[inline]
fn put_under(
    places: &mut [Option<Kept>],
    classes: &[Bidi],
    start: usize,
    direction: Direction,
) -> usize
    requires start { start ≤ length classes.now }
    requires long { length places.old ≡ length classes.now }
    ensures from { start ≤ result }
    ensures within { result ≤ length classes.now }
    ensures simple { (k : ℕ) → start ≤ k → k < result → is_apart (slice_index_or classes.now k L) ≡ false }
    ensures places { take result places.new ≡ take start places.old ++ map (kept_under direction) (slice_range classes.now start result) }
{
    let end = simple_end(classes, start);
    for i in start..end {
        places[i] = kept_under(direction, classes[i]);
    }
    end
}

/// Puts what is kept at each place of a paragraph of this level into a list, in place of what it has, in one pass from the
/// paragraph's start.
pub(crate) fn places_into(
    places: &mut Vec<Option<Kept>>,
    level: u8,
    classes: &[Bidi],
    controls: &[Control],
) -> Result<(), Memory>
    requires level { level ≤ 1 }
    requires matched { controls.now ≡ controls_from 0 classes.now }
    ensures { OnOk result (places.new.items ≡ explicit_places level classes.now) }
{
    places.resize(classes.len(), None)?;
    let kept = places.as_mut_slice();
    let mut stack = LevelStack::new(level);
    let mut i = put_under(kept, classes, 0, stack.top());
    while i < classes.len() {
        let class = classes[i];
        let taken = stack.advance(controls[i].kind);
        kept[i] = place_of(level, taken, class);
        i = put_under(kept, classes, i + 1, stack.top());
    }
    Ok(())
}

//! 3.3.4 Resolving Weak Types: W1 to W7 in one pass.

ghost use Rattle.std.specs.Prelude.{◌≡◌, ℕ, ◌+◌, ◌-◌, ◌<◌, ◌≤◌, ◌++◌, length, replicate, take, true, false, drop, slice_index_or};
ghost use Rattle.bg_types.specs.declared.class.Bidi.TheVariants.{L, On};
ghost use Rattle.bidi_weak_neutral.specs.Context.{nearest};
ghost use Rattle.bidi_weak_neutral.specs.Weak.{is_joined, weak_types};
ghost use Rattle.bidi_weak_neutral.specs.Pass.{marked, unmarked, strong_behind, lettered, joined, terminated, unterminated, separated, settled, is_past_terminators, goes_on};

use crate::class::{is_strong, is_weak, type_at};
use bg_types::Bidi;

/// W1: a mark takes the type before it, ON after an isolate control.
#[inline]
fn marked(base: Bidi, class: Bidi) -> Bidi
    ensures { result ≡ marked base class }
{
    if class != Bidi::Nsm {
        class
    } else if base.is_isolate_control() {
        Bidi::On
    } else {
        base
    }
}

/// The nearest type that isn't NSM, after this one.
#[inline]
fn unmarked(base: Bidi, class: Bidi) -> Bidi
    ensures { result ≡ unmarked base class }
{
    if class != Bidi::Nsm { class } else { base }
}

/// The nearest strong type, after this one.
#[inline]
fn strong_behind(strong: Bidi, class: Bidi) -> Bidi
    ensures { result ≡ strong_behind strong class }
{
    if is_strong(class) { class } else { strong }
}

/// W2, W3: EN becomes AN where the last strong type is AL, and AL becomes R.
#[inline]
fn lettered(strong: Bidi, class: Bidi) -> Bidi
    ensures { result ≡ lettered strong class }
{
    if class == Bidi::Al {
        Bidi::R
    } else if class == Bidi::En && strong == Bidi::Al {
        Bidi::An
    } else {
        class
    }
}

/// Whether a separator `class` joins the numbers `before` and `after`.
#[inline]
fn is_joined(before: Bidi, class: Bidi, after: Bidi) -> bool
    ensures { result ≡ is_joined before class after }
{
    before == after
        && (class == Bidi::Es && before == Bidi::En
            || class == Bidi::Cs && (before == Bidi::En || before == Bidi::An))
}

/// W4: one separator between two numbers of one type becomes that type.
#[inline]
fn joined(before: Bidi, class: Bidi, after: Bidi) -> Bidi
    ensures { result ≡ joined before class after }
{
    if is_joined(before, class, after) {
        before
    } else {
        class
    }
}

/// W5: a terminator next to EN becomes EN, by the nearest types that are no terminators.
#[inline]
fn terminated(before: Bidi, class: Bidi, after: Bidi) -> Bidi
    ensures { result ≡ terminated before class after }
{
    if class == Bidi::Et && (before == Bidi::En || after == Bidi::En) {
        Bidi::En
    } else {
        class
    }
}

/// The nearest type that isn't ET, after this one.
#[inline]
fn unterminated(beside: Bidi, class: Bidi) -> Bidi
    ensures { result ≡ unterminated beside class }
{
    if class != Bidi::Et { class } else { beside }
}

/// W6, W7: separators and terminators that are left become ON, and EN becomes L where the last strong type is L.
#[inline]
fn settled(strong: Bidi, class: Bidi) -> Bidi
    ensures { result ≡ settled strong (separated class) }
{
    match class {
        Bidi::Es | Bidi::Et | Bidi::Cs => Bidi::On,
        Bidi::En if strong == Bidi::L => Bidi::L,
        _ => class,
    }
}

/// The first place from `start` on whose type is neither a terminator nor a mark.
fn run_end(types: &[Bidi], start: usize) -> usize
    requires { start ≤ length types.now }
    ensures from { start ≤ result }
    ensures run { (k : ℕ) → start ≤ k → k < result → is_past_terminators (slice_index_or types.now k On) ≡ false }
    ensures end { nearest is_past_terminators On (drop start types.now) ≡ slice_index_or types.now result On }
{
    let mut end = start;
    while end < types.len() && (types[end] == Bidi::Et || types[end] == Bidi::Nsm) {
        end += 1;
    }
    end
}

/// What `run_end` gives from `start` on, where `end` is that place, or one before `start`.
#[inline(always)]
fn end_from(types: &[Bidi], start: usize, end: usize) -> usize
    requires { start ≤ length types.now }
    ensures from { start ≤ result }
    ensures known { start ≤ end → result ≡ end }
    ensures run { end < start → (k : ℕ) → start ≤ k → k < result → is_past_terminators (slice_index_or types.now k On) ≡ false }
    ensures end { end < start → nearest is_past_terminators On (drop start types.now) ≡ slice_index_or types.now result On }
{
    if end < start {
        run_end(types, start)
    } else {
        end
    }
}

/// The type at a place after W3, where these are the types of a mark and the last strong type there.
#[inline(always)]
fn letter_at(before: &[Bidi], place: usize, base: Bidi, strong: Bidi) -> Bidi
    ensures { result ≡ lettered strong (marked base (slice_index_or before.now place On)) }
{
    lettered(strong, marked(base, type_at(before, place, Bidi::On)))
}

/// W4 at a place after `last`, where `letter` stands after W3. What stands behind it is looked at only for a separator.
#[inline(always)]
fn joined_before(
    before: &[Bidi],
    behind: usize,
    base: Bidi,
    strong: Bidi,
    last: Bidi,
    letter: Bidi,
) -> Bidi
    ensures { result ≡ joined last letter (lettered strong (marked base (slice_index_or before.now behind On))) }
{
    if letter == Bidi::Es || letter == Bidi::Cs {
        joined(last, letter, letter_at(before, behind, base, strong))
    } else {
        letter
    }
}

/// Whether a type goes on with the letters of a strong type: one of them, or a mark behind them.
#[inline]
fn goes_on(letter: Bidi, class: Bidi) -> bool
    ensures { result ≡ goes_on letter class }
{
    class == letter || class == Bidi::Nsm
}

/// Puts the type after W7 of a strong type at a place, and of the letters and marks that go on with it. Returns the
/// place behind them.
#[inline(always)]
fn put_letters(
    before: &[Bidi],
    types: &mut [Bidi],
    start: usize,
    class: Bidi,
    letter: Bidi,
) -> usize
    requires start { start < length before.now }
    requires types { length types.old ≡ length before.now }
    ensures from { start < result }
    ensures within { result ≤ length before.now }
    ensures letters { (k : ℕ) → start < k → k < result → goes_on class (slice_index_or before.now k L) ≡ true }
    ensures types { take result types.new ≡ take start types.old ++ replicate (result - start) letter }
{
    types[start] = letter;
    for end in start + 1..before.len() {
        if !goes_on(class, before[end]) {
            return end;
        }
        types[end] = letter;
    }
    before.len()
}

/// The types of a sequence after W7: `before` are those before W1.
pub(crate) fn resolve_weak(before: &[Bidi], types: &mut [Bidi], sos: Bidi)
    requires { length types.old ≡ length before.now }
    ensures { types.new ≡ weak_types sos before.now }
{
    let (mut base, mut strong, mut last, mut beside) = (sos, sos, Bidi::On, Bidi::On);
    let mut end = 0;
    let mut place = 0;
    while place < before.len() {
        let class = before[place];
        if is_strong(class) {
            base = class;
            strong = class;
            last = lettered(class, class);
            beside = last;
            place = put_letters(before, types, place, class, last);
            continue;
        }
        if !is_weak(class) {
            base = class;
            last = class;
            beside = class;
            types[place] = class;
            place += 1;
            continue;
        }
        let mark = marked(base, class);
        base = unmarked(base, class);
        let behind = strong_behind(strong, mark);
        let letter = lettered(strong, mark);
        let number = joined_before(before, place + 1, base, behind, last, letter);
        let mut whole = number;
        if number == Bidi::Et {
            end = end_from(before, place + 1, end);
            whole = terminated(beside, number, letter_at(before, end, base, behind));
        }
        types[place] = settled(strong, whole);
        strong = behind;
        last = letter;
        beside = unterminated(beside, number);
        place += 1;
    }
}

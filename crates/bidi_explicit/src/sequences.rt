//! Isolating run sequences (UAX #9, BD13 and X10).

ghost use Rattle.std.specs.Prelude.{◌≡◌, ◌<◌, ◌≤◌, ◌++◌, [], Some, IfOk, IfSome, OnOk, length, take};
ghost use Rattle.bidi_explicit.specs.Sequences.{chain, chains, direction_between, eos_of, kept_after, kept_before, level_or, next_by, over_isolate, sos_of};
ghost use Rattle.bidi_explicit.specs.Extents.{extent_of, extent_sequences, IsWithin};
ghost use Rattle.bidi_explicit.specs.Links.{is_unclosed, is_unclosed_at, linked, AreKept, AreMatched};
ghost use Rattle.bidi_explicit.specs.LevelRuns.{AreNoted, run_places};

use crate::controls::Control;
use crate::embedded::Extent;
use crate::kept::Kept;
use crate::kind::Kind;
use crate::level_run::{LevelRun, append_run, same_level};
use bg_types::{Bidi, Memory};

/// The first kept place after a place.
fn kept_after(places: &[Option<Kept>], place: usize) -> Option<usize>
    requires { place < length places.now }
    ensures kept { result ≡ kept_after places.now place }
    ensures inside { IfSome result (λ i. (place < i) × (i < length places.now)) }
{
    for i in place + 1..places.len() {
        if places[i].is_some() {
            return Some(i);
        }
    }
    None
}

/// The last kept place before a place.
fn kept_before(places: &[Option<Kept>], place: usize) -> Option<usize>
    requires { place ≤ length places.now }
    ensures kept { result ≡ kept_before places.now place }
    ensures inside { IfSome result (λ i. i < place) }
{
    for i in (0..place).rev() {
        if places[i].is_some() {
            return Some(i);
        }
    }
    None
}

/// The level of a kept place, or the paragraph's.
fn level_or(level: u8, places: &[Option<Kept>], place: Option<usize>) -> u8
    requires { IfSome place (λ i. i < length places.now) }
    ensures { result ≡ level_or level places.now place }
{
    match place {
        Some(i) => match places[i] {
            Some(kept) => kept.level,
            None => level,
        },
        None => level,
    }
}

/// The direction of the higher of two levels.
pub(crate) fn direction_between(a: u8, b: u8) -> Bidi
    ensures { result ≡ direction_between a b }
{
    if a.max(b) % 2 == 1 { Bidi::R } else { Bidi::L }
}

/// The place after a place in its sequence, where this PDI matches it.
fn next(places: &[Option<Kept>], pdi: Option<usize>, place: usize) -> Option<usize>
    requires place { place < length places.now }
    requires pdi { IfSome pdi (λ i. (place < i) × (i < length places.now)) }
    ensures next { result ≡ next_by places.now pdi place }
    ensures inside { IfSome result (λ i. (place < i) × (i < length places.now)) }
{
    if places[place].is_none() {
        return None;
    }
    if let Some(after) = kept_after(places, place) {
        if same_level(places[place], places[after]) {
            return Some(after);
        }
    }
    over_isolate(places, pdi?)
}

/// A PDI, if the kept place before it has another level.
fn over_isolate(places: &[Option<Kept>], pdi: usize) -> Option<usize>
    requires { pdi < length places.now }
    ensures over { result ≡ over_isolate places.now (Some pdi) }
    ensures same { IfSome result (λ i. i ≡ pdi) }
{
    if let Some(before) = kept_before(places, pdi) {
        if same_level(places[pdi], places[before]) {
            return None;
        }
    }
    Some(pdi)
}

/// The direction before a sequence that begins at `first`.
fn sos(level: u8, places: &[Option<Kept>], first: usize) -> Bidi
    requires { first < length places.now }
    ensures { result ≡ sos_of level places.now first }
{
    let before = level_or(level, places, kept_before(places, first));
    direction_between(level_or(level, places, Some(first)), before)
}

/// The direction after a sequence that ends at `last`, given the control of `last`.
fn eos(level: u8, control: Control, places: &[Option<Kept>], last: usize) -> Bidi
    requires { last < length places.now }
    ensures { result ≡ eos_of level (is_unclosed control) places.now last }
{
    let own = level_or(level, places, Some(last));
    match (control.kind, control.pdi) {
        // An initiator that no PDI matches.
        (Kind::Initiator(_), None) => direction_between(own, level),
        _ => direction_between(own, level_or(level, places, kept_after(places, last))),
    }
}

/// Appends the level runs of the sequence that begins at `first`, and notes their ends.
fn append_sequence(
    runs: &mut Vec<LevelRun>,
    ends: &mut [usize],
    level: u8,
    controls: &[Control],
    places: &[Option<Kept>],
    first: usize,
) -> Result<Extent, Memory>
    requires first { first < length places.now }
    requires controls { length controls.now ≡ length places.now }
    requires matched { AreMatched controls.now }
    requires long { length ends.old ≡ length places.now }
    requires noted { AreNoted places.now runs.old.items ends.old }
    ensures before { OnOk result (take (length runs.old.items) runs.new.items ≡ runs.old.items) }
    ensures chain { OnOk result (run_places runs.new.items ≡ run_places runs.old.items ++ chain (linked controls.now places.now) (length places.now) first) }
    ensures extent { IfOk result (λ e. e ≡ extent_of level (is_unclosed_at controls.now) places.now (length runs.old.items) (length runs.new.items) first (chain (linked controls.now places.now) (length places.now) first)) }
    ensures noted { OnOk result (AreNoted places.now runs.new.items ends.new) }
{
    let start = runs.len();
    let mut last = append_run(runs, ends, places, first)?;
    while let Some(place) = next(places, controls[last].pdi, last) {
        last = append_run(runs, ends, places, place)?;
    }
    Ok(Extent {
        start,
        end: runs.len(),
        level: level_or(level, places, Some(first)),
        sos: sos(level, places, first),
        eos: eos(level, controls[last], places, last),
    })
}

/// Puts the isolating run sequences of a paragraph of this level into two lists, in place of what they have: their level
/// runs, one sequence after the other, and the part of each. Notes where level runs end in a third.
pub(crate) fn sequences_into(
    runs: &mut Vec<LevelRun>,
    extents: &mut Vec<Extent>,
    ends: &mut Vec<usize>,
    level: u8,
    controls: &[Control],
    places: &[Option<Kept>],
) -> Result<(), Memory>
    requires long { length controls.now ≡ length places.now }
    requires matched { AreMatched controls.now }
    requires kept { AreKept controls.now places.now }
    ensures sequences { OnOk result (extent_sequences runs.new.items extents.new.items ≡ chains level (linked controls.now places.now) (is_unclosed_at controls.now) places.now) }
    ensures within { OnOk result (IsWithin places.now runs.new.items extents.new.items) }
{
    runs.clear();
    extents.clear();
    ends.clear();
    ends.resize(places.len(), 0)?;
    let noted = ends.as_mut_slice();
    let mut first = 0;
    while first < places.len() {
        if places[first].is_some() && noted[first] == 0 {
            let extent = append_sequence(runs, noted, level, controls, places, first)?;
            extents.push(extent)?;
        }
        // What a sequence has already is passed a level run at a time.
        first = noted[first].max(first + 1);
    }
    Ok(())
}

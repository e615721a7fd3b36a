//! What pairs do to the types of a sequence: N0.

ghost use Rattle.std.specs.Prelude.{◌≡◌, ◌+◌, ◌<◌, ◌≤◌, false, length, fold, slice_range, OnOk, OnErr, IsOk};
ghost use Rattle.std.specs.List.{list_any};
ghost use Rattle.bracket_pairs.specs.Pairs.{opens, pair_of, roles};
ghost use Rattle.bracket_pairs.specs.Found.{pairs_told, AreInOrder};
ghost use Rattle.bracket_pairs.specs.Runs.{IsRun, Has};
ghost use Rattle.bracket_pairs.specs.N0.{has_strong, last_strong, pair_direction, bracket_set, pair_set, pair_resolved, n0};

use crate::direction::Direction;
use crate::search::{Opened, openings};
use bg_types::{Bidi, Memory};
use std::alloc::Global;
use unicode_tables::Tables;

/// A bracket and the nonspacing marks after it, all of one type: the places from `start` to `end`.
#[derive(Clone, Copy)]
struct Run {
    start: usize,
    end: usize,
    class: Bidi,
}

/// Gives a bracket a type, and the nonspacing marks after it too.
fn set_bracket(class: Bidi, place: usize, before_w1: &[Bidi], types: &mut [Bidi]) -> Run
    requires same { length before_w1.now ≡ length types.old }
    requires within { place < length types.old }
    ensures types { types.new ≡ bracket_set class before_w1.now types.old place }
    ensures run { IsRun before_w1.now types.new result }
    ensures has { Has result place class }
{
    types[place] = class;
    let start = place;
    for mark in place + 1..types.len() {
        if !before_w1[mark].is_nonspacing() {
            let end = mark;
            return Run { start, end, class };
        }
        types[mark] = class;
    }
    let end = types.len();
    Run { start, end, class }
}

/// Gives a pair's opening bracket and its marks a type, unless the run before covers them. Returns the run that does.
fn set_opening(run: Run, class: Bidi, place: usize, before_w1: &[Bidi], types: &mut [Bidi]) -> Run
    requires same { length before_w1.now ≡ length types.old }
    requires within { place < length types.old }
    requires run { IsRun before_w1.now types.old run }
    ensures types { types.new ≡ bracket_set class before_w1.now types.old place }
    ensures run { IsRun before_w1.now types.new result }
    ensures has { Has result place class }
{
    if run.start <= place && place < run.end && run.class == class {
        return run;
    }
    set_bracket(class, place, before_w1, types)
}

/// Gives a pair's closing bracket and its marks a type, unless the run of its opening bracket covers them.
fn set_closing(run: Run, place: usize, before_w1: &[Bidi], types: &mut [Bidi])
    requires same { length before_w1.now ≡ length types.old }
    requires within { place < length types.old }
    requires run { IsRun before_w1.now types.old run }
    requires behind { run.start ≤ place }
    ensures types { types.new ≡ bracket_set run.class before_w1.now types.old place }
    ensures run { IsRun before_w1.now types.new run }
{
    if place < run.end {
        return;
    }
    set_bracket(run.class, place, before_w1, types);
}

/// Whether a strong type of a direction is among these.
fn has_strong(direction: Direction, types: &[Bidi]) -> bool
    ensures { result ≡ has_strong direction types.now }
{
    types
        .iter()
        .any(|class| direction.is(Direction::of(*class)))
}

/// The direction that a pair takes, if it takes one.
#[tactic(auto, unfolding(crate::specs::N0::pair_direction))]
fn pair_direction(
    embedding: Direction,
    before: Option<Direction>,
    inside: &[Bidi],
) -> Option<Direction>
    ensures { result ≡ pair_direction embedding before inside.now }
{
    if has_strong(embedding, inside) {
        return Some(embedding);
    }
    let opposite = embedding.opposite();
    if !has_strong(opposite, inside) {
        return None;
    }
    Some(if opposite.is(before) {
        opposite
    } else {
        embedding
    })
}

/// Gives both brackets of a pair the direction that it takes, if it takes one.
fn resolve_pair(
    embedding: Direction,
    before: Option<Direction>,
    opening: usize,
    closing: usize,
    before_w1: &[Bidi],
    types: &mut [Bidi],
    run: &mut Run,
)
    requires same { length before_w1.now ≡ length types.old }
    requires order { opening < closing }
    requires within { closing < length types.old }
    requires run { IsRun before_w1.now types.old run.old }
    ensures types { types.new ≡ pair_set (pair_direction embedding before (slice_range types.old (opening + 1) closing)) before_w1.now types.old (pair_of opening closing) }
    ensures run { IsRun before_w1.now types.new run.new }
{
    let inside = &types[opening + 1..closing];
    if let Some(direction) = pair_direction(embedding, before, inside) {
        let first = set_opening(*run, direction.class(), opening, before_w1, types);
        set_closing(first, closing, before_w1, types);
        *run = first;
    }
}

/// The direction of the last strong type among these, or else the one before them.
fn last_strong(before: Option<Direction>, types: &[Bidi]) -> Option<Direction>
    ensures { result ≡ last_strong before types.now }
{
    for place in (0..types.len()).rev() {
        let direction = Direction::of(types[place]);
        if direction.is_some() {
            return direction;
        }
    }
    before
}

/// Takes the pairs in the order of their opening brackets.
///
/// Where a table makes brackets nonspacing marks, pairs may stand among the marks of an earlier pair. The run of the last
/// opening bracket is remembered, so that those marks are not walked again for each such pair.
fn resolve_pairs(
    embedding: Direction,
    sos: Option<Direction>,
    openings: &[Opened],
    before_w1: &[Bidi],
    types: &mut [Bidi],
)
    requires same { length before_w1.now ≡ length types.old }
    requires order { AreInOrder 0 (length types.old) openings.now }
    ensures { types.new ≡ fold (pair_resolved embedding sos before_w1.now) types.old (pairs_told openings.now) }
{
    let mut before = sos;
    let mut from = 0;
    // No bracket has set marks yet.
    let mut run = Run {
        start: types.len(),
        end: types.len(),
        class: Bidi::On,
    };
    for opening in openings {
        if let Some(closing) = opening.closing {
            let place = opening.place;
            before = last_strong(before, &types[from..place]);
            from = place;
            resolve_pair(
                embedding, before, place, closing, before_w1, types, &mut run,
            );
        }
    }
}

/// Resolves the types of the bracket pairs of an isolating run sequence (UAX #9, N0).
///
/// The three lists have one entry for each character of the sequence: the characters, their types before W1,
/// and their types after W7, which are changed. `level` and `sos` are those of the sequence. Only brackets whose type
/// is ON count. Where a 64th opening bracket would wait, only the pairs that are closed before it count.
/// After `Memory` the types are as before. Memory is taken only where an opening bracket is.
/// Cost: O(n), memory for each opening bracket.
#[tactic(auto, unfolding(crate::specs::N0::n0))]
pub fn resolve(
    alloc: Global,
    tables: &Tables,
    level: u8,
    sos: Bidi,
    chars: &[char],
    before_w1: &[Bidi],
    types: &mut [Bidi],
) -> Result<(), Memory>
    requires before_w1 { length before_w1.now ≡ length chars.now }
    requires types { length types.old ≡ length chars.now }
    ensures ok { OnOk result (types.new ≡ n0 tables.now level sos chars.now before_w1.now types.old) }
    ensures memory { OnErr result (types.new ≡ types.old) }

    // No memory is taken where no opening bracket is.
    ensures none { list_any opens (roles tables.now chars.now types.old) ≡ false → IsOk result }
{
    let openings = openings(alloc, tables, chars, types)?;
    resolve_pairs(
        Direction::of_level(level),
        Direction::of(sos),
        &openings,
        before_w1,
        types,
    );
    Ok(())
}

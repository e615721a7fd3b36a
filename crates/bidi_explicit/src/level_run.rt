//! Level runs: neighbouring places at one level (UAX #9, BD7).

ghost use Rattle.std.specs.Prelude.{◌≡◌, ◌<◌, ◌+◌, ◌++◌, ◌∷◌, [], IfOk, OnOk, length};
ghost use Rattle.bidi_explicit.specs.Sequences.{same_level};
ghost use Rattle.bidi_explicit.specs.LevelRuns.{IsRun, AreNoted};

use crate::kept::Kept;
use bg_types::Memory;

/// A level run: the places from `start` on, up to `end`.
#[derive(Clone, Copy, Debug)]
pub struct LevelRun {
    pub start: usize,
    pub end: usize,
}

/// Whether both places are kept, at one level.
#[inline]
pub(crate) fn same_level(a: Option<Kept>, b: Option<Kept>) -> bool
    ensures { result ≡ same_level a b }
{
    match (a, b) {
        (Some(a), Some(b)) => a.level == b.level,
        _ => false,
    }
}

/// The end of the level run that begins at a place. A place that is not kept is alone.
fn run_end(places: &[Option<Kept>], start: usize) -> usize
    requires { start < length places.now }
    ensures { IsRun places.now (record { start = start; end = result }) }
{
    let first = places[start];
    for end in start + 1..places.len() {
        if !same_level(first, places[end]) {
            return end;
        }
    }
    places.len()
}

/// Appends the level run that begins at a place, notes its end there, and returns its last place.
pub(crate) fn append_run(
    runs: &mut Vec<LevelRun>,
    ends: &mut [usize],
    places: &[Option<Kept>],
    start: usize,
) -> Result<usize, Memory>
    requires start { start < length places.now }
    requires long { length ends.old ≡ length places.now }
    requires noted { AreNoted places.now runs.old.items ends.old }
    ensures run { IfOk result (λ last. IsRun places.now (record { start = start; end = last + 1 })) }
    ensures appended { IfOk result (λ last. runs.new.items ≡ runs.old.items ++ (record { start = start; end = last + 1 }) ∷ []) }
    ensures noted { OnOk result (AreNoted places.now runs.new.items ends.new) }
{
    let end = run_end(places, start);
    runs.push(LevelRun { start, end })?;
    ends[start] = end;
    Ok(end - 1)
}

//! One isolating run sequence: its characters and types, and its levels put back.

ghost use Rattle.std.specs.Prelude.{◌≡◌, OnOk, All, ◌<◌, ◌++◌, [], length, map, slice_index};
ghost use Rattle.bidi_explicit.specs.LevelRuns.{HasPlace, run_places};
ghost use Rattle.bidi_explicit.specs.Sequences.{kept_at};
ghost use Rattle.bidi_weak_neutral.specs.Levels.{levels_at, type_of};

use bg_types::{Bidi, Memory};
use bidi_explicit::{Kept, LevelRun};
use std::mem;

/// The type of what is kept, after overrides.
#[inline]
fn class_of(kept: Option<Kept>) -> Bidi
    ensures { result ≡ type_of kept }
{
    match kept {
        Some(kept) => kept.class,
        None => Bidi::On,
    }
}

/// Appends the types of what is kept at neighbouring places.
fn append_types(kept: &[Option<Kept>], types: &mut Vec<Bidi>) -> Result<(), Memory>
    ensures { OnOk result (types.new.items ≡ types.old.items ++ map type_of kept.now) }
{
    types.reserve(kept.len())?;
    // A list that is lent would have its length written at each push.
    let empty = Vec::new(*types.allocator());
    let mut own = mem::replace(types, empty);
    for place in kept {
        own.push_reserved(class_of(*place));
    }
    *types = own;
    Ok(())
}

/// Puts the characters of a sequence of these level runs and their types before W1 into two lists, which are empty.
pub(crate) fn gather(
    of_paragraph: &[char],
    kept: &[Option<Kept>],
    runs: &[LevelRun],
    characters: &mut Vec<char>,
    types: &mut Vec<Bidi>,
) -> Result<(), Memory>
    requires some { All HasPlace runs.now }
    requires inside { All (λ i. i < length of_paragraph.now) (run_places runs.now) }
    requires kept { All (λ i. i < length kept.now) (run_places runs.now) }
    requires characters { characters.old.items ≡ [] }
    requires types { types.old.items ≡ [] }
    ensures characters { OnOk result (characters.new.items ≡ map (slice_index of_paragraph.now) (run_places runs.now)) }
    ensures types { OnOk result (types.new.items ≡ map (λ i. type_of (kept_at kept.now i)) (run_places runs.now)) }
{
    for run in runs {
        characters.extend_from_slice(&of_paragraph[run.start..run.end])?;
        append_types(&kept[run.start..run.end], types)?;
    }
    Ok(())
}

/// Puts the levels of a sequence of these level runs, in its order, at its places.
pub(crate) fn put_at_runs(levels: &mut [u8], runs: &[LevelRun], own: &[u8])
    requires some { All HasPlace runs.now }
    requires inside { All (λ i. i < length levels.old) (run_places runs.now) }
    requires own { length own.now ≡ length (run_places runs.now) }
    ensures { levels.new ≡ levels_at levels.old (run_places runs.now) own.now }
{
    let mut rest = own;
    for run in runs {
        let (first, behind) = rest.split_at(run.end - run.start);
        levels[run.start..run.end].copy_from_slice(first);
        rest = behind;
    }
}

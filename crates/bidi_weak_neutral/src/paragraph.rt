//! The resolved levels of a paragraph.

ghost use Rattle.std.specs.Prelude.{◌≡◌, ◌<◌, ◌≤◌, IfOk, OnOk, All, Some, None, length, map, replicate, if◌then◌else◌};
ghost use Rattle.unicode_tables.specs.Tables.{bidi_of};
ghost use Rattle.std.specs.List.{list_all};
ghost use Rattle.paragraphs.specs.Text.{code_points};
ghost use Rattle.bidi_explicit.specs.Embedding.{embedding_at};
ghost use Rattle.bidi_weak_neutral.specs.Classes.{is_plain};
ghost use Rattle.bidi_weak_neutral.specs.Uniform.{uniform_levels};
ghost use Rattle.bidi_weak_neutral.specs.Levels.{kept_levels, filled_levels, sequence_levels, put_back, resolved_levels, levels_of};

use crate::buffers::{Buffers, SequenceLists};
use crate::class::{embedding_direction, is_plain};
use crate::neutral::put_levels;
use crate::sequence::{gather, put_at_runs};
use crate::weak::resolve_weak;
use bg_types::{Base, Bidi, Memory};
use bidi_explicit::{Embedded, Kept, Sequence, has_controls, paragraph_level};
use bracket_pairs::resolve;
use paragraphs::{Para, code_points_into};
use std::alloc::Global;
use unicode_tables::Tables;

/// The levels of a sequence of the paragraph, in the list of levels.
fn sequence_levels(
    alloc: Global,
    tables: &Tables,
    points: &[char],
    places: &[Option<Kept>],
    sequence: &Sequence,
    lists: &mut SequenceLists,
) -> Result<(), Memory>
    requires points { All (λ i. i < length points.now) sequence.now.places }
    requires kept { All (λ i. i < length places.now) sequence.now.places }
    requires level { sequence.now.level ≤ 125 }
    ensures levels { OnOk result (lists.new.levels.items ≡ sequence_levels tables.now points.now places.now sequence.now) }
    ensures one_each { OnOk result (length lists.new.levels.items ≡ length sequence.now.places) }
{
    lists.characters.clear();
    lists.before.clear();
    gather(
        points,
        places,
        sequence.runs(),
        &mut lists.characters,
        &mut lists.before,
    )?;
    lists.types.resize(lists.before.len(), Bidi::On)?;
    let level = sequence.level();
    let sos = sequence.sos();
    resolve_weak(&lists.before, &mut lists.types, sos);
    resolve(
        alloc,
        tables,
        level,
        sos,
        &lists.characters,
        &lists.before,
        &mut lists.types,
    )?;
    lists.levels.resize(lists.types.len(), 0)?;
    put_levels(&mut lists.levels, &lists.types, level, sos, sequence.eos());
    Ok(())
}

/// Gives each removed place the level of the one before it, or else the paragraph level.
#[inline(never)]
fn fill_removed(levels: &mut [u8], places: &[Option<Kept>], paragraph_level: u8)
    requires { length levels.old ≡ length places.now }
    ensures { levels.new ≡ filled_levels paragraph_level (kept_levels places.now levels.old) }
{
    let mut before = paragraph_level;
    for (i, place) in places.iter().enumerate() {
        if place.is_some() {
            before = levels[i];
        } else {
            levels[i] = before;
        }
    }
}

/// Puts the levels of each sequence at its places.
fn put_back(
    alloc: Global,
    tables: &Tables,
    points: &[char],
    embedded: &Embedded,
    levels: &mut [u8],
    lists: &mut SequenceLists,
) -> Result<(), Memory>
    requires points { length points.now ≡ length embedded.now.places }
    requires levels { length levels.old ≡ length embedded.now.places }
    requires depth { All (λ s. s.level ≤ 125) embedded.now.sequences }
    ensures { OnOk result (levels.new ≡ put_back tables.now points.now embedded.now.places levels.old embedded.now.sequences) }
{
    for number in 0..embedded.sequence_count() {
        let sequence = embedded.sequence(number);
        let places = embedded.places();
        sequence_levels(alloc, tables, points, places, &sequence, lists)?;
        put_at_runs(levels, sequence.runs(), &lists.levels);
    }
    Ok(())
}

/// Resolves the levels of a paragraph without controls, whose places are one sequence.
fn resolve_uniform(
    alloc: Global,
    tables: &Tables,
    level: u8,
    points: &[char],
    classes: &[Bidi],
    levels: &mut [u8],
    types: &mut Vec<Bidi>,
) -> Result<(), Memory>
    requires level { level ≤ 125 }
    requires classes { length classes.now ≡ length points.now }
    requires levels { length levels.old ≡ length points.now }
    ensures { OnOk result (levels.new ≡ uniform_levels tables.now level points.now classes.now) }
{
    let direction = embedding_direction(level);
    types.resize(classes.len(), Bidi::On)?;
    resolve_weak(classes, types, direction);
    resolve(alloc, tables, level, direction, points, classes, types)?;
    put_levels(levels, types, level, direction, direction);
    Ok(())
}

/// Resolves the levels of a paragraph of this level, whatever its classes, in a list that holds this level throughout.
fn resolve_by_controls(
    alloc: Global,
    tables: &Tables,
    level: u8,
    points: &[char],
    classes: &[Bidi],
    levels: &mut [u8],
    buffers: &mut Buffers,
) -> Result<(), Memory>
    requires level { level ≤ 1 }
    requires classes { length classes.now ≡ length points.now }
    requires levels { levels.old ≡ replicate (length points.now) level }
    ensures { OnOk result (levels.new ≡ resolved_levels tables.now points.now (embedding_at level classes.now)) }
{
    buffers
        .embedded
        .embed(&mut buffers.explicit, level, classes)?;
    let embedded = &buffers.embedded;
    put_back(
        alloc,
        tables,
        points,
        embedded,
        levels,
        &mut buffers.sequence,
    )?;
    fill_removed(levels, embedded.places(), embedded.level());
    Ok(())
}

/// Whether all classes are plain.
fn are_plain(classes: &[Bidi]) -> bool
    ensures { result ≡ list_all is_plain classes.now }
{
    // A loop that ends at none of them looks at sixteen at once.
    let mut plain = true;
    for class in classes {
        plain &= is_plain(*class);
    }
    plain
}

/// Puts the levels of a paragraph of this level, 0 or 1, whose code points have these classes, into a list, in place of what it
/// has. After `Memory` the list may have anything.
/// Never inlined: as a part of its caller its passes would have fewer registers.
/// Cost: O(n), memory where the list or the buffers have no room.
#[inline(never)]
pub fn levels_into(
    alloc: Global,
    levels: &mut Vec<u8>,
    buffers: &mut Buffers,
    tables: &Tables,
    level: u8,
    points: &[char],
    classes: &[Bidi],
) -> Result<(), Memory>
    requires level { level ≤ 1 }
    requires classes { classes.now ≡ map (bidi_of tables.now) points.now }
    ensures levels { OnOk result (levels.new.items ≡ resolved_levels tables.now points.now (embedding_at level classes.now)) }
    ensures one_each { OnOk result (length levels.new.items ≡ length points.now) }
    ensures bound { OnOk result (All (λ level. level ≤ 126) levels.new.items) }
{
    levels.clear();
    levels.resize(points.len(), level)?;
    if level == 0 && are_plain(classes) {
        return Ok(());
    }
    if has_controls(classes) {
        return resolve_by_controls(alloc, tables, level, points, classes, levels, buffers);
    }
    let types = &mut buffers.sequence.types;
    resolve_uniform(alloc, tables, level, points, classes, levels, types)
}

/// The resolved level of each code point of a paragraph, 0 to 126 (UAX #9, 3.3.4 to 3.3.6).
///
/// A code point that X9 removes has the level of the one before it, else the paragraph level (own).
/// Cost: O(n), memory for each place.
pub fn levels(alloc: Global, tables: &Tables, para: &Para, base: Base) -> Result<Vec<u8>, Memory>
    ensures levels { IfOk result (λ levels. levels.items ≡ levels_of tables.now base para.now.text) }
    ensures one_each { IfOk result (λ levels. length levels.items ≡ length (code_points para.now.text)) }
    ensures bound { IfOk result (λ levels. All (λ level. level ≤ 126) levels.items) }
{
    let mut points = Vec::new(alloc);
    code_points_into(&mut points, para.text())?;
    let classes = tables.bidi_of_text(alloc, para.text())?;
    let level = paragraph_level(tables, para, base);
    let mut levels = Vec::new(alloc);
    let mut buffers = Buffers::new(alloc);
    levels_into(
        alloc,
        &mut levels,
        &mut buffers,
        tables,
        level,
        &points,
        &classes,
    )?;
    Ok(levels)
}

//! Levels and visual order.

ghost use Rattle.std.specs.Prelude.{◌≡◌, ◌<◌, ◌↔◌, IfOk, IfSome, IsTrue, length, replicate, sum, None};
ghost use Rattle.std.specs.List.{All, filter};
ghost use Rattle.paragraphs.specs.Text.{code_points};
ghost use Rattle.bidi_weak_neutral.specs.Levels.{levels_of};
ghost use Rattle.reorder.specs.LineLevels.{line_levels_of};
ghost use Rattle.reorder.specs.VisualList.{visual_list};
ghost use Rattle.conformance.specs.Came.{IsLineOf, IsOneParagraph};
ghost use Rattle.conformance.specs.Agreement.{is_level, EachIsLevel, AreLevels, is_wanted_at};

use crate::fault::{LineFault, RunFault};
use bg_types::{Base, Memory};
use bidi_explicit::paragraph_level;
use bidi_weak_neutral::levels;
use paragraphs::{Para, split};
use reorder::{line_levels, visual};
use std::alloc::Global;
use ucd_files::Tables;

/// The greatest number of code points that can be ordered.
const LONGEST: usize = 4_000_000;

/// What the crates give for a paragraph that is one line.
#[derive(Drop)]
pub struct BidiLine {
    /// The paragraph's level.
    pub level: u8,
    /// The level of each code point after L1.
    pub levels: Vec<u8>,
    /// The places of the code points from left to right.
    pub order: Vec<u32>,
}

/// What the crates give for a text that is one line, by a base direction, or `None` where it has
/// more paragraphs.
pub fn line_of(
    alloc: Global,
    tables: &Tables,
    base: Base,
    text: &str,
) -> Result<Option<BidiLine>, RunFault>
    ensures line { IfOk result (λ line. IfSome line (IsLineOf tables.now base text.now)) }
    ensures none { IfOk result (λ line. line ≡ None → IsOneParagraph tables.now text.now → ⊥) }
{
    let paragraphs = split(alloc, tables, text)?;
    match paragraphs.first() {
        Some(para) if para.text().len() == text.len() => {
            Ok(Some(paragraph_line(alloc, tables, base, para)?))
        }
        _ => Ok(None),
    }
}

/// What the crates give for a paragraph. Each code point counts as a cluster, as the test files have it.
fn paragraph_line(
    alloc: Global,
    tables: &Tables,
    base: Base,
    para: &Para,
) -> Result<BidiLine, RunFault>
    ensures { IfOk result (IsLineOf tables.now base para.now.text) }
{
    let level = paragraph_level(tables, para, base);
    let levels = levels_of_line(alloc, tables, base, para, level)?;
    let order = order_of(alloc, &levels)?;
    Ok(BidiLine {
        level,
        levels,
        order,
    })
}

/// The levels of a paragraph of this level after L1.
fn levels_of_line(
    alloc: Global,
    tables: &Tables,
    base: Base,
    para: &Para,
    level: u8,
) -> Result<Vec<u8>, Memory>
    ensures { IfOk result (λ levels. levels.items ≡ line_levels_of tables.now para.now.text (levels_of tables.now base para.now.text) (replicate (length (code_points para.now.text)) 1) level) }
{
    let resolved = levels(alloc, tables, para, base)?;
    let sizes = ones(alloc, resolved.len())?;
    line_levels(alloc, tables, para.text(), &resolved, &sizes, level)
}

/// The order of a line of these levels, unless it is too long.
fn order_of(alloc: Global, levels: &[u8]) -> Result<Vec<u32>, RunFault>
    ensures { IfOk result (λ order. order.items ≡ visual_list levels.now) }
{
    if levels.len() > LONGEST {
        return Err(RunFault::Line(0, LineFault::TooLong));
    }
    Ok(visual(alloc, levels)?)
}

/// The sizes of a number of clusters of one code point.
#[tactic(auto, using(crate::proofs::Ones::ones_positive, crate::proofs::Ones::ones_sum))]
fn ones(alloc: Global, count: usize) -> Result<Vec<u32>, Memory>
    ensures positive { IfOk result (λ sizes. All (λ size. 0 < size) sizes.items) }
    ensures whole { IfOk result (λ sizes. sum sizes.items ≡ count) }
    ensures ones { IfOk result (λ sizes. sizes.items ≡ replicate count 1) }
{
    Ok(vec![in alloc; 1; count]?)
}

/// Whether the level that came is the one wanted. `None`, an `x`, wants none.
pub fn is_level(wanted: Option<u8>, came: u8) -> bool
    ensures { result ≡ is_level wanted came }
{
    match wanted {
        Some(level) => level == came,
        None => true,
    }
}

/// Whether each level that came is as wanted.
fn each_is_level(wanted: &[Option<u8>], came: &[u8]) -> bool
    requires { length wanted.now ≡ length came.now }
    ensures { IsTrue result ↔ EachIsLevel wanted.now came.now }
{
    for (i, level) in came.iter().enumerate() {
        if !is_level(wanted[i], *level) {
            return false;
        }
    }
    true
}

/// Whether a level came for each that is wanted, and each is as wanted.
pub fn are_levels(wanted: &[Option<u8>], came: &[u8]) -> bool
    ensures { IsTrue result ↔ AreLevels wanted.now came.now }
{
    wanted.len() == came.len() && each_is_level(wanted, came)
}

/// Whether a level is wanted at a place.
fn is_wanted_at(wanted: &[Option<u8>], place: u32) -> bool
    ensures { result ≡ is_wanted_at wanted.now place }
{
    match wanted.get(place as usize) {
        Some(level) => level.is_some(),
        None => false,
    }
}

/// The places at which a level is wanted, in the order that came.
pub fn wanted_places(
    alloc: Global,
    wanted: &[Option<u8>],
    order: &[u32],
) -> Result<Vec<u32>, Memory>
    ensures { IfOk result (λ places. places.items ≡ filter (is_wanted_at wanted.now) order.now) }
{
    let places = order
        .iter()
        .copied()
        .filter(|place| is_wanted_at(wanted, *place))
        .collect(alloc)?;
    Ok(places)
}

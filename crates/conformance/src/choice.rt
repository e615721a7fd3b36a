//! The choices of this profile of line breaking, by which it differs from the test file.

ghost use Rattle.std.specs.Prelude.{◌≡◌, ◌≤◌, ◌↔◌, IsTrue, IfOk, IfSome, None, drop, length};
ghost use Rattle.ucd_files.specs.Tables.{lb_of};
ghost use Rattle.paragraphs.specs.Text.{code_points};
ghost use Rattle.line_break.specs.Classes.{one_of};
ghost use Rattle.conformance.specs.Pairs.{is_pair};
ghost use Rattle.conformance.specs.Choices.{joins, items_of, begins, ends_digits, in_number, by_pair, is_pictograph, makes, makes_at, explains_at, Explains};
ghost use Rattle.conformance.specs.declared.tally.Choice.{Choice};

use crate::tally::Choice;
use bg_types::{Lb, Memory};
use line_break::is_one_of;
use paragraphs::code_points_into;
use std::alloc::Global;
use ucd_emoji::is_extended_pictographic;
use ucd_files::Tables;

/// A code point with those that belong to it by LB9.
#[derive(Clone, Copy)]
struct Item {
    first: char,
    class: Lb,
}

/// The choice that alone explains how the breaks of a text that came differ from those wanted.
pub fn choice_of(
    alloc: Global,
    tables: &Tables,
    text: &str,
    wanted: &[bool],
    came: &[bool],
) -> Result<Option<Choice>, Memory>
    ensures explains { IfOk result (λ found. IfSome found (Explains tables.now (code_points text.now) wanted.now came.now)) }
    ensures none { IfOk result (λ found. found ≡ None → (choice : Choice) → Explains tables.now (code_points text.now) wanted.now came.now choice → ⊥) }
{
    let mut points = Vec::new(alloc);
    code_points_into(&mut points, text)?;
    if wanted.len() != points.len() || came.len() != points.len() {
        return Ok(None);
    }
    if explains(alloc, tables, &points, wanted, came, Choice::Pairs)? {
        return Ok(Some(Choice::Pairs));
    }
    if explains(alloc, tables, &points, wanted, came, Choice::Pictographs)? {
        return Ok(Some(Choice::Pictographs));
    }
    Ok(None)
}

/// Whether a choice makes each difference.
fn explains(
    alloc: Global,
    tables: &Tables,
    points: &[char],
    wanted: &[bool],
    came: &[bool],
    choice: Choice,
) -> Result<bool, Memory>
    requires wanted_len { length wanted.now ≡ length points.now }
    requires came_len { length came.now ≡ length points.now }
    ensures { IfOk result (λ made. IsTrue made ↔ Explains tables.now points.now wanted.now came.now choice) }
{
    for (i, breaks) in wanted.iter().enumerate() {
        if !explains_at(alloc, tables, points, choice, i + 1, *breaks, came[i])? {
            return Ok(false);
        }
    }
    Ok(true)
}

/// Whether nothing differs at the boundary after a number of code points, or a choice makes the
/// difference.
fn explains_at(
    alloc: Global,
    tables: &Tables,
    points: &[char],
    choice: Choice,
    end: usize,
    wanted: bool,
    came: bool,
) -> Result<bool, Memory>
    requires { end ≤ length points.now }
    ensures { IfOk result (λ made. made ≡ explains_at tables.now points.now choice end wanted came) }
{
    if wanted == came {
        return Ok(true);
    }
    makes_at(alloc, tables, points, choice, end, wanted)
}

/// Whether a choice makes a difference at the boundary after a number of code points.
fn makes_at(
    alloc: Global,
    tables: &Tables,
    points: &[char],
    choice: Choice,
    end: usize,
    wanted: bool,
) -> Result<bool, Memory>
    requires { end ≤ length points.now }
    ensures { IfOk result (λ made. made ≡ makes_at tables.now points.now choice end wanted) }
{
    let mut before = items_of(alloc, tables, &points[..end])?;
    before.reverse();
    let after = items_of(alloc, tables, &points[end..])?;
    Ok(makes(choice, &before, &after, wanted))
}

/// The items of code points (LB9).
fn items_of(alloc: Global, tables: &Tables, points: &[char]) -> Result<Vec<Item>, Memory>
    ensures { IfOk result (λ items. items.items ≡ items_of tables.now points.now) }
{
    let mut items = Vec::new(alloc);
    let mut last = None;
    for first in points {
        let class = tables.lb(*first);
        if !joins(last, class) {
            items.push(Item {
                first: *first,
                class,
            })?;
        }
        last = Some(class);
    }
    Ok(items)
}

/// Whether a code point of this class belongs to the item of the one before it (LB9).
fn joins(last: Option<Lb>, class: Lb) -> bool
    ensures { result ≡ joins last class }
{
    match last {
        Some(last) => {
            is_one_of(class, &[Lb::Cm, Lb::Zwj])
                && !is_one_of(last, &[Lb::Bk, Lb::Cr, Lb::Lf, Lb::Nl, Lb::Sp, Lb::Zw])
        }
        None => false,
    }
}

/// Whether a choice makes the difference between what is wanted and the opposite: the items before a
/// boundary, the nearest first, and those after it.
fn makes(choice: Choice, before: &[Item], after: &[Item], wanted: bool) -> bool
    ensures { result ≡ makes choice before.now after.now wanted }
{
    match (choice, wanted) {
        (Choice::Pairs, true) => by_pair(before, after) && !in_number(before, after),
        (Choice::Pairs, false) => in_number(before, after),
        (Choice::Pictographs, true) => false,
        (Choice::Pictographs, false) => is_pictograph(before) && begins(after, &[Lb::Em]),
    }
}

/// Whether LB25 of this profile joins the items at a boundary.
fn by_pair(before: &[Item], after: &[Item]) -> bool
    ensures { result ≡ by_pair before.now after.now }
{
    match (before.first(), after.first()) {
        (Some(before), Some(after)) => is_pair(before.class, after.class),
        _ => false,
    }
}

/// Whether LB25 of this profile joins two classes.
#[tactic(auto, unfolding(crate::specs::Pairs::is_pair))]
fn is_pair(before: Lb, after: Lb) -> bool
    ensures { result ≡ is_pair before after }
{
    matches!(
        (before, after),
        (Lb::Cl | Lb::Cp | Lb::Nu, Lb::Po | Lb::Pr)
            | (Lb::Po | Lb::Pr, Lb::Op | Lb::Nu)
            | (Lb::Hy | Lb::Is | Lb::Nu | Lb::Sy, Lb::Nu)
    )
}

/// Whether one of the test file's rules for numbers joins the items at a boundary.
fn in_number(before: &[Item], after: &[Item]) -> bool
    ensures { result ≡ in_number before.now after.now }
{
    // (PR | PO) × (OP | HY)? NU
    begins(before, &[Lb::Pr, Lb::Po])
        && (begins(after, &[Lb::Nu])
            || begins(after, &[Lb::Op, Lb::Hy]) && begins(farther(after), &[Lb::Nu]))
        // (OP | HY) × NU
        || begins(before, &[Lb::Op, Lb::Hy]) && begins(after, &[Lb::Nu])
        // NU (NU | SY | IS)* × (NU | SY | IS | CL | CP)
        || ends_digits(before) && begins(after, &[Lb::Nu, Lb::Sy, Lb::Is, Lb::Cl, Lb::Cp])
        // NU (NU | SY | IS)* (CL | CP)? × (PO | PR)
        || (ends_digits(before)
            || begins(before, &[Lb::Cl, Lb::Cp]) && ends_digits(farther(before)))
            && begins(after, &[Lb::Po, Lb::Pr])
}

/// Whether the first of these items is of one of the classes.
fn begins(items: &[Item], classes: &[Lb]) -> bool
    ensures { result ≡ begins classes.now items.now }
{
    match items.first() {
        Some(item) => is_one_of(item.class, classes),
        None => false,
    }
}

/// The items without the first.
fn farther(items: &[Item]) -> &[Item]
    ensures { result.now ≡ drop 1 items.now }
{
    if items.is_empty() { items } else { &items[1..] }
}

/// Whether `NU (NU | SY | IS)*` ends with the first of these items, the nearest first.
fn ends_digits(items: &[Item]) -> bool
    ensures { result ≡ ends_digits items.now }
{
    for item in items {
        if is_one_of(item.class, &[Lb::Nu]) {
            return true;
        }
        if !is_one_of(item.class, &[Lb::Sy, Lb::Is]) {
            return false;
        }
    }
    false
}

/// Whether the first of these items is an extended pictograph that isn't of class EB.
fn is_pictograph(items: &[Item]) -> bool
    ensures { result ≡ is_pictograph items.now }
{
    match items.first() {
        Some(item) => is_extended_pictographic(item.first) && !is_one_of(item.class, &[Lb::Eb]),
        None => false,
    }
}

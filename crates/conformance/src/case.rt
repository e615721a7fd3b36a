//! The lines of the test files.

use crate::class::point_of;
use crate::fault::{LineFault, RunFault};
use crate::field;
use bg_types::Base;

/// The levels and the order that are wanted for a line of text.
#[derive(Drop)]
pub struct Wanted {
    /// The paragraph's level, where the file gives it.
    pub level: Option<u8>,
    /// The level of each code point, `None` for an `x`.
    pub levels: Vec<Option<u8>>,
    /// The places of the code points that have a level, from left to right.
    pub order: Vec<u32>,
}

/// A line of `BidiTest.txt`.
#[derive(Clone, Copy)]
pub enum ClassLine<'a> {
    Levels(&'a str),
    Order(&'a str),
    /// The classes of a text, and the bits of the directions for which the last levels and order are wanted.
    Case { classes: &'a str, directions: u8 },
    /// A line of a kind that is to be ignored.
    Other,
}

/// A line of `LineBreakTest.txt`: a text, and whether a line may end after each code point.
#[derive(Drop)]
pub struct BreakCase {
    pub text: String,
    pub breaks: Vec<bool>,
}

const BAD_LINE: RunFault = RunFault::Line(0, LineFault::BadLine);

/// Reads a line of `BidiCharacterTest.txt`, in place of the text before and of what was wanted of
/// it, and gives the direction that is asked for.
pub fn read_characters(
    line: &str,
    text: &mut String,
    wanted: &mut Wanted,
) -> Result<Base, RunFault> {
    let mut fields = line.split(';');
    field::read_text(fields.next().unwrap_or(""), text)?;
    let base = base_of(fields.next().unwrap_or(""))?;
    wanted.level = Some(field::number(fields.next().unwrap_or(""))?);
    field::read_levels(fields.next().ok_or(BAD_LINE)?, &mut wanted.levels)?;
    field::read_places(fields.next().ok_or(BAD_LINE)?, &mut wanted.order)?;
    Ok(base)
}

/// The direction that a field asks for.
fn base_of(field: &str) -> Result<Base, RunFault> {
    match field {
        "0" => Ok(Base::Left),
        "1" => Ok(Base::Right),
        "2" => Ok(Base::Auto),
        _ => Err(BAD_LINE),
    }
}

/// What a line of `BidiTest.txt` is.
pub fn class_line(line: &str) -> Result<ClassLine<'_>, RunFault> {
    if let Some(levels) = line.strip_prefix("@Levels:") {
        return Ok(ClassLine::Levels(levels));
    }
    if let Some(order) = line.strip_prefix("@Reorder:") {
        return Ok(ClassLine::Order(order));
    }
    if line.starts_with('@') {
        return Ok(ClassLine::Other);
    }
    let (classes, bits) = line.split_once(';').ok_or(BAD_LINE)?;
    match u8::from_str_radix(bits.trim(), 16) {
        Ok(directions) => Ok(ClassLine::Case {
            classes,
            directions,
        }),
        Err(_) => Err(BAD_LINE),
    }
}

/// Makes a text that has a code point of each class of a list, in place of the one before.
pub fn read_classes(classes: &str, text: &mut String) -> Result<(), RunFault> {
    text.clear();
    for class in classes.split_whitespace() {
        text.push(point_of(class).ok_or(BAD_LINE)?)?;
    }
    Ok(())
}

/// Reads a line of `LineBreakTest.txt`: a mark, and then a code point and a mark in turn.
pub fn read_breaks(line: &str, case: &mut BreakCase) -> Result<(), RunFault> {
    case.text.clear();
    case.breaks.clear();
    let mut words = line.split_whitespace();
    if is_break(words.next().unwrap_or(""))? {
        return Err(BAD_LINE);
    }
    while let Some(word) = words.next() {
        case.text.push(field::code_point(word)?)?;
        case.breaks.push(is_break(words.next().unwrap_or(""))?)?;
    }
    Ok(())
}

/// Whether a mark is that of a break.
fn is_break(mark: &str) -> Result<bool, RunFault> {
    match mark {
        "÷" => Ok(true),
        "×" => Ok(false),
        _ => Err(BAD_LINE),
    }
}

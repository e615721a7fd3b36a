//! The fields of a line.

ghost use Rattle.std.specs.Prelude.{◌≡◌, None, IfOk, codes};

use crate::fault::{LineFault, RunFault};

const BAD_LINE: RunFault = RunFault::Line(0, LineFault::BadLine);

/// A line without its comment and the spaces at its ends.
pub fn content(line: &str) -> &str {
    match line.split_once('#') {
        Some((content, _)) => content.trim(),
        None => line.trim(),
    }
}

/// The code point that a word writes in hexadecimal.
pub fn code_point(word: &str) -> Result<char, RunFault> {
    match u32::from_str_radix(word, 16) {
        Ok(code) => char::from_u32(code).ok_or(BAD_LINE),
        Err(_) => Err(BAD_LINE),
    }
}

/// The number that a word writes.
pub fn number(word: &str) -> Result<u8, RunFault> {
    match word.parse() {
        Ok(number) => Ok(number),
        Err(_) => Err(BAD_LINE),
    }
}

/// Reads the levels that a field lists, `None` for an `x`, in place of those before.
pub fn read_levels(field: &str, levels: &mut Vec<Option<u8>>) -> Result<(), RunFault> {
    levels.clear();
    for word in field.split_whitespace() {
        levels.push(level(word)?)?;
    }
    Ok(())
}

/// The level that a word writes, `None` for an `x`.
fn level(word: &str) -> Result<Option<u8>, RunFault>
    ensures { IfOk result (λ level. level ≡ None → word.now ≡ codes "x") }
{
    match word {
        "x" => Ok(None),
        word => Ok(Some(number(word)?)),
    }
}

/// Reads the places that a field lists, in place of those before.
pub fn read_places(field: &str, places: &mut Vec<u32>) -> Result<(), RunFault> {
    places.clear();
    for word in field.split_whitespace() {
        match word.parse() {
            Ok(place) => places.push(place)?,
            Err(_) => return Err(BAD_LINE),
        }
    }
    Ok(())
}

/// Reads the text whose code points a field lists in hexadecimal, in place of the one before.
pub fn read_text(field: &str, text: &mut String) -> Result<(), RunFault> {
    text.clear();
    for word in field.split_whitespace() {
        text.push(code_point(word)?)?;
    }
    Ok(())
}

//! Codes and ranges.

ghost use Rattle.std.specs.Prelude.{◌≡◌, ◌≤◌, IfSome};
ghost use Rattle.ucd_files.specs.Code.{code_of, scalar_of, has_dots, ends_of, range_of};

use crate::fault::Cause;
use crate::line::cut;

/// The code point that 4 to 6 hexadecimal digits in either case spell.
pub(crate) fn code(digits: &[u8]) -> Option<u32>
    ensures value { result ≡ code_of digits.now }
    ensures bound { IfSome result (λ c. c ≤ 0x10FFFF) }
{
    if digits.len() < 4 || digits.len() > 6 {
        return None;
    }
    let mut code: u32 = 0;
    for b in digits {
        code = code * 16 + char::from(*b).to_digit(16)?;
    }
    if code > 0x10FFFF {
        return None;
    }
    Some(code)
}

/// The scalar value that digits spell.
#[tactic(auto, unfolding(crate::specs::Code::scalar_of))]
pub(crate) fn scalar(digits: &[u8]) -> Option<char>
    ensures { result ≡ scalar_of digits.now }
{
    char::from_u32(code(digits)?)
}

/// Whether a field is to be a range.
pub(crate) fn has_dots(field: &[u8]) -> bool
    ensures { result ≡ has_dots field.now }
{
    field.contains(&b'.')
}

/// How a field spells its first and its last code.
#[tactic(auto, unfolding(crate::specs::Code::ends_of))]
fn ends(field: &[u8]) -> (&[u8], &[u8])
    ensures first { result.0.now ≡ (ends_of field.now).0 }
    ensures last { result.1.now ≡ (ends_of field.now).1 }
{
    if !has_dots(field) {
        return (field, field);
    }
    let (first, rest) = cut(field, b'.');
    match rest {
        [b'.', last @ ..] => (first, last),
        _ => (first, &[]),
    }
}

/// The first and the last code of a field.
#[tactic(auto, unfolding(crate::specs::Code::range_of))]
pub(crate) fn range(field: &[u8]) -> Result<(u32, u32), Cause>
    ensures { result ≡ range_of field.now }
{
    let (first, last) = ends(field);
    let first = code(first).ok_or(Cause::BadCode)?;
    let last = code(last).ok_or(Cause::BadCode)?;
    if first > last {
        return Err(Cause::BadRange);
    }
    Ok((first, last))
}

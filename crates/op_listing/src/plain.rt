//! A line in the shape that listings are written in, read in one pass.

ghost use Rattle.std.specs.Prelude.{◌≡◌, ◌<◌, ◌≤◌, ◌∷◌, take, length, Some, IfSome};
ghost use Rattle.std.specs.Str.Parse.{AllDigits, digits_value};
ghost use Rattle.op_listing.specs.Line.{identifier_in, parent_in, scalar_in};
ghost use Rattle.op_listing.specs.Field.{identifier_of, parent_place};
ghost use Rattle.op_listing.specs.Plain.{TakesField, TakesLine, EndsLine};

use crate::field::{FEWEST_DIGITS, MOST_DIGITS, Numbers, Parent};
use crate::line::insertion;
use bg_types::{Id, Op};

/// How many bytes the longest plain line has: `i 999999999.000065535 999999998.000065535 10FFFF` and its CR LF.
/// Where as many are left, no byte's index is compared with the text's end.
const LONGEST_PLAIN_LINE: usize = 50;

/// The most decimal digits of a number here. Such a number always fits.
const FEW_DIGITS: usize = 9;

/// The operation of a text's first line, and what follows the line, where the line is plain: single spaces between
/// its words, few digits in its numbers, a well-formed operation, and far from the text's end. `None` says nothing
/// of the line.
pub fn read_plain(text: &[u8]) -> Option<(Op, &[u8])>
    ensures { IfSome result (λ found. TakesLine text.now found.0 found.1.now) }
{
    if text.len() < LONGEST_PLAIN_LINE || text[1] != b' ' {
        return None;
    }
    match text[0] {
        b'i' => plain_insertion(&text[2..]),
        b'e' => plain_erasure(&text[2..]),
        _ => None,
    }
}

/// The insertion that a plain line writes after `i` and a space, and what follows the line.
fn plain_insertion(fields: &[u8]) -> Option<(Op, &[u8])>
    requires { 48 ≤ length fields.now }
    ensures { IfSome result (λ found. TakesLine (105 ∷ 32 ∷ fields.now) found.0 found.1.now) }
{
    let (id, rest) = leading_numbers(fields)?;
    let (parent, rest) = leading_parent(behind(b' ', rest)?)?;
    let (code, rest) = leading_scalar(behind(b' ', rest)?)?;
    let rest = behind_line(rest)?;
    let op = insertion(id, &parent, code).ok()?;
    Some((op, rest))
}

/// The deletion that a plain line writes after `e` and a space, and what follows the line.
fn plain_erasure(fields: &[u8]) -> Option<(Op, &[u8])>
    requires { 48 ≤ length fields.now }
    ensures { IfSome result (λ found. TakesLine (101 ∷ 32 ∷ fields.now) found.0 found.1.now) }
{
    let (target, rest) = leading_numbers(fields)?;
    let rest = behind_line(rest)?;
    let target = Id::new(target.counter, target.site)?;
    Some((Op::erase(target), rest))
}

/// The parent at the front, and what follows it.
fn leading_parent(bytes: &[u8]) -> Option<(Parent, &[u8])>
    requires { 20 ≤ length bytes.now }
    ensures { IfSome result
        (λ found. TakesField (λ word. parent_in word ≡ Some (parent_place found.0)) bytes.now found.1.now) }
{
    if &bytes[..4] == b"root".as_slice() {
        return Some((Parent::Root, &bytes[4..]));
    }
    let (id, rest) = leading_numbers(bytes)?;
    Some((Parent::After(id), rest))
}

/// The counter and the site at the front, and what follows them.
fn leading_numbers(bytes: &[u8]) -> Option<(Numbers, &[u8])>
    requires { 20 ≤ length bytes.now }
    ensures { IfSome result
        (λ found. TakesField (λ word. identifier_in word ≡ Some (identifier_of found.0)) bytes.now found.1.now) }
{
    let (counter, point) = leading_digits(bytes);
    let digits = behind(b'.', &bytes[point..])?;
    let (site, end) = leading_digits(digits);
    if point == 0 || end == 0 {
        return None;
    }
    let site = u16::try_from(site).ok()?;
    Some((Numbers { counter, site }, &digits[end..]))
}

/// The character's code at the front, and what follows it.
#[inline(always)]
fn leading_scalar(bytes: &[u8]) -> Option<(u32, &[u8])>
    requires { 7 ≤ length bytes.now }
    ensures { IfSome result (λ found. TakesField (λ word. scalar_in word ≡ Some found.0) bytes.now found.1.now) }
{
    let mut code: u32 = 0;
    let mut count = 0;
    while count < MOST_DIGITS {
        let Some(digit) = char::from(bytes[count]).to_digit(16) else {
            break;
        };
        code = code * 16 + digit;
        count += 1;
    }
    if count < FEWEST_DIGITS {
        return None;
    }
    Some((code, &bytes[count..]))
}

/// The number that the decimal digits at the front write, and how many they are: of the first nine bytes.
#[inline(always)]
fn leading_digits(bytes: &[u8]) -> (u32, usize)
    requires { 9 < length bytes.now }
    ensures within { result.1 ≤ 9 }
    ensures digits { AllDigits 10 (take result.1 bytes.now) }
    ensures value { result.0 ≡ digits_value 10 (take result.1 bytes.now) }
{
    let mut value: u32 = 0;
    let mut count = 0;
    while count < FEW_DIGITS && bytes[count] >= b'0' && bytes[count] <= b'9' {
        value = value * 10 + u32::from(bytes[count] - b'0');
        count += 1;
    }
    (value, count)
}

/// What follows LF or CR LF, if one of the two is at the front.
fn behind_line(bytes: &[u8]) -> Option<&[u8]>
    requires { 2 ≤ length bytes.now }
    ensures { IfSome result (λ rest. EndsLine bytes.now rest.now) }
{
    if bytes[0] == b'\r' {
        return behind(b'\n', &bytes[1..]);
    }
    behind(b'\n', bytes)
}

/// What follows this byte, if it is at the front.
fn behind(byte: u8, bytes: &[u8]) -> Option<&[u8]>
    requires { 0 < length bytes.now }
    ensures { IfSome result (λ rest. bytes.now ≡ byte ∷ rest.now) }
{
    if bytes[0] != byte {
        return None;
    }
    Some(&bytes[1..])
}

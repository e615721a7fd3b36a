//! The characters of visible elements, in UTF-8. They are encoded a piece at a time, and a piece is added to the text as one.

ghost use Rattle.std.specs.Prelude.{◌≡◌, ◌*◌, ◌+◌, ◌<◌, ◌≤◌, ◌++◌, ◌∷◌, [], length, take, string_bytes, encode_utf8, encode_utf8_all, OnOk, OnErr};
ghost use Rattle.std.specs.Str.{IsUtf8};
ghost use Rattle.rga_tree.specs.Row.{shown_of};

use crate::element::Element;
use bg_types::Memory;
use std::str::from_utf8_unchecked;

/// How many elements are encoded at once.
const PIECE: usize = 64;

/// The bytes that their characters take at most.
pub const PIECE_BYTES: usize = 4 * PIECE;

/// Appends the characters of the visible elements. The bytes are lent for the work.
pub fn push_shown(read: &mut String, bytes: &mut [u8], row: &[Element]) -> Result<(), Memory>
    requires { length bytes.old ≡ 256 }
    ensures { OnOk result (string_bytes read.new ≡ string_bytes read.old ++ encode_utf8_all (shown_of row.now)) }
{
    let mut rest = row;
    while !rest.is_empty() {
        let (piece, after) = rest.split_at(rest.len().min(PIECE));
        let end = encode_shown(piece, bytes);
        push_bytes(read, &bytes[..end])?;
        rest = after;
    }
    Ok(())
}

/// Appends characters that are given in UTF-8. If memory is refused, the text stays as it was.
/// Cost: O(n), memory for n bytes.
pub fn push_bytes(read: &mut String, bytes: &[u8]) -> Result<(), Memory>
    requires { IsUtf8 bytes.now }
    ensures ok { OnOk result (string_bytes read.new ≡ string_bytes read.old ++ bytes.now) }
    ensures err { OnErr result (string_bytes read.new ≡ string_bytes read.old) }
{
    if bytes.is_empty() {
        return Ok(());
    }
    // That they are UTF-8 is proved: this call's `requires` asks for it, as any other call's.
    let text = unsafe { from_utf8_unchecked(bytes) };
    Ok(read.push_str(text)?)
}

/// Puts the characters of the visible elements to the front of these bytes, and answers where they end.
fn encode_shown(row: &[Element], bytes: &mut [u8]) -> usize
    requires { 4 * length row.now ≤ length bytes.old }
    ensures within { result ≤ length bytes.new }
    ensures bytes { take result bytes.new ≡ encode_utf8_all (shown_of row.now) }
    ensures utf8 { IsUtf8 (take result bytes.new) }
{
    let mut end = 0;
    for element in row {
        if !element.hidden {
            end = put_char(element.ch, bytes, end);
        }
    }
    end
}

/// Puts the bytes of a character at an index, behind which there is room for 4, and answers where they end.
#[inline(always)]
pub fn put_char(ch: char, bytes: &mut [u8], at: usize) -> usize
    requires { at + 4 ≤ length bytes.old }
    ensures end { result ≤ at + 4 }
    ensures bytes { take result bytes.new ≡ take at bytes.old ++ encode_utf8 ch }
    ensures utf8 { IsUtf8 (encode_utf8 ch) }
{
    let code = u32::from(ch);
    if code < 0x80 {
        return put_byte(code as u8, bytes, at);
    }
    if code < 0x800 {
        let second = put_byte((0xC0 + code / 0x40) as u8, bytes, at);
        return put_byte((0x80 + code % 0x40) as u8, bytes, second);
    }
    if code < 0x10000 {
        let second = put_byte((0xE0 + code / 0x1000) as u8, bytes, at);
        let third = put_byte((0x80 + code / 0x40 % 0x40) as u8, bytes, second);
        return put_byte((0x80 + code % 0x40) as u8, bytes, third);
    }
    let second = put_byte((0xF0 + code / 0x40000) as u8, bytes, at);
    let third = put_byte((0x80 + code / 0x1000 % 0x40) as u8, bytes, second);
    let fourth = put_byte((0x80 + code / 0x40 % 0x40) as u8, bytes, third);
    put_byte((0x80 + code % 0x40) as u8, bytes, fourth)
}

/// Puts a byte at an index, and answers where it ends.
#[inline(always)]
fn put_byte(byte: u8, bytes: &mut [u8], at: usize) -> usize
    requires { at < length bytes.old }
    ensures end { result ≡ at + 1 }
    ensures bytes { take result bytes.new ≡ take at bytes.old ++ byte ∷ [] }
{
    bytes[at] = byte;
    at + 1
}

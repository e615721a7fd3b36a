//! One line of a listing, written from its last byte to its first.

ghost use Rattle.std.specs.Prelude.{◌≡◌, ◌+◌, ◌/◌, ◌%◌, ◌<◌, ◌≤◌, true, ◌∷◌, ◌++◌, length, drop, codes, OnOk};
ghost use Rattle.std.specs.Fmt.{digit_glyph};
ghost use Rattle.op_listing.specs.Listing.{line_of, identifier_word, parent_word, scalar_word};

use bg_types::{Id, Op, OpView, Place};
use itoa::write_digits;
use std::alloc::AllocError;

/// How many bytes the longest line has: `i 4294967295.65535 4294967294.65535 10FFFF` and its LF.
pub const LONGEST_LINE: usize = 43;

/// Appends an operation's line.
pub fn push_line(op: &Op, text: &mut Vec<u8>) -> Result<(), AllocError>
    ensures { OnOk result (text.new.items ≡ text.old.items ++ line_of op.now) }
{
    // The LF is the last byte; a number's digits are found from the last one on, and the words with them.
    let mut line = [b'\n'; LONGEST_LINE];
    let start = put_words(op, &mut line);
    text.extend_from_slice(&line[start..])
}

/// Puts an operation's words before the line's last byte, and answers where they start.
fn put_words(op: &Op, line: &mut [u8]) -> usize
    requires { length line.old ≡ 43 }
    ensures within { result ≤ 43 }
    ensures line { drop 42 line.old ≡ codes "\n" → drop result line.new ≡ line_of op.now }
{
    match op.view() {
        OpView::Insert { id, parent, ch } => {
            let start = put_scalar(ch, line, LONGEST_LINE - 1);
            let start = put_parent(&parent, line, start);
            let start = put_identifier(id, line, start);
            put_verb(b'i', line, start)
        }
        OpView::Erase { target } => {
            let start = put_identifier(target, line, LONGEST_LINE - 1);
            put_verb(b'e', line, start)
        }
    }
}

/// Puts a verb and a space before an index.
fn put_verb(verb: u8, line: &mut [u8], end: usize) -> usize
    requires { (2 ≤ end) × (end ≤ length line.old) }
    ensures start { result + 2 ≡ end }
    ensures word { drop result line.new ≡ verb ∷ 32 ∷ drop end line.old }
{
    let start = put_byte(b' ', line, end);
    put_byte(verb, line, start)
}

/// Puts a parent's word, between two spaces, before an index.
fn put_parent(parent: &Place, line: &mut [u8], end: usize) -> usize
    requires { (18 ≤ end) × (end ≤ length line.old) }
    ensures within { (end ≤ result + 18) × (result ≤ end) }
    ensures word { drop result line.new ≡ 32 ∷ (parent_word parent.now ++ 32 ∷ drop end line.old) }
{
    let end = put_byte(b' ', line, end);
    let start = match parent {
        Place::Root => put_root(line, end),
        Place::After(id) => put_identifier(*id, line, end),
    };
    put_byte(b' ', line, start)
}

fn put_root(line: &mut [u8], end: usize) -> usize
    requires { (4 ≤ end) × (end ≤ length line.old) }
    ensures start { result + 4 ≡ end }
    ensures word { drop result line.new ≡ codes "root" ++ drop end line.old }
{
    let start = put_byte(b't', line, end);
    let start = put_byte(b'o', line, start);
    let start = put_byte(b'o', line, start);
    put_byte(b'r', line, start)
}

/// Puts a counter and a site, a point between them, before an index.
fn put_identifier(id: Id, line: &mut [u8], end: usize) -> usize
    requires { (16 ≤ end) × (end ≤ length line.old) }
    ensures within { (end ≤ result + 16) × (result ≤ end) }
    ensures word { drop result line.new ≡ identifier_word id ++ drop end line.old }
{
    let start = write_digits(u64::from(id.site()), line, end);
    let start = put_byte(b'.', line, start);
    write_digits(u64::from(id.counter()), line, start)
}

/// Puts a character's code before an index, in four hexadecimal digits, or as many as it has.
fn put_scalar(ch: char, line: &mut [u8], end: usize) -> usize
    requires { (6 ≤ end) × (end ≤ length line.old) }
    ensures within { (end ≤ result + 6) × (result ≤ end) }
    ensures word { drop result line.new ≡ scalar_word ch ++ drop end line.old }
{
    let code = u32::from(ch);
    let start = put_digit(code, line, end);
    let start = put_digit(code / 0x10, line, start);
    let start = put_digit(code / 0x100, line, start);
    let start = put_digit(code / 0x1000, line, start);
    if code < 0x1_0000 {
        return start;
    }
    let start = put_digit(code / 0x1_0000, line, start);
    if code < 0x10_0000 {
        return start;
    }
    put_digit(code / 0x10_0000, line, start)
}

/// Puts the last hexadecimal digit of a number before an index.
fn put_digit(code: u32, line: &mut [u8], end: usize) -> usize
    requires { (1 ≤ end) × (end ≤ length line.old) }
    ensures start { result + 1 ≡ end }
    ensures digit { drop result line.new ≡ digit_glyph true (code % 16) ∷ drop end line.old }
{
    let digit = (code % 16) as u8;
    let first = if digit < 10 { b'0' } else { b'A' - 10 };
    put_byte(first + digit, line, end)
}

/// Puts a byte before an index, and answers where it is.
fn put_byte(byte: u8, line: &mut [u8], end: usize) -> usize
    requires { (1 ≤ end) × (end ≤ length line.old) }
    ensures start { result + 1 ≡ end }
    ensures byte { drop result line.new ≡ byte ∷ drop end line.old }
{
    line[end - 1] = byte;
    end - 1
}

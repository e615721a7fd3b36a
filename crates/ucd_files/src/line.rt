//! The parts of a line.

ghost use Rattle.std.specs.Prelude.{◌≡◌, ◌≤◌, ◌==◌, length, count_by};
ghost use Rattle.std.specs.List.{before_first, after_first, position_or_len, prefix_len};
ghost use Rattle.ucd_files.specs.Line.{trimmed, end_trimmed, is_among, text_of, comment_of, field, fields_of};

use memchr::memchr;

/// The index of the first of these bytes, or the length where there is none.
pub(crate) fn place_of(bytes: &[u8], at: u8) -> usize
    ensures place { result ≡ position_or_len (λ b. b == at) bytes.now }
    ensures bound { result ≤ length bytes.now }
{
    match memchr(at, bytes) {
        Some(place) => place,
        None => bytes.len(),
    }
}

/// How many of these bytes there are.
pub(crate) fn number_of(bytes: &[u8], at: u8) -> usize
    ensures value { result ≡ count_by (λ b. b == at) bytes.now }
    ensures bound { result ≤ length bytes.now }
{
    let mut number = 0;
    for b in bytes {
        if *b == at {
            number += 1;
        }
    }
    number
}

/// What stands before the first of these bytes, and what stands after it.
pub(crate) fn cut(bytes: &[u8], at: u8) -> (&[u8], &[u8])
    ensures before { result.0.now ≡ before_first (λ b. b == at) bytes.now }
    ensures after { result.1.now ≡ after_first (λ b. b == at) bytes.now }
{
    let place = place_of(bytes, at);
    if place == bytes.len() {
        return (bytes, &[]);
    }
    (&bytes[..place], &bytes[place + 1..])
}

/// How many blanks the bytes begin with.
fn blanks_before(blanks: &[u8], bytes: &[u8]) -> usize
    ensures value { result ≡ prefix_len (is_among blanks.now) bytes.now }
    ensures bound { result ≤ length bytes.now }
{
    for (i, b) in bytes.iter().enumerate() {
        if !blanks.contains(b) {
            return i;
        }
    }
    bytes.len()
}

/// The bytes without the blanks at their end.
fn end_trimmed<'a>(blanks: &[u8], bytes: &'a [u8]) -> &'a [u8]
    ensures { result.now ≡ end_trimmed blanks.now bytes.now }
{
    let mut end = bytes.len();
    while end > 0 && blanks.contains(&bytes[end - 1]) {
        end -= 1;
    }
    &bytes[..end]
}

/// The bytes without the blanks at both ends.
fn trimmed<'a>(blanks: &[u8], bytes: &'a [u8]) -> &'a [u8]
    ensures { result.now ≡ trimmed blanks.now bytes.now }
{
    end_trimmed(blanks, &bytes[blanks_before(blanks, bytes)..])
}

const BLANKS: &[u8] = b" \t";

const LINE_BLANKS: &[u8] = b" \t\r";

/// The text of a line before its comment.
pub(crate) fn text_of(line: &[u8]) -> &[u8]
    ensures { result.now ≡ text_of line.now }
{
    let (text, _) = cut(line, b'#');
    trimmed(LINE_BLANKS, text)
}

/// The comment of a line.
pub(crate) fn comment_of(line: &[u8]) -> &[u8]
    ensures { result.now ≡ comment_of line.now }
{
    let (_, comment) = cut(line, b'#');
    trimmed(LINE_BLANKS, comment)
}

/// The first field, and the text of the others.
pub(crate) fn next_field(text: &[u8]) -> (&[u8], &[u8])
    ensures first { result.0.now ≡ field 0 text.now }
    ensures second { field 0 result.1.now ≡ field 1 text.now }
    ensures third { field 1 result.1.now ≡ field 2 text.now }
{
    let (first, others) = cut(text, b';');
    (trimmed(BLANKS, first), others)
}

/// Whether there are two fields.
pub(crate) fn has_two_fields(text: &[u8]) -> bool
    ensures { result ≡ (length (fields_of text.now) == 2) }
{
    number_of(text, b';') == 1
}

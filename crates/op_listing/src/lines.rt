//! Lines off a text.

ghost use Rattle.std.specs.Prelude.{◌≡◌, ◌<◌, ◌∷◌, length};
ghost use Rattle.std.specs.Str.Lines.{lines, strip_carriage_return};

use crate::words::first_place;

/// The first line, without the LF or CR LF that ends it, and what follows.
/// Cost: O(n) of the line.
pub fn split_line(text: &[u8]) -> (&[u8], &[u8])
    requires { 0 < length text.now }
    ensures lines { lines text.now ≡ result.0.now ∷ lines result.1.now }
    ensures shorter { length result.1.now < length text.now }
{
    let end = first_place(text, b'\n');
    if end == text.len() {
        return (text, &text[end..]);
    }
    (without_return(&text[..end]), &text[end + 1..])
}

fn without_return(line: &[u8]) -> &[u8]
    ensures { result.now ≡ strip_carriage_return line.now }
{
    let last = line.len().saturating_sub(1);
    if !line.is_empty() && line[last] == b'\r' {
        return &line[..last];
    }
    line
}

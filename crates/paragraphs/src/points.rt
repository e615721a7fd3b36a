//! The code points of a text.

ghost use Rattle.std.specs.Prelude.{◌≡◌, OnOk};
ghost use Rattle.paragraphs.specs.Text.{code_points};

use bg_types::Memory;
use std::mem;

/// Puts the code points of a text into a list, in place of what it has.
/// Cost: O(n), 4 bytes of memory a byte of the text.
pub fn code_points_into(points: &mut Vec<char>, text: &str) -> Result<(), Memory>
    ensures { OnOk result (points.new.items ≡ code_points text.now) }
{
    points.clear();
    // No text has more characters than bytes.
    points.reserve(text.len())?;
    // A list that is lent would have its length written at each push.
    let empty = Vec::new(*points.allocator());
    let mut own = mem::replace(points, empty);
    let mut chars = text.chars();
    while let Some(c) = chars.next() {
        own.push_reserved(c);
    }
    *points = own;
    Ok(())
}

//! A character by itself, as a cluster.

ghost use Rattle.std.specs.Prelude.{◌≡◌};
ghost use Rattle.unicode_tables.specs.Alone.{is_plain, is_direction_mark, columns_alone};

use crate::class::{is_line_end, is_separator, is_wide};
use bg_types::{Bidi, Ea, Lb};

/// The last code point of these blocks, behind which no other test is made.
const LAST_PLAIN: usize = 0x6D5;

/// Whether a code point stands in a block without marks, in which most text does.
pub(crate) fn is_plain(c: usize) -> bool
    ensures { result ≡ is_plain c }
{
    c <= LAST_PLAIN
        && matches!(
            c,
            0x20..=0x7E
                | 0x5D0..=0x5EA
                | 0x620..=0x64A
                | 0xAE..=0x2FF
                | 0x370..=0x482
                | 0x671..=0x6D5
        )
}

/// Whether a code point is a mark of direction.
#[inline]
pub fn is_direction_mark(c: usize) -> bool
    ensures { result ≡ is_direction_mark c }
{
    c == 0x200E || c == 0x200F || c == 0x61C
}

/// The columns of a code point of these classes alone, where ambiguous ones are narrow.
pub(crate) fn columns_alone(bidi: Bidi, lb: Lb, ea: Ea, c: usize) -> u8
    ensures { result ≡ columns_alone bidi lb ea c }
{
    if is_separator(bidi)
        || is_line_end(lb)
        || bidi.is_removed()
        || bidi.is_isolate_control()
        || is_direction_mark(c)
    {
        0
    } else if is_wide(ea) {
        2
    } else {
        1
    }
}

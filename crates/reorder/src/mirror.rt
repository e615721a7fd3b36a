//! The character that is shown: L4.

ghost use Rattle.std.specs.Prelude.{◌≡◌};
ghost use Rattle.reorder.specs.Mirrored.{mirrored_of};

use unicode_tables::Tables;

/// A character as it is shown at a level (UAX #9, L4): at an odd one its mirror, if the mirroring file lists one.
pub fn mirrored(tables: &Tables, c: char, level: u8) -> char
    ensures { result ≡ mirrored_of tables.now c level }
{
    if level % 2 == 1 {
        tables.mirror(c).unwrap_or(c)
    } else {
        c
    }
}

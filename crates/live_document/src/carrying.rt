//! Carets and marks that follow what is told of a text.

ghost use Rattle.std.specs.Prelude.{◌<◌};
ghost use Rattle.live_document.specs.Carrying.{IsCarried};

use bg_types::Change;

/// Where a gap stands after a change: with the character on its right, or with the next one where that was cut. A gap
/// is named by how many code points stand left of it, fewer than the greatest `usize`.
pub fn carry(change: &Change, gap: usize) -> usize
    requires { gap < 18_446_744_073_709_551_615 }
    ensures { IsCarried change.now gap result }
{
    match *change {
        Change::Put { place, .. } if place <= gap => gap + 1,
        Change::Cut { place } if place < gap => gap - 1,
        _ => gap,
    }
}

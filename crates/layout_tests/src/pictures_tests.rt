//! What no clause says of pictures: that they are printed, whole and by row, and that carets move in them.

use crate::rows::{Row, assert_rows};
use bg_types::{Base, Memory};
use caret::{Caret, down_among, left_among, right_among, up_among};
use pictures::*;
use std::alloc::Global;
use ucd_files::{Tables, UcdFault, vectors};

/// A width, a text, its print, the print of its first row, and the places of a caret at the front that goes right,
/// down, left and up.
struct Drawn(u16, &'static str, &'static str, &'static str, [usize; 4]);

/// A share in the tables of the small files.
fn shared_tables(alloc: Global) -> Result<SharedTables, Memory> {
    match vectors::SMALL.load(alloc) {
        Ok(tables) => SharedTables::new(alloc, tables),
        Err(UcdFault::Memory) | Err(UcdFault::At { .. }) => Err(Memory),
    }
}

/// Where a caret comes that goes right, down, left and up.
fn places_of_walk(picture: &Picture) -> [usize; 4] {
    let start: Caret = picture.at_place(0);
    let rows = picture.rows();
    let right = right_among(rows, start);
    let down = down_among(rows, right);
    let left = left_among(rows, down);
    let up = up_among(rows, left);
    [right.place, down.place, left.place, up.place]
}

impl Row for Drawn {
    fn comes_out(&self, alloc: Global, _tables: &Tables) -> Result<bool, Memory> {
        let Drawn(width, text, print, first, walk) = *self;
        if width < 2 || width > 500 || text.len() > 4_000_000 {
            return Ok(false);
        }
        let tables = shared_tables(alloc)?;
        let picture = Picture::draw(alloc, &tables, width, Base::Auto, text)?;
        if picture.rows().is_empty() {
            return Ok(false);
        }
        let whole = picture.printed()?;
        let row = picture.printed_row(0)?;
        let size = picture.print_size()?;
        let places = places_of_walk(&picture);
        let same = whole.as_slice() == print.as_bytes() && row.as_slice() == first.as_bytes();
        let same = same && size == print.len();
        Ok(same && picture.text() == text && places == walk)
    }
}

const DRAWN: &[Drawn] = &[
    Drawn(2, "ab cd", "ab\ncd\n", "ab\n", [1, 4, 3, 0]),
    Drawn(4, "a\nb", "a   \nb   \n", "a   \n", [1, 3, 2, 0]),
];

#[test]
fn pictures_are_printed(rt: HostRuntime) {
    assert_rows(&rt, DRAWN);
}

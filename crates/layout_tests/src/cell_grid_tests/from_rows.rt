//! Grids made of their paragraphs' rows, beside those that `draw` draws.

ghost use Rattle.std.specs.Prelude.{◌≡◌, ◌++◌, ◌≤◌, length, OnOk};
ghost use Rattle.cell_grid.specs.Grids.{IsDrawable, paragraph_rows};

use crate::grids::is_same;
use crate::rows::{Row, assert_rows};
use bg_types::{Base, Memory};
use cell_grid::{Grid, InMemory, Row as GridRow, draw, print, rows};
use paragraphs::{Para, split};
use std::alloc::Global;
use ucd_files::Tables;

/// Appends copies of a paragraph's rows, moved to where the paragraph stands in its text.
fn push_copies(
    alloc: Global,
    tables: &Tables,
    width: u16,
    base: Base,
    para: &Para,
    made: &mut Vec<GridRow>,
) -> Result<(), Memory>
    requires at_least { 2 ≤ width }
    requires at_most { width ≤ 500 }
    requires para { IsDrawable para.now }
    ensures { OnOk result (made.new.items ≡ made.old.items ++ paragraph_rows tables.now width base para.now) }
{
    let own = rows(alloc, tables, width, base, para)?;
    for row in &own {
        let copy = row.shifted(alloc, para.first_byte() as u32, para.first_place() as u32)?;
        made.push(copy)?;
    }
    Ok(())
}

/// The grid of a text, of the rows of its paragraphs.
fn joined<'a>(
    alloc: Global,
    tables: &'a Tables,
    width: u16,
    base: Base,
    text: &'a str,
) -> Result<Grid<'a>, Memory>
    requires at_least { 2 ≤ width }
    requires at_most { width ≤ 500 }
    requires size { length text.now ≤ 4_000_000 }
{
    let paragraphs = split(alloc, tables, text)?;
    let mut all = Vec::new(alloc);
    for para in &paragraphs {
        push_copies(alloc, tables, width, base, para, &mut all)?;
    }
    Ok(Grid::of(tables, text, all))
}

/// What a grid prints.
fn printed(alloc: Global, grid: &Grid) -> Result<Vec<u8>, Memory> {
    let mut sink = InMemory::new(alloc);
    match print(grid, &mut sink) {
        Ok(()) => Ok(sink.bytes),
        Err(_) => Err(Memory),
    }
}

/// A base direction, a text and a width.
struct Made(Base, &'static str, u16);

impl Row for Made {
    fn comes_out(&self, alloc: Global, tables: &Tables) -> Result<bool, Memory> {
        let Made(base, text, width) = *self;
        if width < 2 || width > 500 || text.len() > 4_000_000 {
            return Ok(false);
        }
        let grid = joined(alloc, tables, width, base, text)?;
        let drawn = draw(alloc, tables, width, base, text)?;
        let same = printed(alloc, &grid)? == printed(alloc, &drawn)?;
        Ok(same && is_same(&grid, &drawn))
    }
}

const MADE: &[Made] = &[
    Made(Base::Auto, "", 4),
    Made(
        Base::Auto,
        "ab \u{5D0}\u{5D1} (c)\r\n\u{5D2}12 e\u{301}!\n",
        4,
    ),
    Made(Base::Right, "a\tb\u{5D0}\n\n\u{4E16}(", 3),
];

#[test]
fn rows_of_paragraphs_make_the_grid(rt: HostRuntime) {
    assert_rows(&rt, MADE);
}

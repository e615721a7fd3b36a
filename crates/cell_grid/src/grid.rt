//! The grid of a text.

ghost use Rattle.std.specs.Prelude.{◌≡◌, ◌++◌, ◌≤◌, length, IfOk, OnOk};
ghost use Rattle.cell_grid.specs.Grids.{IsDrawable, paragraph_rows, grid_of, IsDrawn};

use crate::laws_below::laws_below;
use crate::lists::Lists;
use crate::paragraph::rows_with;
use crate::row::Row;
use bg_types::{Base, Memory};
use paragraphs::{Para, split};
use std::alloc::Global;
use std::marker::Model;
use unicode_tables::Tables;

/// A text as it is drawn: a row for each line of each paragraph. It borrows the text and the
/// tables.
#[derive(Drop)]
pub struct Grid<'a> {
    tables: &'a Tables,
    text: &'a str,
    rows: Vec<Row>,
}

impl<'a> Model for Grid<'a> {
    ghost use Rattle.cell_grid.specs.Grids.{DrawnGrid, IsDrawn};

    ghost Value = { DrawnGrid };

    ghost view = { λ g. record { tables = g.tables.now; text = g.text.now; rows = g.rows.items } };

    ghost invariant = { λ g. IsDrawn (record { tables = g.tables.now; text = g.text.now; rows = g.rows.items }) };
}

impl<'a> Grid<'a> {
    /// The grid of these rows, which are those of the text at one width and base. Takes no memory.
    #[inline]
    pub fn of(tables: &'a Tables, text: &'a str, rows: Vec<Row>) -> Grid<'a>
        requires { IsDrawn (record { tables = tables.now; text = text.now; rows = rows.items }) }
        ensures { result ≡ record { tables = tables.now; text = text.now; rows = rows.items } }
    {
        Grid { tables, text, rows }
    }

    /// Its tables.
    #[inline]
    pub fn tables(&self) -> &'a Tables
        ensures { result.now ≡ self.now.tables }
    {
        self.tables
    }

    /// The text that it was drawn from.
    #[inline]
    pub fn text(&self) -> &'a str
        ensures { result.now ≡ self.now.text }
    {
        self.text
    }

    /// Its rows from the top, at least one.
    #[inline]
    pub fn rows(&self) -> &[Row]
        ensures rows { result.now ≡ self.now.rows }
        // What is true of every grid, for the caller's proof.
        ensures drawn { IsDrawn self.now }
    {
        &self.rows
    }

    /// Its rows by value, for an owner that keeps them without borrowing. `Grid::of` makes the grid
    /// again.
    #[inline]
    pub fn into_rows(self) -> Vec<Row>
        ensures { result.items ≡ self.entry.rows }
    {
        self.rows
    }
}

/// Draws a text on a grid of a width in columns: a row for each line of each paragraph.
///
/// Memory is taken in proportion to the text.
/// Cost: O(n), at most 20 bytes of memory a cluster.
pub fn draw<'a>(
    alloc: Global,
    tables: &'a Tables,
    width: u16,
    base: Base,
    text: &'a str,
) -> Result<Grid<'a>, Memory>
    requires at_least { 2 ≤ width }
    requires at_most { width ≤ 500 }
    requires size { length text.now ≤ 4_000_000 }
    ensures grid { IfOk result (λ grid. grid ≡ grid_of tables.now width base text.now) }
    ensures drawn { IfOk result IsDrawn }
{
    let paragraphs = split(alloc, tables, text)?;
    // Each paragraph has at least one row.
    let mut rows = Vec::with_capacity(alloc, paragraphs.len())?;
    let mut lists = Lists::new(alloc);
    for para in &paragraphs {
        push_rows(alloc, tables, width, base, para, &mut lists, &mut rows)?;
    }
    Ok(Grid::of(tables, text, rows))
}

/// Appends the rows of a paragraph, moved to where they stand in the text.
fn push_rows(
    alloc: Global,
    tables: &Tables,
    width: u16,
    base: Base,
    para: &Para,
    lists: &mut Lists,
    drawn: &mut Vec<Row>,
) -> Result<(), Memory>
    requires at_least { 2 ≤ width }
    requires at_most { width ≤ 500 }
    requires para { IsDrawable para.now }
    ensures { OnOk result (drawn.new.items ≡ drawn.old.items ++ paragraph_rows tables.now width base para.now) }
{
    laws_below();
    let made = rows_with(alloc, tables, width, base, para, lists)?;
    drawn.reserve(made.len())?;
    for row in made {
        let mut row = row;
        row.shift(para.first_byte() as u32, para.first_place() as u32);
        drawn.push(row)?;
    }
    Ok(())
}

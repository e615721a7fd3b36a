//! The grid of a text, which many rows are about.

use crate::pieces::{Pieces, text_of};
use crate::rows::Row;
use bg_types::{Base, Memory};
use cell_grid::{Grid, draw};
use std::alloc::Global;
use ucd_files::Tables;

/// What a grid shows.
pub trait Shown {
    /// Whether this one shows it.
    fn is_shown(&self, grid: &Grid) -> bool;
}

/// Whether the grid of a text at a width by a base direction shows this.
fn is_drawn<S: Shown>(
    alloc: Global,
    tables: &Tables,
    (base, text, width): (Base, &str, u16),
    shown: &S,
) -> Result<bool, Memory> {
    if width < 2 || width > 500 || text.len() > 4_000_000 {
        return Ok(false);
    }
    match draw(alloc, tables, width, base, text) {
        Ok(grid) => Ok(grid.text() == text && shown.is_shown(&grid)),
        Err(Memory) => Err(Memory),
    }
}

/// A base direction, a text, a width, and what the grid shows.
pub struct Drawn<S>(pub Base, pub &'static str, pub u16, pub S);

impl<S: Shown> Row for Drawn<S> {
    fn comes_out(&self, alloc: Global, tables: &Tables) -> Result<bool, Memory> {
        is_drawn(alloc, tables, (self.0, self.1, self.2), &self.3)
    }
}

/// A text of pieces, a width, and what the grid shows.
pub struct DrawnOf<S>(pub Pieces, pub u16, pub S);

impl<S: Shown> Row for DrawnOf<S> {
    fn comes_out(&self, alloc: Global, tables: &Tables) -> Result<bool, Memory> {
        let text = text_of(alloc, self.0)?;
        is_drawn(alloc, tables, (Base::Auto, &text, self.1), &self.2)
    }
}

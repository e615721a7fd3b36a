//! Grids beside each other.

use cell_grid::{Grid, Row};

fn is_same_row(row: &Row, same: &Row) -> bool {
    row.width() == same.width()
        && row.first_place() == same.first_place()
        && row.last_place() == same.last_place()
        && row.para_level() == same.para_level()
        && has_same_entries(row, same)
}

fn has_same_entries(row: &Row, same: &Row) -> bool {
    let mut right = row.entry_count() == same.entry_count();
    for (entry, other) in row.entries().zip(same.entries()) {
        right = entry == other && right;
    }
    right
}

/// Whether two grids have the same text and rows.
pub fn is_same(one: &Grid, other: &Grid) -> bool {
    let mut right = one.text() == other.text() && one.rows().len() == other.rows().len();
    for (row, same) in one.rows().iter().zip(other.rows()) {
        right = is_same_row(row, same) && right;
    }
    right
}

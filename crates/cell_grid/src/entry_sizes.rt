//! How many bytes each entry of a row prints.

ghost use Rattle.std.specs.Prelude.{◌≡◌, ◌++◌, ◌≤◌, drop, length};
ghost use Rattle.std.specs.List.{All};
ghost use Rattle.cell_grid.specs.Print.{own_sizes};
ghost use Rattle.cell_grid.specs.Printable.{IsSlice};

use crate::print_size::cells_size;
use crate::row::Row;
use unicode_tables::Tables;

/// Answers how many bytes the cells of each entry have in what `print_row` writes of a row of a text, whose entries are slices
/// of it: from the left, at the front of a list with room for them. They stand side by side there, behind one space for each
/// blank at the left. Takes no memory.
/// Cost: O(n) of the row's entries and their bytes.
pub fn row_entry_sizes(tables: &Tables, text: &str, row: &Row, sizes: &mut [usize])
    requires entries { All (λ e. IsSlice text.now e.span) row.now.entries }
    requires room { length row.now.entries ≤ length sizes.old }
    ensures { sizes.new ≡ own_sizes tables.now text.now row.now ++ drop (length row.now.entries) sizes.old }
{
    let mut number = 0usize;
    for entry in row.entries() {
        sizes[number] = cells_size(tables, text, entry);
        number += 1;
    }
}

//! How many bytes a row prints.

ghost use Rattle.std.specs.Prelude.{◌≡◌, ◌<◌, ◌^◌, length};
ghost use Rattle.std.specs.List.{All};
ghost use Rattle.paragraphs.specs.Text.{code_points};
ghost use Rattle.cell_grid.specs.Print.{mirrored_text, own_text, run_text, row_text, IsSizeOf};
ghost use Rattle.cell_grid.specs.Printable.{IsSlice, IsPrintable};

use crate::cluster_run::ClusterRun;
use crate::entry::Entry;
use crate::printed::{begins_with_tab, prints_its_clusters};
use crate::row::Row;
use bg_types::Memory;
use reorder::mirrored;
use unicode_tables::Tables;

/// How many bytes `print_row` writes of a row of a text, whose entries are slices of it. Takes no memory. `Memory` where they
/// are 2^64 or more.
/// Cost: O(n) of the row's entries and their bytes.
pub fn row_print_size(tables: &Tables, text: &str, row: &Row) -> Result<usize, Memory>
    requires { All (λ e. IsSlice text.now e.span) row.now.entries }
    ensures { IsSizeOf (row_text tables.now text.now row.now) result }
{
    let (left, right) = row.blanks();
    // The LF is one more.
    let mut size = usize::from(left) + usize::from(right) + 1;
    for run in row.runs() {
        let own = run_size(tables, text, run);
        size = size.checked_add(own).ok_or(Memory)?;
    }
    Ok(size)
}

/// How many bytes the cells of a run's entries print.
fn run_size(tables: &Tables, text: &str, run: &ClusterRun) -> usize
    requires { IsPrintable text.now run.now }
    ensures { result ≡ length (run_text tables.now text.now run.now) }
{
    if prints_its_clusters(tables, text, run) {
        let first = run.span.read();
        let last = run.cluster(run.span.further);
        return last.end_byte as usize - first.first_byte as usize;
    }
    let mut size = 0usize;
    for number in 0..run.count() {
        size += cells_size(tables, text, run.entry(0, number as u8));
    }
    size
}

/// How many bytes the cells of an entry print, if it has any.
pub(crate) fn cells_size(tables: &Tables, text: &str, entry: Entry) -> usize
    requires { IsSlice text.now entry.span }
    ensures size { result ≡ length (own_text tables.now text.now entry) }
    ensures most { result < 2 ^ 34 }
{
    if entry.columns == 0 {
        return 0;
    }
    let cluster = &text[entry.span.first_byte as usize..entry.span.end_byte as usize];
    if begins_with_tab(tables, cluster) {
        usize::from(entry.columns)
    } else {
        mirrored_size(tables, cluster, entry.level)
    }
}

/// How many bytes a cluster has as it is shown at a level (L4).
fn mirrored_size(tables: &Tables, cluster: &str, level: u8) -> usize
    requires { length cluster.now < 2 ^ 32 }
    ensures size { result ≡ length (mirrored_text tables.now level (code_points cluster.now)) }
    ensures most { result < 2 ^ 34 }
{
    if level % 2 == 0 {
        return cluster.len();
    }
    let mut size = 0usize;
    for c in cluster.chars() {
        size += mirrored(tables, c, level).len_utf8();
    }
    size
}

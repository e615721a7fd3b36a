//! The print of a grid.

ghost use Rattle.std.specs.Prelude.{◌≡◌, ◌+◌, ◌*◌, ◌%◌, ◌<◌, ◌≤◌, ◌++◌, false, true, length, take, slice_range, is_err, IfOk, OnOk, OnErr};
ghost use Rattle.std.specs.List.{All, flat_map};
ghost use Rattle.std.specs.Io.KnownBytes.{Appends};
ghost use Rattle.std.specs.Str.{IsCharBoundary};
ghost use Rattle.bg_types.specs.Sink.{AppendsBeginning};
ghost use Rattle.paragraphs.specs.Text.{code_points};
ghost use Rattle.cell_grid.specs.Held.{AppendsAllBut};
ghost use Rattle.cell_grid.specs.Print.{begins_with_tab, mirrored_text, own_text, run_slices, run_text, row_text, printed};
ghost use Rattle.cell_grid.specs.Printable.{IsSlice, AreSlices, IsPrintable};
ghost use Rattle.cell_grid.specs.Runs.{run_span, byte_count, cluster_count};

use crate::cluster_run::ClusterRun;
use crate::entry::Entry;
use crate::grid::Grid;
use crate::held::{Held, hold_char, hold_spaces, hold_text, let_go};
use crate::laws_below::laws_below;
use crate::row::Row;
use arrayvec::ArrayString;
use bg_types::{Device, Sink};
use reorder::mirrored;
use unicode_tables::{Tables, is_segment_separator};

/// Writes a grid: the text of each cell, and one LF after each row. Takes no memory.
///
/// After `Device` a beginning of it is written.
/// Cost: O(n).
pub fn print<W: Sink>(grid: &Grid, sink: &mut W) -> Result<(), Device>
    requires working { W.has_failed sink.old ≡ false }
    ensures ok { OnOk result (Appends (W.written sink.old) (W.written sink.new) (printed grid.now)) }
    ensures err { OnErr result (AppendsBeginning (W.written sink.old) (W.written sink.new) (printed grid.now)) }
    ensures failed { W.has_failed sink.new ≡ is_err result }
{
    laws_below();
    print_rows(grid.tables(), grid.text(), grid.rows(), sink)
}

/// Writes rows of a text, whose entries are slices of it, as `print` does. Takes no memory.
///
/// After `Device` a beginning of it is written.
/// Cost: that of `print_row` for each row.
pub fn print_rows<W: Sink>(
    tables: &Tables,
    text: &str,
    rows: &[Row],
    sink: &mut W,
) -> Result<(), Device>
    requires working { W.has_failed sink.old ≡ false }
    requires entries { All (AreSlices text.now) rows.now }
    ensures ok { OnOk result (Appends (W.written sink.old) (W.written sink.new) (flat_map (row_text tables.now text.now) rows.now)) }
    ensures err { OnErr result (AppendsBeginning (W.written sink.old) (W.written sink.new) (flat_map (row_text tables.now text.now) rows.now)) }
    ensures failed { W.has_failed sink.new ≡ is_err result }
{
    for row in rows {
        print_row(tables, text, row, sink)?;
    }
    Ok(())
}

/// Writes a row of a text, whose entries are slices of it, as `print` does. Takes no memory.
///
/// After `Device` a beginning of it is written.
/// Cost: O(n) of the row's cells and entries.
pub fn print_row<W: Sink>(
    tables: &Tables,
    text: &str,
    row: &Row,
    sink: &mut W,
) -> Result<(), Device>
    requires working { W.has_failed sink.old ≡ false }
    requires entries { All (λ e. IsSlice text.now e.span) row.now.entries }
    ensures ok { OnOk result (Appends (W.written sink.old) (W.written sink.new) (row_text tables.now text.now row.now)) }
    ensures err { OnErr result (AppendsBeginning (W.written sink.old) (W.written sink.new) (row_text tables.now text.now row.now)) }
    ensures failed { W.has_failed sink.new ≡ is_err result }
{
    let runs = row.runs();
    let (left, right) = row.blanks();
    let mut held = ArrayString::new();
    hold_spaces(left, &mut held, sink)?;
    hold_runs(tables, text, runs, &mut held, sink)?;
    hold_spaces(right, &mut held, sink)?;
    hold_char('\n', &mut held, sink)?;
    let_go(&mut held, sink)
}

/// Holds what the cells of runs that stand side by side print. Never inlined: as a part of its caller its loops would have
/// fewer registers.
#[inline(never)]
fn hold_runs<W: Sink>(
    tables: &Tables,
    text: &str,
    runs: &[ClusterRun],
    held: &mut Held,
    sink: &mut W,
) -> Result<(), Device>
    requires working { W.has_failed sink.old ≡ false }
    requires runs { All (IsPrintable text.now) runs.now }
    ensures ok { OnOk result (AppendsAllBut (W.written sink.old) (W.written sink.new) (held.old.bytes ++ flat_map (run_text tables.now text.now) runs.now) held.new.bytes) }
    ensures err { OnErr result (AppendsBeginning (W.written sink.old) (W.written sink.new) (held.old.bytes ++ flat_map (run_text tables.now text.now) runs.now)) }
    ensures failed { W.has_failed sink.new ≡ is_err result }
{
    let mut rest = runs;
    while !rest.is_empty() {
        let count = hold_first(tables, text, rest, held, sink)?;
        rest = rest.split_at(count).1;
    }
    Ok(())
}

/// Holds what the first runs print, and answers how many these are: those of a slice of the text, those of odd levels that find
/// room, or one.
fn hold_first<W: Sink>(
    tables: &Tables,
    text: &str,
    runs: &[ClusterRun],
    held: &mut Held,
    sink: &mut W,
) -> Result<usize, Device>
    requires working { W.has_failed sink.old ≡ false }
    requires some { 0 < length runs.now }
    requires runs { All (IsPrintable text.now) runs.now }
    ensures some { IfOk result (λ count. (0 < count) × (count ≤ length runs.now)) }
    ensures ok { IfOk result (λ count. AppendsAllBut (W.written sink.old) (W.written sink.new) (held.old.bytes ++ flat_map (run_text tables.now text.now) (take count runs.now)) held.new.bytes) }
    ensures err { OnErr result (AppendsBeginning (W.written sink.old) (W.written sink.new) (held.old.bytes ++ flat_map (run_text tables.now text.now) runs.now)) }
    ensures failed { W.has_failed sink.new ≡ is_err result }
{
    let first = &runs[0];
    if first.columns == 0 {
        return Ok(1);
    }
    if first.level % 2 == 1 {
        let count = push_odd_runs(tables, text, runs, held);
        if count > 0 {
            return Ok(count);
        }
        hold_clusters(tables, text, first, held, sink)?;
        return Ok(1);
    }
    let span = first.span.read();
    let start = span.first_byte as usize;
    let (count, end) = slice_at(tables, text, runs, start);
    if count > 0 {
        hold_text(&text[start..end], held, sink)?;
        return Ok(count);
    }
    hold_clusters(tables, text, first, held, sink)?;
    Ok(1)
}

/// How many of the first runs stand together in the text from this byte on, and print what stands there; and where they end.
fn slice_at(tables: &Tables, text: &str, runs: &[ClusterRun], start: usize) -> (usize, usize)
    requires start { IsCharBoundary text.now start }
    requires runs { All (IsPrintable text.now) runs.now }
    ensures count { result.0 ≤ length runs.now }
    ensures order { start ≤ result.1 }
    ensures end { IsCharBoundary text.now result.1 }
    ensures text { flat_map (run_text tables.now text.now) (take result.0 runs.now) ≡ slice_range text.now start result.1 }
{
    let mut end = start;
    for number in 0..runs.len() {
        let run = runs[number];
        let first = run.span.read();
        if first.first_byte as usize != end
            || run.level % 2 == 1
            || !prints_its_clusters(tables, text, &run)
        {
            return (number, end);
        }
        end = run.end_byte() as usize;
    }
    (runs.len(), end)
}

/// Whether each cluster of a run is known to print what stands in the text: they have columns, and the first bytes of their
/// characters tell that no tab is among them, and at an odd level nothing that is mirrored.
#[inline(always)]
pub(crate) fn prints_its_clusters(tables: &Tables, text: &str, run: &ClusterRun) -> bool
    requires { IsPrintable text.now run.now }
    ensures { result ≡ true → run_text tables.now text.now run.now ≡ run_slices text.now run.now }
{
    if run.columns == 0 {
        return false;
    }
    let first = run.span.read();
    let end = run.end_byte();
    let clusters = &text[first.first_byte as usize..end as usize];
    if run.level % 2 == 0 {
        tables.is_one_segment(clusters)
    } else {
        tables.is_shown_as_it_is(clusters)
    }
}

/// Puts what the first runs print behind what is held, as long as they are of odd levels, print what stands in the text and find
/// room; and answers how many these are. Never inlined: as a part of its caller its loops would have fewer registers.
#[inline(never)]
fn push_odd_runs(tables: &Tables, text: &str, runs: &[ClusterRun], held: &mut Held) -> usize
    requires { All (IsPrintable text.now) runs.now }
    ensures count { result ≤ length runs.now }
    ensures held { held.new.bytes ≡ held.old.bytes ++ flat_map (run_text tables.now text.now) (take result runs.now) }
{
    for number in 0..runs.len() {
        let run = runs[number];
        if !push_odd_run(tables, text, &run, held) {
            return number;
        }
    }
    runs.len()
}

/// Puts what a run prints behind what is held, if it is of an odd level, is known to print what stands in the text and finds
/// room; and answers whether it does.
#[inline(always)]
fn push_odd_run(tables: &Tables, text: &str, run: &ClusterRun, held: &mut Held) -> bool
    requires { IsPrintable text.now run.now }
    ensures put { result ≡ true → held.new.bytes ≡ held.old.bytes ++ run_text tables.now text.now run.now }
    ensures same { result ≡ false → held.new.bytes ≡ held.old.bytes }
{
    if run.level % 2 == 0 || !prints_its_clusters(tables, text, run) {
        return false;
    }
    let first = run.span.read();
    let all = run.end_byte() - first.first_byte;
    if all as usize > held.remaining_capacity() {
        return false;
    }
    // To copy so many bytes as are known beforehand takes no call.
    match first.end_byte - first.first_byte {
        1 => push_sized(text, *run, 1, held),
        2 => push_sized(text, *run, 2, held),
        4 => push_sized(text, *run, 4, held),
        bytes => push_sized(text, *run, bytes as usize, held),
    }
    true
}

/// Puts the clusters of a run of an odd level, which have so many bytes each, behind what is held, from the last to the first.
#[inline(always)]
fn push_sized(text: &str, run: ClusterRun, bytes: usize, held: &mut Held)
    requires odd { run.level % 2 ≡ 1 }
    requires run { IsPrintable text.now run }
    requires bytes { bytes ≡ byte_count (run_span run) }
    requires room { length held.old.bytes + cluster_count run * bytes ≤ 256 }
    ensures { held.new.bytes ≡ held.old.bytes ++ run_slices text.now run }
{
    let count = run.count();
    let mut end = run.end_byte() as usize;
    for _ in 0..count {
        let start = end - bytes;
        let cluster = &text[start..start + bytes];
        held.push_str(cluster);
        end = start;
    }
}

/// Holds what the cells of a run's entries print, one after the other. Never inlined: few runs need it, and its loops would
/// take registers from those that most need.
#[inline(never)]
fn hold_clusters<W: Sink>(
    tables: &Tables,
    text: &str,
    run: &ClusterRun,
    held: &mut Held,
    sink: &mut W,
) -> Result<(), Device>
    requires working { W.has_failed sink.old ≡ false }
    requires run { IsPrintable text.now run.now }
    ensures ok { OnOk result (AppendsAllBut (W.written sink.old) (W.written sink.new) (held.old.bytes ++ run_text tables.now text.now run.now) held.new.bytes) }
    ensures err { OnErr result (AppendsBeginning (W.written sink.old) (W.written sink.new) (held.old.bytes ++ run_text tables.now text.now run.now)) }
    ensures failed { W.has_failed sink.new ≡ is_err result }
{
    for number in 0..run.count() {
        let entry = run.entry(0, number as u8);
        hold_cells(tables, text, entry, held, sink)?;
    }
    Ok(())
}

/// Holds what the cells of an entry print, if it has any.
fn hold_cells<W: Sink>(
    tables: &Tables,
    text: &str,
    entry: Entry,
    held: &mut Held,
    sink: &mut W,
) -> Result<(), Device>
    requires working { W.has_failed sink.old ≡ false }
    requires entry { IsSlice text.now entry.span }
    ensures ok { OnOk result (AppendsAllBut (W.written sink.old) (W.written sink.new) (held.old.bytes ++ own_text tables.now text.now entry) held.new.bytes) }
    ensures err { OnErr result (AppendsBeginning (W.written sink.old) (W.written sink.new) (held.old.bytes ++ own_text tables.now text.now entry)) }
    ensures failed { W.has_failed sink.new ≡ is_err result }
{
    if entry.columns == 0 {
        return Ok(());
    }
    let cluster = &text[entry.span.first_byte as usize..entry.span.end_byte as usize];
    if begins_with_tab(tables, cluster) {
        hold_spaces(u16::from(entry.columns), held, sink)
    } else {
        hold_mirrored(tables, cluster, entry.level, held, sink)
    }
}

/// Whether a cluster's first code point separates segments, as a tab does.
pub(crate) fn begins_with_tab(tables: &Tables, cluster: &str) -> bool
    ensures { result ≡ begins_with_tab tables.now (code_points cluster.now) }
{
    match cluster.chars().next() {
        Some(c) => is_segment_separator(tables.bidi(c)),
        None => false,
    }
}

/// Holds a cluster as it is shown at a level (L4).
fn hold_mirrored<W: Sink>(
    tables: &Tables,
    cluster: &str,
    level: u8,
    held: &mut Held,
    sink: &mut W,
) -> Result<(), Device>
    requires working { W.has_failed sink.old ≡ false }
    ensures ok { OnOk result (AppendsAllBut (W.written sink.old) (W.written sink.new) (held.old.bytes ++ mirrored_text tables.now level (code_points cluster.now)) held.new.bytes) }
    ensures err { OnErr result (AppendsBeginning (W.written sink.old) (W.written sink.new) (held.old.bytes ++ mirrored_text tables.now level (code_points cluster.now))) }
    ensures failed { W.has_failed sink.new ≡ is_err result }
{
    for c in cluster.chars() {
        hold_char(mirrored(tables, c, level), held, sink)?;
    }
    Ok(())
}

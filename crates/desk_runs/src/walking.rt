//! The engine `carets`: one desk takes the operations of all files, its text is drawn, and a caret
//! walks over the grid.

ghost use Rattle.std.specs.Prelude.{◌≡◌, ◌≤◌, ℕ, None, false, length, string_bytes, map as each, OnOk, IfOk, IfErr};
ghost use Rattle.std.specs.Str.{chars};
ghost use Rattle.ucd_files.specs.Ucd.{fault_of_ucd};
ghost use Rattle.cell_grid.specs.Grids.{grid_of};
ghost use Rattle.desk_files.specs.Files.{bytes_of};
ghost use Rattle.desk_files.specs.Readers.{AreWorking, AreAsked, AreGiven, EndsOver};
ghost use Rattle.desk_runs.specs.WalkCause.{IsUnwalked};
ghost use Rattle.desk_runs.specs.Carets.{walk_lines};
ghost use Rattle.desk_runs.specs.CaretsOutcome.{asked, IsWalked, IsWalkCaused, IsCaretsOutcome, IsCaretsOutcomeOver};

use crate::walk::walk_lines;
use bg_types::{Base, Sink, put_all};
use caret::{Move, at_place};
use desk_files::{RunFault, joined_text, readers_of};
use op_codec::Source;
use std::alloc::Global;
use ucd_files::{Tables, Ucd};
use view_cache::View;

/// Writes the caret at a place of the text of all operations of the files, which one desk takes,
/// and the caret after each move: a line `row gap place` each, over the grid of the text at a
/// width in columns. All data is read and the place is tested before anything is written. The place
/// counts code points. Where the key is secret, it is hard to write files that make the run slow.
///
/// Which answer the data has is `laws::carets_are_decided`.
/// Cost: that of `text` and `draw`, and of each move; memory likewise.
pub fn carets<S: Sink>(
    alloc: Global,
    key: u128,
    ucd: &Ucd,
    width: u16,
    base: Base,
    files: &[Vec<u8>],
    place: u32,
    moves: &[Move],
    out: &mut S,
) -> Result<(), RunFault>
    requires narrow { 2 ≤ width }
    requires wide { width ≤ 500 }
    requires working { S.has_failed out.old ≡ false }
    ensures { IsCaretsOutcome (asked ucd.now width base (bytes_of files.now) place moves.now)
        (S.written out.old) (S.written out.new) (S.has_failed out.new) result }
{
    let mut readers = readers_of(alloc, files)?;
    carets_from(
        alloc,
        key,
        ucd,
        width,
        base,
        &mut readers,
        place,
        moves,
        out,
    )
}

/// Does what `carets` does, over the files of readers. Each is read in pieces of at most 4,096 bytes, to
/// its end, to a fault in its bytes, or to the byte past the greatest length of a file.
/// Cost: that of `carets`, memory too, in pieces of 4,096 bytes.
pub fn carets_from<R: Source, S: Sink>(
    alloc: Global,
    key: u128,
    ucd: &Ucd,
    width: u16,
    base: Base,
    files: &mut [R],
    place: u32,
    moves: &[Move],
    out: &mut S,
) -> Result<(), RunFault>
    requires narrow { 2 ≤ width }
    requires wide { width ≤ 500 }
    requires readers { AreWorking (each R.has_failed files.old) }
    requires working { S.has_failed out.old ≡ false }
    ensures asked { AreAsked (each R.remaining files.old) (each R.remaining files.new) }
    ensures outcome { IsCaretsOutcomeOver (each R.remaining files.old) (each R.remaining files.new) (each R.has_failed files.new)
        (λ told. asked ucd.now width base told place moves.now)
        (S.written out.old) (S.written out.new) (S.has_failed out.new) result }
{
    let lines = read_and_walk(alloc, key, ucd, width, base, files, place, moves)?;
    put_all(out, lines.as_bytes())?;
    Ok(())
}

/// The lines of a run, all data read before the place is tested.
fn read_and_walk<R: Source>(
    alloc: Global,
    key: u128,
    ucd: &Ucd,
    width: u16,
    base: Base,
    files: &mut [R],
    place: u32,
    moves: &[Move],
) -> Result<String, RunFault>
    requires narrow { 2 ≤ width }
    requires wide { width ≤ 500 }
    requires readers { AreWorking (each R.has_failed files.old) }
    ensures ok { IfOk result (λ lines. AreGiven (each R.remaining files.old) (each R.has_failed files.new)
        (λ told. IsWalked (asked ucd.now width base told place moves.now) (string_bytes lines))) }
    ensures asked { AreAsked (each R.remaining files.old) (each R.remaining files.new) }
    ensures tables_first { (n : ℕ) → IfErr result (λ fault. fault ≡ RunFault.ReadFailed n → fault_of_ucd ucd.now ≡ None) }
    ensures fault { IfErr result (EndsOver (each R.remaining files.old) (each R.remaining files.new) (each R.has_failed files.new)
        (λ told. IsWalkCaused (asked ucd.now width base told place moves.now))) }
{
    let tables = ucd.load(alloc)?;
    let text = joined_text(alloc, key, files)?;
    lines_over(alloc, &tables, width, base, text.as_str(), place, moves)
}

/// The lines of a walk over the grid of a text of at most 4,000,000 bytes.
fn lines_over(
    alloc: Global,
    tables: &Tables,
    width: u16,
    base: Base,
    text: &str,
    place: u32,
    moves: &[Move],
) -> Result<String, RunFault>
    requires narrow { 2 ≤ width }
    requires wide { width ≤ 500 }
    requires size { length text.now ≤ 4_000_000 }
    ensures within { OnOk result (place ≤ length (chars text.now)) }
    ensures lines { IfOk result (λ lines. string_bytes lines ≡ walk_lines (grid_of tables.now width base text.now) place moves.now) }
    ensures fault { IfErr result (IsUnwalked text.now place) }
{
    if code_points(text) < place as usize {
        return Err(RunFault::PastEnd(place));
    }
    let mut view = View::with_room(alloc, tables, 1)?;
    let grid = view.draw(width, base, text)?;
    let start = at_place(&grid, place as usize);
    let lines = walk_lines(alloc, &grid, start, moves)?;
    Ok(lines)
}

/// How many code points a text has.
fn code_points(text: &str) -> usize
    ensures { result ≡ length (chars text.now) }
{
    text.chars().count()
}

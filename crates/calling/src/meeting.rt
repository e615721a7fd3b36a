//! The meeting: what the program does, one step after the other.

ghost use Rattle.std.specs.Prelude.{◌≡◌, false, OnOk, encode_utf8_all};
ghost use Rattle.std.specs.Io.KnownBytes.{Appends};
ghost use Rattle.cell_grid.specs.Print.{printed};
ghost use Rattle.bg_types.specs.OperationSet.{no_operations};
ghost use Rattle.rga_tree.specs.TextOf.{text};
ghost use Rattle.calling.specs.Picture.{picture_of};

use crate::buffer::take_into;
use crate::desks::{Desk, meet, new_desk, read_text, take_all, type_words};
use crate::editor::edit;
use crate::fault::Fault;
use crate::mouse::{caret_before, place_under};
use crate::picture::{picture, show};
use crate::walk::steps_right;
use bg_types::{Op, Sink, put_all};
use caret::at_place;
use cell_grid::Grid;
use desk_replica::laws;
use std::alloc::Global;
use ucd_files::Tables;
use ucd_files::vectors::SMALL;
use view_cache::View;

/// How many paragraphs the view keeps.
const ROOM: usize = 100;

/// How far the caret walks from the text's start.
const STEPS: usize = 5;

/// Does it all, and writes what is seen, up to the first fault.
pub fn run<S: Sink>(alloc: Global, key: u128, out: &mut S) -> Result<(), Fault>
    requires { S.has_failed out.old ≡ false }
{
    let tables = load_tables(alloc)?;
    let mut view = View::keyed(alloc, key, &tables, ROOM)?;
    with_desks(alloc, key, &mut view, out)?;
    edit(alloc, key, out)
}

/// Makes three desks, and lets two write and meet. There is one way out: each way out of a function
/// that owns desks takes its own proof that they are freed.
fn with_desks<S: Sink>(alloc: Global, key: u128, view: &mut View, out: &mut S) -> Result<(), Fault>
    requires { S.has_failed out.old ≡ false }
    ensures { OnOk result (S.has_failed out.new ≡ false) }
{
    let mut one = new_desk(alloc, 1, key);
    let mut other = new_desk(alloc, 2, key);
    let mut reader = new_desk(alloc, 3, key);
    write_and_meet(alloc, &mut one, &mut other, &mut reader, view, out)
}

/// Lets two desks write apart and meet. Writes what each shows before, then what both show,
/// where the caret and the mouse are in it, and what a reader's buffer has.
fn write_and_meet<S: Sink>(
    alloc: Global,
    one: &mut Desk,
    other: &mut Desk,
    reader: &mut Desk,
    view: &mut View,
    out: &mut S,
) -> Result<(), Fault>
    requires working { S.has_failed out.old ≡ false }
    requires fresh { reader.old.set ≡ no_operations }
    ensures { OnOk result (S.has_failed out.new ≡ false) }
{
    let mut made = Vec::new(alloc);
    write_apart(one, other, &mut made)?;
    look(view, one, out)?;
    look(view, other, out)?;
    meet(one, other)?;
    look(view, other, out)?;
    point(alloc, view, one, out)?;
    read_along(alloc, reader, &made, out)
}

/// The tables of the small data files that the tests use.
fn load_tables(alloc: Global) -> Result<Tables, Fault> {
    let tables = SMALL.load(alloc)?;
    Ok(tables)
}

/// Two desks write at once: `other` has seen the first words of `one`, and neither has seen what the
/// other writes after them.
fn write_apart(one: &mut Desk, other: &mut Desk, made: &mut Vec<Op>) -> Result<(), Fault> {
    type_words(one, "tea ", made)?;
    take_all(other, made)?;
    type_words(one, "!", made)?;
    type_words(other, "תה", made)
}

/// A fresh desk takes what the others made, and its buffer follows. Writes what the buffer has.
fn read_along<S: Sink>(
    alloc: Global,
    reader: &mut Desk,
    made: &[Op],
    out: &mut S,
) -> Result<(), Fault>
    requires working { S.has_failed out.old ≡ false }
    requires fresh { reader.old.set ≡ no_operations }
    ensures { OnOk result (S.has_failed out.new ≡ false) }
{
    laws::told_changes();
    let mut buffer = Vec::new(alloc);
    take_into(alloc, reader, made, &mut buffer)?;
    let mut line = String::new(alloc);
    for ch in &buffer {
        line.push(*ch)?;
    }
    line.push('\n')?;
    put_all(out, line.as_bytes())?;
    Ok(())
}

/// Draws a desk's text, and writes the picture, which follows from the operations that the desk has and
/// from nothing else.
fn look<S: Sink>(view: &mut View, desk: &Desk, out: &mut S) -> Result<(), Fault>
    requires { S.has_failed out.old ≡ false }
    ensures written { OnOk result (Appends (S.written out.old) (S.written out.new)
        (printed (picture_of view.old.tables (encode_utf8_all (text desk.now.set))))) }
    ensures working { OnOk result (S.has_failed out.new ≡ false) }
{
    let text = read_text(desk)?;
    let grid = picture(view, text.as_str())?;
    show(&grid, out)
}

/// Draws a desk's text, and writes of a caret and of the mouse.
fn point<S: Sink>(alloc: Global, view: &mut View, desk: &Desk, out: &mut S) -> Result<(), Fault>
    requires { S.has_failed out.old ≡ false }
    ensures { OnOk result (S.has_failed out.new ≡ false) }
{
    let text = read_text(desk)?;
    let grid = picture(view, text.as_str())?;
    tell_caret(alloc, &grid, out)?;
    tell_mouse(alloc, &grid, 4, out)?;
    tell_mouse(alloc, &grid, 5, out)
}

/// Writes where a caret is after some steps to the right from the text's start.
fn tell_caret<S: Sink>(alloc: Global, grid: &Grid, out: &mut S) -> Result<(), Fault>
    requires { S.has_failed out.old ≡ false }
    ensures { OnOk result (S.has_failed out.new ≡ false) }
{
    let caret = steps_right(grid, at_place(grid, 0), STEPS);
    let line = format!(in alloc; "caret: gap {}, place {}\n", caret.gap, caret.place)?;
    put_all(out, line.as_bytes())?;
    Ok(())
}

/// Writes what the mouse points at in a column of the first row.
fn tell_mouse<S: Sink>(alloc: Global, grid: &Grid, column: usize, out: &mut S) -> Result<(), Fault>
    requires { S.has_failed out.old ≡ false }
    ensures { OnOk result (S.has_failed out.new ≡ false) }
{
    let Some(place) = place_under(grid, 0, column) else {
        return Ok(());
    };
    let caret = caret_before(grid, place);
    let line = format!(in alloc;
        "column {column}: place {place}, caret at gap {}\n",
        caret.gap
    )?;
    put_all(out, line.as_bytes())?;
    Ok(())
}

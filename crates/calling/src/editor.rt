//! An editor: a live document that types, hears of another desk, and is shown by windows.

ghost use Rattle.std.specs.Prelude.{◌≡◌, ◌≤◌, ◌++◌, false, take, drop, length, IfOk, OnOk, OnErr};
ghost use Rattle.std.specs.Str.{chars};
ghost use Rattle.std.specs.Io.KnownBytes.{Appends};
ghost use Rattle.rga_tree.specs.TextOf.{text, visible};
ghost use Rattle.desk_replica.specs.Merging.{with_operations};
ghost use Rattle.cell_grid.specs.Print.{printed};
ghost use Rattle.caret.specs.Positions.{position_at};
ghost use Rattle.live_document.specs.Documents.{whole_rows};
ghost use Rattle.calling.specs.Seen.{seen_round, position_right};

use crate::desks::{Desk, new_desk, take_all};
use crate::fault::Fault;
use bg_types::{Base, Op, Sink, put_all};
use live_document::{Document, Position};
use std::alloc::Global;
use std::rc::Rc;
use ucd_files::vectors::SMALL;

/// The columns of a row, at first and once the window was made narrower.
const WIDE: u16 = 12;

const NARROW: u16 = 6;

/// How many rows are shown above the row of a place, and below it.
const ABOVE: usize = 1;

const BELOW: usize = 2;

/// Where the other desk types, and how far a caret walks from there.
const SPOT: usize = 4;

const STEPS: usize = 9;

/// Types words at a place of a document's text, and appends the operations that this makes to `made`, to be sent. A fault
/// changes nothing.
pub fn type_at(
    document: &mut Document,
    place: usize,
    words: &str,
    made: &mut Vec<Op>,
) -> Result<(), Fault>
    requires { place ≤ length (visible document.old.desk.set) }
    ensures typed { OnOk result (text document.new.desk.set ≡ take place (text document.old.desk.set) ++ (chars words.now ++ drop place (text document.old.desk.set))) }
    ensures err { OnErr result (document.new ≡ document.old) }
    ensures unmade { OnErr result (made.new.items ≡ made.old.items) }
{
    document.type_text(place, words, made)?;
    Ok(())
}

/// Lets a document take the operations of another desk, in whatever order and however often they came.
pub fn hear(document: &mut Document, ops: &[Op]) -> Result<(), Fault>
    ensures { OnOk result (document.new.desk.set ≡ with_operations document.old.desk.set ops.now) }
{
    for op in ops {
        document.take(op)?;
    }
    Ok(())
}

/// Shows the rows round a place, and writes them: they are those of the picture of the whole text.
pub fn look_round<S: Sink>(document: &mut Document, place: usize, out: &mut S) -> Result<(), Fault>
    requires place { place ≤ length (visible document.old.desk.set) }
    requires working { S.has_failed out.old ≡ false }
    ensures written { OnOk result (Appends (S.written out.old) (S.written out.new) (printed (seen_round document.old place))) }
    ensures desk { document.new.desk ≡ document.old.desk }
    ensures working { OnOk result (S.has_failed out.new ≡ false) }
{
    document.show(place, ABOVE, BELOW)?;
    document.print(out)?;
    Ok(())
}

/// Where a caret stands after a number of steps to the right from a place, as the eye sees it.
pub fn walk_right(document: &mut Document, place: usize, steps: usize) -> Result<Position, Fault>
    requires { place ≤ length (visible document.old.desk.set) }
    ensures position { IfOk result (λ position. position ≡ position_right (whole_rows document.old) steps (position_at (whole_rows document.old) place)) }
    ensures desk { document.new.desk ≡ document.old.desk }
{
    let mut position = document.position_at(place)?;
    for _ in 0..steps {
        position = document.right(position)?;
    }
    Ok(position)
}

/// What the example does: an editor types, hears of what another desk typed, and makes its window narrower.
pub fn edit<S: Sink>(alloc: Global, key: u128, out: &mut S) -> Result<(), Fault>
    requires { S.has_failed out.old ≡ false }
{
    let tables = Rc::new(alloc, SMALL.load(alloc)?)?;
    let mut document = Document::new(alloc, 4, tables, WIDE, Base::Auto, key)?;
    let mut desk = new_desk(alloc, 5, key);
    edit_both(alloc, &mut document, &mut desk, out)
}

/// Its steps, over a document and a desk that have nothing yet.
fn edit_both<S: Sink>(
    alloc: Global,
    document: &mut Document,
    desk: &mut Desk,
    out: &mut S,
) -> Result<(), Fault>
    requires { S.has_failed out.old ≡ false }
{
    let mut made = Vec::new(alloc);
    type_at(document, 0, "one\ntwo שלום\nthree", &mut made)?;
    look_at_spot(document, out)?;
    take_all(desk, &made)?;
    let mut burst = Vec::new(alloc);
    desk.type_text(SPOT.min(desk.len()), "(2) ", &mut burst)?;
    hear(document, &burst)?;
    look_at_spot(document, out)?;
    walk_from_spot(alloc, document, out)?;
    document.resize(NARROW);
    look_at_spot(document, out)
}

/// Shows the rows round the place where the other desk types, or round the end of a shorter text.
fn look_at_spot<S: Sink>(document: &mut Document, out: &mut S) -> Result<(), Fault>
    requires { S.has_failed out.old ≡ false }
    ensures { OnOk result (S.has_failed out.new ≡ false) }
{
    let place = SPOT.min(document.len());
    look_round(document, place, out)
}

/// Writes where a caret is after some steps to the right from there.
fn walk_from_spot<S: Sink>(alloc: Global, document: &mut Document, out: &mut S) -> Result<(), Fault>
    requires { S.has_failed out.old ≡ false }
    ensures { OnOk result (S.has_failed out.new ≡ false) }
{
    let place = SPOT.min(document.len());
    let position = walk_right(document, place, STEPS)?;
    let line = format!(in alloc; "caret: gap {}, place {}\n", position.gap, position.place)?;
    put_all(out, line.as_bytes())?;
    Ok(())
}

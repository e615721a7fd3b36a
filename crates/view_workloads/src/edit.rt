//! Keystrokes in a long text, each of which is shown.

ghost use Rattle.std.specs.Prelude.{◌≡◌, length};
ghost use Rattle.std.specs.Str.{chars};

use crate::draw::LONGEST;
use crate::imported::{Order, import};
use anyhow::{Result, bail};
use bg_types::Base;
use caret::{Caret, at_place, down, left, right, up};
use cell_grid::{Grid, Row};
use desk_workloads::{Chance, Desk, Digest, MIXED, desk_of};
use std::alloc::Global;
use ucd_files::vectors::SMALL;
use view_cache::View;

const WIDTH: u16 = 80;

/// How many rows a window shows.
const ROWS: usize = 24;

/// The bytes of the text, and how many paragraphs the view keeps the rows of.
const BYTES: usize = 1_000_000;

const ROOM: usize = 10_000;

/// How many keys are pressed.
const KEYS: usize = 80;

/// The key that erases.
const ERASES: usize = 0;

/// A user types and erases in a text of a megabyte, and the window around the caret is shown after each key.
pub fn edit(alloc: Global, seed: u32, share: usize, digest: &mut Digest) -> Result<()> {
    let mut desk = desk_of(alloc, 1);
    type_and_show(alloc, seed, share, &mut desk, digest)
}

fn type_and_show(
    alloc: Global,
    seed: u32,
    share: usize,
    desk: &mut Desk,
    digest: &mut Digest,
) -> Result<()> {
    let tables = SMALL.load(alloc)?;
    let mut view = View::with_room(alloc, &tables, ROOM)?;
    let mut chance = Chance::new(seed, 9);
    let text = MIXED.text(alloc, &mut chance, BYTES / share.max(1))?;
    import(desk, 2, Order::Rising, text.as_str(), &mut chance)?;
    let mut place = chance.below(desk.len());
    for _ in 0..KEYS {
        let key = chance.below(8);
        // To erase what was just typed would give the text before it again.
        if key == ERASES || chance.one_in(10) {
            place = chance.below(desk.len());
        }
        place = press(desk, place, key)?;
        show(&mut view, desk, place, digest)?;
    }
    Ok(())
}

/// Types a character at a place of the text or erases the one before, as the key says. Returns the place after.
fn press(desk: &mut Desk, place: usize, key: usize) -> Result<usize> {
    let place = place.min(desk.len());
    if key == ERASES && place > 0 {
        desk.erase_at(place - 1)?;
        return Ok(place - 1);
    }
    let ch = match key {
        1 => '\n',
        2 => ' ',
        3 => 'ש',
        4 => '(',
        5 => '7',
        _ => 'e',
    };
    desk.type_char(place, ch)?;
    Ok(place.saturating_add(1))
}

/// Shows the rows around the caret, and moves it about.
fn show(view: &mut View, desk: &Desk, place: usize, digest: &mut Digest) -> Result<()> {
    let text = desk.text()?;
    if text.len() > LONGEST || code_points(text.as_str()) < place {
        bail!("too large");
    }
    digest.add(text.as_bytes());
    let grid = view.draw(WIDTH, Base::Auto, text.as_str())?;
    let caret = at_place(&grid, place);
    tell_window(&grid, caret.row, digest);
    tell_caret(down(&grid, right(&grid, caret)), digest);
    tell_caret(left(&grid, up(&grid, caret)), digest);
    Ok(())
}

/// How many code points a text has.
fn code_points(text: &str) -> usize
    ensures { result ≡ length (chars text.now) }
{
    text.chars().count()
}

/// Takes in the rows of a window whose middle this row is.
fn tell_window(grid: &Grid, row: usize, digest: &mut Digest) {
    let first = row.saturating_sub(ROWS / 2);
    for row in grid.rows().iter().skip(first).take(ROWS) {
        tell_row(row, digest);
    }
}

fn tell_row(row: &Row, digest: &mut Digest) {
    for entry in row.entries() {
        if entry.columns > 0 {
            digest.add_number(entry.span.first_place as usize);
            digest.add_number(usize::from(entry.level));
        }
    }
}

fn tell_caret(caret: Caret, digest: &mut Digest) {
    digest.add_number(caret.row);
    digest.add_number(caret.gap);
    digest.add_number(caret.place);
}

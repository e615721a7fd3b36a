//! What no clause says: texts drawn again and again, with small tables, beside `cell_grid::draw`.
//!
//! A draw or print of a view that was refused memory is made again, and not counted.

use crate::grids::is_same;
use crate::rows::{Row, assert_rows};
use bg_types::{Base, Memory};
use cell_grid::{Grid, InMemory, draw, print};
use std::alloc::{AllocError, Global};
use std::slice::from_ref;
use ucd_files::Tables;
use view_cache::*;

/// A draw, and how many paragraphs it lays out.
type Draw<'a> = (u16, Base, &'a str, usize);

/// Whether a view draws the same grid, and lays out as many paragraphs as are wanted, if any are and no growth was refused.
fn draws_same(
    view: &mut View,
    fresh: &Grid,
    (width, base, text): (u16, Base, &str),
    wanted: Option<usize>,
) -> Result<bool, Memory> {
    if width < 2 || width > 500 || text.len() > 4_000_000 {
        return Ok(false);
    }
    let (same, counted) = match view.draw(width, base, text) {
        Ok(kept) => (is_same(&kept, fresh), true),
        Err(Memory) => (is_same(&view.draw(width, base, text)?, fresh), false),
    };
    Ok(same && (!counted || wanted.is_none_or(|laid| view.laid() == laid)))
}

/// Whether a view draws the grid of `cell_grid::draw`, and lays out as many paragraphs as are wanted.
fn draws_both(
    alloc: Global,
    tables: &Tables,
    view: &mut View,
    given: (u16, Base, &str),
    wanted: Option<usize>,
) -> Result<bool, Memory> {
    let (width, base, text) = given;
    if width < 2 || width > 500 || text.len() > 4_000_000 {
        return Ok(false);
    }
    match draw(alloc, tables, width, base, text) {
        Ok(fresh) => draws_same(view, &fresh, given, wanted),
        Err(Memory) => Err(Memory),
    }
}

fn draws_all(
    alloc: Global,
    tables: &Tables,
    view: &mut View,
    draws: &[Draw],
) -> Result<bool, Memory> {
    let mut right = view.laid() == 0;
    for (width, base, text, laid) in draws {
        let given = (*width, *base, *text);
        right = draws_both(alloc, tables, view, given, Some(*laid))? && right;
    }
    Ok(right)
}

/// Draws from a new view.
struct Walk(&'static [Draw<'static>]);

impl Row for Walk {
    fn comes_out(&self, alloc: Global, tables: &Tables) -> Result<bool, Memory> {
        let mut view = View::new(alloc, tables)?;
        draws_all(alloc, tables, &mut view, self.0)
    }
}

const WALKS: &[Walk] = &[
    Walk(&[
        (4, Base::Auto, "a\nb", 2),
        (4, Base::Auto, "a\nb", 0),
        (4, Base::Auto, "xa\nb", 1),
    ]),
    Walk(&[(4, Base::Auto, "a\na\n", 2), (4, Base::Auto, "b\na\n", 1)]),
    Walk(&[
        (4, Base::Auto, "ab cd", 1),
        (2, Base::Auto, "ab cd", 1),
        (4, Base::Auto, "ab cd", 0),
    ]),
    Walk(&[
        (4, Base::Auto, "a!", 1),
        (4, Base::Right, "a!", 1),
        (4, Base::Auto, "a!", 0),
        (4, Base::Left, "a!", 1),
    ]),
    Walk(&[
        (6, Base::Auto, "\u{5D0}(\n\u{4E16}b\tc\u{301}", 2),
        (6, Base::Auto, "a\n\u{4E16}b\tc\u{301}\n\u{5D0}(\n", 3),
    ]),
];

#[test]
fn what_is_kept_is_not_laid_out_again(rt: HostRuntime) {
    assert_rows(&rt, WALKS);
}

/// Whether what a view prints is what `cell_grid::print` writes of a grid, and it lays out as many paragraphs as are wanted, if any
/// are and no growth was refused.
fn prints_same(
    alloc: Global,
    view: &mut View,
    fresh: &Grid,
    (width, base, text): (u16, Base, &str),
    wanted: Option<usize>,
) -> Result<bool, Memory> {
    if width < 2 || width > 500 || text.len() > 4_000_000 {
        return Ok(false);
    }
    let mut drawn = InMemory::new(alloc);
    let mut sink = InMemory::new(alloc);
    let (kept, counted) = match view.printed(width, base, text) {
        Ok(kept) => (kept, true),
        Err(Memory) => (view.printed(width, base, text)?, false),
    };
    if print(fresh, &mut drawn).is_err() || kept.write(&mut sink).is_err() {
        return Err(Memory);
    }
    let same = sink.bytes == drawn.bytes;
    Ok(same && (!counted || wanted.is_none_or(|laid| view.laid() == laid)))
}

fn prints_both(
    alloc: Global,
    tables: &Tables,
    view: &mut View,
    given: (u16, Base, &str),
    wanted: Option<usize>,
) -> Result<bool, Memory> {
    let (width, base, text) = given;
    if width < 2 || width > 500 || text.len() > 4_000_000 {
        return Ok(false);
    }
    match draw(alloc, tables, width, base, text) {
        Ok(fresh) => prints_same(alloc, view, &fresh, given, wanted),
        Err(Memory) => Err(Memory),
    }
}

/// Prints of a new view, each with how many paragraphs it lays out.
struct Prints(&'static [Draw<'static>]);

impl Row for Prints {
    fn comes_out(&self, alloc: Global, tables: &Tables) -> Result<bool, Memory> {
        let mut view = View::new(alloc, tables)?;
        let mut right = true;
        for (width, base, text, laid) in self.0 {
            let given = (*width, *base, *text);
            right = prints_both(alloc, tables, &mut view, given, Some(*laid))? && right;
        }
        Ok(right)
    }
}

const PRINTS: &[Prints] = &[
    Prints(&[(4, Base::Auto, "", 1), (4, Base::Auto, "\n", 1)]),
    Prints(&[
        (4, Base::Auto, "a\nb", 2),
        (4, Base::Auto, "a\nb", 0),
        (4, Base::Auto, "xa\nb", 1),
        (2, Base::Auto, "xa\nb", 2),
        (4, Base::Auto, "b\nxa\n", 2),
    ]),
    Prints(&[
        (6, Base::Auto, "\u{5D0}(\n\u{4E16}b\tc\u{301}", 2),
        (6, Base::Auto, "a\n\u{4E16}b\tc\u{301}\n\u{5D0}(\n", 3),
        (6, Base::Right, "\u{5D0}(\n", 2),
    ]),
];

#[test]
fn what_is_printed_is_what_is_drawn(rt: HostRuntime) {
    assert_rows(&rt, PRINTS);
}

/// Texts that a view draws one after the other, with the first and last place of the second row of each.
struct Moved(&'static [(&'static str, usize, usize)]);

/// Whether the second row of a text has this first and last place.
fn has_second_row(view: &mut View, row: &(&str, usize, usize)) -> Result<bool, Memory> {
    let (text, first_place, last_place) = *row;
    if text.len() > 4_000_000 {
        return Ok(false);
    }
    let grid = view.draw(4, Base::Auto, text)?;
    Ok(match grid.rows().get(1) {
        Some(row) => row.first_place() == first_place && row.last_place() == last_place,
        None => false,
    })
}

fn have_second_rows(view: &mut View, rows: &[(&str, usize, usize)]) -> Result<bool, Memory> {
    let mut right = true;
    for row in rows {
        right = has_second_row(view, row)? && right;
    }
    Ok(right)
}

impl Row for Moved {
    fn comes_out(&self, alloc: Global, tables: &Tables) -> Result<bool, Memory> {
        let mut view = View::new(alloc, tables)?;
        have_second_rows(&mut view, self.0)
    }
}

const MOVED: &[Moved] = &[Moved(&[("a\nb", 2, 3), ("xa\nb", 3, 4)])];

#[test]
fn kept_rows_stand_where_the_paragraph_stands_now(rt: HostRuntime) {
    assert_rows(&rt, MOVED);
}

/// The decimal numbers from 1 on, each ended by a line feed.
fn numbers(alloc: Global, last: usize) -> Result<String, AllocError> {
    let mut text = String::new(alloc);
    for number in 1..=last {
        writeln!(text, "{}", number)?;
    }
    Ok(text)
}

/// A view's room, how many numbers there are, and how many paragraphs a draw and the next one lay out.
///
/// With the empty last paragraph there is one more than there are numbers.
struct Room(Option<usize>, usize, usize, usize);

/// A view with room for this many paragraphs, from 1 to 1,000,000, or for 1,024.
fn view_of(alloc: Global, tables: &Tables, room: Option<usize>) -> Result<View<'_>, Memory> {
    match room {
        Some(room) => View::with_room(alloc, tables, room.clamp(1, 1_000_000)),
        None => View::new(alloc, tables),
    }
}

fn has_room(alloc: Global, tables: &Tables, row: &Room, text: &str) -> Result<bool, Memory> {
    let mut view = view_of(alloc, tables, row.0)?;
    let draws = [(8, Base::Auto, text, row.2), (8, Base::Auto, text, row.3)];
    draws_all(alloc, tables, &mut view, &draws)
}

impl Row for Room {
    fn comes_out(&self, alloc: Global, tables: &Tables) -> Result<bool, Memory> {
        let text = numbers(alloc, self.1)?;
        has_room(alloc, tables, self, &text)
    }
}

const ROOMS: &[Room] = &[
    Room(None, 1_100, 1_101, 1_101),
    Room(None, 1_023, 1_024, 0),
    Room(None, 1_024, 1_025, 1_025),
    Room(Some(1_101), 1_100, 1_101, 0),
    Room(Some(1), 0, 1, 0),
];

#[test]
fn beyond_its_room_a_view_keeps_the_latest(rt: HostRuntime) {
    assert_rows(&rt, ROOMS);
}

/// What random texts are made of.
const PIECES: [&str; 12] = [
    "a",
    "b c",
    "\u{5D0}",
    "\u{5D1} \u{5D2}",
    " ",
    "\n",
    "\r\n",
    "1",
    "(",
    ")",
    "\u{4E16}",
    "\u{2067}",
];

/// The next number of a fixed sequence.
fn next(seed: &mut u32) -> usize {
    *seed = seed.wrapping_mul(1_664_525).wrapping_add(1_013_904_223);
    (*seed >> 16) as usize
}

/// Puts a piece in, takes one out or puts another in its place.
fn edit(seed: &mut u32, pieces: &mut Vec<&'static str>) -> Result<(), AllocError> {
    let place = next(seed) % (pieces.len() + 1);
    let piece = PIECES[next(seed) % PIECES.len()];
    if place < pieces.len() && next(seed) % 3 == 0 {
        pieces[place] = piece;
    } else if place < pieces.len() && pieces.len() > 60 {
        pieces.remove(place);
    } else {
        pieces.insert(place, piece)?;
    }
    Ok(())
}

fn text_of(alloc: Global, pieces: &[&str]) -> Result<String, AllocError> {
    let mut text = String::new(alloc);
    for piece in pieces {
        text.push_str(*piece)?;
    }
    Ok(text)
}

fn draws_at_widths(
    alloc: Global,
    tables: &Tables,
    view: &mut View,
    pieces: &[&str],
) -> Result<bool, Memory> {
    let text = text_of(alloc, pieces)?;
    let mut right = true;
    for width in [2, 5, 40] {
        let given = (width, Base::Auto, text.as_str());
        right = draws_both(alloc, tables, view, given, None)? && right;
        right = prints_both(alloc, tables, view, given, None)? && right;
    }
    Ok(right)
}

fn draws_edits(
    alloc: Global,
    tables: &Tables,
    view: &mut View,
    pieces: &mut Vec<&'static str>,
) -> Result<bool, Memory> {
    let mut seed = 29;
    let mut right = true;
    for _ in 0..200 {
        edit(&mut seed, pieces)?;
        right = draws_at_widths(alloc, tables, view, pieces)? && right;
    }
    Ok(right)
}

/// 200 texts, each an edit of the one before.
#[derive(Clone, Copy)]
struct Edits;

impl Row for Edits {
    fn comes_out(&self, alloc: Global, tables: &Tables) -> Result<bool, Memory> {
        let mut view = View::with_room(alloc, tables, 12)?;
        let mut pieces = Vec::new(alloc);
        draws_edits(alloc, tables, &mut view, &mut pieces)
    }
}

#[test]
fn after_random_edits_a_view_draws_as_from_scratch(rt: HostRuntime) {
    assert_rows(&rt, &[Edits]);
}

/// A draw from a view with a key and room for two paragraphs.
struct Keyed(Draw<'static>);

impl Row for Keyed {
    fn comes_out(&self, alloc: Global, tables: &Tables) -> Result<bool, Memory> {
        let mut view = View::keyed(alloc, 0x2545_F491_4F6C_DD1D, tables, 2)?;
        draws_all(alloc, tables, &mut view, from_ref(&self.0))
    }
}

const KEYED: &[Keyed] = &[
    Keyed((4, Base::Auto, "a\na", 2)),
    // The third is found. So the fourth takes the place of the second, which is laid out again.
    Keyed((3, Base::Left, "ab cd\na\nab cd\nb\na\n", 5)),
];

#[test]
fn views_with_a_key_and_the_laws(rt: HostRuntime) {
    assert_rows(&rt, KEYED);
    laws::drawn_after_edits();
    laws::edits_cost_what_they_put_in();
}

//! A walk of steps by chance, after each of which a window is compared with the rows of the whole grid.

ghost use Rattle.std.specs.Prelude.{◌≡◌, ◌≤◌, length};
ghost use Rattle.rga_tree.specs.TextOf.{visible};

use crate::chance::Chance;
use crate::edits::change;
use crate::other::{Other, desk_of};
use bg_types::{Base, Memory};
use cell_grid::{Row, draw};
use live_document::{Document, Window, WindowRow};
use std::alloc::Global;
use std::rc::Rc;
use ucd_files::Tables;

/// The most rows of a window above and below its own, and one more.
const ROWS: usize = 40;

/// Makes so many steps by chance in a text that has so many paragraphs at first, and shows a window at some place after each.
/// Answers the number of the first step after which the window is not the part of the rows of `cell_grid::draw` that it should
/// be, or the number of steps where there is none.
pub fn walk(
    alloc: Global,
    tables: Rc<Tables>,
    paragraphs: usize,
    seed: u64,
    steps: usize,
) -> Result<usize, Memory> {
    let mut walker = Walker::begin(alloc, tables, paragraphs, seed)?;
    walker.walk(steps)
}

/// A document, another desk, and what chance has in store.
#[derive(Drop)]
struct Walker {
    alloc: Global,
    document: Document,
    other: Other,
    chance: Chance,
}

impl Walker {
    fn begin(
        alloc: Global,
        tables: Rc<Tables>,
        paragraphs: usize,
        seed: u64,
    ) -> Result<Walker, Memory> {
        Ok(Walker {
            alloc,
            document: begun(alloc, tables, paragraphs)?,
            other: Other::new(alloc),
            chance: Chance::new(seed),
        })
    }

    /// Goes on by so many steps, or up to the first after which the window is wrong.
    fn walk(&mut self, steps: usize) -> Result<usize, Memory> {
        for step in 0..steps {
            if !self.step()? {
                return Ok(step);
            }
        }
        Ok(steps)
    }

    /// Goes on by one step, and answers whether the window is right then.
    fn step(&mut self) -> Result<bool, Memory> {
        self.go_on()?;
        shows(self.alloc, &mut self.document, &mut self.chance)
    }

    /// A step: at the document, or between it and another desk.
    fn go_on(&mut self) -> Result<(), Memory> {
        if self.chance.one_in(2) {
            return self.other.step(&mut self.document, &mut self.chance);
        }
        let mut made = Vec::new(self.alloc);
        change(&mut self.document, &mut self.chance, &mut made)
    }
}

/// A document over a desk that has the first text.
fn begun(alloc: Global, tables: Rc<Tables>, paragraphs: usize) -> Result<Document, Memory> {
    let mut text = String::new(alloc);
    for _ in 0..paragraphs {
        text.push_str("ab \u{5D0}\n")?;
    }
    let mut desk = desk_of(alloc, 1);
    let mut made = Vec::new(alloc);
    desk.type_text(0, &text, &mut made).map_err(|_| Memory)?;
    Document::of(alloc, desk, tables, 17, Base::Auto)
}

/// Whether a window at some place is the part of the whole grid that it should be.
fn shows(alloc: Global, document: &mut Document, chance: &mut Chance) -> Result<bool, Memory> {
    let length = document.len();
    let place = chance.below(length.saturating_add(1)).min(length);
    let above = chance.below(ROWS).min(ROWS);
    let below = chance.below(ROWS).min(ROWS);
    shows_round(alloc, document, place, above, below)
}

/// Whether the window with so many rows above and below the row of a place is the part of the whole grid that it should
/// be.
pub fn shows_round(
    alloc: Global,
    document: &mut Document,
    place: usize,
    above: usize,
    below: usize,
) -> Result<bool, Memory>
    requires place { place ≤ length (visible document.old.desk.set) }
    requires above { above ≤ 1_000 }
    requires below { below ≤ 1_000 }
    ensures desk { document.new.desk ≡ document.old.desk }
{
    document.show(place, above, below)?;
    let text = document.text()?;
    let width = document.width();
    if text.len() > 4_000_000 || width < 2 || width > 500 {
        return Ok(false);
    }
    let grid = draw(alloc, document.tables(), width, document.base(), &text)?;
    Ok(is_stretch(&document.window(), grid.rows(), place, above, below))
}

/// Whether a window has the rows from so many above the row of a place to so many below it.
fn is_stretch(window: &Window, rows: &[Row], place: usize, above: usize, below: usize) -> bool {
    let number = row_of(rows, place);
    let first = number.saturating_sub(above);
    let end = rows
        .len()
        .min(number.saturating_add(below).saturating_add(1));
    let mut right = window.len() == end.saturating_sub(first)
        && window.number() == number.saturating_sub(first);
    let mut seen = window.rows();
    for row in rows.iter().take(end).skip(first) {
        right = is_next(seen.next(), row) && right;
    }
    right
}

/// The last row whose first place is at most this place.
fn row_of(rows: &[Row], place: usize) -> usize {
    let mut number = 0;
    for (n, row) in rows.iter().enumerate() {
        if row.first_place() <= place {
            number = n;
        }
    }
    number
}

fn is_next(seen: Option<WindowRow>, row: &Row) -> bool {
    match seen {
        Some(seen) => is_same(&seen, row),
        None => false,
    }
}

fn is_same(seen: &WindowRow, row: &Row) -> bool {
    let mut right = seen.first_place() == row.first_place()
        && seen.last_place() == row.last_place()
        && seen.para_level() == row.para_level()
        && seen.width() == row.width()
        && seen.entry_count() == row.entry_count();
    for (shown, own) in seen.entries().zip(row.entries()) {
        right = shown == own && right;
    }
    right
}

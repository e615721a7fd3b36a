//! Desks that meet with news on both sides, and texts of other scripts under the data files of Unicode 15.0.

use crate::draw::LONGEST;
use crate::imported::{Order, import};
use anyhow::{Result, bail};
use bg_types::Base;
use cell_grid::print;
use desk_workloads::{CHINESE, Chance, Desk, Digest, MIXED, POINTED, Prose, desk_of};
use std::alloc::Global;
use ucd_files::Tables;
use unicode_data::unicode_15_0;
use view_cache::View;

const WIDTH: u16 = 80;

/// How many paragraphs a view keeps.
const ROOM: usize = 10_000;

/// The bytes of each text that two desks have in common.
const BYTES: usize = 400_000;

/// How many times they meet.
const MEETINGS: usize = 4;

/// How many ranges each of them types or erases before, and the most characters of one.
const STRETCHES: usize = 20;

const STRETCH: usize = 50;

/// The bytes of each text that a desk has for itself.
const OWN_BYTES: usize = 120_000;

/// The bytes of a short one.
const NOTE_BYTES: usize = 400;

/// The site of those who wrote the texts that desks have from the start.
const AUTHOR: u16 = 9;

const ORDERS: [Order; 3] = [Order::Rising, Order::Falling, Order::Random];

/// Two desks go on with a text that both have and meet now and then, in two scripts; and desks meet that have nothing
/// in common.
pub fn meet(alloc: Global, seed: u32, share: usize, digest: &mut Digest) -> Result<()> {
    let tables = unicode_15_0(false).load(alloc)?;
    let mut chance = Chance::new(seed, 13);
    for prose in [POINTED, CHINESE] {
        write_together(alloc, &tables, prose, share, &mut chance, digest)?;
    }
    for order in ORDERS {
        meet_strangers(alloc, order, share, &mut chance, digest)?;
    }
    Ok(())
}

/// Two desks go on with one text and meet, and one of them then meets a desk that has only a note.
fn write_together(
    alloc: Global,
    tables: &Tables,
    prose: Prose,
    share: usize,
    chance: &mut Chance,
    digest: &mut Digest,
) -> Result<()> {
    let text = prose.text(alloc, chance, BYTES / share.max(1))?;
    let note = prose.text(alloc, chance, NOTE_BYTES / share.max(1))?;
    let mut one = desk_of(alloc, 1);
    let mut other = desk_of(alloc, 2);
    let mut third = desk_of(alloc, 3);
    let met = go_on(
        alloc,
        tables,
        text.as_str(),
        &mut one,
        &mut other,
        chance,
        digest,
    );
    let noted = import(&mut third, 4, Order::Rising, note.as_str(), chance);
    met.and(noted).and(exchange(&mut third, &mut one, digest))
}

/// Two desks get one text. Then each types and erases in it for itself, they meet, and what they have is shown: at
/// one desk in the window that it had before, at the other in a new one.
fn go_on(
    alloc: Global,
    tables: &Tables,
    text: &str,
    one: &mut Desk,
    other: &mut Desk,
    chance: &mut Chance,
    digest: &mut Digest,
) -> Result<()> {
    import(one, AUTHOR, Order::Rising, text, chance)?;
    import(other, AUTHOR, Order::Rising, text, chance)?;
    let letters = text.chars().collect::<Vec<char>>(alloc)?;
    let mut view = View::with_room(alloc, tables, ROOM)?;
    for _ in 0..MEETINGS {
        write(one, &letters, chance)?;
        write(other, &letters, chance)?;
        exchange(one, other, digest)?;
        show(&mut view, one, digest)?;
        show(&mut View::new(alloc, tables)?, other, digest)?;
    }
    Ok(())
}

/// Types or erases some ranges, each at another place.
fn write(desk: &mut Desk, letters: &[char], chance: &mut Chance) -> Result<()> {
    for _ in 0..STRETCHES {
        let place = chance.below(desk.len());
        let length = chance.below(STRETCH);
        if chance.one_in(4) {
            erase(desk, place, length)?;
        } else {
            let from = chance.below(letters.len());
            let end = letters.len().min(from.saturating_add(length));
            type_letters(desk, place, letters.get(from..end).unwrap_or(&[]))?;
        }
    }
    Ok(())
}

/// Erases so many characters before a place, or all that stand before it.
fn erase(desk: &mut Desk, place: usize, length: usize) -> Result<()> {
    let mut end = place;
    for _ in 0..length {
        if end == 0 || end > desk.len() {
            break;
        }
        end -= 1;
        desk.erase_at(end)?;
    }
    Ok(())
}

fn type_letters(desk: &mut Desk, place: usize, letters: &[char]) -> Result<()> {
    let mut place = place;
    for ch in letters {
        desk.type_char(place.min(desk.len()), *ch)?;
        place = place.saturating_add(1);
    }
    Ok(())
}

/// Two desks take over from each other.
fn exchange(one: &mut Desk, other: &mut Desk, digest: &mut Digest) -> Result<()> {
    take_over(one, other, digest)?;
    take_over(other, one, digest)
}

/// A desk takes what it lacks of another one's.
fn take_over(desk: &mut Desk, other: &Desk, digest: &mut Digest) -> Result<()> {
    digest.add_number(desk.merge(other)? as usize);
    let text = desk.text()?;
    digest.add(text.as_bytes());
    Ok(())
}

/// Draws what a desk has, and prints it.
fn show(view: &mut View, desk: &Desk, digest: &mut Digest) -> Result<()> {
    let text = desk.text()?;
    if text.len() > LONGEST {
        bail!("too large");
    }
    let grid = view.draw(WIDTH, Base::Auto, text.as_str())?;
    print(&grid, digest)?;
    Ok(())
}

/// A desk has a text whose counters have an order. An empty desk takes it, and then it meets a desk that has another
/// text of that order.
fn meet_strangers(
    alloc: Global,
    order: Order,
    share: usize,
    chance: &mut Chance,
    digest: &mut Digest,
) -> Result<()> {
    let text = MIXED.text(alloc, chance, OWN_BYTES / share.max(1))?;
    let other_text = MIXED.text(alloc, chance, OWN_BYTES / share.max(1))?;
    let mut one = desk_of(alloc, 1);
    let mut empty = desk_of(alloc, 2);
    let mut other = desk_of(alloc, 3);
    let had = import(&mut one, 1, order, text.as_str(), chance);
    let other_had = import(&mut other, 3, order, other_text.as_str(), chance);
    let took = take_over(&mut empty, &one, digest);
    let met = exchange(&mut one, &mut other, digest);
    had.and(other_had).and(took).and(met)
}

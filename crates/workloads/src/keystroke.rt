//! Keys in live documents, each of which is followed by the caret and the window at its place.

use anyhow::Result;
use bg_types::{Base, Op};
use desk_workloads::{Chance, Digest, KEY, Key, MIXED, Way, keys_of};
use live_document::Document;
use std::alloc::Global;
use std::rc::Rc;
use ucd_files::Tables;
use unicode_data::unicode_15_0;

pub const WIDTH: u16 = 80;

/// A window has 50 rows: so many above that of the key, and so many below it.
const ABOVE: usize = 25;

const BELOW: usize = 24;

/// The bytes of the texts. A desk has at most 1,000,000 operations: after the longest there is room left for the keys.
const SIZES: [usize; 4] = [4_000, 100_000, 1_000_000, 1_350_000];

/// How many keys are pressed in each text in each way.
const KEYS: usize = 1_000;

const WAYS: [Way; 3] = [Way::Bursts, Way::Elsewhere, Way::Remote];

/// The stream of chance that the texts are made of.
const STREAM: u32 = 14;

/// A user types into texts from a note to a book, and so does another desk, and the window around is shown after each key.
pub fn keystroke(alloc: Global, seed: u32, share: usize, digest: &mut Digest) -> Result<()> {
    let tables = shared_tables(alloc)?;
    let share = share.max(1);
    let mut chance = Chance::new(seed, STREAM);
    for bytes in SIZES {
        let text = MIXED.text(alloc, &mut chance, bytes / share)?;
        for way in WAYS {
            let mut document = document_of(alloc, tables.clone()?)?;
            press_all(alloc, &mut document, &text, way, KEYS / share, digest)?;
        }
    }
    Ok(())
}

/// The tables of Unicode 15.0.
pub fn shared_tables(alloc: Global) -> Result<Rc<Tables>> {
    Ok(Rc::new(alloc, unicode_15_0(false).load(alloc)?)?)
}

/// A document without operations.
pub fn document_of(alloc: Global, tables: Rc<Tables>) -> Result<Document> {
    Ok(Document::new(alloc, 1, tables, WIDTH, Base::Auto, KEY)?)
}

/// Types a text into a document, presses keys in it, and takes each window in.
fn press_all(
    alloc: Global,
    document: &mut Document,
    text: &str,
    way: Way,
    count: usize,
    digest: &mut Digest,
) -> Result<()> {
    let mut made = Vec::new(alloc);
    document.type_text(0, text, &mut made)?;
    for key in &keys_of(alloc, document.desk(), way, count)? {
        press_and_show(document, key, &mut made)?;
        digest.add_number(look(document));
    }
    Ok(())
}

/// Presses a key in a document.
fn press(document: &mut Document, key: &Key, made: &mut Vec<Op>) -> Result<()> {
    let length = document.len();
    let from = key.place().min(length);
    match key {
        Key::Type { .. } => document.type_text(from, "e", made)?,
        Key::Erase { .. } => {
            let to = from.saturating_add(1).min(length);
            document.erase_range(from, to, made)?;
        }
        Key::Take { op, .. } => {
            document.take(op)?;
        }
    }
    Ok(())
}

/// Presses a key, asks for the position of the caret at its place, and lays out the window there.
#[inline(never)]
pub fn press_and_show(document: &mut Document, key: &Key, made: &mut Vec<Op>) -> Result<()> {
    press(document, key, made)?;
    let place = key.place().min(document.len());
    document.position_at(place)?;
    show(document, place)
}

/// Lays out the window at a place.
#[inline(never)]
pub fn show(document: &mut Document, place: usize) -> Result<()> {
    let place = place.min(document.len());
    document.show(place, ABOVE, BELOW)?;
    Ok(())
}

/// Goes over the rows of the window, and answers all of them in one number.
#[inline(never)]
pub fn look(document: &Document) -> usize {
    let window = document.window();
    let mut seen = window.number();
    for row in window.rows() {
        seen = seen.wrapping_mul(31).wrapping_add(row.first_place());
        seen = seen.wrapping_mul(31).wrapping_add(row.last_place());
        seen = seen.wrapping_mul(31).wrapping_add(row.entry_count());
    }
    seen
}

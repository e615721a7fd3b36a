//! Keys that are pressed in a text.

use crate::chance::Chance;
use crate::desk::{Desk, desk_of};
use anyhow::Result;
use bg_types::Op;
use std::alloc::Global;

/// How many keys of a burst follow one another.
const BURST: usize = 50;

/// The stream of chance that places are made of.
const STREAM: u32 = 15;

/// Where keys are pressed, and what they do.
#[derive(Clone, Copy, PartialEq, Eq)]
pub enum Way {
    /// They type, in bursts at places drawn by chance.
    Bursts,
    /// They type, each at another place.
    Elsewhere,
    /// They are pressed in bursts at another desk, whose operations are taken.
    Remote,
    /// They type and erase by turns, all at the text's start.
    Corrected,
}

/// What a key does.
#[derive(Clone, Copy)]
pub enum Key {
    /// It types a character at a place.
    Type { place: usize },
    /// It erases the character at a place.
    Erase { place: usize },
    /// Another desk typed at a place, and its operation is taken.
    Take { place: usize, op: Op },
}

impl Key {
    /// The place that is shown after it.
    pub fn place(&self) -> usize {
        match self {
            Key::Type { place } | Key::Erase { place } | Key::Take { place, .. } => *place,
        }
    }
}

/// So many keys that are pressed in the text of a desk.
pub fn keys_of(alloc: Global, desk: &Desk, way: Way, count: usize) -> Result<Vec<Key>> {
    let mut keys = typed(alloc, desk.len(), way, count)?;
    if way == Way::Remote {
        let mut other = desk_of(alloc, 2);
        type_there(&mut other, desk, &mut keys)?;
    }
    Ok(keys)
}

/// So many keys as they are pressed at one desk, in a text that grows from this length.
fn typed(alloc: Global, length: usize, way: Way, count: usize) -> Result<Vec<Key>> {
    let mut chance = Chance::new(0, STREAM);
    let mut keys = Vec::with_capacity(alloc, count)?;
    let mut place: usize = 0;
    for number in 0..count {
        if way == Way::Corrected {
            keys.push(corrected(number))?;
            continue;
        }
        if way == Way::Elsewhere || number % BURST == 0 {
            place = chance.below(length.saturating_add(number));
        }
        keys.push(Key::Type { place })?;
        place = place.saturating_add(1);
    }
    Ok(keys)
}

/// A key of those that type and erase by turns.
fn corrected(number: usize) -> Key {
    match number % 2 {
        0 => Key::Type { place: 0 },
        _ => Key::Erase { place: 0 },
    }
}

/// Presses the keys at another desk, which has what this one has.
fn type_there(other: &mut Desk, desk: &Desk, keys: &mut [Key]) -> Result<()> {
    other.merge(desk)?;
    for key in keys.iter_mut() {
        let place = key.place().min(other.len());
        let op = other.type_char(place, 'e')?;
        *key = Key::Take { place, op };
    }
    Ok(())
}

/// Presses a key at a desk.
pub fn press_at_desk(desk: &mut Desk, key: &Key, made: &mut Vec<Op>) -> Result<()> {
    let length = desk.len();
    let from = key.place().min(length);
    match key {
        Key::Type { .. } => desk.type_text(from, "e", made)?,
        Key::Erase { .. } => {
            let to = from.saturating_add(1).min(length);
            desk.erase_range(from, to, made)?;
        }
        Key::Take { op, .. } => {
            desk.take(op)?;
        }
    }
    Ok(())
}

//! Another desk, and what a document takes of it.

ghost use Rattle.std.specs.Prelude.{◌<◌};

use crate::chance::Chance;
use crate::edits::piece;
use bg_types::{Change, Memory, Op};
use desk_replica::Replica;
use live_document::{Desk, Document};
use rga_runs::Runs;
use rga_tree::Fresh;
use std::alloc::Global;

/// The key of the tables of desks.
pub const KEY: u128 = 0x5eed;

/// A desk of this site (at least 1) without operations.
pub fn desk_of(alloc: Global, site: u16) -> Desk
    requires { 0 < site }
{
    Replica::new(alloc, site, Runs::fresh(alloc, KEY), KEY)
}

/// Another desk, the operations that it sent and that did not arrive yet, and what the document was told of those that did.
#[derive(Drop)]
pub struct Other {
    desk: Desk,
    sent: Vec<Op>,
    told: Vec<Change>,
}

impl Other {
    /// A desk that has nothing yet.
    pub fn new(alloc: Global) -> Other {
        Other {
            desk: desk_of(alloc, 2),
            sent: Vec::new(alloc),
            told: Vec::new(alloc),
        }
    }

    /// One step between the two: the desk types, an operation of it arrives, or both take all that the other has.
    pub fn step(&mut self, document: &mut Document, chance: &mut Chance) -> Result<(), Memory> {
        match chance.below(8) {
            0 => self.meet(document, chance),
            1 | 2 | 3 => self.edit(chance),
            _ => self.arrive(document, chance),
        }
    }

    /// The desk types some characters.
    fn edit(&mut self, chance: &mut Chance) -> Result<(), Memory> {
        let length = self.desk.len();
        let place = chance.below(length.saturating_add(1)).min(length);
        self.desk
            .type_text(place, piece(chance), &mut self.sent)
            .map_err(|_| Memory)
    }

    /// The document takes one of the operations that were sent, which may be early.
    fn arrive(&mut self, document: &mut Document, chance: &mut Chance) -> Result<(), Memory> {
        let number = chance.below(self.sent.len());
        if number >= self.sent.len() {
            return Ok(());
        }
        let op = self.sent.swap_remove(number);
        if chance.one_in(2) {
            return take(document, &op);
        }
        take_telling(document, &op, &mut self.told)
    }

    /// Both take all that the other has.
    fn meet(&mut self, document: &mut Document, chance: &mut Chance) -> Result<(), Memory> {
        if chance.one_in(2) {
            merge(document, &self.desk)?;
        } else {
            merge_telling(document, &self.desk, &mut self.told)?;
        }
        match self.desk.merge(document.desk()) {
            Ok(_) => Ok(()),
            Err(_) => Err(Memory),
        }
    }
}

fn take(document: &mut Document, op: &Op) -> Result<(), Memory> {
    match document.take(op) {
        Ok(_) => Ok(()),
        Err(_) => Err(Memory),
    }
}

fn take_telling(document: &mut Document, op: &Op, told: &mut Vec<Change>) -> Result<(), Memory> {
    match document.take_telling(op, told) {
        Ok(_) => Ok(()),
        Err(_) => Err(Memory),
    }
}

fn merge(document: &mut Document, desk: &Desk) -> Result<(), Memory> {
    match document.merge(desk) {
        Ok(_) => Ok(()),
        Err(_) => Err(Memory),
    }
}

fn merge_telling(
    document: &mut Document,
    desk: &Desk,
    told: &mut Vec<Change>,
) -> Result<(), Memory> {
    match document.merge_telling(desk, told) {
        Ok(_) => Ok(()),
        Err(_) => Err(Memory),
    }
}

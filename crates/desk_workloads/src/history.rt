//! What four desks made that wrote one text together.

ghost use Rattle.std.specs.Prelude.{◌<◌};

use crate::chance::Chance;
use crate::prose::MIXED;
use bg_types::{Id, Op, Place};
use std::alloc::{AllocError, Global};

pub const DESKS: usize = 4;

/// The sites of the desks.
pub const SITES: [u16; DESKS] = [1, 2, 3, 4];

/// The most characters that a desk types before it hears from the others.
const BURST: usize = 40;

/// An operation, and the desk that made it.
#[derive(Clone, Copy)]
pub struct Made {
    pub desk: usize,
    pub op: Op,
}

/// Desks that write one text together.
#[derive(Drop)]
struct Writers {
    chance: Chance,
    /// The characters that they type, in order and again from the front.
    text: Vec<char>,
    /// How many of those were typed.
    typed: usize,
    /// The identifiers of all characters.
    known: Vec<Id>,
    /// What each desk typed last.
    last: [Place; DESKS],
    /// What they made, in order.
    made: Vec<Made>,
}

impl Writers {
    /// Each desk has its turn, and hears only then of what the others made. The counters before are at most this
    /// one. Returns the greatest one after.
    fn round(&mut self, counter: u32) -> Result<u32, AllocError> {
        let heard = self.known.len();
        let mut greatest = counter;
        for desk in 0..DESKS {
            greatest = greatest.max(self.turn(desk, counter, heard)?);
        }
        Ok(greatest)
    }

    /// A desk types some characters, or erases some. It knows this many identifiers.
    fn turn(&mut self, desk: usize, counter: u32, heard: usize) -> Result<u32, AllocError>
        requires { desk < 4 }
    {
        let length = self.chance.below(BURST);
        if self.chance.one_in(8) {
            self.erase(desk, heard, length)?;
            return Ok(counter);
        }
        let mut parent = self.last[desk];
        if self.chance.one_in(4) {
            parent = self.some_place(heard);
        }
        self.type_run(desk, parent, counter, length)
    }

    /// A place after one of the first identifiers.
    fn some_place(&mut self, heard: usize) -> Place {
        match self.known.get(self.chance.below(heard)) {
            Some(id) => Place::After(*id),
            None => Place::Root,
        }
    }

    /// A desk erases neighbouring characters of those that it knows.
    fn erase(&mut self, desk: usize, heard: usize, length: usize) -> Result<(), AllocError> {
        let first = self.chance.below(heard);
        for k in first..heard.min(first.saturating_add(length)) {
            if let Some(target) = self.known.get(k) {
                let op = Op::erase(*target);
                self.made.push(Made { desk, op })?;
            }
        }
        Ok(())
    }

    /// A desk types characters one after the other. Returns the counter of the last.
    fn type_run(
        &mut self,
        desk: usize,
        parent: Place,
        counter: u32,
        length: usize,
    ) -> Result<u32, AllocError>
        requires { desk < 4 }
    {
        let mut before = parent;
        let mut last = counter;
        for _ in 0..length {
            last = last.saturating_add(1);
            before = self.type_one(desk, before, last)?;
        }
        self.last[desk] = before;
        Ok(last)
    }

    /// A desk types a character. Returns the place after it.
    fn type_one(&mut self, desk: usize, parent: Place, counter: u32) -> Result<Place, AllocError>
        requires { desk < 4 }
    {
        let Some(id) = Id::new(counter, SITES[desk]) else {
            return Ok(parent);
        };
        let ch = self.text.get(self.typed % self.text.len().max(1)).copied();
        let Some(op) = Op::insert(id, parent, ch.unwrap_or('x')) else {
            return Ok(Place::Root);
        };
        self.typed = self.typed.saturating_add(1);
        self.known.push(id)?;
        self.made.push(Made { desk, op })?;
        Ok(Place::After(id))
    }
}

/// This many operations in the order in which they were made. In each round each desk types some characters,
/// mostly after those that it typed before, else after some that it knows, or erases some that it knows; then
/// each hears what the others made.
pub fn written(
    alloc: Global,
    seed: u32,
    stream: u32,
    count: usize,
) -> Result<Vec<Made>, AllocError> {
    let mut chance = Chance::new(seed, stream);
    let text = MIXED.text(alloc, &mut chance, 100_000)?;
    let mut writers = Writers {
        chance,
        text: text.chars().collect(alloc)?,
        typed: 0,
        known: Vec::new(alloc),
        last: [Place::Root; DESKS],
        made: Vec::new(alloc),
    };
    let mut counter = 0;
    for _ in 0..count {
        if writers.made.len() >= count {
            break;
        }
        counter = writers.round(counter)?;
    }
    writers.made.truncate(count);
    Ok(writers.made)
}

/// The operations alone.
pub fn operations(alloc: Global, made: &[Made]) -> Result<Vec<Op>, AllocError> {
    let mut ops = Vec::with_capacity(alloc, made.len())?;
    for each in made {
        ops.push(each.op)?;
    }
    Ok(ops)
}

/// The operations that a desk made.
pub fn operations_of(alloc: Global, made: &[Made], desk: usize) -> Result<Vec<Op>, AllocError> {
    let mut ops = Vec::new(alloc);
    for each in made {
        if each.desk == desk {
            ops.push(each.op)?;
        }
    }
    Ok(ops)
}

//! What no clause says of told changes: that memory suffices, and that plain lists of characters and of identifiers which
//! follow nothing else, and what is typed in between, are a desk's text after each call.
//!
//! A refused growth must leave the desk and what was told as they were, and the call is made again: so each test also passes
//! with any one allocation refused (`rt try --test --fail-alloc N`).

ghost use Rattle.std.specs.Prelude.{◌<◌, ◌≤◌};

use crate::rows::assert_rows;
use bg_types::{Change, Id, Memory, Op};
use desk_replica::{Replica, Step, TakeFault, TypeFault, World, WorldFault, run_world};
use rga_runs::Runs;
use rga_sequence::Blocks;
use rga_tree::{Fresh, Plain};
use std::alloc::Global;
use test_rows::Row;

/// Draws numbers by chance, the same ones from the same seed.
#[derive(Clone, Copy)]
struct Dice(u64);

impl Dice {
    /// A number below n.
    fn below(&mut self, n: usize) -> usize
        requires { 0 < n }
        ensures { result < n }
    {
        self.0 = self
            .0
            .wrapping_mul(6_364_136_223_846_793_005)
            .wrapping_add(1_442_695_040_888_963_407);
        (self.0 / 0x1_0000_0000) as usize % n
    }
}

/// A desk, and a list of characters that follows what is told: each with its identifier, once that was asked for.
#[derive(Drop)]
struct Follower<S: Fresh> {
    desk: Replica<S>,
    changes: Vec<Change>,
    copy: Vec<Followed>,
}

#[derive(Clone, Copy)]
struct Followed {
    ch: char,
    id: Option<Id>,
}

impl<S: Fresh> Follower<S> {
    /// Types a character by itself, on a second try where memory was refused. It is not told of that.
    fn types(&mut self, place: usize, ch: char) -> Result<bool, Memory> {
        if place > self.desk.len() || place > self.copy.len() {
            return Ok(true);
        }
        self.copy.insert(place, Followed { ch, id: None })?;
        match self.desk.type_char(place, ch) {
            Err(TypeFault::Memory) => Ok(self.desk.type_char(place, ch).is_ok()),
            answer => Ok(answer.is_ok()),
        }
    }

    /// Takes an operation, on a second try where memory was refused and nothing had changed.
    fn take(&mut self, op: &Op) -> bool {
        let kept = self.desk.op_count();
        match self.desk.take_telling(op, &mut self.changes) {
            Err(TakeFault::Memory) => {
                let same = self.changes.is_empty() && self.desk.op_count() == kept;
                same && self.desk.take_telling(op, &mut self.changes).is_ok()
            }
            answer => answer.is_ok(),
        }
    }

    /// Takes what another desk has. Where memory is refused, what was taken by then is told.
    fn merge(&mut self, other: &Replica<S>) -> bool {
        match self.desk.merge_telling(other, &mut self.changes) {
            Err(TakeFault::Memory) => self.desk.merge_telling(other, &mut self.changes).is_ok(),
            answer => answer.is_ok(),
        }
    }

    /// Whether the list, once it has followed what was told, is the text.
    fn is_told(&mut self) -> Result<bool, Memory> {
        for change in &self.changes {
            if !follows(&mut self.copy, change)? {
                return Ok(false);
            }
        }
        self.changes.clear();
        Ok(self.reads_as_told()? && self.is_at_its_places())
    }

    /// Whether the characters that followed are the text.
    fn reads_as_told(&self) -> Result<bool, Memory> {
        let text = self.desk.text()?;
        let mut chars = text.chars();
        for followed in &self.copy {
            if chars.next() != Some(followed.ch) {
                return Ok(false);
            }
        }
        Ok(chars.next().is_none())
    }

    /// Whether each character that was there before is the one that it was, among equal ones too. The others get their
    /// identifiers.
    fn is_at_its_places(&mut self) -> bool {
        for place in 0..self.copy.len() {
            if place >= self.desk.len() {
                return false;
            }
            let id = self.desk.id_at(place);
            match self.copy[place].id {
                Some(followed) if followed != id => return false,
                _ => self.copy[place].id = Some(id),
            }
        }
        true
    }
}

/// Makes a change on a list, if its place is in range.
fn follows(copy: &mut Vec<Followed>, change: &Change) -> Result<bool, Memory> {
    match *change {
        Change::Put { place, ch } => {
            if place > copy.len() {
                return Ok(false);
            }
            copy.insert(place, Followed { ch, id: None })?;
        }
        Change::Cut { place } => {
            if place >= copy.len() {
                return Ok(false);
            }
            copy.remove(place);
        }
    }
    Ok(true)
}

/// What happens next in a world of four desks that type so many letters.
fn step(dice: &mut Dice, letters: usize) -> Step
    requires some { 0 < letters }
    requires few { letters ≤ 4 }
{
    let desk = dice.below(4);
    match dice.below(8) {
        0..=3 => Step::Typed {
            desk,
            place: dice.below(8),
            ch: ['a', 'é', 'ש', '😀'][dice.below(letters)],
        },
        4 => Step::Erase {
            desk,
            place: dice.below(8),
        },
        5 | 6 => Step::Deliver {
            desk,
            op: dice.below(200),
        },
        _ => Step::Merge {
            desk,
            from: dice.below(4),
        },
    }
}

/// Lets a desk take one of a world's operations, or what one of its desks has, or type a character by itself.
fn deliver<S: Fresh>(
    follower: &mut Follower<S>,
    world: &World<S>,
    dice: &mut Dice,
) -> Result<bool, Memory> {
    match dice.below(40) {
        0 => match world.desks.get(dice.below(4)) {
            Some(other) => Ok(follower.merge(other)),
            None => Ok(false),
        },
        1..=8 => follower.types(dice.below(8), 'a'),
        _ => match world.made.get(dice.below(world.made.len().max(1))) {
            Some(op) => Ok(follower.take(op)),
            None => Ok(true),
        },
    }
}

/// A world of so many steps, and how many of its operations, in whatever order, reach each of four desks before all do.
#[derive(Drop)]
struct Told {
    seed: u64,
    letters: usize,
    steps: usize,
    delivered: usize,
}

impl Told {
    /// Whether a desk tells of all that it takes.
    fn is_followed<S: Fresh>(
        &self,
        follower: &mut Follower<S>,
        world: &World<S>,
        dice: &mut Dice,
    ) -> Result<bool, Memory> {
        for _ in 0..self.delivered {
            if !deliver(follower, world, dice)? || !follower.is_told()? {
                return Ok(false);
            }
        }
        for op in &world.made {
            if !follower.take(op) || !follower.is_told()? {
                return Ok(false);
            }
        }
        Ok(true)
    }

    fn is_followed_by<S: Fresh>(
        &self,
        alloc: Global,
        world: &World<S>,
        dice: &mut Dice,
    ) -> Result<bool, Memory> {
        let mut follower = Follower {
            desk: Replica::new(alloc, 5, S::fresh(alloc, 7), 7),
            changes: Vec::new(alloc),
            copy: Vec::new(alloc),
        };
        self.is_followed(&mut follower, world, dice)
    }

    fn is_told_in<S: Fresh>(
        &self,
        alloc: Global,
        world: &World<S>,
        dice: &mut Dice,
    ) -> Result<bool, Memory> {
        for _ in 0..4 {
            if !self.is_followed_by(alloc, world, dice)? {
                return Ok(false);
            }
        }
        Ok(true)
    }

    fn is_told_over<S: Fresh>(&self, alloc: Global) -> Result<bool, Memory> {
        let mut dice = Dice(self.seed);
        let mut steps = Vec::new(alloc);
        let letters = self.letters.clamp(1, 4);
        for _ in 0..self.steps {
            steps.push(step(&mut dice, letters))?;
        }
        match run_world::<S>(alloc, 0x5eed, &[1, 2, 3, 4], &steps) {
            Ok(world) => self.is_told_in(alloc, &world, &mut dice),
            Err(WorldFault::Memory) => Err(Memory),
            Err(WorldFault::BadSites) => Ok(false),
        }
    }
}

impl Row for Told {
    fn comes_out(&self, alloc: Global) -> Result<bool, Memory> {
        Ok(
            self.is_told_over::<Blocks>(alloc)?
                && self.is_told_over::<Plain>(alloc)?
                && self.is_told_over::<Runs>(alloc)?,
        )
    }
}

#[test]
fn a_list_that_follows_what_is_told_is_the_text(rt: HostRuntime) {
    let rows = [
        Told {
            seed: 1,
            letters: 4,
            steps: 0,
            delivered: 8,
        },
        Told {
            seed: 2,
            letters: 4,
            steps: 40,
            delivered: 80,
        },
        Told {
            seed: 3,
            letters: 4,
            steps: 300,
            delivered: 300,
        },
        Told {
            seed: 4,
            letters: 1,
            steps: 120,
            delivered: 160,
        },
    ];
    assert_rows(&rt, &rows);
}

/// For trials with each growth refused: nine changes are told at once, so that their list grows again, as the list that follows
/// does, and four insertions wait, so that the desk's tables are made anew.
#[test]
fn a_short_list_that_follows_what_is_told_is_the_text(rt: HostRuntime) {
    let row = Told {
        seed: 2_294,
        letters: 2,
        steps: 60,
        delivered: 8,
    };
    assert_rows(&rt, &[row]);
}

/// A desk of a site, which has typed a text, and what that made.
fn typed(alloc: Global, site: u16, text: &str) -> Result<(Replica<Blocks>, Vec<Op>), Memory>
    requires { 0 < site }
{
    let mut desk = Replica::new(alloc, site, Blocks::fresh(alloc, 7), 7);
    let mut made = Vec::new(alloc);
    match desk.type_text(0, text, &mut made) {
        Ok(()) => Ok((desk, made)),
        Err(_) => Err(Memory),
    }
}

/// Erases the character at a place that the text has.
fn erased(desk: &mut Replica<Blocks>, place: usize) -> Result<Op, Memory> {
    if place >= desk.len() {
        return Err(Memory);
    }
    match desk.erase_at(place) {
        Ok(op) => Ok(op),
        Err(_) => Err(Memory),
    }
}

fn taken(desk: &mut Replica<Blocks>, op: &Op) -> Result<(), Memory> {
    match desk.take(op) {
        Ok(_) => Ok(()),
        Err(_) => Err(Memory),
    }
}

/// What a desk is told of an operation.
fn told_of(alloc: Global, desk: &mut Replica<Blocks>, op: &Op) -> Result<Vec<Change>, Memory> {
    let mut changes = Vec::new(alloc);
    match desk.take_telling(op, &mut changes) {
        Ok(_) => Ok(changes),
        Err(_) => Err(Memory),
    }
}

/// What a desk is told of all that another one has.
fn told_of_all(
    alloc: Global,
    desk: &mut Replica<Blocks>,
    other: &Replica<Blocks>,
) -> Result<Vec<Change>, Memory> {
    let mut changes = Vec::new(alloc);
    match desk.merge_telling(other, &mut changes) {
        Ok(_) => Ok(changes),
        Err(_) => Err(Memory),
    }
}

/// Four equal characters, of which another desk erases the one at a place: what is told of it.
#[derive(Drop)]
struct Equal {
    erased: usize,
}

impl Row for Equal {
    fn comes_out(&self, alloc: Global) -> Result<bool, Memory> {
        let (mut one, _made) = typed(alloc, 1, "aaaa")?;
        let (mut other, _none) = typed(alloc, 2, "")?;
        let _all = told_of_all(alloc, &mut other, &one)?;
        let op = erased(&mut one, self.erased)?;
        let changes = told_of(alloc, &mut other, &op)?;
        let told = [Change::Cut { place: self.erased }];
        Ok(changes.as_slice() == told.as_slice())
    }
}

#[test]
fn of_equal_characters_the_erased_one_is_told(rt: HostRuntime) {
    let rows = [
        Equal { erased: 0 },
        Equal { erased: 1 },
        Equal { erased: 3 },
    ];
    assert_rows(&rt, &rows);
}

/// What another desk typed and erased before it is met: nothing is told of that, whether its insertion is unknown or waits.
#[derive(Drop)]
struct Gone {
    waits: bool,
}

impl Row for Gone {
    fn comes_out(&self, alloc: Global) -> Result<bool, Memory> {
        let (mut one, made) = typed(alloc, 1, "xyz")?;
        let (mut other, _none) = typed(alloc, 2, "")?;
        if self.waits {
            if let Some(last) = made.last() {
                taken(&mut other, last)?;
            }
        }
        let _op = erased(&mut one, 2)?;
        let changes = told_of_all(alloc, &mut other, &one)?;
        let told = [
            Change::Put { place: 0, ch: 'x' },
            Change::Put { place: 1, ch: 'y' },
        ];
        Ok(changes.as_slice() == told.as_slice())
    }
}

#[test]
fn what_is_put_stays(rt: HostRuntime) {
    assert_rows(&rt, &[Gone { waits: false }, Gone { waits: true }]);
}

//! Desks that type at the same time, hear of each other soon, and meet at the end.

ghost use Rattle.std.specs.Prelude.{◌<◌};

use crate::chance::Chance;
use crate::desk::KEY;
use crate::digest::Digest;
use crate::history::{DESKS, SITES};
use anyhow::Result;
use desk_files::Elements;
use desk_replica::{Reply, Step, World, run_world};
use std::alloc::{AllocError, Global};

/// How many characters are typed or erased.
const COUNT: usize = 200_000;

/// The most characters that a desk types before the others hear of them.
const BURST: usize = 30;

/// The streams of chance that the steps are made of.
const STREAMS: [u32; 2] = [7, 27];

/// What the desks did so far.
#[derive(Drop)]
struct Story {
    chance: Chance,
    steps: Vec<Step>,
    /// How many operations were made.
    made: usize,
    /// Each desk shows at least as many characters once it has heard of all.
    length: usize,
    /// Where each desk typed last.
    caret: [usize; DESKS],
}

impl Story {
    /// Each desk types or erases some characters, and then each hears what the others made.
    fn round(&mut self) -> Result<(), AllocError> {
        let before = self.made;
        let mut firsts = [before; DESKS];
        let length = self.length;
        for desk in 0..DESKS {
            firsts[desk] = self.made;
            self.turn(desk, length)?;
        }
        for desk in 0..DESKS {
            let own_end = firsts
                .get(desk.saturating_add(1))
                .copied()
                .unwrap_or(self.made);
            self.hear(desk, before, firsts[desk])?;
            self.hear(desk, own_end, self.made)?;
        }
        Ok(())
    }

    /// A desk that shows so many characters types some where it typed last or elsewhere, or erases some.
    fn turn(&mut self, desk: usize, length: usize) -> Result<(), AllocError>
        requires { desk < 4 }
    {
        let count = self.chance.below(BURST);
        if self.chance.one_in(4) {
            self.caret[desk] = self.chance.below(length.saturating_add(1));
        }
        let mut place = self.caret[desk].min(length);
        let erases = self.chance.one_in(8);
        for _ in 0..count {
            if !erases {
                let ch = if self.chance.one_in(6) { ' ' } else { 'ש' };
                self.steps.push(Step::Typed { desk, place, ch })?;
                place = place.saturating_add(1);
                self.length = self.length.saturating_add(1);
            } else if place > 0 {
                place = place.saturating_sub(1);
                self.steps.push(Step::Erase { desk, place })?;
                self.length = self.length.saturating_sub(1);
            } else {
                break;
            }
            self.made = self.made.saturating_add(1);
        }
        self.caret[desk] = place;
        Ok(())
    }

    /// A desk hears of operations.
    fn hear(&mut self, desk: usize, from: usize, to: usize) -> Result<(), AllocError> {
        for op in from..to {
            self.steps.push(Step::Deliver { desk, op })?;
        }
        Ok(())
    }

    /// Each desk meets each other one.
    fn meet(&mut self) -> Result<(), AllocError> {
        for desk in 0..DESKS {
            for from in 0..DESKS {
                self.steps.push(Step::Merge { desk, from })?;
            }
        }
        Ok(())
    }
}

/// The steps of four desks.
fn steps_of(alloc: Global, seed: u32, stream: u32, count: usize) -> Result<Vec<Step>, AllocError> {
    let mut story = Story {
        chance: Chance::new(seed, stream),
        steps: Vec::new(alloc),
        made: 0,
        length: 0,
        caret: [0; DESKS],
    };
    for _ in 0..count {
        if story.made >= count {
            break;
        }
        story.round()?;
    }
    story.meet()?;
    Ok(story.steps)
}

/// Two times four desks write one text.
pub fn live(alloc: Global, seed: u32, share: usize, digest: &mut Digest) -> Result<()> {
    for stream in STREAMS {
        let steps = steps_of(alloc, seed, stream, COUNT / share.max(1))?;
        do_steps(alloc, &steps, digest)?;
    }
    Ok(())
}

/// Does the steps of four desks that write one text.
fn do_steps(alloc: Global, steps: &[Step], digest: &mut Digest) -> Result<()> {
    let world = run_world::<Elements>(alloc, KEY, &SITES, steps)?;
    tell(&world, digest)
}

fn tell(world: &World<Elements>, digest: &mut Digest) -> Result<()> {
    for reply in &world.replies {
        digest.add_number(match reply {
            Reply::Done => 0,
            Reply::Refused(code) => usize::from(*code),
            Reply::NoSuch => 100,
        });
    }
    for desk in &world.desks {
        let text = desk.text()?;
        digest.add(text.as_bytes());
    }
    Ok(())
}

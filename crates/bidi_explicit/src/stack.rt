//! The stack of directions and the three counts (UAX #9, X1 to X8).

ghost use Rattle.std.specs.Prelude.{◌≡◌, ◌≤◌, ◌<◌, ◌+◌, ◌^◌, reverse, length, Some};
ghost use Rattle.bidi_explicit.specs.declared.kind.Kind.TheVariants.{Embedding, Initiator, PopIsolate, PopEmbedding};
ghost use Rattle.bidi_explicit.specs.Levels.{next_level};
ghost use Rattle.bidi_explicit.specs.Flat.{advance, below_isolate, below_embedding, initial, seen, top};

use crate::kind::{Direction, Entry, Kind};
use arrayvec::ArrayVec;
use bg_types::Bidi;
use std::marker::Model;

/// The greatest explicit level (BD2).
const MAX_DEPTH: u8 = 125;

/// The least odd or even level above `level`.
#[inline]
fn level_above(odd: bool, level: u8) -> u8
    requires { level ≤ 125 }
    ensures { result ≡ next_level odd level }
{
    if odd {
        (level + 1) / 2 * 2 + 1
    } else {
        level / 2 * 2 + 2
    }
}

/// Pops entries down to and including the last isolate's.
fn drop_isolate(stack: &mut ArrayVec<Entry, 127>)
    ensures { reverse stack.new.items ≡ below_isolate (reverse stack.old.items) }
{
    while let Some(entry) = stack.pop() {
        if entry.of_isolate {
            return;
        }
    }
}

/// Pops the last entry, unless an isolate opened it or it is the only one.
fn drop_embedding(stack: &mut ArrayVec<Entry, 127>)
    requires { length stack.old.items ≤ 127 }
    ensures { reverse stack.new.items ≡ below_embedding (reverse stack.old.items) }
{
    if let Some(entry) = stack.pop() {
        if entry.of_isolate || stack.is_empty() {
            stack.push(entry);
        }
    }
}

/// The stack of directions, and the three counts.
#[derive(Drop)]
pub(crate) struct LevelStack {
    stack: ArrayVec<Entry, 127>,
    overflow_isolates: usize,
    overflow_embeddings: usize,
    valid_isolates: usize,
}

impl Model for LevelStack {
    ghost use Rattle.std.specs.Prelude.{reverse};
    ghost use Rattle.bidi_explicit.specs.Flat.{Machine};
    ghost use Rattle.bidi_explicit.specs.Ladder.{IsSound};

    ghost Value = { Machine };

    ghost view = { λ s. record { stack = reverse s.stack.items; overflow_isolates = s.overflow_isolates; overflow_embeddings = s.overflow_embeddings; valid_isolates = s.valid_isolates } };

    ghost invariant = { λ s. IsSound (record { stack = reverse s.stack.items; overflow_isolates = s.overflow_isolates; overflow_embeddings = s.overflow_embeddings; valid_isolates = s.valid_isolates }) };
}

impl LevelStack {
    /// The stack of a paragraph of this level (X1).
    pub(crate) fn new(level: u8) -> Self
        requires { level ≤ 1 }
        ensures { result ≡ initial level }
    {
        let mut stack = ArrayVec::new();
        stack.push(Entry {
            direction: Direction {
                level,
                forced: None,
            },
            of_isolate: false,
        });
        LevelStack {
            stack,
            overflow_isolates: 0,
            overflow_embeddings: 0,
            valid_isolates: 0,
        }
    }

    /// The direction of the entry pushed last.
    #[inline]
    pub(crate) fn top(&self) -> Direction
        ensures { result ≡ top self.now.stack }
    {
        match self.stack.last() {
            Some(entry) => entry.direction,
            None => Direction {
                level: 0,
                forced: None,
            },
        }
    }

    /// X2 to X5: RLE (X2), LRE (X3), RLO (X4) and LRO (X5).
    fn embed(&mut self, odd: bool, forced: Option<Bidi>)
        requires { self.old.overflow_embeddings + 1 < 2 ^ 64 }
        ensures { self.new ≡ advance (Embedding odd forced) self.old }
    {
        if self.overflow_isolates > 0 {
            return;
        }
        let level = level_above(odd, self.top().level);
        if level <= MAX_DEPTH && self.overflow_embeddings == 0 {
            self.stack.push(Entry {
                direction: Direction { level, forced },
                of_isolate: false,
            });
        } else {
            self.overflow_embeddings += 1;
        }
    }

    /// X7: PDF.
    fn close_embedding(&mut self)
        ensures { self.new ≡ advance PopEmbedding self.old }
    {
        let is_overflowed = self.overflow_isolates > 0;
        if is_overflowed {
            return;
        }
        if self.overflow_embeddings > 0 {
            self.overflow_embeddings -= 1;
        } else {
            drop_embedding(&mut self.stack);
        }
    }

    /// X5a to X5c: RLI (X5a), LRI (X5b) and FSI as the one of these that its content makes it (X5c).
    fn open_isolate(&mut self, odd: bool)
        requires overflow { self.old.overflow_isolates + 1 < 2 ^ 64 }
        requires valid { self.old.valid_isolates + 1 < 2 ^ 64 }
        ensures { self.new ≡ advance (Initiator odd) self.old }
    {
        if self.overflow_isolates > 0 {
            self.overflow_isolates += 1;
            return;
        }
        let level = level_above(odd, self.top().level);
        if level <= MAX_DEPTH && self.overflow_embeddings == 0 {
            self.stack.push(Entry {
                direction: Direction {
                    level,
                    forced: None,
                },
                of_isolate: true,
            });
            self.valid_isolates += 1;
        } else {
            self.overflow_isolates = 1;
        }
    }

    /// X6a: PDI.
    fn close_isolate(&mut self)
        ensures { self.new ≡ advance PopIsolate self.old }
    {
        if self.overflow_isolates > 0 {
            self.overflow_isolates -= 1;
        } else if self.valid_isolates > 0 {
            drop_isolate(&mut self.stack);
            self.overflow_embeddings = 0;
            self.valid_isolates -= 1;
        }
    }

    /// Does what a character does, and returns the direction that it takes: the one before it, or for a
    /// PDI the one after it (X6: every other character takes that of the last entry).
    pub(crate) fn advance(&mut self, kind: Kind) -> Direction
        requires embeddings { self.old.overflow_embeddings + 1 < 2 ^ 64 }
        requires overflow { self.old.overflow_isolates + 1 < 2 ^ 64 }
        requires valid { self.old.valid_isolates + 1 < 2 ^ 64 }
        ensures direction { result ≡ top (seen kind self.old).stack }
        ensures after { self.new ≡ advance kind self.old }
    {
        let before = self.top();
        match kind {
            Kind::Embedding(odd, forced) => self.embed(odd, forced),
            Kind::Initiator(odd) => self.open_isolate(odd),
            Kind::PopIsolate => {
                self.close_isolate();
                return self.top();
            }
            Kind::PopEmbedding => self.close_embedding(),
            Kind::Other => {}
        }
        before
    }
}

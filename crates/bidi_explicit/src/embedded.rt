//! What the explicit rules make of a paragraph.

ghost use Rattle.std.specs.Prelude.{◌≡◌, ◌<◌, ◌≤◌, OnOk, OnErr, Some, [], length, slice_get};
ghost use Rattle.std.specs.List.{All};
ghost use Rattle.bidi_explicit.specs.Embedding.{embedding_at};
ghost use Rattle.bidi_explicit.specs.Extents.{IsKept};

use crate::controls::controls_into;
use crate::kept::Kept;
use crate::level_run::LevelRun;
use crate::lists::Lists;
use crate::places::places_into;
use crate::sequence::Sequence;
use crate::sequences::sequences_into;
use bg_types::{Bidi, Memory};
use std::alloc::Global;
use std::marker::Model;

/// Where a sequence stands in the list of level runs, and what else is known of it.
#[derive(Clone, Copy, Debug)]
pub(crate) struct Extent {
    pub(crate) start: usize,
    pub(crate) end: usize,
    pub(crate) level: u8,
    pub(crate) sos: Bidi,
    pub(crate) eos: Bidi,
}

/// A paragraph's level, what is kept at each of its places, and its isolating run sequences.
#[derive(Debug, Drop)]
pub struct Embedded {
    pub(crate) level: u8,
    pub(crate) places: Vec<Option<Kept>>,
    pub(crate) runs: Vec<LevelRun>,
    pub(crate) extents: Vec<Extent>,
}

impl Model for Embedded {
    ghost use Rattle.bidi_explicit.specs.Embedding.{Embedding};
    ghost use Rattle.bidi_explicit.specs.Extents.{extent_sequences, IsWithin};

    ghost Value = { Embedding };

    ghost view = { λ e. record { level = e.level; places = e.places.items; sequences = extent_sequences e.runs.items e.extents.items } };

    ghost invariant = { λ e. IsWithin e.places.items e.runs.items e.extents.items };
}

impl Embedded {
    /// What the rules make of no paragraph, until `embed` puts one in its place. Takes no memory.
    pub fn new(alloc: Global) -> Embedded
        ensures level { result.level ≡ 0 }
        ensures places { result.places ≡ [] }
        ensures sequences { result.sequences ≡ [] }
    {
        Embedded {
            level: 0,
            places: Vec::new(alloc),
            runs: Vec::new(alloc),
            extents: Vec::new(alloc),
        }
    }

    /// Puts in its place what the rules make of a paragraph of this level, 0 or 1, whose code points have these classes.
    /// After `Memory` it has no sequence.
    /// Cost: O(n), memory where the lists have no room.
    pub fn embed(&mut self, lists: &mut Lists, level: u8, classes: &[Bidi]) -> Result<(), Memory>
        requires { level ≤ 1 }
        ensures ok { OnOk result (self.new ≡ embedding_at level classes.now) }
        ensures err { OnErr result (self.new.sequences ≡ []) }
    {
        self.level = level;
        self.runs.clear();
        self.extents.clear();
        controls_into(&mut lists.controls, &mut lists.matcher, classes)?;
        places_into(&mut self.places, level, classes, &lists.controls)?;
        match sequences_into(
            &mut self.runs,
            &mut self.extents,
            &mut lists.ends,
            level,
            &lists.controls,
            &self.places,
        ) {
            Ok(()) => Ok(()),
            Err(memory) => {
                self.runs.clear();
                self.extents.clear();
                Err(memory)
            }
        }
    }

    /// The paragraph's level, 0 or 1 (P2, P3).
    #[inline]
    pub fn level(&self) -> u8
        ensures { result ≡ self.now.level }
    {
        self.level
    }

    /// What is kept at each code point of the paragraph, in order, and `None` where X9 removes it.
    #[inline]
    pub fn places(&self) -> &[Option<Kept>]
        ensures { result.now ≡ self.now.places }
    {
        &self.places
    }

    /// How many isolating run sequences there are: none where nothing is kept.
    #[inline]
    pub fn sequence_count(&self) -> usize
        ensures { result ≡ length self.now.sequences }
    {
        self.extents.len()
    }

    /// A sequence by its number, from 0, in the order of their first places (X10).
    #[inline]
    pub fn sequence(&self, number: usize) -> Sequence<'_>
        requires { number < length self.now.sequences }
        ensures value { slice_get self.now.sequences number ≡ Some result }
        ensures kept { All (IsKept self.now.places) result.places }
    {
        let extent = self.extents[number];
        Sequence {
            runs: &self.runs[extent.start..extent.end],
            level: extent.level,
            sos: extent.sos,
            eos: extent.eos,
        }
    }
}

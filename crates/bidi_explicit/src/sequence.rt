//! An isolating run sequence (UAX #9, BD13).

ghost use Rattle.std.specs.Prelude.{◌≡◌};
ghost use Rattle.std.specs.List.{All};
ghost use Rattle.bidi_explicit.specs.LevelRuns.{HasPlace, run_places};

use crate::level_run::LevelRun;
use bg_types::Bidi;
use std::marker::Model;

/// An isolating run sequence of a paragraph (BD13).
#[derive(Debug, Drop)]
pub struct Sequence<'a> {
    pub(crate) runs: &'a [LevelRun],
    pub(crate) level: u8,
    pub(crate) sos: Bidi,
    pub(crate) eos: Bidi,
}

impl<'a> Model for Sequence<'a> {
    ghost use Rattle.std.specs.List.{All};
    ghost use Rattle.bidi_explicit.specs.Sequences.{RunSequence};
    ghost use Rattle.bidi_explicit.specs.LevelRuns.{HasPlace, run_places};

    ghost Value = { RunSequence };

    ghost view = { λ s. record { places = run_places s.runs.now; level = s.level; sos = s.sos; eos = s.eos } };

    ghost invariant = { λ s. All HasPlace s.runs.now };
}

impl<'a> Sequence<'a> {
    /// Its level runs in rising order, each with a place or more.
    #[inline]
    pub fn runs(&self) -> &'a [LevelRun]
        ensures places { run_places result.now ≡ self.now.places }
        ensures some { All HasPlace result.now }
    {
        self.runs
    }

    /// The level of all its characters, at most 125.
    #[inline]
    pub fn level(&self) -> u8
        ensures { result ≡ self.now.level }
    {
        self.level
    }

    /// The direction before its first character, L or R.
    #[inline]
    pub fn sos(&self) -> Bidi
        ensures { result ≡ self.now.sos }
    {
        self.sos
    }

    /// The direction after its last character, L or R.
    #[inline]
    pub fn eos(&self) -> Bidi
        ensures { result ≡ self.now.eos }
    {
        self.eos
    }
}

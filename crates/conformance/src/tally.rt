//! Counts of what came of the cases.

ghost use Rattle.std.specs.Prelude.{◌≡◌, ◌+◌, ◌<◌, ◌^◌, IfSome, SomeIff};
ghost use Rattle.conformance.specs.Counted.{number_of, counted, cases_of};

/// A choice of this profile of line breaking.
#[derive(Clone, Copy)]
pub enum Choice {
    /// LB25 joins the pairs of its list, where the test file joins what its expression for numbers
    /// covers.
    Pairs,
    /// LB30b joins no unassigned pictograph to a modifier.
    Pictographs,
}

/// What came of a case.
#[derive(Clone, Copy)]
pub enum Verdict {
    Agrees,
    Differs,
    /// It differs by a choice of the profile alone.
    Chosen(Choice),
}

/// How many cases had each verdict.
#[derive(Clone, Copy, Default)]
pub struct Tally {
    pub agree: u64,
    pub differ: u64,
    pub pairs: u64,
    pub pictographs: u64,
}

impl Tally {
    /// The tally with one more case, or `None` where it can count no more of its kind.
    pub fn counted(self, verdict: Verdict) -> Option<Tally>
        ensures value { SomeIff result (number_of verdict self + 1 < 2 ^ 64) (counted verdict self) }
        ensures once { IfSome result (λ tally. cases_of tally ≡ cases_of self + 1) }
    {
        let mut tally = self;
        match verdict {
            Verdict::Agrees => tally.agree = self.agree.checked_add(1)?,
            Verdict::Differs => tally.differ = self.differ.checked_add(1)?,
            Verdict::Chosen(Choice::Pairs) => tally.pairs = self.pairs.checked_add(1)?,
            Verdict::Chosen(Choice::Pictographs) => {
                tally.pictographs = self.pictographs.checked_add(1)?;
            }
        }
        Some(tally)
    }

    /// How many cases there were.
    pub fn cases(&self) -> u128
        ensures { result ≡ cases_of self.now }
    {
        u128::from(self.agree)
            + u128::from(self.differ)
            + u128::from(self.pairs)
            + u128::from(self.pictographs)
    }
}

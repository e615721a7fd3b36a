//! Identifiers.

ghost use Rattle.std.specs.Prelude.{◌≡◌, ◌<◌, ◌↔◌, ◌==◌, ◌&&◌, ◌*◌, ◌+◌, ◌/◌, ◌%◌, ◌++◌, IsSome, IfSome, refl};
ghost use Rattle.std.specs.Cmp.{nat_cmp_total, nat_eq_equiv, on_total, on_equiv, then_total, and_equiv, both_tied, unsigned_ties, unsigned_Decides, first_so, second_so, partial_equiv_from_equiv, po};
ghost use Rattle.std.specs.Hash as fed;
ghost use Rattle.std.specs.Ordering.{as_partial_cmp};
ghost use Rattle.bg_types.specs.Identifier.{Identifier, IsIdentifier, id_cmp};

use std::cmp::Ordering;
use std::fmt;
use std::hash::{Hash, Hasher};
use std::marker::Model;

/// Names one insertion: a counter (1 to 4,294,967,295) and the site that drew it (1 to 65,535).
/// Identifiers are ordered by counter, and at equal counters by site.
// The counter is kept in two halves, so that an identifier takes 6 bytes, not 8. The low half is first:
// compiled code on this machine then reads both at once.
#[derive(Clone, Copy)]
pub struct Id {
    low: u16,
    high: u16,
    site: u16,
}

const _: () = prove!(size_of::<Id>() == 6);

impl Model for Id {
    ghost Value = { Identifier };

    ghost view = { λ a. record { counter = a.high * 65_536 + a.low; site = a.site } };

    // The bound that the type of `low` gives is repeated, since a view sees plain numbers.
    ghost invariant = { λ a. (a.low < 65_536) × IsIdentifier (record { counter = a.high * 65_536 + a.low; site = a.site }) };

    ghost inverse = { λ v. record { high = v.counter / 65_536; low = v.counter % 65_536; site = v.site } };
}

impl fmt::Debug for Id {
    fn fmt<W: fmt::Write>(&self, f: &mut fmt::Formatter<W>) -> fmt::Result {
        f.debug_struct("Id")
            .field("counter", &self.counter())
            .field("site", &self.site())
            .finish()
    }
}

impl PartialEq for Id {
    ghost eq = { λ a b. (a.counter == b.counter) && (a.site == b.site) };

    ghost laws = { partial_equiv_from_equiv (and_equiv (on_equiv (λ a. a.counter) nat_eq_equiv) (on_equiv (λ a. a.site) nat_eq_equiv)) };

    fn eq(&self, other: &Id) -> bool {
        self.counter() == other.counter() && self.site() == other.site()
    }
}

impl Eq for Id {
    ghost laws = { and_equiv (on_equiv (λ a. a.counter) nat_eq_equiv) (on_equiv (λ a. a.site) nat_eq_equiv) };
}

impl Ord for Id {
    ghost cmp = { id_cmp };

    ghost total = { then_total (on_total (λ a. a.counter) nat_cmp_total) (on_total (λ a. a.site) nat_cmp_total) };

    ghost matches_partial_cmp = { λ a b. refl };

    ghost matches_eq = { λ a b. both_tied _ _ _ _ (unsigned_ties a.counter b.counter) (unsigned_ties a.site b.site) };

    fn cmp(&self, other: &Id) -> Ordering {
        let counters = self.counter().cmp(&other.counter());
        let sites = self.site().cmp(&other.site());
        counters.then(sites)
    }
}

impl PartialOrd for Id {
    ghost partial_cmp = { as_partial_cmp id_cmp };

    ghost laws = { po (then_total (on_total (λ a. a.counter) nat_cmp_total) (on_total (λ a. a.site) nat_cmp_total))
        (λ a b. both_tied _ _ _ _ (unsigned_ties a.counter b.counter) (unsigned_ties a.site b.site)) };

    fn partial_cmp(&self, other: &Id) -> Option<Ordering> {
        Some(self.cmp(other))
    }
}

impl Hash for Id {
    ghost hash_input = { λ a. fed.u32 a.counter ++ fed.u16 a.site };

    ghost respects_eq = { λ a b same i.
        fed.u32 ((unsigned_Decides a.counter b.counter).0 (first_so (a.counter == b.counter) (a.site == b.site) same) i)
        ++ fed.u16 ((unsigned_Decides a.site b.site).0 (second_so (a.counter == b.counter) (a.site == b.site) same) i) };

    fn hash<H: Hasher>(&self, state: &mut H) {
        self.counter().hash(state);
        self.site().hash(state);
    }
}

impl Id {
    /// How many values half a counter has.
    const HALF_VALUES: u32 = 65_536;

    /// The identifier with this counter and this site, or `None` where either is 0.
    pub fn new(counter: u32, site: u16) -> Option<Id>
        ensures valid { IsSome result ↔ ((0 < counter) × (0 < site)) }
        ensures value { IfSome result (λ id. id ≡ record { counter = counter; site = site }) }
    {
        if counter == 0 || site == 0 {
            return None;
        }
        let (high, low) = (
            (counter / Self::HALF_VALUES) as u16,
            (counter % Self::HALF_VALUES) as u16,
        );
        Some(Id { high, low, site })
    }

    /// The counter, 1 to 4,294,967,295.
    pub fn counter(self) -> u32
        ensures value { result ≡ self.counter }
        // What is true of every identifier, for the caller's proof.
        ensures identifier { IsIdentifier self }
    {
        u32::from(self.high) * Self::HALF_VALUES + u32::from(self.low)
    }

    /// The site that drew the counter, 1 to 65,535.
    pub fn site(self) -> u16
        ensures value { result ≡ self.site }
        ensures identifier { IsIdentifier self }
    {
        self.site
    }
}

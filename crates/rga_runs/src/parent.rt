//! Parents in the room of an identifier.

ghost use Rattle.std.specs.Prelude.{◌≡◌};

use bg_types::{Id, Place};
use std::marker::Model;

/// How many values half a counter has.
const HALF_VALUES: u32 = 65_536;

/// What an element follows, in 6 bytes: an identifier, whose counter is stored in two halves, or zeros for the root.
#[derive(Clone, Copy)]
pub struct Parent {
    low: u16,
    high: u16,
    site: u16,
}

const _: () = prove!(size_of::<Parent>() == 6);

impl Model for Parent {
    ghost use Rattle.std.specs.Prelude.{◌≡◌, ◌+◌, ◌*◌, ◌/◌, ◌%◌, ◌<◌};
    ghost use Rattle.bg_types.specs.declared.op.Place.{Place};
    ghost use Rattle.rga_runs.specs.Parents.{place_from, site_of, counter_of, site_from, high_from, low_from};

    ghost Value = { Place };

    ghost view = { λ a. place_from a.site (a.high * 65_536 + a.low) };

    // The bound that the type of `low` gives is repeated, since a view sees plain numbers.
    ghost invariant = { λ a. (a.low < 65_536) × (a.site ≡ 0 → a.high * 65_536 + a.low ≡ 0) × (0 < a.site → 0 < a.high * 65_536 + a.low) };

    ghost inverse = { λ v. record { high = counter_of v / 65_536; low = counter_of v % 65_536; site = site_of v } };

    ghost inverse_ok = { λ a h i. record {
      high = high_from a.site a.high a.low h.0 h.1 i;
      low = low_from a.site a.high a.low h.0 h.1 i;
      site = site_from a.site (a.high * 65_536 + a.low) i;
    } };
}

impl Parent {
    /// A parent's parts.
    pub fn of(place: Place) -> Parent
        ensures { result ≡ place }
    {
        match place {
            Place::Root => Parent {
                low: 0,
                high: 0,
                site: 0,
            },
            Place::After(above) => Parent {
                low: (above.counter() % HALF_VALUES) as u16,
                high: (above.counter() / HALF_VALUES) as u16,
                site: above.site(),
            },
        }
    }

    /// The parent whose parts they are.
    pub fn place(self) -> Place
        ensures { result ≡ self }
    {
        let counter = u32::from(self.high) * HALF_VALUES + u32::from(self.low);
        match Id::new(counter, self.site) {
            Some(above) => Place::After(above),
            None => Place::Root,
        }
    }
}

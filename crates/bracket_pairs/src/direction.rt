//! The two directions of text.

ghost use Rattle.std.specs.Prelude.{◌≡◌};
ghost use Rattle.bracket_pairs.specs.N0.{direction_of, direction_of_level, opposite, type_of, is_direction};

use bg_types::Bidi;

/// A direction of text.
#[derive(Clone, Copy)]
pub(crate) enum Direction {
    LeftToRight,
    RightToLeft,
}

impl Direction {
    /// The direction of a level.
    pub(crate) fn of_level(level: u8) -> Direction
        ensures { result ≡ direction_of_level level }
    {
        if level % 2 == 1 {
            Direction::RightToLeft
        } else {
            Direction::LeftToRight
        }
    }

    /// The direction of a strong type, where EN and AN count as R.
    #[tactic(auto, unfolding(crate::specs::N0::direction_of))]
    pub(crate) fn of(class: Bidi) -> Option<Direction>
        ensures { result ≡ direction_of class }
    {
        match class {
            Bidi::L => Some(Direction::LeftToRight),
            Bidi::R | Bidi::En | Bidi::An => Some(Direction::RightToLeft),
            _ => None,
        }
    }

    pub(crate) fn opposite(self) -> Direction
        ensures { result ≡ opposite self }
    {
        match self {
            Direction::LeftToRight => Direction::RightToLeft,
            Direction::RightToLeft => Direction::LeftToRight,
        }
    }

    /// The type of a bracket that takes this direction.
    pub(crate) fn class(self) -> Bidi
        ensures { result ≡ type_of self }
    {
        match self {
            Direction::LeftToRight => Bidi::L,
            Direction::RightToLeft => Bidi::R,
        }
    }

    /// Whether this is the other one, if there is another one.
    pub(crate) fn is(self, other: Option<Direction>) -> bool
        ensures { result ≡ is_direction self other }
    {
        match (self, other) {
            (Direction::LeftToRight, Some(Direction::LeftToRight))
            | (Direction::RightToLeft, Some(Direction::RightToLeft)) => true,
            _ => false,
        }
    }
}

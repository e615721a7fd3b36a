//! Sets of types, and the directions of types and levels.

ghost use Rattle.std.specs.Prelude.{◌≡◌, slice_index_or};
ghost use Rattle.bidi_weak_neutral.specs.Classes.{is_strong, is_number, is_neutral, is_plain, direction, embedding_direction};
ghost use Rattle.bidi_weak_neutral.specs.Pass.{is_weak};

use bg_types::Bidi;

/// Whether a type is strong.
#[inline]
#[tactic(auto, unfolding(crate::specs::Classes::is_strong))]
pub(crate) fn is_strong(class: Bidi) -> bool
    ensures { result ≡ is_strong class }
{
    matches!(class, Bidi::L | Bidi::R | Bidi::Al)
}

/// Whether W1 to W7 may change a type, or read it beside another.
#[inline]
#[tactic(auto, unfolding(crate::specs::Pass::is_weak))]
pub(crate) fn is_weak(class: Bidi) -> bool
    ensures { result ≡ is_weak class }
{
    matches!(class, Bidi::Nsm | Bidi::En | Bidi::Es | Bidi::Et | Bidi::Cs)
}

/// Whether a type is a number's.
#[inline]
#[tactic(auto, unfolding(crate::specs::Classes::is_number))]
pub(crate) fn is_number(class: Bidi) -> bool
    ensures { result ≡ is_number class }
{
    matches!(class, Bidi::En | Bidi::An)
}

/// Whether a type is neutral, or that of an isolate control.
#[inline]
#[tactic(auto, unfolding(crate::specs::Classes::is_neutral))]
pub(crate) fn is_neutral(class: Bidi) -> bool
    ensures { result ≡ is_neutral class }
{
    matches!(
        class,
        Bidi::B | Bidi::S | Bidi::Ws | Bidi::On | Bidi::Fsi | Bidi::Lri | Bidi::Rli | Bidi::Pdi
    )
}

/// Whether a class neither goes right to left nor changes a level: L, European numbers and what goes
/// with them, marks, and neutrals that are not isolate controls.
///
/// By the others, those of explicit formatting at the end of the list of classes: comparisons look at sixteen classes at once, where a
/// list of them would not.
#[inline]
#[tactic(auto, unfolding(crate::specs::Classes::is_plain))]
pub(crate) fn is_plain(class: Bidi) -> bool
    ensures { result ≡ is_plain class }
{
    !(matches!(class, Bidi::R | Bidi::Al)
        | matches!(class, Bidi::An)
        | matches!(class, Bidi::Bn)
        | (class as u8 >= Bidi::Lre as u8))
}

/// A type as a direction: numbers count as R.
#[inline]
pub(crate) fn direction(class: Bidi) -> Bidi
    ensures { result ≡ direction class }
{
    if is_number(class) { Bidi::R } else { class }
}

/// The direction of a level: R at an odd one, else L.
#[inline]
pub(crate) fn embedding_direction(level: u8) -> Bidi
    ensures { result ≡ embedding_direction level }
{
    if level % 2 == 1 { Bidi::R } else { Bidi::L }
}

/// The type at a place, or `absent` after the last one.
#[inline]
pub(crate) fn type_at(types: &[Bidi], place: usize, absent: Bidi) -> Bidi
    ensures { result ≡ slice_index_or types.now place absent }
{
    match types.get(place) {
        Some(class) => *class,
        None => absent,
    }
}

//! Classes that X1 to X10 treat apart.

ghost use Rattle.std.specs.Prelude.{◌≡◌};
ghost use Rattle.std.specs.List.{list_any};
ghost use Rattle.bidi_explicit.specs.Uniform.{is_control};

use bg_types::Bidi;

/// How many classes are looked at together.
pub(crate) const BLOCK: usize = 16;

/// Whether X9 removes a character of this class, or it is an isolate control.
///
/// All but BN stand at the end of the list of classes: two comparisons look at sixteen classes at once, where a list of them would not.
#[inline]
#[tactic(auto, unfolding(paragraphs::specs::Classes::is_removed, paragraphs::specs::Classes::is_isolate_control))]
pub(crate) fn is_control(class: Bidi) -> bool
    ensures { result ≡ is_control class }
{
    matches!(class, Bidi::Bn) || class as u8 >= Bidi::Lre as u8
}

/// Whether X9 removes a character of one of these classes, or one is an isolate control.
/// Cost: O(n).
pub fn has_controls(classes: &[Bidi]) -> bool
    ensures { result ≡ list_any is_control classes.now }
{
    // A loop that ends at none of them looks at sixteen at once.
    let mut found = false;
    for class in classes {
        found |= is_control(*class);
    }
    found
}

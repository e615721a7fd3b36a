//! Line breaking classes as the rules see them.

ghost use Rattle.std.specs.Prelude.{◌≡◌};
ghost use Rattle.line_break.specs.Classes.{one_of};

use bg_types::Lb;

/// Whether the class is one of these.
/// Cost: O(n) of the classes.
#[inline]
#[tactic(auto, unfolding(crate::specs::Classes::one_of))]
pub fn is_one_of(class: Lb, classes: &[Lb]) -> bool
    ensures { result ≡ one_of classes.now class }
{
    classes.contains(&class)
}

//! Sets of character classes.

ghost use Rattle.std.specs.Prelude.{◌≡◌};
ghost use Rattle.unicode_tables.specs.Classes.{is_separator, is_segment_separator, is_line_end, is_space, is_wide, is_ambiguous};

use bg_types::{Bidi, Ea, Lb};

/// Whether a character of this class ends a paragraph (P1).
#[inline]
#[tactic(auto, unfolding(crate::specs::Classes::is_separator))]
pub fn is_separator(class: Bidi) -> bool
    ensures { result ≡ is_separator class }
{
    matches!(class, Bidi::B)
}

/// Whether a character of this class separates segments, as a tab does.
#[inline]
#[tactic(auto, unfolding(crate::specs::Classes::is_segment_separator))]
pub fn is_segment_separator(class: Bidi) -> bool
    ensures { result ≡ is_segment_separator class }
{
    matches!(class, Bidi::S)
}

/// Whether a line must end after a character of this class (LB4, LB5).
#[inline]
#[tactic(auto, unfolding(crate::specs::Classes::is_line_end))]
pub fn is_line_end(class: Lb) -> bool
    ensures { result ≡ is_line_end class }
{
    matches!(class, Lb::Bk | Lb::Cr | Lb::Lf | Lb::Nl)
}

/// Whether a character of this class is a space.
#[inline]
#[tactic(auto, unfolding(crate::specs::Classes::is_space))]
pub(crate) fn is_space(class: Lb) -> bool
    ensures { result ≡ is_space class }
{
    matches!(class, Lb::Sp)
}

/// Whether a character of this width takes two columns.
#[inline]
#[tactic(auto, unfolding(crate::specs::Classes::is_wide))]
pub fn is_wide(width: Ea) -> bool
    ensures { result ≡ is_wide width }
{
    matches!(width, Ea::W | Ea::F)
}

/// Whether the context decides how wide a character of this East_Asian_Width is.
#[inline]
#[tactic(auto, unfolding(crate::specs::Classes::is_ambiguous))]
pub fn is_ambiguous(width: Ea) -> bool
    ensures { result ≡ is_ambiguous width }
{
    matches!(width, Ea::A)
}

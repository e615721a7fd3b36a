//! Changes of one character.

ghost use Rattle.std.specs.Prelude.{◌≡◌, ◌+◌, length};
ghost use Rattle.std.specs.Option.{MatchOption};
ghost use Rattle.std.specs.Str.{chars};
ghost use Rattle.c_desks.specs.Keystrokes.{IsKeystroke};

use crate::draft::code_points;

/// A change of one character.
pub enum Keystroke {
    /// It is typed, and nothing is erased.
    Typed(char),
    /// One is erased, and nothing is typed.
    Erased,
}

/// The keystroke that erases so many characters and types a text, if it is one.
#[tactic(auto, using(crate::proofs::Texts::none_of, crate::proofs::Texts::one_of, crate::proofs::Texts::first_of))]
pub fn keystroke_of(erased: usize, text: &str) -> Option<Keystroke>
    ensures { MatchOption result (erased + length (chars text.now) ≡ 1 → ⊥) (IsKeystroke erased (chars text.now)) }
{
    let typed = code_points(text);
    if erased == 1 && typed == 0 {
        return Some(Keystroke::Erased);
    }
    if erased != 0 || typed != 1 {
        return None;
    }
    match text.chars().next() {
        Some(ch) => Some(Keystroke::Typed(ch)),
        None => None,
    }
}

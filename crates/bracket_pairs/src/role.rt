//! What a character does in the search for pairs: BD14 and BD15.

ghost use Rattle.std.specs.Prelude.{◌≡◌};
ghost use Rattle.bracket_pairs.specs.Pairs.{canonical, role_of};

use bg_types::Bidi;
use unicode_tables::{Bracket, Tables};

/// What a character does in the search for pairs.
#[derive(Clone, Copy)]
pub(crate) enum Role {
    /// It waits for this bracket.
    Opening(char),

    /// It ends what waits for this bracket.
    Closing(char),
    Neither,
}

/// The character that stands for a bracket and for each that is canonically equivalent to it.
#[tactic(auto, unfolding(crate::specs::Pairs::canonical))]
fn canonical(c: char) -> char
    ensures { result ≡ canonical c }
{
    match c {
        '\u{2329}' => '\u{3008}',
        '\u{232A}' => '\u{3009}',
        _ => c,
    }
}

/// The role of a character of a type: only a bracket of type ON has one.
#[tactic(auto, unfolding(crate::specs::Pairs::role_of, crate::specs::Pairs::bracket_role))]
pub(crate) fn role_of(tables: &Tables, c: char, class: Bidi) -> Role
    ensures { result ≡ role_of tables.now c class }
{
    let Bidi::On = class else {
        return Role::Neither;
    };
    match tables.bracket(c) {
        Bracket::Open(partner) => Role::Opening(canonical(partner)),
        Bracket::Close(_) => Role::Closing(canonical(c)),
        Bracket::None => Role::Neither,
    }
}

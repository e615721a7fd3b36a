//! The break rules as an automaton: from boundary to boundary by the pair table.

ghost use Rattle.std.specs.Prelude.{◌≡◌, ◌<◌, true, List, [], ◌∷◌, ◌++◌, if◌then◌else◌};
ghost use Rattle.line_break.specs.declared.status.Break.TheVariants.{May};
ghost use Rattle.line_break.specs.Classes.{asks_more, is_east_asian};
ghost use Rattle.line_break.specs.Items.{Item, point_of_word};
ghost use Rattle.line_break.specs.Context.{before, after};
ghost use Rattle.line_break.specs.Rules.{first_rule, rules};
ghost use Rattle.line_break.specs.States.{IsBehind, IsColumn};

use crate::state_table::STATES;
use crate::status::Break;
use crate::status_table::STATUSES;
use bg_types::{Ea, Lb};
use unicode_tables::Word;

/// The column of a wide character of CP, behind those of the classes.
const WIDE_CP: usize = 43;

/// The column of a wide character of OP.
const WIDE_OP: usize = 44;

/// What stands before a boundary, as far as the rules distinguish it: a row of the pair table.
#[derive(Clone, Copy)]
pub(crate) struct State {
    number: u8,
}

impl State {
    /// The state before a text's first character.
    pub(crate) fn start() -> State
        ensures { IsBehind [] result.number }
    {
        State { number: 0 }
    }

    /// The status of the boundary before a character of this column.
    #[inline]
    pub(crate) fn status_before(self, column: usize) -> Break
        requires state { self.number < 80 }
        requires column { column < 45 }
        ensures { (front : List Item) → IsBehind front self.number → (p : Item) → IsColumn p column
            → result ≡ first_rule rules May (before front) (after p) }
    {
        STATUSES[self.number as usize][column]
    }

    /// The state behind it.
    #[inline]
    pub(crate) fn next(self, column: usize) -> State
        requires state { self.number < 80 }
        requires column { column < 45 }
        ensures { (front : List Item) → IsBehind front self.number → (p : Item) → IsColumn p column
            → IsBehind (front ++ p ∷ []) result.number }
    {
        State {
            number: STATES[self.number as usize][column],
        }
    }
}

/// The column of a character of this word. But for SA, LB1 is in the table.
#[inline]
#[tactic(auto, unfolding(crate::specs::Classes::asks_more))]
pub(crate) fn column_of(word: &Word) -> usize
    ensures { IsColumn (point_of_word word.now) result }
{
    match word.lb {
        Lb::Cp | Lb::Op | Lb::Sa => column_by_more(word),
        _ => word.lb as usize,
    }
}

/// The column of a character whose class alone doesn't decide it. It is apart from the loop over statuses, which then tests
/// a bit in place of a jump; and the word is lent, so that the loop reads of it the class alone.
#[inline(never)]
fn column_by_more(word: &Word) -> usize
    requires { asks_more word.now.lb ≡ true }
    ensures { IsColumn (point_of_word word.now) result }
{
    match word.lb {
        Lb::Cp => column_by_width(word.ea, Lb::Cp as usize, WIDE_CP),
        Lb::Op => column_by_width(word.ea, Lb::Op as usize, WIDE_OP),
        // Own: SA becomes AL, not ID or a class from a dictionary.
        _ => {
            if word.bidi.is_nonspacing() {
                Lb::Cm as usize
            } else {
                Lb::Al as usize
            }
        }
    }
}

/// One of two columns, by the width of a character: LB30 leaves out wide ones.
#[tactic(auto, unfolding(crate::specs::Classes::is_east_asian))]
fn column_by_width(width: Ea, narrow: usize, wide: usize) -> usize
    ensures { result ≡ (if is_east_asian width then wide else narrow) }
{
    if matches!(width, Ea::F | Ea::W | Ea::H) {
        wide
    } else {
        narrow
    }
}

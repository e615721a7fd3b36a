//! The statuses of a paragraph's boundaries.

ghost use Rattle.std.specs.Prelude.{◌≡◌, IfOk, OnOk, map};
ghost use Rattle.line_break.specs.Items.{point_of_word};
ghost use Rattle.line_break.specs.Statuses.{statuses, breaks};

use crate::state::{State, column_of};
use bg_types::Memory;
use paragraphs::{Para, code_points_into};
use std::alloc::Global;
use std::mem;
use unicode_tables::{Tables, Word};

/// What the boundary after a code point means for a line (UAX #14, LD).
#[derive(Clone, Copy, Debug, PartialEq, Eq)]
pub enum Break {
    /// A line must end there.
    Must,
    /// A line may end there.
    May,
    /// No line ends there unless nothing else fits.
    No,
}

/// The status of the boundary after each code point of a paragraph, in order (UAX #14, in the
/// profile of this crate's rules). The last one is Must.
/// Cost: O(n), 13 bytes of memory a code point.
pub fn opportunities(alloc: Global, tables: &Tables, para: &Para) -> Result<Vec<Break>, Memory>
    ensures { IfOk result (λ v. v.items ≡ breaks tables.now para.now.text) }
{
    let mut points = Vec::new(alloc);
    code_points_into(&mut points, para.text())?;
    let mut words = Vec::new(alloc);
    tables.words_into(&mut words, &points)?;
    let mut after = Vec::new(alloc);
    statuses_into(&mut after, &words)?;
    Ok(after)
}

/// Puts the status of the boundary after each of a paragraph's code points, which have these words, in
/// order, into a list, in place of what it has.
pub(crate) fn statuses_into(after: &mut Vec<Break>, words: &[Word]) -> Result<(), Memory>
    ensures { OnOk result (after.new.items ≡ statuses (map point_of_word words.now)) }
{
    after.clear();
    after.reserve(words.len())?;
    let Some(first) = words.first() else {
        return Ok(());
    };
    // A list that is lent would have its length written at each push.
    let empty = Vec::new(*after.allocator());
    let mut own = mem::replace(after, empty);
    let mut state = State::start().next(column_of(first));
    for word in &words[1..] {
        let column = column_of(word);
        own.push_reserved(state.status_before(column));
        state = state.next(column);
    }
    own.push_reserved(Break::Must);
    *after = own;
    Ok(())
}

//! The search for pairs: BD16.

ghost use Rattle.std.specs.Prelude.{◌≡◌, false, length, reverse, None, Some, IfOk, IsOk, MatchOption};
ghost use Rattle.std.specs.List.{list_any};
ghost use Rattle.bracket_pairs.specs.Pairs.{opens, roles, pairs_in_order};
ghost use Rattle.bracket_pairs.specs.Found.{closed_by, pairs_told, AreInOrder};

use crate::role::{Role, role_of};
use arrayvec::ArrayVec;
use bg_types::{Bidi, Memory};
use std::alloc::Global;
use unicode_tables::Tables;

/// How many opening brackets may wait.
const MOST_OPEN: usize = 63;

/// An opening bracket that waits for its partner: its place, and its number among the opening brackets.
#[derive(Clone, Copy, Default)]
pub(crate) struct Waiting {
    place: usize,
    number: usize,
    partner: char,
}

/// The place of an opening bracket that the search has come to, and that of the closing one it is paired with.
#[derive(Clone, Copy)]
pub(crate) struct Opened {
    pub(crate) place: usize,
    pub(crate) closing: Option<usize>,
}

/// Takes the topmost entry that waits for a closing bracket off the stack, with all above it.
fn close(stack: &mut ArrayVec<Waiting, MOST_OPEN>, c: char) -> Option<Waiting>
    ensures { MatchOption result
        ((closed_by c (reverse stack.old.items) ≡ None) × (stack.new.items ≡ stack.old.items))
        (λ waiting. closed_by c (reverse stack.old.items) ≡ Some (waiting, reverse stack.new.items)) }
{
    for k in (0..stack.len()).rev() {
        let waiting = stack[k];
        if waiting.partner == c {
            stack.truncate(k);
            return Some(waiting);
        }
    }
    None
}

/// The opening brackets that the search comes to, in their order. Memory is taken for these alone.
pub(crate) fn openings(
    alloc: Global,
    tables: &Tables,
    chars: &[char],
    types: &[Bidi],
) -> Result<Vec<Opened>, Memory>
    requires { length types.now ≡ length chars.now }
    ensures pairs { IfOk result (λ openings. pairs_told openings.items ≡ pairs_in_order (roles tables.now chars.now types.now)) }
    ensures order { IfOk result (λ openings. AreInOrder 0 (length chars.now) openings.items) }
    ensures none { list_any opens (roles tables.now chars.now types.now) ≡ false → IsOk result }
{
    let mut openings = Vec::new(alloc);
    let mut stack = ArrayVec::<Waiting, MOST_OPEN>::new();
    for (place, c) in chars.iter().enumerate() {
        match role_of(tables, *c, types[place]) {
            Role::Opening(partner) => {
                if stack.is_full() {
                    break;
                }
                let number = openings.len();
                openings.push(Opened {
                    place,
                    closing: None,
                })?;
                stack.push(Waiting {
                    place,
                    number,
                    partner,
                });
            }
            Role::Closing(c) => {
                if let Some(waiting) = close(&mut stack, c) {
                    let closing = Some(place);
                    openings[waiting.number] = Opened {
                        place: waiting.place,
                        closing,
                    };
                }
            }
            Role::Neither => {}
        }
    }
    Ok(openings)
}

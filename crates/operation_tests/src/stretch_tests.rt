//! What no clause says: that memory suffices to type, to erase and to replace a number of characters at once, and which
//! texts and operations come out.
//!
//! A refused growth must leave desk and list as they were, and the call is made again: so each test
//! also passes with any one allocation refused (`rt try --test --fail-alloc N`).

ghost use Rattle.std.specs.Prelude.{◌<◌};

use crate::ops::{OpRow, op};
use crate::rows::assert_rows;
use OpRow::{Erase, Insert};
use bg_types::{Memory, Op};
use desk_replica::{Replica, TypeFault};
use rga_runs::Runs;
use rga_sequence::Blocks;
use rga_tree::{Fresh, Plain};
use std::alloc::Global;
use test_rows::Row;

/// The text of a desk and what it told.
#[derive(Drop)]
struct Writer<S: Fresh> {
    desk: Replica<S>,
    made: Vec<Op>,
}

impl<S: Fresh> Writer<S> {
    fn shows(&self, text: &str, made: usize) -> Result<bool, Memory> {
        Ok(self.desk.text()?.as_str() == text && self.made.len() == made)
    }

    /// Types characters at a place, or at the end of a shorter text.
    fn types(&mut self, place: usize, characters: &str) -> Result<(), TypeFault> {
        let place = place.min(self.desk.len());
        self.desk.type_text(place, characters, &mut self.made)
    }

    /// Erases from one place up to another, as far as the text goes.
    fn erases(&mut self, from: usize, to: usize) -> Result<(), TypeFault> {
        let to = to.min(self.desk.len());
        let from = from.min(to);
        self.desk.erase_range(from, to, &mut self.made)
    }

    /// Replaces what stands from one place up to another, as far as the text goes.
    fn replaces(&mut self, from: usize, to: usize, characters: &str) -> Result<(), TypeFault> {
        let to = to.min(self.desk.len());
        let from = from.min(to);
        self.desk.replace(from, to, characters, &mut self.made)
    }

    /// Makes a change. After lack of memory text and list must be as they were.
    fn makes(&mut self, edit: Edit) -> Result<Result<(), TypeFault>, Memory> {
        let text = self.desk.text()?;
        let made = self.made.len();
        let answer = self.tries(edit);
        if answer != Err(TypeFault::Memory) {
            return Ok(answer);
        }
        match self.shows(text.as_str(), made)? {
            true => Err(Memory),
            false => Ok(answer),
        }
    }

    fn tries(&mut self, edit: Edit) -> Result<(), TypeFault> {
        match edit {
            Edit::Types(place, characters) => self.types(place, characters),
            Edit::Erases(from, to) => self.erases(from, to),
            Edit::Replaces(from, to, characters) => self.replaces(from, to, characters),
            Edit::Holds(row) => self.holds(row),
        }
    }

    fn holds(&mut self, row: OpRow) -> Result<(), TypeFault> {
        match op(row) {
            Some(op) if self.desk.take(&op).is_ok() => Ok(()),
            _ => Err(TypeFault::Memory),
        }
    }
}

/// What is done at a desk.
#[derive(Clone, Copy)]
enum Edit {
    Types(usize, &'static str),
    Erases(usize, usize),
    Replaces(usize, usize, &'static str),
    /// An operation of another site is taken.
    Holds(OpRow),
}

/// Edits with their answers, the text then, and the operations that were told.
struct Case(
    &'static [(Edit, Result<(), TypeFault>)],
    &'static str,
    &'static [OpRow],
);

impl Row for Case {
    fn comes_out(&self, alloc: Global) -> Result<bool, Memory> {
        Ok(
            comes_out::<Blocks>(alloc, self)?
                && comes_out::<Plain>(alloc, self)?
                && comes_out::<Runs>(alloc, self)?,
        )
    }
}

fn fresh_writer<S: Fresh>(alloc: Global) -> Writer<S> {
    Writer {
        desk: Replica::new(alloc, 1, S::fresh(alloc, 7), 7),
        made: Vec::new(alloc),
    }
}

fn comes_out<S: Fresh>(alloc: Global, case: &Case) -> Result<bool, Memory> {
    let mut writer: Writer<S> = fresh_writer(alloc);
    let Case(edits, text, told) = *case;
    let mut right = true;
    for (edit, answer) in edits {
        right = writer.makes(*edit)? == *answer && right;
    }
    Ok(right && writer.shows(text, told.len())? && tells(&writer.made, told))
}

/// Whether these are the operations of the rows.
fn tells(made: &[Op], told: &[OpRow]) -> bool {
    let mut right = made.len() == told.len();
    for (made, row) in made.iter().zip(told) {
        right = op(*row) == Some(*made) && right;
    }
    right
}

const OK: Result<(), TypeFault> = Ok(());

const SPENT: Result<(), TypeFault> = Err(TypeFault::CounterSpent);

/// `abc`, each behind the one before.
const A: OpRow = Insert((1, 1), (0, 0), 'a');

const B: OpRow = Insert((2, 1), (1, 1), 'b');

const C: OpRow = Insert((3, 1), (2, 1), 'c');

const CASES: [Case; 11] = [
    Case(&[(Edit::Types(0, "abc"), OK)], "abc", &[A, B, C]),
    Case(
        &[(Edit::Types(0, ""), OK), (Edit::Erases(0, 0), OK)],
        "",
        &[],
    ),
    // In the middle, behind the visible one there.
    Case(
        &[
            (Edit::Types(0, "ad"), OK),
            (Edit::Types(1, "\u{5D0}\u{1F600}"), OK),
        ],
        "a\u{5D0}\u{1F600}d",
        &[
            Insert((1, 1), (0, 0), 'a'),
            Insert((2, 1), (1, 1), 'd'),
            Insert((3, 1), (1, 1), '\u{5D0}'),
            Insert((4, 1), (3, 1), '\u{1F600}'),
        ],
    ),
    // What is erased in the middle, and typed in its place.
    Case(
        &[
            (Edit::Types(0, "abc"), OK),
            (Edit::Erases(1, 3), OK),
            (Edit::Types(1, "x"), OK),
        ],
        "ax",
        &[
            A,
            B,
            C,
            Erase((2, 1)),
            Erase((3, 1)),
            Insert((4, 1), (1, 1), 'x'),
        ],
    ),
    // Over what is hidden already.
    Case(
        &[
            (Edit::Types(0, "abc"), OK),
            (Edit::Erases(1, 2), OK),
            (Edit::Erases(0, 2), OK),
        ],
        "",
        &[A, B, C, Erase((2, 1)), Erase((1, 1)), Erase((3, 1))],
    ),
    // A word that is overwritten: what is typed follows the visible one in front of it.
    Case(
        &[
            (Edit::Types(0, "abc"), OK),
            (Edit::Replaces(1, 3, "xy"), OK),
        ],
        "axy",
        &[
            A,
            B,
            C,
            Erase((2, 1)),
            Erase((3, 1)),
            Insert((4, 1), (1, 1), 'x'),
            Insert((5, 1), (4, 1), 'y'),
        ],
    ),
    // At the text's front, over what is hidden already.
    Case(
        &[
            (Edit::Types(0, "abc"), OK),
            (Edit::Erases(0, 1), OK),
            (Edit::Replaces(0, 1, "x"), OK),
        ],
        "xc",
        &[
            A,
            B,
            C,
            Erase((1, 1)),
            Erase((2, 1)),
            Insert((4, 1), (0, 0), 'x'),
        ],
    ),
    // Nothing is erased, then nothing is typed, then neither.
    Case(
        &[
            (Edit::Replaces(0, 0, "ab"), OK),
            (Edit::Replaces(0, 1, ""), OK),
            (Edit::Replaces(1, 1, ""), OK),
        ],
        "b",
        &[A, B, Erase((1, 1))],
    ),
    // Where the counters are too few for what is typed, nothing is erased.
    Case(
        &[
            (Edit::Types(0, "a"), OK),
            (Edit::Holds(Erase((4_294_967_293, 2))), OK),
            (Edit::Replaces(0, 1, "xyz"), SPENT),
            (Edit::Replaces(0, 1, "x"), OK),
        ],
        "x",
        &[A, Erase((1, 1)), Insert((4_294_967_294, 1), (0, 0), 'x')],
    ),
    // Two counters are left for three characters, and then for two.
    Case(
        &[
            (Edit::Holds(Erase((4_294_967_293, 2))), OK),
            (Edit::Types(0, "abc"), SPENT),
            (Edit::Types(0, "ab"), OK),
            (Edit::Types(0, "a"), SPENT),
            (Edit::Types(0, ""), OK),
        ],
        "ab",
        &[
            Insert((4_294_967_294, 1), (0, 0), 'a'),
            Insert((4_294_967_295, 1), (4_294_967_294, 1), 'b'),
        ],
    ),
    // What was typed at another site.
    Case(
        &[
            (Edit::Holds(Insert((1, 2), (0, 0), 'x')), OK),
            (Edit::Types(1, "ab"), OK),
        ],
        "xab",
        &[Insert((2, 1), (1, 2), 'a'), Insert((3, 1), (2, 1), 'b')],
    ),
];

#[test]
fn stretches_are_typed_and_erased(rt: HostRuntime) {
    assert_rows(&rt, &CASES);
}

/// Whether a desk that paid for five types four, and then one in place of another, at the first try, into a list with room.
fn types_paid<S: Fresh>(alloc: Global) -> Result<bool, Memory> {
    let mut writer: Writer<S> = fresh_writer(alloc);
    writer.made.reserve(8)?;
    writer.desk.reserve(5)?;
    let typed = writer.types(0, "abcd");
    let erased = writer.erases(1, 3);
    let replaced = writer.replaces(0, 1, "x");
    let right = typed == OK && erased == OK && replaced == OK;
    Ok(right && writer.shows("xd", 8)? && writer.desk.spare() == 0)
}

/// 64 characters.
const LINE: &str = "0123456789abcdefghijklmnopqrstuvwxyzABCDEFGHIJKLMNOPQRSTUVWXYZ-+";

/// Whether all but the first and the last of 1,280 characters, which are more than two blocks have, are replaced by one.
fn replaces_across_blocks<S: Fresh>(alloc: Global) -> Result<bool, Memory> {
    let mut writer: Writer<S> = fresh_writer(alloc);
    let mut right = true;
    for _ in 0..20 {
        right = writer.makes(Edit::Types(0, LINE))? == OK && right;
    }
    right = writer.makes(Edit::Replaces(1, 1_279, "."))? == OK && right;
    Ok(right && writer.shows("0.+", 2_559)?)
}

/// Which sequence is tried.
enum Across {
    OverBlocks,
    OverPlain,
    OverRuns,
}

impl Row for Across {
    fn comes_out(&self, alloc: Global) -> Result<bool, Memory> {
        match self {
            Across::OverBlocks => replaces_across_blocks::<Blocks>(alloc),
            Across::OverPlain => replaces_across_blocks::<Plain>(alloc),
            Across::OverRuns => replaces_across_blocks::<Runs>(alloc),
        }
    }
}

#[test]
fn a_stretch_across_blocks_is_replaced(rt: HostRuntime) {
    assert_rows(
        &rt,
        &[Across::OverBlocks, Across::OverPlain, Across::OverRuns],
    );
}

/// Which sequence is tried without memory.
enum Paid {
    OverBlocks,
    OverPlain,
    OverRuns,
}

impl Row for Paid {
    fn comes_out(&self, alloc: Global) -> Result<bool, Memory> {
        match self {
            Paid::OverBlocks => types_paid::<Blocks>(alloc),
            Paid::OverPlain => types_paid::<Plain>(alloc),
            Paid::OverRuns => types_paid::<Runs>(alloc),
        }
    }
}

#[test]
fn a_stretch_that_is_paid_for_takes_no_memory(rt: HostRuntime) {
    assert_rows(&rt, &[Paid::OverBlocks, Paid::OverPlain, Paid::OverRuns]);
}

//! What no clause says: that memory suffices, and which answers and texts come out.
//!
//! A refused growth must leave the desk as it was, and the call is made again: so each test
//! also passes with any one allocation refused (`rt try --test --fail-alloc N`).

ghost use Rattle.std.specs.Prelude.{◌<◌};

use crate::ops::{OpRow, op};
use crate::reading_tests;
use crate::rows::assert_none;
use OpRow::{Erase, Insert};
use bg_types::{Memory, Op};
use desk_replica::{Replica, TakeFault, Taken, TypeFault};
use rga_runs::Runs;
use rga_sequence::Blocks;
use rga_tree::{Fresh, Plain};
use std::alloc::Global;
use std::process::Abort;

/// What taking a row is to answer.
type Answer = Result<Taken, TakeFault>;

/// A desk whose calls promise nothing, so that a test rests on what it sees.
#[derive(Drop)]
struct Desk<S: Fresh> {
    desk: Replica<S>,
}

impl<S: Fresh> Desk<S> {
    /// The text, on a second try where memory for it is refused.
    fn text(&self) -> Result<String, Memory> {
        match self.desk.text() {
            Err(Memory) => self.desk.text(),
            read => read,
        }
    }

    fn reads(&self, text: &str) -> bool {
        match self.text() {
            Ok(read) => read.as_str() == text,
            Err(Memory) => false,
        }
    }

    /// Whether text and number of operations are these.
    fn shows(&self, text: &Result<String, Memory>, kept: usize) -> bool {
        match text {
            Ok(text) => self.reads(text.as_str()) && self.desk.op_count() == kept,
            Err(Memory) => false,
        }
    }

    fn take(&mut self, op: &Op) -> Answer {
        let text = self.text();
        let kept = self.desk.op_count();
        let answer = self.desk.take(op);
        if answer == Err(TakeFault::Memory) && self.shows(&text, kept) {
            return self.desk.take(op);
        }
        answer
    }

    /// Types, at the end of the text if the place is after it.
    fn type_char(&mut self, place: usize, ch: char) -> Result<Op, TypeFault> {
        let text = self.text();
        let kept = self.desk.op_count();
        let place = place.min(self.desk.len());
        let answer = self.desk.type_char(place, ch);
        if answer == Err(TypeFault::Memory) && self.shows(&text, kept) {
            let place = place.min(self.desk.len());
            return self.desk.type_char(place, ch);
        }
        answer
    }

    fn erase_at(&mut self, place: usize) -> Option<Op> {
        if place >= self.desk.len() {
            return None;
        }
        self.desk.erase_at(place).ok()
    }

    /// Merges; where memory is refused, again: what the first try took is counted too.
    fn merge(&mut self, other: &Desk<S>) -> Result<usize, TakeFault> {
        let kept = self.desk.op_count();
        match self.desk.merge(&other.desk) {
            Err(TakeFault::Memory) => {
                let taken = self.desk.op_count().saturating_sub(kept);
                Ok(taken.saturating_add(self.desk.merge(&other.desk)? as usize))
            }
            answer => Ok(answer? as usize),
        }
    }

    /// Pays for four operations, on a second try where memory for it is refused.
    fn pays(&mut self) -> bool {
        (self.desk.reserve(4).is_ok() || self.desk.reserve(4).is_ok()) && self.desk.spare() == 4
    }

    /// Whether taking this row answers so at the first try, as what is paid for takes no memory.
    fn takes_paid(&mut self, row: OpRow, answer: Answer) -> bool {
        match op(row) {
            Some(op) => self.desk.take(&op) == answer,
            None => false,
        }
    }

    /// Whether taking this row answers so.
    fn takes(&mut self, row: OpRow, answer: Answer) -> bool {
        match op(row) {
            Some(op) => self.take(&op) == answer,
            None => false,
        }
    }

    /// Whether this row is taken.
    fn takes_well(&mut self, row: OpRow) -> bool {
        match op(row) {
            Some(op) => self.take(&op).is_ok(),
            None => false,
        }
    }

    /// Whether typing the character of an insertion makes it, or erasing makes a deletion.
    fn makes(&mut self, place: usize, row: OpRow) -> bool {
        match row {
            Insert(_, _, ch) => self.type_char(place, ch).ok() == op(row),
            Erase(_) => self.erase_at(place) == op(row),
        }
    }
}

fn desk_of<S: Fresh>(alloc: Global, site: u16) -> Desk<S>
    requires { 0 < site }
{
    Desk {
        desk: Replica::new(alloc, site, S::fresh(alloc, 7), 7),
    }
}

const PLACED: Answer = Ok(Taken::Placed(0));

const KNOWN: Answer = Ok(Taken::Known);

const HELD: Answer = Ok(Taken::Held);

const REUSED: Answer = Err(TakeFault::IdentifierReused);

/// `a`, `x` and `b` after it, `y` after `x`.
const A: OpRow = Insert((1, 1), (0, 0), 'a');

const X: OpRow = Insert((2, 2), (1, 1), 'x');

const Y: OpRow = Insert((3, 2), (2, 2), 'y');

const B: OpRow = Insert((2, 1), (1, 1), 'b');

/// Whether a desk gives each row its answer.
fn takes_each<S: Fresh>(desk: &mut Desk<S>, rows: &[(OpRow, Answer)]) -> bool {
    let mut right = true;
    for (row, answer) in rows {
        right = desk.takes(*row, *answer) && right;
    }
    right
}

/// What a case tries on fresh desks of the sites 1 and 2.
#[derive(Clone, Copy)]
pub(crate) enum Case {
    /// The first desk gives each row its answer, and reads as this text then.
    Plays(&'static [(OpRow, Answer)], &'static str),
    /// Four operations are paid for, and none is taken.
    Pays,
    /// What is paid for is taken at the first try.
    PlaysPaid,
    /// What is paid for is taken, where it could be paid for. Nothing is asked for after that, so that every further request may be refused.
    PlaysIfPaid,
    MergesPaid,
    /// Once each desk has taken its rows, the first merges the other one as is said.
    Merges(&'static [OpRow], &'static [OpRow], Merged),
    Types,
    /// A held insertion with the greatest counter leaves none to type with.
    Spends,
    /// A refused insertion leaves the next counter as it was.
    Counts,
    /// 1,000,000 early deletions leave no room for more.
    Fills,
    /// The first desk finds places, and answers each operation.
    Reads,
}

/// What merging a desk into another one answers, and what is read and how many operations there are then.
type Merged = (Result<usize, TakeFault>, &'static str, usize);

/// Whether a case comes out. Desks are made and dropped here and in the next function alone, which is dear to prove.
fn comes_out<S: Fresh>(alloc: Global, case: Case) -> bool {
    let mut one: Desk<S> = desk_of(alloc, 1);
    comes_out_beside(alloc, &mut one, case)
}

fn comes_out_beside<S: Fresh>(alloc: Global, one: &mut Desk<S>, case: Case) -> bool {
    let mut two: Desk<S> = desk_of(alloc, 2);
    comes_out_on(one, &mut two, case)
}

fn comes_out_on<S: Fresh>(one: &mut Desk<S>, two: &mut Desk<S>, case: Case) -> bool {
    match case {
        Case::Plays(rows, text) => takes_each(one, rows) && one.reads(text),
        Case::Pays => one.pays(),
        Case::PlaysPaid => plays_paid(one),
        Case::PlaysIfPaid => !one.pays() || takes_early(one),
        Case::MergesPaid => merges_paid(one, two),
        Case::Merges(mine, others, merged) => merges(one, two, mine, others, merged),
        Case::Types => types(one),
        Case::Spends => spends(one),
        Case::Counts => counts(one),
        Case::Fills => fills(one),
        Case::Reads => reading_tests::reads(&mut one.desk),
    }
}

/// The first case that does not come out over all sequences.
fn first_wrong(alloc: Global, cases: &[Case]) -> Option<usize> {
    for (n, case) in cases.iter().enumerate() {
        if !comes_out::<Blocks>(alloc, *case)
            || !comes_out::<Plain>(alloc, *case)
            || !comes_out::<Runs>(alloc, *case)
        {
            return Some(n);
        }
    }
    None
}

/// `b` at the front, of another desk.
const FRONT: OpRow = Insert((1, 2), (0, 0), 'b');

/// `a`, `x`, `y` and `b` with one that comes early.
const EARLY: [(OpRow, Answer); 4] = [
    (A, PLACED),
    (Y, HELD),
    (X, Ok(Taken::Placed(1))),
    (B, PLACED),
];

const ANSWERS: [Case; 10] = [
    Case::Plays(&[(A, PLACED), (FRONT, PLACED)], "ba"),
    Case::Plays(&[(FRONT, PLACED), (A, PLACED)], "ba"),
    Case::Plays(
        &[(A, PLACED), (X, PLACED), (Y, PLACED), (B, PLACED)],
        "axyb",
    ),
    Case::Plays(&EARLY, "axyb"),
    // Each three times.
    Case::Plays(
        &[
            (A, PLACED),
            (A, KNOWN),
            (A, KNOWN),
            (X, PLACED),
            (X, KNOWN),
            (X, KNOWN),
            (Y, PLACED),
            (Y, KNOWN),
            (Y, KNOWN),
            (B, PLACED),
            (B, KNOWN),
            (B, KNOWN),
        ],
        "axyb",
    ),
    Case::Plays(
        &[(Y, HELD), (X, HELD), (B, HELD), (A, Ok(Taken::Placed(3)))],
        "axyb",
    ),
    // A deletion that comes before its target, and one that comes after it and again.
    Case::Plays(
        &[
            (Erase((2, 2)), HELD),
            (A, PLACED),
            (X, PLACED),
            (Y, PLACED),
            (B, PLACED),
        ],
        "ayb",
    ),
    Case::Plays(
        &[
            (A, PLACED),
            (X, PLACED),
            (Y, PLACED),
            (Erase((1, 1)), Ok(Taken::Hidden)),
            (Erase((1, 1)), KNOWN),
            (A, KNOWN),
        ],
        "xy",
    ),
    // What is known, and what reuses an identifier.
    Case::Plays(
        &[
            (A, PLACED),
            (A, KNOWN),
            (Y, HELD),
            (Y, KNOWN),
            (X, Ok(Taken::Placed(1))),
            (Y, KNOWN),
        ],
        "axy",
    ),
    Case::Plays(
        &[
            (A, PLACED),
            (Insert((1, 1), (0, 0), 'b'), REUSED),
            (Y, HELD),
            (Insert((3, 2), (2, 2), 'z'), REUSED),
        ],
        "a",
    ),
];

/// Whether a desk that paid for four operations answers each row at the first try.
fn takes_early<S: Fresh>(desk: &mut Desk<S>) -> bool {
    let mut right = true;
    for (row, answer) in EARLY {
        right = desk.takes_paid(row, answer) && right;
    }
    right && desk.desk.spare() == 0
}

fn plays_paid<S: Fresh>(desk: &mut Desk<S>) -> bool {
    desk.pays() && takes_early(desk) && desk.takes(A, KNOWN) && desk.reads("axyb")
}

fn merges_paid<S: Fresh>(one: &mut Desk<S>, two: &mut Desk<S>) -> bool {
    let paid = one.pays() && takes_each(two, &EARLY);
    one.desk.merge(&two.desk) == Ok(4) && paid && one.reads("axyb")
}

/// Whether a desk takes each row.
fn takes_all<S: Fresh>(desk: &mut Desk<S>, rows: &[OpRow]) -> bool {
    let mut all = true;
    for row in rows {
        all = desk.takes_well(*row) && all;
    }
    all
}

fn merges<S: Fresh>(
    one: &mut Desk<S>,
    two: &mut Desk<S>,
    mine: &[OpRow],
    others: &[OpRow],
    merged: Merged,
) -> bool {
    let taken = takes_all(one, mine);
    let others_taken = takes_all(two, others);
    let (answer, text, kept) = merged;
    let right = one.merge(two) == answer && one.desk.op_count() == kept;
    one.reads(text) && right && taken && others_taken
}

const MERGES: [Case; 5] = [
    // What waits.
    Case::Merges(&[Y], &[A, X], (Ok(2), "axy", 3)),
    Case::Merges(&[], &[X, Erase((9, 9)), A, Erase((2, 2))], (Ok(4), "a", 4)),
    // What is known.
    Case::Merges(&[A, X, Y, B], &[B, Y, X, A], (Ok(0), "axyb", 4)),
    Case::Merges(
        &[A, X],
        &[Erase((1, 1)), Erase((2, 2)), A, Y, B],
        (Ok(4), "yb", 6),
    ),
    // None where one identifier is reused.
    Case::Merges(
        &[A],
        &[Insert((1, 1), (0, 0), 'b'), Insert((2, 2), (0, 0), 'x')],
        (Err(TakeFault::IdentifierReused), "a", 1),
    ),
];

/// What typing or erasing at each place makes.
const TYPED: [(usize, OpRow); 4] = [
    (0, Insert((1, 1), (0, 0), 'a')),
    (1, Insert((2, 1), (1, 1), 'b')),
    (0, Erase((1, 1))),
    (0, Insert((3, 1), (0, 0), 'c')),
];

fn types<S: Fresh>(desk: &mut Desk<S>) -> bool {
    let mut right = true;
    for (place, row) in TYPED {
        right = desk.makes(place, row) && right;
    }
    desk.reads("cb") && desk.desk.op_count() == 4 && right
}

fn spends<S: Fresh>(desk: &mut Desk<S>) -> bool {
    let late = Insert((4_294_967_295, 2), (4_294_967_294, 2), 'y');
    let held = desk.takes(late, HELD);
    let spent = desk.type_char(0, 'z') == Err(TypeFault::CounterSpent);
    desk.reads("") && held && spent
}

fn counts<S: Fresh>(desk: &mut Desk<S>) -> bool {
    match op(Y) {
        Some(late) => counts_no_refused(desk, &late),
        None => false,
    }
}

/// Whether a refused insertion, as this one, leaves the next counter as it was.
fn counts_no_refused<S: Fresh>(desk: &mut Desk<S>, late: &Op) -> bool {
    let held = desk.desk.take(late);
    if held == Err(TakeFault::Memory) {
        return desk.makes(0, A)
            && desk.takes(Y, HELD)
            && desk.makes(1, Insert((4, 1), (1, 1), 'c'));
    }
    held == HELD && desk.makes(0, Insert((4, 1), (0, 0), 'c'))
}

/// Whether a desk without text, which is read after a fault alone, holds this deletion.
fn holds<S: Fresh>(desk: &mut Desk<S>, counter: u32) -> bool {
    let Some(op) = op(Erase((counter, 1))) else {
        return false;
    };
    let answer = desk.desk.take(&op);
    if answer == Err(TakeFault::Memory) {
        return desk.reads("") && desk.takes(Erase((counter, 1)), HELD);
    }
    answer == HELD
}

/// Whether this many early deletions are held at a desk.
fn holds_all<S: Fresh>(desk: &mut Desk<S>, count: u32) -> bool {
    let mut all = true;
    for counter in 1..=count {
        all = holds(desk, counter) && all;
    }
    all
}

fn fills<S: Fresh>(desk: &mut Desk<S>) -> bool {
    let held = holds_all(desk, 1_000_000);
    let full = desk.takes(Erase((1_000_001, 1)), Err(TakeFault::Full));
    let known = desk.takes(Erase((5, 1)), KNOWN);
    let typed = desk.type_char(0, 'z') == Err(TypeFault::Full);
    desk.reads("") && held && full && known && typed
}

/// Compares what cases come to over all sequences.
pub(crate) fn assert_cases(rt: &(impl Abort + AllocGlobal), cases: &[Case]) {
    assert_none(rt, "the cases", first_wrong(rt.alloc(), cases));
}

#[test]
fn answers_and_reads(rt: HostRuntime) {
    assert_cases(&rt, &ANSWERS);
}

#[test]
fn takes_what_is_paid_for(rt: HostRuntime) {
    assert_cases(&rt, &[Case::PlaysPaid, Case::MergesPaid]);
}

#[test]
fn pays_and_takes_nothing(rt: HostRuntime) {
    assert_cases(&rt, &[Case::Pays]);
}

#[test]
fn takes_what_is_paid_for_without_memory(rt: HostRuntime) {
    assert_cases(&rt, &[Case::PlaysIfPaid]);
}

#[test]
fn merges_and_counts(rt: HostRuntime) {
    assert_cases(&rt, &MERGES);
}

#[test]
fn types_and_erases(rt: HostRuntime) {
    assert_cases(&rt, &[Case::Types, Case::Spends]);
}

#[test]
fn a_refused_take_leaves_the_next_counter(rt: HostRuntime) {
    assert_cases(&rt, &[Case::Counts]);
}

#[test]
fn a_full_desk_takes_nothing_new(rt: HostRuntime) {
    assert!(rt; comes_out::<Plain>(rt.alloc(), Case::Fills));
}

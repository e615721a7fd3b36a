//! What no clause says: which text comes out where a desk takes operations in order, and where it stops.
//!
//! A refused growth stops a desk, and the row is tried again: so each test also passes with any one allocation refused
//! (`rt try --test --fail-alloc N`).

use crate::ops::{OpRow, ops_of};
use crate::rows::assert_rows;
use OpRow::{Erase, Insert};
use bg_types::Memory;
use desk_replica::{Replica, Stopped, TakeFault};
use rga_runs::Runs;
use rga_sequence::Blocks;
use rga_tree::{Fresh, Plain};
use std::alloc::Global;
use test_rows::Row;

/// Operations, the answer to them, and the text then.
struct Case(&'static [OpRow], Result<(), Stopped>, &'static str);

impl Row for Case {
    fn comes_out(&self, alloc: Global) -> Result<bool, Memory> {
        Ok(
            comes_out::<Blocks>(alloc, self)?
                && comes_out::<Plain>(alloc, self)?
                && comes_out::<Runs>(alloc, self)?,
        )
    }
}

fn comes_out<S: Fresh>(alloc: Global, case: &Case) -> Result<bool, Memory> {
    let Case(rows, answer, text) = *case;
    let ops = ops_of(alloc, rows)?;
    let mut desk = Replica::new(alloc, 9, S::fresh(alloc, 7), 7);
    match desk.take_all(&ops) {
        Err(
            Stopped {
                fault: TakeFault::Memory,
                ..
            },
        ) => Err(Memory),
        told => Ok(told == answer && desk.text()?.as_str() == text),
    }
}

const OK: Result<(), Stopped> = Ok(());

/// `a` to `d`, each behind the one before, and `x` by another site behind `a`.
const A: OpRow = Insert((1, 1), (0, 0), 'a');

const B: OpRow = Insert((2, 1), (1, 1), '\u{5D1}');

const C: OpRow = Insert((3, 1), (2, 1), 'c');

const D: OpRow = Insert((4, 1), (3, 1), '\u{1F600}');

const X: OpRow = Insert((2, 2), (1, 1), 'x');

/// Behind a counter that is left out.
const LATER: OpRow = Insert((4, 1), (2, 1), 'e');

/// What is kept at (2,1) is another character.
const REUSED: OpRow = Insert((2, 1), (1, 1), 'z');

const CASES: [Case; 9] = [
    Case(&[], OK, ""),
    Case(&[A, B, C, D], OK, "a\u{5D1}c\u{1F600}"),
    Case(&[A, B, LATER], OK, "a\u{5D1}e"),
    Case(&[A, B, X, C], OK, "ax\u{5D1}c"),
    Case(&[B, C, A, D], OK, "a\u{5D1}c\u{1F600}"),
    Case(&[B, C], OK, ""),
    Case(&[Erase((2, 1)), A, B, C, A], OK, "ac"),
    Case(
        &[A, B, REUSED, C],
        Err(Stopped {
            taken: 2,
            fault: TakeFault::IdentifierReused,
        }),
        "a\u{5D1}",
    ),
    Case(
        &[X, A, B, C, Erase((1, 1)), REUSED],
        Err(Stopped {
            taken: 5,
            fault: TakeFault::IdentifierReused,
        }),
        "x\u{5D1}c",
    ),
];

#[test]
fn operations_in_order_come_out(rt: HostRuntime) {
    assert_rows(&rt, &CASES);
}

//! What no clause says: that the calls answer for real desks.

use crate::desk_replica_tests::{Case, assert_cases};
use bg_types::{Id, Memory, Op, Place};
use desk_replica::{Replica, TakeFault};
use rga_tree::Sequence;

/// Counter and site.
type Name = (u32, u16);

fn id(of: Name) -> Option<Id> {
    Id::new(of.0, of.1)
}

fn behind(of: Name, above: Name, ch: char) -> Option<Op> {
    Op::insert(id(of)?, Place::After(id(above)?), ch)
}

/// The deletion of `x`, then `a`, `x` and `b` after it, `y` after `x`, and two that wait.
fn operations() -> Option<[Op; 7]> {
    Some([
        Op::erase(id((2, 2))?),
        Op::insert(id((1, 1))?, Place::Root, 'a')?,
        behind((2, 2), (1, 1), 'x')?,
        behind((3, 2), (2, 2), 'y')?,
        behind((2, 1), (1, 1), 'b')?,
        behind((5, 1), (4, 1), 'z')?,
        Op::erase(id((7, 3))?),
    ])
}

/// Lets a desk take them. A call that memory was refused to left the desk as it was, and is made again.
fn takes_all<S: Sequence>(desk: &mut Replica<S>) -> Option<()> {
    for op in operations()? {
        match desk.take(&op) {
            Err(TakeFault::Memory) => desk.take(&op).ok()?,
            answer => answer.ok()?,
        };
    }
    Some(())
}

fn places<S: Sequence>(desk: &Replica<S>) -> Option<bool> {
    let lines = [
        ((1, 1), Some(0)),
        ((2, 2), Some(1)),
        ((3, 2), Some(1)),
        ((2, 1), Some(2)),
        ((9, 9), None),
        ((5, 1), None),
        ((7, 3), None),
    ];
    let mut right = true;
    for (of, place) in lines {
        right = desk.place_of(id(of)?) == place && right;
    }
    Some(right)
}

/// The placed ones in the order of the walk, the deletion, and those that wait in either order.
fn lists<S: Sequence>(desk: &Replica<S>) -> Option<bool> {
    let [gone, a, x, y, b, early, unplaced] = operations()?;
    let late = [early, unplaced];
    let told = [[a, a], [x, x], [y, y], [b, b], [gone, gone], late, late];
    let ops = match desk.ops() {
        Err(Memory) => desk.ops().ok()?,
        Ok(ops) => ops,
    };
    let mut right = desk.op_count() == told.len() && ops.len() == told.len();
    for j in 0..desk.op_count() {
        let op = desk.op_at(j);
        right = told.get(j).is_some_and(|either| either.contains(&op)) && right;
        right = ops.get(j) == Some(&op) && right;
    }
    Some(right)
}

/// Whether an empty desk that takes them finds the places, and answers each operation.
pub(crate) fn reads<S: Sequence>(desk: &mut Replica<S>) -> bool {
    takes_all(desk).is_some() && places(desk) == Some(true) && lists(desk) == Some(true)
}

#[test]
fn finds_places_and_tells_each_operation(rt: HostRuntime) {
    assert_cases(&rt, &[Case::Reads]);
}

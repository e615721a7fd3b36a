//! What no clause says: that memory suffices, and which order and numbers come out.
//!
//! A refused growth must leave the store as it was, and the call is made again: so each test also passes
//! with any one allocation refused (`rt try --test --fail-alloc N`).

use crate::rows::assert_none;
use bg_types::{Id, Op, OpView, Place};
use pending_ops::Held;
use std::alloc::Global;

/// The identifier with this counter; odd and even counters are of two sites.
fn id(counter: u32) -> Option<Id> {
    Id::new(counter, if counter % 2 == 0 { 2 } else { 1 })
}

fn insertion(counter: u32, parent: u32) -> Option<Op> {
    Op::insert(id(counter)?, Place::After(id(parent)?), 'x')
}

fn erasure(target: u32) -> Option<Op> {
    Some(Op::erase(id(target)?))
}

/// What a caller can see of a store: the first of its operations, and their number.
#[derive(Clone, Copy, PartialEq)]
struct Seen {
    listed: [Option<Op>; 64],
    count: usize,
}

/// A store whose calls promise nothing, so that a test rests on what it sees.
#[derive(Drop)]
struct Store {
    held: Held,
}

impl Store {
    fn seen(&self) -> Seen {
        let mut listed = [None; 64];
        for (j, op) in listed.iter_mut().enumerate() {
            if j < self.held.count() {
                *op = Some(self.held.nth(j));
            }
        }
        Seen {
            listed,
            count: self.held.count(),
        }
    }

    /// Holds an operation, unless it or another insertion with its identifier is held.
    fn try_hold(&mut self, op: Op) -> bool {
        let is_new = match op.view() {
            OpView::Insert { id, .. } => self.held.insertion(id).is_none(),
            OpView::Erase { target } => !self.held.erased(target),
        };
        is_new && self.held.hold(op).is_ok()
    }

    /// Whether an operation is held at the first try.
    fn holds_paid(&mut self, op: Option<Op>) -> bool {
        match op {
            Some(op) => self.try_hold(op),
            None => false,
        }
    }

    /// Holds an operation, on a second try where the first one failed and changed nothing.
    fn hold(&mut self, op: Op) -> bool {
        let before = self.seen();
        if self.try_hold(op) {
            return true;
        }
        self.seen() == before && self.try_hold(op)
    }

    /// Holds the insertion with one counter right after that with another one.
    fn insert(&mut self, counter: u32, parent: u32) -> bool {
        match insertion(counter, parent) {
            Some(op) => self.hold(op),
            None => false,
        }
    }

    /// Makes room for three operations, on a second try where the first one failed.
    fn reserve(&mut self) -> bool {
        let before = self.seen();
        (self.held.reserve(3).is_ok() || self.held.reserve(3).is_ok())
            && self.seen() == before
            && self.held.room() == 3
    }

    fn erase(&mut self, target: u32) -> bool {
        match id(target) {
            Some(id) => self.hold(Op::erase(id)),
            None => false,
        }
    }

    /// Holds the insertions down to a first counter, each right after that with a counter smaller
    /// by `step`, or after the first one of all.
    fn insert_down(&mut self, last: u32, first: u32, step: u32) -> bool {
        let mut all = true;
        for counter in (first..=last).rev() {
            all = self.insert(counter, counter.saturating_sub(step).max(1)) && all;
        }
        all
    }

    fn below(&mut self, counter: u32) -> Option<usize> {
        Some(self.held.count_below(id(counter)?))
    }

    fn release(&mut self, counter: u32) {
        if let Some(id) = id(counter) {
            self.held.release_of(id);
        }
    }

    /// The counter of the next ready insertion.
    fn next(&mut self) -> Option<u32> {
        match self.held.next_ready()?.view() {
            OpView::Insert { id, .. } => Some(id.counter()),
            OpView::Erase { .. } => None,
        }
    }

    fn drop_erasure(&mut self, target: u32) -> bool {
        match id(target) {
            Some(id) => self.held.drop_erasure(id),
            None => false,
        }
    }

    /// How many places of the list hold an operation.
    fn times(&self, op: Option<Op>) -> usize {
        let mut times = 0usize;
        for j in 0..self.held.count() {
            if Some(self.held.nth(j)) == op {
                times = times.saturating_add(1);
            }
        }
        times
    }

    /// Takes the next one out, and releases what stands right after it.
    fn place(&mut self) -> Option<u32> {
        let counter = self.next()?;
        self.release(counter);
        Some(counter)
    }

    /// Whether the loop of a desk, once `root` is placed, places this many insertions, each with a
    /// counter greater by `step` than the one before, and no further one.
    fn places_row(&mut self, root: u32, step: u32, count: u32) -> bool {
        self.release(root);
        let mut last = root;
        let mut all = true;
        for _ in 0..count {
            last = last.saturating_add(step);
            all = self.place() == Some(last) && all;
        }
        all && self.place().is_none()
    }
}

/// Any key will do.
const KEY: u128 = 0x0123_4567_89ab_cdef;

fn empty_store(alloc: Global) -> Store {
    Store {
        held: Held::keyed(alloc, KEY),
    }
}

/// What room was made for is held at the first try.
fn paid_in_advance(store: &mut Store) -> bool {
    let mut all = store.reserve();
    for op in [erasure(2), insertion(3, 2), insertion(2, 1)] {
        all = store.holds_paid(op) && all;
    }
    all && store.held.room() == 0
        && store.insert(4, 3)
        && store.held.insertion_count() == 3
        && store.places_row(1, 1, 3)
        && store.drop_erasure(2)
}

/// A chain that came in reverse goes in order.
fn reversed_chain(store: &mut Store) -> bool {
    let mut all = store.insert_down(1000, 2, 1) && store.held.count() == 999;
    for (counter, below) in [(1, 999), (500, 500), (1000, 0)] {
        all = store.below(counter) == Some(below) && all;
    }
    all && store.places_row(1, 1, 999) && store.held.count() == 0
}

/// Each insertion of a bush is handed out once.
fn bush(store: &mut Store) -> bool {
    let mut all = store.insert_down(1001, 2, 1001)
        && store.below(1) == Some(1000)
        && store.below(2) == Some(0);
    store.release(1);
    let mut marks = [false; 1002];
    for _ in 0..1000 {
        let counter = store.place().unwrap_or(0) as usize;
        match marks.get_mut(counter) {
            Some(mark) => {
                all = !*mark && all;
                *mark = true;
            }
            None => all = false,
        }
    }
    all && store.place().is_none() && store.held.count() == 0
}

/// Of two chains whose insertions came by turns, the last ones first, one is released and then the other.
fn one_chain_of_two(store: &mut Store) -> bool {
    let mut all = store.insert_down(1000, 3, 2);
    for (root, left) in [(1, 499), (2, 0)] {
        all = store.below(root) == Some(499) && all;
        all = store.places_row(root, 2, 499) && all;
        all = store.below(root) == Some(0) && store.held.count() == left && all;
    }
    all
}

/// Of two such chains both are released at once.
fn both_chains_of_two(store: &mut Store) -> bool {
    let mut all = store.insert_down(1000, 3, 2);
    store.release(1);
    store.release(2);
    let (mut odd, mut even) = (1u32, 2u32);
    for _ in 0..998 {
        let counter = store.place().unwrap_or(0);
        let last = if counter % 2 == 1 {
            &mut odd
        } else {
            &mut even
        };
        *last = last.saturating_add(2);
        all = counter == *last && all;
    }
    all && odd == 999 && even == 1000 && store.held.count() == 0
}

/// A deletion waits with its insertion, each once.
fn deletion_and_insertion(store: &mut Store) -> bool {
    store.erase(2)
        && !store.erase(2)
        && store.insert(2, 1)
        && !store.insert(2, 1)
        && store.times(insertion(2, 1)) == 1
        && store.times(erasure(2)) == 1
        && store.places_row(1, 1, 1)
        && store.drop_erasure(2)
        && !store.drop_erasure(2)
}

/// Which rows come out, each of which leaves the store empty.
fn rows_of(store: &mut Store) -> [bool; 6] {
    [
        paid_in_advance(store),
        reversed_chain(store),
        bush(store),
        one_chain_of_two(store),
        both_chains_of_two(store),
        deletion_and_insertion(store),
    ]
}

/// The first row that does not come out of one store for all of them.
fn first_wrong(alloc: Global) -> Option<usize> {
    let mut store = empty_store(alloc);
    let rows = rows_of(&mut store);
    first_false(&rows)
}

fn first_false(rows: &[bool]) -> Option<usize> {
    for (n, right) in rows.iter().enumerate() {
        if !*right {
            return Some(n);
        }
    }
    None
}

#[test]
fn what_came_early_is_handed_out_once_in_order(rt: HostRuntime) {
    assert_none(&rt, "the rows", first_wrong(rt.alloc()));
}

//! Tables of rows that tests try: each comes out or not, and the first wrong one is found.
//!
//! A row that was refused memory is tried again: so each test also passes with any one allocation refused
//! (`rt try --test --fail-alloc N`).
#![tactic(auto)]

use bg_types::Memory;
use std::alloc::Global;

/// A row of a table of tests.
pub trait Row {
    /// Whether it comes out, or that a growth was refused.
    fn comes_out(&self, alloc: Global) -> Result<bool, Memory>;
}

/// Whether a row comes out, on a second try where memory was refused.
pub fn is_right<R: Row>(alloc: Global, row: &R) -> bool {
    match row.comes_out(alloc) {
        Err(Memory) => row.comes_out(alloc) == Ok(true),
        answer => answer == Ok(true),
    }
}

/// The number of the first row that does not come out, from 0.
pub fn first_wrong<R: Row>(alloc: Global, rows: &[R]) -> Option<usize> {
    rows.iter().position(|row| !is_right(alloc, row))
}

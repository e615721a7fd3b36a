//! Walks of steps by chance.

use crate::documents::small_tables;
use crate::walking::walk;
use bg_types::Memory;
use std::alloc::Global;

/// More paragraphs than a block of a buffer has.
const MANY: usize = 600;

const FEW: usize = 2;

/// How many steps a walk has.
const STEPS: usize = 40;

/// How far the walks of three seeds come in a text of so many paragraphs.
fn least(alloc: Global, paragraphs: usize) -> Result<usize, Memory> {
    let tables = small_tables(alloc)?;
    let first = walk(alloc, tables.clone()?, paragraphs, 3, STEPS)?;
    let second = walk(alloc, tables.clone()?, paragraphs, 4, STEPS)?;
    let third = walk(alloc, tables, paragraphs, 5, STEPS)?;
    Ok(first.min(second).min(third))
}

#[test]
fn each_window_is_a_stretch_of_the_whole_grid(rt: HostRuntime) -> Result<(), Memory> {
    let least = least(rt.alloc(), MANY)?;
    assert_eq!(rt; least, STEPS);
    Ok(())
}

#[test]
fn a_walk_in_a_short_text_is_right_or_says_memory(rt: HostRuntime) -> Result<(), Memory> {
    let least = least(rt.alloc(), FEW)?;
    assert_eq!(rt; least, STEPS);
    Ok(())
}

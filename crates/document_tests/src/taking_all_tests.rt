//! A document takes the operations of another desk at once.

use crate::documents::{document_of, sent, small_tables};
use bg_types::{Id, Memory, Op, Place};
use desk_replica::TakeFault;
use std::alloc::Global;

/// An insertion with the identifier of that desk's first one, of another character.
fn reused() -> Result<Op, Memory> {
    let id = Id::new(1, 2).ok_or(Memory)?;
    Op::insert(id, Place::Root, 'x').ok_or(Memory)
}

/// What a document was left with: how many operations it took, why it took no more, how many changes it told, and how many
/// rows it shows.
type Left = (usize, Option<TakeFault>, usize, usize);

/// Lets a document that shows a window take operations, which end with this text.
fn take_all(alloc: Global, ops: &[Op], text: &str) -> Result<Left, Memory> {
    let mut document = document_of(alloc, small_tables(alloc)?, 17, "")?;
    document.show(0, 9, 9)?;
    let mut changes = Vec::new(alloc);
    let outcome = document.take_all(ops, &mut changes);
    document.show(0, 9, 9)?;
    if !outcome.told || document.text()?.as_str() != text {
        return Err(Memory);
    }
    let rows = document.window().len();
    Ok((outcome.taken, outcome.fault, changes.len(), rows))
}

fn burst(alloc: Global) -> Result<Left, Memory> {
    take_all(alloc, &sent(alloc, "ab\ncd")?, "ab\ncd")
}

fn burst_with_a_refused_one(alloc: Global) -> Result<Left, Memory> {
    let mut ops = sent(alloc, "ab\ncd")?;
    ops.insert(2.min(ops.len()), reused()?)?;
    take_all(alloc, &ops, "ab")
}

#[test]
fn bursts_are_taken_up_to_a_refused_operation(rt: HostRuntime) -> Result<(), Memory> {
    let whole = burst(rt.alloc())?;
    assert_eq!(rt; whole, (5, None, 5, 2));
    let broken = burst_with_a_refused_one(rt.alloc())?;
    assert_eq!(rt; broken, (2, Some(TakeFault::IdentifierReused), 2, 1));
    Ok(())
}

//! Operations as rows of a table.

use bg_types::{Id, Memory, Op, Place};
use std::alloc::Global;

/// Counter and site.
pub(crate) type Name = (u32, u16);

/// An insertion with its parent, (0, 0) for the root, or a deletion.
#[derive(Clone, Copy)]
pub(crate) enum OpRow {
    Insert(Name, Name, char),
    Erase(Name),
}

fn place_of(name: Name) -> Place {
    match Id::new(name.0, name.1) {
        Some(id) => Place::After(id),
        None => Place::Root,
    }
}

pub(crate) fn op(row: OpRow) -> Option<Op> {
    match row {
        OpRow::Insert(name, parent, ch) => Op::insert(
            Id::new(name.0, name.1)?,
            place_of(parent),
            ch,
        ),
        OpRow::Erase(name) => Some(Op::erase(Id::new(name.0, name.1)?)),
    }
}

/// The operations of rows, but for those that are not well formed.
pub(crate) fn ops_of(alloc: Global, rows: &[OpRow]) -> Result<Vec<Op>, Memory> {
    let mut ops = Vec::new(alloc);
    for row in rows {
        if let Some(op) = op(*row) {
            ops.push(op)?;
        }
    }
    Ok(ops)
}

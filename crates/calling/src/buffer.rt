//! An editor's own buffer, which follows what a desk tells.

ghost use Rattle.std.specs.Prelude.{◌≡◌, ℕ, List, OnOk};
ghost use Rattle.bg_types.specs.Edit.{IsEdit, IsInRange, changed};
ghost use Rattle.rga_tree.specs.TextOf.{text};

use crate::desks::Desk;
use crate::fault::Fault;
use bg_types::{Change, Op};
use desk_replica::laws;
use std::alloc::Global;

/// Makes one change in a buffer, a plain list of characters.
pub fn follow(buffer: &mut Vec<char>, change: Change) -> Result<(), Fault>
    requires { IsInRange buffer.old.items change }
    ensures { OnOk result (buffer.new.items ≡ changed buffer.old.items change) }
{
    match change {
        Change::Put { place, ch } => buffer.insert(place, ch)?,
        Change::Cut { place } => {
            buffer.remove(place);
        }
    }
    Ok(())
}

/// Makes changes one after the other, which lead from the buffer's characters to others.
pub fn follow_all(buffer: &mut Vec<char>, changes: &[Change]) -> Result<(), Fault>
    requires { (new : List ℕ) × IsEdit buffer.old.items changes.now new }
    ensures { OnOk result (IsEdit buffer.old.items changes.now buffer.new.items) }
{
    for n in 0..changes.len() {
        follow(buffer, changes[n])?;
    }
    Ok(())
}

/// Lets a desk take operations, and a buffer that has its text follow: it has the new text then, and
/// nobody has read that as a whole. After a fault the buffer may be behind, and is to be read anew.
pub fn take_into(
    alloc: Global,
    desk: &mut Desk,
    ops: &[Op],
    buffer: &mut Vec<char>,
) -> Result<(), Fault>
    requires { buffer.old.items ≡ text desk.old.set }
    ensures { OnOk result (buffer.new.items ≡ text desk.new.set) }
{
    laws::told_changes();
    let mut changes = Vec::new(alloc);
    for op in ops {
        desk.take_telling(op, &mut changes)?;
    }
    follow_all(buffer, &changes)
}

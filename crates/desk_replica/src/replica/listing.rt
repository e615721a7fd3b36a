//! All operations of a desk, as one list.

ghost use Rattle.std.specs.Prelude.{◌≡◌, ◌++◌, IfOk, OnOk};
ghost use Rattle.std.specs.List.{All};
ghost use Rattle.bg_types.specs.OperationSet.{size};
ghost use Rattle.bg_types.specs.WellFormed.{MayFollow};
ghost use Rattle.rga_tree.specs.Elements.{elements};
ghost use Rattle.pending_ops.specs.Waiting.{ListsOnce};
ghost use Rattle.desk_replica.specs.Placement.{waiting_in};
ghost use Rattle.desk_replica.specs.Listed.{listed, insertions_in, deletions_in};

use super::Replica;
use crate::placing::count_waiting;
use crate::reading::insertion_of;
use bg_types::{Memory, Op};
use pending_ops::Held;
use rga_tree::{Element, Sequence, Unpacked};

impl<S: Sequence> Replica<S> {
    /// All operations, each once, in the order of `op_at`. Memory is
    /// taken once.
    /// Cost: O(n) of the operations, memory for them.
    pub fn ops(&self) -> Result<Vec<Op>, Memory>
        ensures listed { IfOk result (λ ops. ops.items ≡ listed self.now) }
        ensures each_once { OnOk result (ListsOnce self.now.set (listed self.now)) }
    {
        let waiting = count_waiting(&self.held);
        let mut ops = Vec::with_capacity(self.alloc, self.kept as usize)?;
        push_insertions(&self.seq, &mut ops)?;
        push_deletions(&self.seq, &mut ops)?;
        push_waiting(&self.held, waiting, &mut ops)?;
        Ok(ops)
    }
}

/// Appends the insertions that made the elements. They are read part after part, since `nth` of each
/// may cost more than reading it.
fn push_insertions<S: Sequence>(seq: &S, ops: &mut Vec<Op>) -> Result<(), Memory>
    ensures { OnOk result (ops.new.items ≡ ops.old.items ++ insertions_in (elements (S.content seq.now))) }
{
    let mut unpacked = Unpacked::new();
    for p in 0..seq.part_count() {
        push_row(seq.part(p, &mut unpacked), ops)?;
    }
    Ok(())
}

fn push_row(row: &[Element], ops: &mut Vec<Op>) -> Result<(), Memory>
    requires { All (λ e. MayFollow e.parent e.id) row.now }
    ensures { OnOk result (ops.new.items ≡ ops.old.items ++ insertions_in row.now) }
{
    for e in row {
        ops.push(insertion_of(e))?;
    }
    Ok(())
}

/// Appends the deletions of the hidden elements.
fn push_deletions<S: Sequence>(seq: &S, ops: &mut Vec<Op>) -> Result<(), Memory>
    ensures { OnOk result (ops.new.items ≡ ops.old.items ++ deletions_in (elements (S.content seq.now))) }
{
    let mut unpacked = Unpacked::new();
    for p in 0..seq.part_count() {
        push_hidden(seq.part(p, &mut unpacked), ops)?;
    }
    Ok(())
}

fn push_hidden(row: &[Element], ops: &mut Vec<Op>) -> Result<(), Memory>
    ensures { OnOk result (ops.new.items ≡ ops.old.items ++ deletions_in row.now) }
{
    for e in row {
        if e.hidden {
            ops.push(Op::erase(e.id))?;
        }
    }
    Ok(())
}

/// Appends those that wait, of which there are `count`.
fn push_waiting(held: &Held, count: usize, ops: &mut Vec<Op>) -> Result<(), Memory>
    requires { count ≡ size held.now.held }
    ensures { OnOk result (ops.new.items ≡ ops.old.items ++ waiting_in held.now) }
{
    for j in 0..count {
        ops.push(held.nth(j))?;
    }
    Ok(())
}

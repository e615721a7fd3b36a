//! Taking operations in order.

ghost use Rattle.std.specs.Prelude.{◌≡◌, ◌≤◌, ◌<◌, OnOk, OnErr, IfOk, IfErr, length};
ghost use Rattle.bg_types.specs.OperationSet.{size};
ghost use Rattle.desk_replica.specs.Taking.{AreTaken, IsRefusedNext};

use super::{MOST_OPERATIONS, Replica};
use crate::answer::{Stopped, TakeFault};
use crate::run::place_in_front;
use bg_types::Op;
use rga_tree::Sequence;

impl<S: Sequence> Replica<S> {
    /// Takes operations in order, as `take` does each, up to the first that is refused: those before it stay taken.
    /// Cost: that of `take` for each, memory likewise; insertions that a site typed in one go, under counters behind all that
    /// are named, are placed 64 at a time, by one `Sequence::place_run`.
    pub fn take_all(&mut self, ops: &[Op]) -> Result<(), Stopped>
        ensures ok { OnOk result (AreTaken self.old ops.now (length ops.now) self.new) }
        ensures stopped { IfErr result (λ stop. AreTaken self.old ops.now stop.taken self.new) }
        ensures fault { IfErr result (λ stop. IsRefusedNext self.new ops.now stop.taken stop.fault) }
        ensures limited { size self.new.set ≤ 1_000_000 }
    {
        // Reading the count shows the proof that the desk is within its limit.
        let _kept = self.op_count();
        let mut taken = 0;
        while taken < ops.len() {
            match self.take_some(&ops[taken..]) {
                Ok(more) => taken += more,
                Err(fault) => return Err(Stopped { taken, fault }),
            }
        }
        Ok(())
    }

    /// Takes the run in front of a list, or else the operation there, and returns how many operations that is.
    fn take_some(&mut self, ops: &[Op]) -> Result<usize, TakeFault>
        requires some { 0 < length ops.now }
        ensures some { IfOk result (λ n. 0 < n) }
        ensures ok { IfOk result (λ n. AreTaken self.old ops.now n self.new) }
        ensures err { OnErr result (self.new ≡ self.old) }
        ensures fault { IfErr result (IsRefusedNext self.old ops.now 0) }
        ensures limited { OnOk result (size self.new.set ≤ 1_000_000) }
    {
        let run = self.take_run(ops);
        if run > 0 {
            return Ok(run);
        }
        self.take(&ops[0])?;
        Ok(1)
    }

    /// Takes the run in front of a list, at most a piece of it, as far as the desk has room, and returns how many operations
    /// that is.
    fn take_run(&mut self, ops: &[Op]) -> usize
        ensures taken { AreTaken self.old ops.now result self.new }
        ensures limited { size self.new.set ≤ 1_000_000 }
    {
        let room = (MOST_OPERATIONS - self.kept) as usize;
        let run = place_in_front(
            &mut self.seq,
            &self.held,
            &mut self.spare,
            self.greatest,
            &ops[..ops.len().min(room)],
        );
        self.kept += run as u32;
        self.greatest += run as u32;
        run
    }
}

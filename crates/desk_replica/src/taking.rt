//! Desks of a list, which take operations and what the others have. They count from 0.

ghost use Rattle.std.specs.Prelude.{◌≡◌, ◌≢◌, ◌⊎◌, ◌<◌, ◌+◌, OnOk, OnErr, IfOk, IfErr, length};
ghost use Rattle.bg_types.specs.OperationSet.{size};
ghost use Rattle.desk_replica.specs.declared.answer.TakeFault.{TakeFault as Fault};
ghost use Rattle.desk_replica.specs.Merging.{IsMerge};
ghost use Rattle.desk_replica.specs.DeskSets.{takes, merges, sets_of, set_at, sites_of, sets_after_step, IsStepRefused, IsTakeAt, IsMergeAt, LeavesMerged};

use crate::answer::{TakeFault, Taken};
use crate::replica::Replica;
use bg_types::Op;
use rga_tree::Sequence;

/// Lets a desk take an operation, and returns what became of it. A fault changes nothing.
/// Cost: that of `take`, memory too.
pub fn take_at<S: Sequence>(
    desks: &mut [Replica<S>],
    desk: usize,
    op: &Op,
) -> Result<Taken, TakeFault>
    requires { desk < length desks.old }
    ensures ok { OnOk result (sets_of desks.new ≡ sets_after_step (sets_of desks.old) (takes desk op.now)) }
    ensures accepted { OnOk result ((fault : Fault) → ¬ (IsStepRefused (sets_of desks.old) (takes desk op.now) fault)) }
    ensures fault { IfErr result (λ fault. (fault ≡ TakeFault.Memory) ⊎ IsStepRefused (sets_of desks.old) (takes desk op.now) fault) }
    ensures err { OnErr result (desks.new ≡ desks.old) }
    ensures sites { sites_of desks.new ≡ sites_of desks.old }
    // Its answer is that of `take`, and the other desks are as they were.
    ensures taken { IsTakeAt desks.old desks.new desk op.now result }
{
    desks[desk].take(op)
}

/// Lets a desk take all that another one has, and returns how many operations were new. A desk
/// that meets itself stays as it is. After `IdentifierReused` nothing has changed; after `Full` or
/// `Memory` some of them are taken.
/// Cost: that of `merge`, memory too.
pub fn merge_at<S: Sequence>(
    desks: &mut [Replica<S>],
    desk: usize,
    from: usize,
) -> Result<u32, TakeFault>
    requires desk { desk < length desks.old }
    requires from { from < length desks.old }
    ensures ok { OnOk result (sets_of desks.new ≡ sets_after_step (sets_of desks.old) (merges desk from)) }
    ensures count { IfOk result (λ n. size (set_at (sets_of desks.new) desk) ≡ size (set_at (sets_of desks.old) desk) + n) }
    ensures accepted { OnOk result ((fault : Fault) → ¬ (IsStepRefused (sets_of desks.old) (merges desk from) fault)) }
    ensures fault { IfErr result (λ fault. (fault ≡ TakeFault.Memory) ⊎ IsStepRefused (sets_of desks.old) (merges desk from) fault) }
    ensures left { IfErr result (LeavesMerged (sets_of desks.old) (sets_of desks.new) desk from) }
    ensures sites { sites_of desks.new ≡ sites_of desks.old }
    ensures itself { desk ≡ from → desks.new ≡ desks.old }
    // Its answer is that of `merge`, and the other desks are as they were.
    ensures met { IsMergeAt desks.old desks.new desk from result }
{
    if desk == from {
        // Reading the count shows the proof that the desk is within its limit.
        let _kept = desks[desk].op_count();
        return Ok(0);
    }
    meet_another(desks, desk, from)
}

/// A desk meets another one of the list.
fn meet_another<S: Sequence>(
    desks: &mut [Replica<S>],
    desk: usize,
    from: usize,
) -> Result<u32, TakeFault>
    requires desk { desk < length desks.old }
    requires from { from < length desks.old }
    requires apart { desk ≢ from }
    ensures { IsMergeAt desks.old desks.new desk from result }
{
    if desk < from {
        let (front, back) = desks.split_at_mut(from);
        return meet(&mut front[desk], &back[0]);
    }
    let (front, back) = desks.split_at_mut(desk);
    meet(&mut back[0], &front[from])
}

/// A desk takes all that another one has.
fn meet<S: Sequence>(desk: &mut Replica<S>, other: &Replica<S>) -> Result<u32, TakeFault>
    ensures { IsMerge desk.old other.now desk.new result }
{
    desk.merge(other)
}

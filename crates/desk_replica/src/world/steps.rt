//! The steps of a world, done one after the other.

ghost use Rattle.std.specs.Prelude.{◌≡◌, ◌≢◌, ◌<◌, IfOk, OnErr};
ghost use Rattle.desk_replica.specs.Codes.{take_code};
ghost use Rattle.desk_replica.specs.WorldRun.{DoStep, DoSteps, IsReplied};

use super::step::{Reply, Step};
use crate::answer::{TakeFault, TypeFault};
use crate::replica::Replica;
use crate::taking::{merge_at, take_at};
use bg_types::{Memory, Op};
use rga_tree::Sequence;
use std::alloc::Global;

/// Does steps in order, adds the operations that they make to those made before, and returns what
/// became of each.
pub fn do_steps<S: Sequence>(
    alloc: Global,
    desks: &mut [Replica<S>],
    made: &mut Vec<Op>,
    steps: &[Step],
) -> Result<Vec<Reply>, Memory>
    ensures { IfOk result (λ replies. DoSteps desks.old made.old.items steps.now desks.new made.new.items replies.items) }
{
    let mut replies = Vec::with_capacity(alloc, steps.len())?;
    for step in steps {
        let reply = do_step(desks, made, *step)?;
        replies.push(reply)?;
    }
    Ok(replies)
}

/// Does one step.
fn do_step<S: Sequence>(
    desks: &mut [Replica<S>],
    made: &mut Vec<Op>,
    step: Step,
) -> Result<Reply, Memory>
    ensures { IfOk result (DoStep desks.old made.old.items step desks.new made.new.items) }
{
    match step {
        Step::Typed { desk, place, ch } => type_char(desks, made, desk, place, ch),
        Step::Erase { desk, place } => erase(desks, made, desk, place),
        Step::Deliver { desk, op } => deliver(desks, made, desk, op),
        Step::Merge { desk, from } => merge(desks, made, desk, from),
    }
}

/// A desk types a character.
fn type_char<S: Sequence>(
    desks: &mut [Replica<S>],
    made: &mut Vec<Op>,
    desk: usize,
    place: usize,
    ch: char,
) -> Result<Reply, Memory>
    ensures { IfOk result (DoStep desks.old made.old.items (Step.Typed desk place ch) desks.new made.new.items) }
{
    if desk >= desks.len() || place > desks[desk].len() {
        return Ok(Reply::NoSuch);
    }
    typing_reply(made, desks[desk].type_char(place, ch))
}

/// A desk erases a character.
fn erase<S: Sequence>(
    desks: &mut [Replica<S>],
    made: &mut Vec<Op>,
    desk: usize,
    place: usize,
) -> Result<Reply, Memory>
    ensures { IfOk result (DoStep desks.old made.old.items (Step.Erase desk place) desks.new made.new.items) }
{
    if desk >= desks.len() || place >= desks[desk].len() {
        return Ok(Reply::NoSuch);
    }
    typing_reply(made, desks[desk].erase_at(place))
}

/// A desk takes an operation that some desk made.
fn deliver<S: Sequence>(
    desks: &mut [Replica<S>],
    made: &[Op],
    desk: usize,
    op: usize,
) -> Result<Reply, Memory>
    ensures { IfOk result (DoStep desks.old made.now (Step.Deliver desk op) desks.new made.now) }
{
    if desk >= desks.len() || op >= made.len() {
        return Ok(Reply::NoSuch);
    }
    match take_at(desks, desk, &made[op]) {
        Ok(_) => Ok(Reply::Done),
        Err(fault) => taking_refused(fault),
    }
}

/// A desk takes all that another one has.
fn merge<S: Sequence>(
    desks: &mut [Replica<S>],
    made: &[Op],
    desk: usize,
    from: usize,
) -> Result<Reply, Memory>
    ensures { IfOk result (DoStep desks.old made.now (Step.Merge desk from) desks.new made.now) }
{
    if desk >= desks.len() || from >= desks.len() {
        return Ok(Reply::NoSuch);
    }
    match merge_at(desks, desk, from) {
        Ok(_) => Ok(Reply::Done),
        Err(fault) => taking_refused(fault),
    }
}

/// The reply to what a desk refused to take. Lack of memory is no reply.
fn taking_refused(fault: TakeFault) -> Result<Reply, Memory>
    ensures reply { IfOk result (λ reply. (reply ≡ Reply.Refused (take_code fault)) × (fault ≢ TakeFault.Memory)) }
    ensures err { OnErr result (fault ≡ TakeFault.Memory) }
{
    match fault {
        TakeFault::Memory => Err(Memory),
        TakeFault::IdentifierReused | TakeFault::Full => Ok(Reply::Refused(fault.code())),
    }
}

/// The reply to what a desk made, which is added to the operations made before, or refused to make. Lack of memory is no
/// reply.
fn typing_reply(made: &mut Vec<Op>, answer: Result<Op, TypeFault>) -> Result<Reply, Memory>
    ensures { IfOk result (IsReplied answer made.old.items made.new.items) }
{
    match answer {
        Ok(op) => {
            made.push(op)?;
            Ok(Reply::Done)
        }
        Err(TypeFault::Memory) => Err(Memory),
        Err(fault) => Ok(Reply::Refused(fault.code())),
    }
}

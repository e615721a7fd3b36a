//! Operations gathered into frames of version 2.

ghost use Rattle.std.specs.Prelude.{◌≡◌, ◌≤◌, [], ◌∷◌, ◌++◌, length, take, drop, IfSome, IfNone};
ghost use Rattle.std.specs.List.{AllByRecursion};
ghost use Rattle.bg_types.specs.WellFormed.{IsWellFormed};
ghost use Rattle.op_codec.specs.Spelling.{frames_of};
ghost use Rattle.op_codec.specs.Frames.{IsFrame};
ghost use Rattle.op_codec.specs.Gathering.{inserted_characters};

use crate::format::MOST_FURTHER;
use crate::run::{inserted, joins};
use bg_types::Op;

/// The operations of one frame, and those after it.
#[derive(Drop)]
pub struct Gathered<'a> {
    pub first: Op,
    /// The insertions that a run has after it.
    pub further: &'a [Op],
    /// The operations after the frame.
    pub rest: &'a [Op],
}

/// The operations of the first frame.
pub fn gather(ops: &[Op]) -> Option<Gathered<'_>>
    ensures none { IfNone result (ops.now ≡ []) }
    ensures first { IfSome result (λ g. frames_of 1024 ops.now ≡ (record { first = g.first; further = inserted_characters g.further.now }) ∷ frames_of 1024 g.rest.now) }
    ensures ops { IfSome result (λ g. ops.now ≡ g.first ∷ g.further.now ++ g.rest.now) }
    ensures is_frame { IfSome result (λ g. IsFrame 1024 (record { first = g.first; further = inserted_characters g.further.now })) }
    ensures insertions { IfSome result (λ g. length (inserted_characters g.further.now) ≡ length g.further.now) }
    ensures well_formed { IfSome result (λ g. AllByRecursion IsWellFormed g.further.now) }
{
    let (first, later) = ops.split_first()?;
    let count = further_len(first, later);
    Some(Gathered {
        first: *first,
        further: &later[..count],
        rest: &later[count..],
    })
}

/// How many of the operations at the front are further insertions of the run of this first one.
fn further_len(first: &Op, ops: &[Op]) -> usize
    ensures within { result ≤ length ops.now }
    ensures frames { frames_of 1024 (first.now ∷ ops.now) ≡ (record { first = first.now; further = inserted_characters (take result ops.now) }) ∷ frames_of 1024 (drop result ops.now) }
    ensures is_frame { IsFrame 1024 (record { first = first.now; further = inserted_characters (take result ops.now) }) }
    ensures insertions { length (inserted_characters (take result ops.now)) ≡ result }
    ensures well_formed { AllByRecursion IsWellFormed (take result ops.now) }
{
    let mut tip = inserted(first);
    for (count, op) in ops.iter().enumerate() {
        if count == MOST_FURTHER || !joins(&tip, op) {
            return count;
        }
        tip = inserted(op);
    }
    ops.len()
}

//! Runs in front of a list: insertions that one site typed in one go, which are placed at once.

ghost use Rattle.std.specs.Prelude.{◌≡◌, ◌≤◌, ◌<◌, ◌+◌, ◌-◌, ◌*◌, ◌^◌, All, length, take};
ghost use Rattle.std.specs.Bool.{OnTrue};
ghost use Rattle.std.specs.FinMap as map;
ghost use Rattle.std.specs.Str.{chars, IsUtf8};
ghost use Rattle.bg_types.specs.OperationSet.{next};
ghost use Rattle.bg_types.specs.WellFormed.{IsWellFormed};
ghost use Rattle.rga_tree.specs.Run.{insertions, with_operations};
ghost use Rattle.desk_replica.specs.Placement.{IsPaid};
ghost use Rattle.desk_replica.specs.Taking.{IsRunInFront};

use crate::placing::stands;
use crate::stretching::pay_for_typed;
use bg_types::{Id, Op, OpView, Place};
use pending_ops::Held;
use rga_tree::{Sequence, put_char};
use std::str::from_utf8_unchecked;

/// How many operations of a run are placed at once.
const PIECE: usize = 64;

/// The bytes that their characters take at most.
const PIECE_BYTES: usize = 4 * PIECE;

/// Places the run in front of a list, at most a piece of it, and returns how many operations that is: none where the first
/// one isn't an insertion under the counter behind the greatest, below what is placed, or where memory is refused.
pub fn place_in_front<S: Sequence>(
    seq: &mut S,
    held: &Held,
    spare: &mut usize,
    greatest: u32,
    ops: &[Op],
) -> usize
    requires few { map.len held.now.held.ins ≤ 1_000_000 }
    requires paid { IsPaid (S.free seq.old) held.now spare.old }
    requires greatest { next (S.content seq.old) ≤ greatest + 1 }
    ensures within { result ≤ length ops.now }
    ensures run { IsRunInFront (S.content seq.old) greatest ops.now result }
    ensures counters { greatest + result < 2 ^ 32 }
    ensures content { S.content seq.new ≡ with_operations (S.content seq.old) (take result ops.now) }
    ensures paid { IsPaid (S.free seq.new) held.now spare.new }
    ensures spare { spare.new ≡ spare.old - result }
{
    let Some(op) = ops.first() else {
        return 0;
    };
    let OpView::Insert { id, parent, .. } = op.view() else {
        return 0;
    };
    if id.counter() - 1 != greatest || !stands(seq, &parent) {
        return 0;
    }
    let mut bytes = [0; PIECE_BYTES];
    let (count, end) = gather(id, &parent, &ops[..ops.len().min(PIECE)], &mut bytes);
    if pay_for_typed(seq, held, spare, count).is_err() {
        return 0;
    }
    // That they are UTF-8 is proved: this call's `requires` asks for it, as any other call's.
    let characters = unsafe { from_utf8_unchecked(&bytes[..end]) };
    seq.place_run(id, parent, characters);
    count
}

/// Puts the characters of the run in front of a list that begins with this identifier and this parent to the front of these
/// bytes. Answers how many those are, and where their bytes end.
fn gather(first: Id, front: &Place, ops: &[Op], bytes: &mut [u8]) -> (usize, usize)
    requires { 4 * length ops.now ≤ length bytes.old }
    ensures within { result.0 ≤ length ops.now }
    ensures end { result.1 ≤ length bytes.new }
    ensures utf8 { IsUtf8 (take result.1 bytes.new) }
    ensures run { take result.0 ops.now ≡ insertions first front.now (chars (take result.1 bytes.new)) }
    ensures count { length (chars (take result.1 bytes.new)) ≡ result.0 }
    ensures well_formed { All IsWellFormed (take result.0 ops.now) }
{
    let mut counter = first.counter() - 1;
    let mut parent = *front;
    let mut end = 0;
    for (count, op) in ops.iter().enumerate() {
        match op.view() {
            OpView::Insert {
                id,
                parent: above,
                ch,
            } => {
                if above != parent || !is_next(id, first.site(), counter) {
                    return (count, end);
                }
                end = put_char(ch, bytes, end);
                counter = id.counter();
                parent = Place::After(id);
            }
            OpView::Erase { .. } => return (count, end),
        }
    }
    (ops.len(), end)
}

/// Whether this is the identifier that a site draws behind this counter.
#[inline(always)]
fn is_next(id: Id, site: u16, counter: u32) -> bool
    ensures { OnTrue result (id ≡ record { counter = counter + 1; site = site }) }
{
    id.counter() - 1 == counter && id.site() == site
}

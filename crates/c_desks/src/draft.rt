//! A message in the making.

ghost use Rattle.std.specs.Prelude.{◌≡◌, ◌<◌, ◌≤◌, ◌+◌, ◌-◌, ◌*◌, ◌++◌, [], length, IfOk, vec_len};
ghost use Rattle.std.specs.List.{flat_map};
ghost use Rattle.std.specs.Str.{chars};
ghost use Rattle.std.specs.Vec.{vec_capacity};
ghost use Rattle.op_codec.specs.Spelling.{frame, spelling};
ghost use Rattle.c_answers.specs.Copying.{IsCopied};
ghost use Rattle.c_desks.specs.Desks.{HasRoomFor, IsRefusedExchange};

use crate::desk::{Desk, MOST_KEPT};
use bg_types::{Memory, Op};
use c_answers::{BAD_PLACE, FULL, OK, SHORT_BUFFER, copy_out};
use op_codec::{encode_file, encode_op};
use std::alloc::Global;

/// How many bytes a message has before its operations.
const HEADER: usize = 5;

/// How many bytes a deletion has in a message.
const ERASURE: usize = 9;

/// How many bytes an insertion has in a message.
const INSERTION: usize = 19;

/// A message of nothing yet, and the list of the operations that it will have. Both have the room before an operation is
/// made, so that nothing is left to refuse then.
#[derive(Drop)]
pub struct Draft {
    pub message: Vec<u8>,
    pub ops: Vec<Op>,
}

impl Draft {
    /// A draft with room for so many operations.
    pub fn of(alloc: Global, count: usize) -> Result<Draft, Memory>
        requires { count ≤ 1_000_000 }
        ensures message { IfOk result (λ draft. draft.message.items ≡ spelling []) }
        ensures bytes { IfOk result (λ draft. vec_len draft.message + 19 * count ≤ vec_capacity draft.message) }
        ensures ops { IfOk result (λ draft. draft.ops.items ≡ []) }
        ensures room { IfOk result (λ draft. count ≤ vec_capacity draft.ops) }
    {
        let mut message = encode_file(alloc, &[])?;
        message.reserve(INSERTION * count)?;
        let ops = Vec::with_capacity(alloc, count)?;
        Ok(Draft { message, ops })
    }

    /// Writes the message of its operations to the front of a buffer, which has room for it.
    pub fn write(&mut self, out: &mut [u8], size: &mut usize)
        requires message { self.old.message.items ≡ spelling [] }
        requires bytes { vec_len self.old.message + 19 * length self.old.ops.items ≤ vec_capacity self.old.message }
        requires room { length (spelling self.old.ops.items) ≤ length out.old }
        ensures { IsCopied (spelling self.old.ops.items) out.old out.new size.new 0 }
    {
        add_each(&self.ops, &mut self.message);
        let _written = copy_out(&self.message, out, size);
    }
}

/// Adds operations to a message, which has room for them.
fn add_each(ops: &[Op], message: &mut Vec<u8>)
    requires { vec_len message.old + 19 * length ops.now ≤ vec_capacity message.old }
    ensures { message.new.items ≡ message.old.items ++ flat_map frame ops.now }
{
    for op in ops {
        encode_op(op, message).unwrap();
    }
}

/// What refuses to erase the characters from one place up to another and to type so many, with a buffer of so many bytes: the
/// number of the fault, or 0. How many bytes are wanted is answered where the buffer is too short.
pub fn refusal_of(
    desk: &Desk,
    from: usize,
    to: usize,
    typed: usize,
    room: usize,
    wanted: &mut usize,
) -> u32
    ensures ok { result ≡ 0 → HasRoomFor desk.now from to typed room }
    ensures wanted { (result ≡ 102 → ⊥) → wanted.new ≡ 0 }
    ensures fault { (result ≡ 0 → ⊥) → IsRefusedExchange desk.now from to typed room wanted.new result }
{
    *wanted = 0;
    if from > to || to > desk.len() {
        return BAD_PLACE;
    }
    let erased = to - from;
    let left = MOST_KEPT - desk.op_count();
    if erased > left || typed > left - erased {
        return FULL;
    }
    let size = HEADER + ERASURE * erased + INSERTION * typed;
    if room < size {
        *wanted = size;
        return SHORT_BUFFER;
    }
    OK
}

/// How many code points a text has.
pub fn code_points(text: &str) -> usize
    ensures { result ≡ length (chars text.now) }
{
    text.chars().count()
}

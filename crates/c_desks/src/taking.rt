//! Taking messages.

ghost use Rattle.std.specs.Prelude.{◌≡◌, ◌<◌, vec_len, IfOk, IfErr, MatchResult};
ghost use Rattle.op_codec.specs.Spelling.{Spells};
ghost use Rattle.c_desks.specs.Numbers.{none_taken};
ghost use Rattle.c_desks.specs.Desks.{IsMessageTaken, IsUnread, IsTooLong};

use crate::desk::Desk;
use crate::fault::{message_number, take_number};
use crate::numbers::{Taken, none_taken};
use bg_types::Op;
use c_answers::{MESSAGE_TOO_LONG, OK};
use op_codec::{LONGEST_FILE, decode_file};
use std::alloc::Global;

/// Lets a desk take a message: its bytes are read whole first, and then its operations are taken in order, up to the first that the desk
/// refuses.
pub fn take_in(alloc: Global, desk: &mut Desk, bytes: &[u8], taken: &mut Taken) -> u32
    ensures taken { IsMessageTaken desk.old bytes.now desk.new taken.new result }
    ensures too_long { IsTooLong bytes.now → result ≡ 116 }
{
    let ops = match read_message(alloc, bytes, taken) {
        Ok(ops) => ops,
        Err(fault) => return fault,
    };
    match desk.take_all(&ops) {
        Ok(()) => {
            taken.taken = ops.len();
            OK
        }
        Err(stop) => {
            taken.taken = stop.taken;
            take_number(stop.fault)
        }
    }
}

/// The operations of a message, of which none counts as taken yet; or the number of its fault, which is written.
pub fn read_message(alloc: Global, bytes: &[u8], taken: &mut Taken) -> Result<Vec<Op>, u32>
    ensures ok { IfOk result (λ ops. Spells bytes.now ops.items) }
    ensures written { IfOk result (λ ops. taken.new ≡ record { operations = vec_len ops; taken = 0; frame = 0 }) }
    ensures fault { IfErr result (IsUnread bytes.now taken.new) }
    ensures some { IfErr result (λ fault. 0 < fault) }
    ensures too_long { IsTooLong bytes.now → MatchResult result (λ _. ⊥) (λ fault. fault ≡ 116) }
{
    if bytes.len() > LONGEST_FILE {
        *taken = none_taken(0);
        return Err(MESSAGE_TOO_LONG);
    }
    match decode_file(alloc, bytes) {
        Ok(ops) => {
            *taken = Taken {
                operations: ops.len(),
                taken: 0,
                frame: 0,
            };
            Ok(ops)
        }
        Err(fault) => {
            *taken = none_taken(fault.frame().unwrap_or(0));
            Err(message_number(fault))
        }
    }
}

//! Taking messages.

ghost use Rattle.std.specs.Prelude.{◌≡◌, None};
ghost use Rattle.std.specs.Option.{IfSome};
ghost use Rattle.c_desks.specs.Numbers.{none_taken};
ghost use Rattle.c_desks.specs.Desks.{IsMessageTaken, IsTooLong};

use c_answers::EMPTY_HANDLE;
use c_desks::{DeskHandle, Taken, none_taken, take_in};
use std::alloc::Global;

/// Lets a desk take a message: its bytes are read whole first, and then its operations are taken in order, up to
/// the first that the desk refuses.
#[unsafe(no_mangle)]
pub extern "C" fn bidigrid_desk_take(
    alloc: Global,
    desk: &mut DeskHandle,
    bytes: &[u8],
    taken: &mut Taken,
) -> u32
    ensures taken { IfSome desk.old.held (λ d. IfSome desk.new.held (λ e. IsMessageTaken d bytes.now e taken.new result)) }
    ensures too_long { IfSome desk.old.held (λ _. IsTooLong bytes.now → result ≡ 116) }
    ensures empty { desk.old.held ≡ None → (result ≡ 101) × (desk.new.held ≡ None) × (taken.new ≡ none_taken 0) }
    ensures held { desk.new.held ≡ None → desk.old.held ≡ None }
{
    let Some(mut held) = desk.take(alloc) else {
        *taken = none_taken(0);
        return EMPTY_HANDLE;
    };
    let answer = take_in(alloc, &mut held, bytes, taken);
    desk.put(alloc, held);
    answer
}

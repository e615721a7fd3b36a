//! The numbers of the faults of messages and desks.

ghost use Rattle.std.specs.Prelude.{◌≡◌, ◌<◌};
ghost use Rattle.c_desks.specs.Faults.{message_number, take_number, type_number};

use c_answers::{COUNTER_SPENT, FULL, IDENTIFIER_REUSED, MEMORY, MESSAGE};
use desk_replica::{TakeFault, TypeFault};
use op_codec::CodecFault;

/// The number of a message's fault.
pub(crate) fn message_number(fault: CodecFault) -> u32
    ensures number { result ≡ message_number fault }
    ensures some { 0 < result }
{
    match fault {
        CodecFault::Memory => MEMORY,
        CodecFault::Malformed { cause, .. } => MESSAGE + u32::from(cause.code()),
    }
}

/// The number of why a desk took no operation.
pub fn take_number(fault: TakeFault) -> u32
    ensures number { result ≡ take_number fault }
    ensures some { 0 < result }
{
    match fault {
        TakeFault::IdentifierReused => IDENTIFIER_REUSED,
        TakeFault::Full => FULL,
        TakeFault::Memory => MEMORY,
    }
}

/// The number of why a desk typed nothing.
pub fn type_number(fault: TypeFault) -> u32
    ensures number { result ≡ type_number fault }
    ensures some { 0 < result }
{
    match fault {
        TypeFault::CounterSpent => COUNTER_SPENT,
        TypeFault::Full => FULL,
        TypeFault::Memory => MEMORY,
    }
}

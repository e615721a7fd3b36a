//! Keystrokes: typing a character, and erasing characters.

ghost use Rattle.std.specs.Prelude.{◌≡◌, ◌<◌, ◌≤◌, ◌+◌, length};
ghost use Rattle.rga_tree.specs.TextOf.{visible};
ghost use Rattle.c_desks.specs.Desks.{IsTyped, IsErased, IsRefusedTyping, IsRefusedErasing, IsUnerased, IsUntyped, IsUnwritten};

use crate::desk::Desk;
use crate::replacing::exchange_in;
use c_answers::{BAD_CHARACTER, BAD_PLACE, COUNTER_SPENT, FULL, MEMORY, OK, SHORT_BUFFER};
use desk_replica::TypeFault;
use op_codec::encode_one;
use std::alloc::Global;

/// How many bytes the message of an insertion has.
const TYPED: usize = 24;

/// Types a character, and writes the message for the other desks.
pub fn type_in(desk: &mut Desk, place: usize, ch: u32, out: &mut [u8], size: &mut usize) -> u32
    ensures ok { result ≡ 0 → IsTyped desk.old place ch desk.new out.old out.new size.new }
    ensures err { (result ≡ 0 → ⊥) → (desk.new ≡ desk.old) × IsUnwritten out.old out.new size.new result }
    ensures fault { (result ≡ 0 → ⊥) → IsRefusedTyping desk.old place ch (length out.old) size.new result }
{
    *size = 0;
    let Some(ch) = char::from_u32(ch) else {
        return BAD_CHARACTER;
    };
    if place > desk.len() {
        return BAD_PLACE;
    }
    if out.len() < TYPED {
        *size = TYPED;
        return SHORT_BUFFER;
    }
    type_one_in(desk, place, ch, out, size)
}

/// Types a character where there is room for its message.
#[tactic(auto, using(crate::proofs::Messages::one_most, crate::proofs::Messages::copied_one))]
pub(crate) fn type_one_in(
    desk: &mut Desk,
    place: usize,
    ch: char,
    out: &mut [u8],
    size: &mut usize,
) -> u32
    requires place { place ≤ length (visible desk.old.set) }
    requires room { 24 ≤ length out.old }
    ensures ok { result ≡ 0 → IsTyped desk.old place ch desk.new out.old out.new size.new }
    ensures err { (result ≡ 0 → ⊥) → (desk.new ≡ desk.old) × (out.new ≡ out.old) × (size.new ≡ size.old) }
    ensures fault { (result ≡ 0 → ⊥) → IsUntyped desk.old result }
{
    match desk.type_char(place, ch) {
        Ok(op) => {
            *size = encode_one(&op, out);
            OK
        }
        Err(TypeFault::CounterSpent) => COUNTER_SPENT,
        Err(TypeFault::Full) => FULL,
        Err(TypeFault::Memory) => MEMORY,
    }
}

/// Erases the characters from one place up to another, and writes the message for the other desks.
pub fn erase_in(
    alloc: Global,
    desk: &mut Desk,
    from: usize,
    to: usize,
    out: &mut [u8],
    size: &mut usize,
) -> u32
    ensures ok { result ≡ 0 → IsErased desk.old from to desk.new out.old out.new size.new }
    ensures err { (result ≡ 0 → ⊥) → (desk.new ≡ desk.old) × IsUnwritten out.old out.new size.new result }
    ensures fault { (result ≡ 0 → ⊥) → IsRefusedErasing desk.old from to (length out.old) size.new result }
{
    exchange_in(alloc, desk, from, to, "", out, size)
}

/// Erases the character at a place where there is room for its message.
pub(crate) fn erase_one_in(desk: &mut Desk, place: usize, out: &mut [u8], size: &mut usize) -> u32
    requires place { place < length (visible desk.old.set) }
    requires room { 14 ≤ length out.old }
    ensures ok { result ≡ 0 → IsErased desk.old place (place + 1) desk.new out.old out.new size.new }
    ensures err { (result ≡ 0 → ⊥) → (desk.new ≡ desk.old) × (out.new ≡ out.old) × (size.new ≡ size.old) }
    ensures fault { (result ≡ 0 → ⊥) → IsUnerased desk.old result }
{
    match desk.erase_at(place) {
        Ok(op) => {
            *size = encode_one(&op, out);
            OK
        }
        Err(_) => FULL,
    }
}

//! Typing a text, and putting one in the place of characters.

ghost use Rattle.std.specs.Prelude.{◌≡◌, ◌≤◌, ◌+◌, ◌-◌, ◌*◌, [], length, vec_len};
ghost use Rattle.std.specs.Str.{chars, IsUtf8};
ghost use Rattle.std.specs.Vec.{vec_capacity};
ghost use Rattle.op_codec.specs.Spelling.{spelling};
ghost use Rattle.c_desks.specs.Desks.{HasRoomFor, IsReplaced, IsRefusedExchange, IsRefusedReplacing, IsUnreplaced, IsUnwritten};

use crate::desk::Desk;
use crate::draft::{Draft, code_points, refusal_of};
use crate::fault::type_number;
use crate::keystroke::{Keystroke, keystroke_of};
use crate::typing::{erase_one_in, type_one_in};
use c_answers::{MEMORY, NOT_UTF8, OK};
use std::alloc::Global;

/// Puts the bytes of a text in the place of characters.
pub fn replace_in(
    alloc: Global,
    desk: &mut Desk,
    from: usize,
    to: usize,
    text: &[u8],
    out: &mut [u8],
    size: &mut usize,
) -> u32
    ensures ok { result ≡ 0 → IsReplaced desk.old from to (chars text.now) desk.new out.old out.new size.new }
    ensures utf8 { result ≡ 0 → IsUtf8 text.now }
    ensures err { (result ≡ 0 → ⊥) → (desk.new ≡ desk.old) × IsUnwritten out.old out.new size.new result }
    ensures fault { (result ≡ 0 → ⊥) → IsRefusedReplacing desk.old from to text.now (length out.old) size.new result }
{
    let Ok(text) = std::str::from_utf8(text) else {
        *size = 0;
        return NOT_UTF8;
    };
    exchange_in(alloc, desk, from, to, text, out, size)
}

/// Puts a text in the place of characters. One character is typed or erased without memory for its message.
#[tactic(auto, using(crate::proofs::Keystrokes::typed_place, crate::proofs::Keystrokes::typed_room, crate::proofs::Keystrokes::untyped_exchange, crate::proofs::Keystrokes::erased_place, crate::proofs::Keystrokes::erased_room, crate::proofs::Keystrokes::erased_key, crate::proofs::Keystrokes::unerased_exchange))]
pub(crate) fn exchange_in(
    alloc: Global,
    desk: &mut Desk,
    from: usize,
    to: usize,
    text: &str,
    out: &mut [u8],
    size: &mut usize,
) -> u32
    ensures ok { result ≡ 0 → IsReplaced desk.old from to (chars text.now) desk.new out.old out.new size.new }
    ensures err { (result ≡ 0 → ⊥) → (desk.new ≡ desk.old) × IsUnwritten out.old out.new size.new result }
    ensures fault { (result ≡ 0 → ⊥) → IsRefusedExchange desk.old from to (length (chars text.now)) (length out.old) size.new result }
{
    let answer = refusal_of(desk, from, to, code_points(text), out.len(), size);
    if answer != OK {
        return answer;
    }
    match keystroke_of(to - from, text) {
        Some(Keystroke::Typed(ch)) => type_one_in(desk, from, ch, out, size),
        Some(Keystroke::Erased) => erase_one_in(desk, from, out, size),
        None => exchange_many_in(alloc, desk, from, to, text, out, size),
    }
}

/// Puts a text in the place of characters, which is no keystroke and for which there is room.
#[tactic(auto, using(crate::proofs::Messages::not_exchanged))]
fn exchange_many_in(
    alloc: Global,
    desk: &mut Desk,
    from: usize,
    to: usize,
    text: &str,
    out: &mut [u8],
    size: &mut usize,
) -> u32
    requires room { HasRoomFor desk.old from to (length (chars text.now)) (length out.old) }
    requires many { (to - from) + length (chars text.now) ≡ 1 → ⊥ }
    ensures ok { result ≡ 0 → IsReplaced desk.old from to (chars text.now) desk.new out.old out.new size.new }
    ensures err { (result ≡ 0 → ⊥) → (desk.new ≡ desk.old) × (out.new ≡ out.old) × (size.new ≡ size.old) }
    ensures fault { (result ≡ 0 → ⊥) → IsRefusedExchange desk.old from to (length (chars text.now)) (length out.old) size.new result }
{
    let Ok(draft) = Draft::of(alloc, to - from + code_points(text)) else {
        return MEMORY;
    };
    exchange_drafted_in(desk, from, to, text, draft, out, size)
}

/// Puts a text in the place of characters. There is room for its message, in the buffer and in a draft of nothing yet.
fn exchange_drafted_in(
    desk: &mut Desk,
    from: usize,
    to: usize,
    text: &str,
    mut draft: Draft,
    out: &mut [u8],
    size: &mut usize,
) -> u32
    requires room { HasRoomFor desk.old from to (length (chars text.now)) (length out.old) }
    requires message { draft.message.items ≡ spelling [] }
    requires bytes { vec_len draft.message + 19 * ((to - from) + length (chars text.now)) ≤ vec_capacity draft.message }
    requires ops { draft.ops.items ≡ [] }
    ensures ok { result ≡ 0 → IsReplaced desk.old from to (chars text.now) desk.new out.old out.new size.new }
    ensures err { (result ≡ 0 → ⊥) → (desk.new ≡ desk.old) × (out.new ≡ out.old) × (size.new ≡ size.old) }
    ensures fault { (result ≡ 0 → ⊥) → IsUnreplaced desk.old (to - from) (length (chars text.now)) result }
{
    match desk.replace(from, to, text, &mut draft.ops) {
        Ok(()) => {
            draft.write(out, size);
            OK
        }
        Err(fault) => type_number(fault),
    }
}

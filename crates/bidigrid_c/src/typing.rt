//! Keystrokes: typing a character, and erasing characters.

ghost use Rattle.std.specs.Prelude.{◌≡◌, None, length};
ghost use Rattle.std.specs.Option.{IfSome};
ghost use Rattle.c_desks.specs.Desks.{IsTyped, IsErased, IsRefusedTyping, IsRefusedErasing, IsUnwritten};

use c_answers::EMPTY_HANDLE;
use c_desks::{DeskHandle, erase_in, type_in};
use std::alloc::Global;

/// Types a character, and writes the message for the other desks. While an operation is spare it takes no memory.
#[unsafe(no_mangle)]
pub extern "C" fn bidigrid_desk_type(
    alloc: Global,
    desk: &mut DeskHandle,
    place: usize,
    ch: u32,
    out: &mut [u8],
    size: &mut usize,
) -> u32
    ensures ok { result ≡ 0 → IfSome desk.old.held (λ d. IfSome desk.new.held (λ e. IsTyped d place ch e out.old out.new size.new)) }
    ensures err { (result ≡ 0 → ⊥) → (desk.new.held ≡ desk.old.held) × IsUnwritten out.old out.new size.new result }
    ensures fault { (result ≡ 0 → ⊥) → IfSome desk.old.held (λ d. IsRefusedTyping d place ch (length out.old) size.new result) }
    ensures empty { desk.old.held ≡ None → (result ≡ 101) × (desk.new.held ≡ None) }
    ensures held { desk.new.held ≡ None → desk.old.held ≡ None }
{
    let Some(mut held) = desk.take(alloc) else {
        *size = 0;
        return EMPTY_HANDLE;
    };
    let answer = type_in(&mut held, place, ch, out, size);
    desk.put(alloc, held);
    answer
}

/// Erases the characters from one place up to another, and writes the message for the other desks. Erasing one takes no
/// memory.
#[unsafe(no_mangle)]
pub extern "C" fn bidigrid_desk_erase(
    alloc: Global,
    desk: &mut DeskHandle,
    from: usize,
    to: usize,
    out: &mut [u8],
    size: &mut usize,
) -> u32
    ensures ok { result ≡ 0 → IfSome desk.old.held (λ d. IfSome desk.new.held (λ e. IsErased d from to e out.old out.new size.new)) }
    ensures err { (result ≡ 0 → ⊥) → (desk.new.held ≡ desk.old.held) × IsUnwritten out.old out.new size.new result }
    ensures fault { (result ≡ 0 → ⊥) → IfSome desk.old.held (λ d. IsRefusedErasing d from to (length out.old) size.new result) }
    ensures empty { desk.old.held ≡ None → (result ≡ 101) × (desk.new.held ≡ None) }
    ensures held { desk.new.held ≡ None → desk.old.held ≡ None }
{
    let Some(mut held) = desk.take(alloc) else {
        *size = 0;
        return EMPTY_HANDLE;
    };
    let answer = erase_in(alloc, &mut held, from, to, out, size);
    desk.put(alloc, held);
    answer
}

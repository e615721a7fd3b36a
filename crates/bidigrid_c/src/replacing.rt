//! Typing a text, and putting one in the place of characters.

ghost use Rattle.std.specs.Prelude.{◌≡◌, ◌-◌, None, length};
ghost use Rattle.std.specs.Option.{IfSome};
ghost use Rattle.std.specs.Str.{chars, IsUtf8};
ghost use Rattle.c_desks.specs.Desks.{IsReplaced, IsRefusedReplacing, IsUnwritten};

use c_answers::EMPTY_HANDLE;
use c_desks::{DeskHandle, replace_in};
use std::alloc::Global;

/// Types a text at a place, and writes the message for the other desks: all of it, or nothing.
#[unsafe(no_mangle)]
pub extern "C" fn bidigrid_desk_insert(
    alloc: Global,
    desk: &mut DeskHandle,
    place: usize,
    text: &[u8],
    out: &mut [u8],
    size: &mut usize,
) -> u32
    ensures ok { result ≡ 0 → IfSome desk.old.held (λ d. IfSome desk.new.held (λ e. IsReplaced d place place (chars text.now) e out.old out.new size.new)) }
    ensures utf8 { result ≡ 0 → IsUtf8 text.now }
    ensures err { (result ≡ 0 → ⊥) → (desk.new.held ≡ desk.old.held) × IsUnwritten out.old out.new size.new result }
    ensures fault { (result ≡ 0 → ⊥) → IfSome desk.old.held (λ d. IsRefusedReplacing d place place text.now (length out.old) size.new result) }
    ensures empty { desk.old.held ≡ None → (result ≡ 101) × (desk.new.held ≡ None) }
    ensures held { desk.new.held ≡ None → desk.old.held ≡ None }
{
    let Some(mut held) = desk.take(alloc) else {
        *size = 0;
        return EMPTY_HANDLE;
    };
    let answer = replace_in(alloc, &mut held, place, place, text, out, size);
    desk.put(alloc, held);
    answer
}

/// Erases the characters from one place up to another, types a text where they began, and writes the message for the
/// other desks: all of it, or nothing.
#[unsafe(no_mangle)]
pub extern "C" fn bidigrid_desk_replace(
    alloc: Global,
    desk: &mut DeskHandle,
    from: usize,
    to: usize,
    text: &[u8],
    out: &mut [u8],
    size: &mut usize,
) -> u32
    ensures ok { result ≡ 0 → IfSome desk.old.held (λ d. IfSome desk.new.held (λ e. IsReplaced d from to (chars text.now) e out.old out.new size.new)) }
    ensures utf8 { result ≡ 0 → IsUtf8 text.now }
    ensures err { (result ≡ 0 → ⊥) → (desk.new.held ≡ desk.old.held) × IsUnwritten out.old out.new size.new result }
    ensures fault { (result ≡ 0 → ⊥) → IfSome desk.old.held (λ d. IsRefusedReplacing d from to text.now (length out.old) size.new result) }
    ensures empty { desk.old.held ≡ None → (result ≡ 101) × (desk.new.held ≡ None) }
    ensures held { desk.new.held ≡ None → desk.old.held ≡ None }
{
    let Some(mut held) = desk.take(alloc) else {
        *size = 0;
        return EMPTY_HANDLE;
    };
    let answer = replace_in(alloc, &mut held, from, to, text, out, size);
    desk.put(alloc, held);
    answer
}

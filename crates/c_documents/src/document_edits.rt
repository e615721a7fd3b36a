//! Edits of documents: a text is typed, characters are erased or replaced.

ghost use Rattle.std.specs.Prelude.{◌≡◌, ◌<◌, ◌≤◌, ◌+◌, ◌-◌, ◌*◌, [], None, length, vec_len};
ghost use Rattle.std.specs.Str.{chars, IsUtf8};
ghost use Rattle.std.specs.Vec.{vec_capacity};
ghost use Rattle.op_codec.specs.Spelling.{spelling};
ghost use Rattle.rga_tree.specs.TextOf.{visible};
ghost use Rattle.c_desks.specs.declared.keystroke.Keystroke.TheVariants.{Typed};
ghost use Rattle.c_desks.specs.Keystrokes.{IsKeystroke};
ghost use Rattle.c_desks.specs.Desks.{HasRoomFor, IsErased, IsReplaced, IsTyped, IsRefusedErasing, IsRefusedExchange, IsRefusedReplacing, IsUnerased, IsUnreplaced, IsUntyped, IsUnwritten};
ghost use Rattle.c_documents.specs.Documents.{IsEditFollowed, IsEdited};

use crate::told_document::ToldDocument;
use c_answers::{COUNTER_SPENT, FULL, MEMORY, NOT_UTF8, OK};
use c_desks::{Draft, Keystroke, code_points, keystroke_of, refusal_of, type_number};
use desk_replica::TypeFault;
use op_codec::encode_one;
use std::alloc::Global;

/// Puts the bytes of a text in the place of characters.
pub fn replace_in(
    alloc: Global,
    held: &mut ToldDocument,
    from: usize,
    to: usize,
    text: &[u8],
    out: &mut [u8],
    size: &mut usize,
) -> u32
    ensures ok { result ≡ 0 → IsReplaced held.old.document.desk from to (chars text.now) held.new.document.desk out.old out.new size.new × IsEdited held.old from to (chars text.now) held.new }
    ensures utf8 { result ≡ 0 → IsUtf8 text.now }
    ensures err { (result ≡ 0 → ⊥) → (held.new ≡ held.old) × IsUnwritten out.old out.new size.new result }
    ensures fault { (result ≡ 0 → ⊥) → IsRefusedReplacing held.old.document.desk from to text.now (length out.old) size.new result }
{
    let Ok(text) = std::str::from_utf8(text) else {
        *size = 0;
        return NOT_UTF8;
    };
    exchange_in(alloc, held, from, to, text, out, size)
}

/// Erases the characters from one place up to another.
pub fn erase_in(
    alloc: Global,
    held: &mut ToldDocument,
    from: usize,
    to: usize,
    out: &mut [u8],
    size: &mut usize,
) -> u32
    ensures ok { result ≡ 0 → IsErased held.old.document.desk from to held.new.document.desk out.old out.new size.new × IsEdited held.old from to [] held.new }
    ensures err { (result ≡ 0 → ⊥) → (held.new ≡ held.old) × IsUnwritten out.old out.new size.new result }
    ensures fault { (result ≡ 0 → ⊥) → IsRefusedErasing held.old.document.desk from to (length out.old) size.new result }
{
    exchange_in(alloc, held, from, to, "", out, size)
}

/// Puts a text in the place of characters, and tells what that changed.
fn exchange_in(
    alloc: Global,
    held: &mut ToldDocument,
    from: usize,
    to: usize,
    text: &str,
    out: &mut [u8],
    size: &mut usize,
) -> u32
    ensures ok { result ≡ 0 → IsReplaced held.old.document.desk from to (chars text.now) held.new.document.desk out.old out.new size.new × IsEdited held.old from to (chars text.now) held.new }
    ensures err { (result ≡ 0 → ⊥) → (held.new ≡ held.old) × IsUnwritten out.old out.new size.new result }
    ensures fault { (result ≡ 0 → ⊥) → IsRefusedExchange held.old.document.desk from to (length (chars text.now)) (length out.old) size.new result }
{
    let answer = exchange_untold(alloc, held, from, to, text, out, size);
    if answer != OK {
        return answer;
    }
    held.tell_edit(from, to, text);
    OK
}

/// Puts a text in the place of characters. One character is typed or erased without memory for its message.
#[tactic(auto, using(c_desks::proofs::Interface::erased_place, c_desks::proofs::Interface::erased_room, c_desks::proofs::Interface::erased_key, c_desks::proofs::Interface::unerased_exchange, crate::proofs::Edited::erased_followed))]
fn exchange_untold(
    alloc: Global,
    held: &mut ToldDocument,
    from: usize,
    to: usize,
    text: &str,
    out: &mut [u8],
    size: &mut usize,
) -> u32
    ensures ok { result ≡ 0 → IsReplaced held.old.document.desk from to (chars text.now) held.new.document.desk out.old out.new size.new × IsEditFollowed held.old.document from to held.new.document }
    ensures err { (result ≡ 0 → ⊥) → (held.new ≡ held.old) × IsUnwritten out.old out.new size.new result }
    ensures fault { (result ≡ 0 → ⊥) → IsRefusedExchange held.old.document.desk from to (length (chars text.now)) (length out.old) size.new result }
{
    let desk = held.document.desk();
    let answer = refusal_of(desk, from, to, code_points(text), out.len(), size);
    if answer != OK {
        return answer;
    }
    match keystroke_of(to - from, text) {
        Some(Keystroke::Typed(ch)) => type_key_in(held, from, to, text, ch, out, size),
        Some(Keystroke::Erased) => erase_one_in(held, from, out, size),
        None => exchange_many_in(alloc, held, from, to, text, out, size),
    }
}

/// Types a character where there is room for its message.
#[tactic(auto, using(c_desks::proofs::Interface::one_most, c_desks::proofs::Interface::copied_one))]
fn type_one_in(
    held: &mut ToldDocument,
    place: usize,
    ch: char,
    out: &mut [u8],
    size: &mut usize,
) -> u32
    requires place { place ≤ length (visible held.old.document.desk.set) }
    requires room { 24 ≤ length out.old }
    ensures ok { result ≡ 0 → IsTyped held.old.document.desk place ch held.new.document.desk out.old out.new size.new }
    ensures followed { result ≡ 0 → IsEditFollowed held.old.document place place held.new.document }
    ensures err { (result ≡ 0 → ⊥) → (held.new ≡ held.old) × (out.new ≡ out.old) × (size.new ≡ size.old) }
    ensures fault { (result ≡ 0 → ⊥) → IsUntyped held.old.document.desk result }
{
    match held.document.type_char(place, ch) {
        Ok(op) => {
            *size = encode_one(&op, out);
            OK
        }
        Err(TypeFault::CounterSpent) => COUNTER_SPENT,
        Err(TypeFault::Full) => FULL,
        Err(TypeFault::Memory) => MEMORY,
    }
}

/// Erases the character at a place where there is room for its message.
fn erase_one_in(held: &mut ToldDocument, place: usize, out: &mut [u8], size: &mut usize) -> u32
    requires place { place < length (visible held.old.document.desk.set) }
    requires room { 14 ≤ length out.old }
    ensures ok { result ≡ 0 → IsErased held.old.document.desk place (place + 1) held.new.document.desk out.old out.new size.new }
    ensures followed { result ≡ 0 → IsEditFollowed held.old.document place (place + 1) held.new.document }
    ensures err { (result ≡ 0 → ⊥) → (held.new ≡ held.old) × (out.new ≡ out.old) × (size.new ≡ size.old) }
    ensures fault { (result ≡ 0 → ⊥) → IsUnerased held.old.document.desk result }
{
    match held.document.erase_at(place) {
        Ok(op) => {
            *size = encode_one(&op, out);
            OK
        }
        Err(_) => FULL,
    }
}

/// Types the character of a text that is a keystroke.
#[tactic(auto, using(c_desks::proofs::Interface::typed_place, c_desks::proofs::Interface::typed_room, c_desks::proofs::Interface::untyped_exchange))]
fn type_key_in(
    held: &mut ToldDocument,
    from: usize,
    to: usize,
    text: &str,
    ch: char,
    out: &mut [u8],
    size: &mut usize,
) -> u32
    requires room { HasRoomFor held.old.document.desk from to (length (chars text.now)) (length out.old) }
    requires key { IsKeystroke (to - from) (chars text.now) (Typed ch) }
    ensures ok { result ≡ 0 → IsReplaced held.old.document.desk from to (chars text.now) held.new.document.desk out.old out.new size.new × IsEditFollowed held.old.document from to held.new.document }
    ensures err { (result ≡ 0 → ⊥) → (held.new ≡ held.old) × (out.new ≡ out.old) × (size.new ≡ size.old) }
    ensures fault { (result ≡ 0 → ⊥) → IsRefusedExchange held.old.document.desk from to (length (chars text.now)) (length out.old) size.new result }
{
    type_one_in(held, from, ch, out, size)
}

/// Puts a text in the place of characters, which is no keystroke and for which there is room.
#[tactic(auto, using(c_desks::proofs::Interface::not_exchanged))]
fn exchange_many_in(
    alloc: Global,
    held: &mut ToldDocument,
    from: usize,
    to: usize,
    text: &str,
    out: &mut [u8],
    size: &mut usize,
) -> u32
    requires room { HasRoomFor held.old.document.desk from to (length (chars text.now)) (length out.old) }
    requires many { (to - from) + length (chars text.now) ≡ 1 → ⊥ }
    ensures ok { result ≡ 0 → IsReplaced held.old.document.desk from to (chars text.now) held.new.document.desk out.old out.new size.new × IsEditFollowed held.old.document from to held.new.document }
    ensures err { (result ≡ 0 → ⊥) → (held.new ≡ held.old) × (out.new ≡ out.old) × (size.new ≡ size.old) }
    ensures fault { (result ≡ 0 → ⊥) → IsRefusedExchange held.old.document.desk from to (length (chars text.now)) (length out.old) size.new result }
{
    let Ok(draft) = Draft::of(alloc, to - from + code_points(text)) else {
        return MEMORY;
    };
    exchange_drafted_in(held, from, to, text, draft, out, size)
}

/// Puts a text in the place of characters. There is room for its message, in the buffer and in a draft of nothing yet.
fn exchange_drafted_in(
    held: &mut ToldDocument,
    from: usize,
    to: usize,
    text: &str,
    mut draft: Draft,
    out: &mut [u8],
    size: &mut usize,
) -> u32
    requires room { HasRoomFor held.old.document.desk from to (length (chars text.now)) (length out.old) }
    requires message { draft.message.items ≡ spelling [] }
    requires bytes { vec_len draft.message + 19 * ((to - from) + length (chars text.now)) ≤ vec_capacity draft.message }
    requires ops { draft.ops.items ≡ [] }
    ensures ok { result ≡ 0 → IsReplaced held.old.document.desk from to (chars text.now) held.new.document.desk out.old out.new size.new × IsEditFollowed held.old.document from to held.new.document }
    ensures err { (result ≡ 0 → ⊥) → (held.new ≡ held.old) × (out.new ≡ out.old) × (size.new ≡ size.old) }
    ensures fault { (result ≡ 0 → ⊥) → IsUnreplaced held.old.document.desk (to - from) (length (chars text.now)) result }
{
    match held.document.replace(from, to, text, &mut draft.ops) {
        Ok(()) => {
            draft.write(out, size);
            OK
        }
        Err(fault) => type_number(fault),
    }
}

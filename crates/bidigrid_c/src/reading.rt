//! What a desk has: its text, identifiers and places, and all of it as a file.

ghost use Rattle.std.specs.Prelude.{◌≡◌, ◌<◌, None, length, encode_utf8_all};
ghost use Rattle.std.specs.Option.{IfSome};
ghost use Rattle.rga_tree.specs.TextOf.{text, visible};
ghost use Rattle.c_answers.specs.Copying.{IsLeft, IsWritten};
ghost use Rattle.c_desks.specs.Numbers.{no_identifier};
ghost use Rattle.c_desks.specs.Desks.{IsIdentifierWritten, IsPlaceWritten, IsSaved};

use c_answers::{EMPTY_HANDLE, OK};
use c_desks::{DeskHandle, IdentifierNumbers, tell_file, tell_id_at, tell_place_of, tell_text};
use std::alloc::Global;

/// Writes a desk's text in UTF-8.
#[unsafe(no_mangle)]
pub extern "C" fn bidigrid_desk_text(
    alloc: Global,
    desk: &mut DeskHandle,
    out: &mut [u8],
    size: &mut usize,
) -> u32
    ensures written { IfSome desk.old.held (λ d. IsWritten (encode_utf8_all (text d.set)) out.old out.new size.new result) }
    ensures memory { IfSome desk.old.held (λ d. result ≡ 9 → 0 < length (visible d.set)) }
    ensures same { desk.new.held ≡ desk.old.held }
    ensures empty { desk.old.held ≡ None → (result ≡ 101) × IsLeft out.old out.new size.new }
{
    let Some(held) = desk.take(alloc) else {
        *size = 0;
        return EMPTY_HANDLE;
    };
    let answer = tell_text(&held, out, size);
    desk.put(alloc, held);
    answer
}

/// Writes how many characters a desk's text has.
#[unsafe(no_mangle)]
pub extern "C" fn bidigrid_desk_length(
    alloc: Global,
    desk: &mut DeskHandle,
    places: &mut usize,
) -> u32
    ensures written { IfSome desk.old.held (λ d. (result ≡ 0) × (places.new ≡ length (visible d.set))) }
    ensures same { desk.new.held ≡ desk.old.held }
    ensures empty { desk.old.held ≡ None → (result ≡ 101) × (places.new ≡ 0) }
{
    let Some(held) = desk.take(alloc) else {
        *places = 0;
        return EMPTY_HANDLE;
    };
    *places = held.len();
    desk.put(alloc, held);
    OK
}

/// Writes the identifier of the character at a place.
#[unsafe(no_mangle)]
pub extern "C" fn bidigrid_desk_id_at(
    alloc: Global,
    desk: &mut DeskHandle,
    place: usize,
    id: &mut IdentifierNumbers,
) -> u32
    ensures written { IfSome desk.old.held (λ d. IsIdentifierWritten d.set place id.new result) }
    ensures same { desk.new.held ≡ desk.old.held }
    ensures empty { desk.old.held ≡ None → (result ≡ 101) × (id.new ≡ no_identifier) }
{
    let Some(mut held) = desk.take(alloc) else {
        *id = IdentifierNumbers::NONE;
        return EMPTY_HANDLE;
    };
    let answer = tell_id_at(&mut held, place, id);
    desk.put(alloc, held);
    answer
}

/// Writes how many characters stand before the one with an identifier, which may be erased.
#[unsafe(no_mangle)]
pub extern "C" fn bidigrid_desk_place_of(
    alloc: Global,
    desk: &mut DeskHandle,
    id: &IdentifierNumbers,
    place: &mut usize,
) -> u32
    ensures written { IfSome desk.old.held (λ d. IsPlaceWritten d.set id.now place.new result) }
    ensures same { desk.new.held ≡ desk.old.held }
    ensures empty { desk.old.held ≡ None → (result ≡ 101) × (place.new ≡ 0) }
{
    let Some(held) = desk.take(alloc) else {
        *place = 0;
        return EMPTY_HANDLE;
    };
    let answer = tell_place_of(&held, id, place);
    desk.put(alloc, held);
    answer
}

/// Writes all that a desk has, as a message.
#[unsafe(no_mangle)]
pub extern "C" fn bidigrid_desk_file(
    alloc: Global,
    desk: &mut DeskHandle,
    out: &mut [u8],
    size: &mut usize,
) -> u32
    ensures written { IfSome desk.old.held (λ d. IsSaved d out.old out.new size.new result) }
    ensures same { desk.new.held ≡ desk.old.held }
    ensures empty { desk.old.held ≡ None → (result ≡ 101) × IsLeft out.old out.new size.new }
{
    let Some(held) = desk.take(alloc) else {
        *size = 0;
        return EMPTY_HANDLE;
    };
    let answer = tell_file(alloc, &held, out, size);
    desk.put(alloc, held);
    answer
}

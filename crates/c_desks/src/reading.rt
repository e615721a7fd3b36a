//! What a desk has: its text, identifiers and places, and all of it as a file.

ghost use Rattle.std.specs.Prelude.{◌≡◌, ◌<◌, None, length, encode_utf8_all};
ghost use Rattle.rga_tree.specs.TextOf.{text, visible};
ghost use Rattle.c_answers.specs.Copying.{IsWritten};
ghost use Rattle.c_desks.specs.Numbers.{no_identifier};
ghost use Rattle.c_desks.specs.Desks.{IsIdentifierWritten, IsPlaceWritten, IsSaved};

use crate::desk::{Desk, MOST_SITE};
use crate::numbers::{IdentifierNumbers, identifier_numbers};
use bg_types::{Id, Memory};
use c_answers::{BAD_IDENTIFIER, BAD_PLACE, MEMORY, NOT_PLACED, OK, copy_out};
use op_codec::encode_file_v2;
use std::alloc::Global;

/// Writes a desk's text in UTF-8.
#[tactic(auto, using(crate::proofs::Texts::bytes_of_none))]
pub fn tell_text(desk: &Desk, out: &mut [u8], size: &mut usize) -> u32
    ensures written { IsWritten (encode_utf8_all (text desk.now.set)) out.old out.new size.new result }
    ensures memory { result ≡ 9 → 0 < length (visible desk.now.set) }
{
    if desk.len() == 0 {
        return copy_out(b"", out, size);
    }
    match desk.text() {
        Ok(text) => copy_out(text.as_bytes(), out, size),
        Err(Memory) => {
            *size = 0;
            MEMORY
        }
    }
}

/// Writes the identifier of the character at a place.
pub fn tell_id_at(desk: &mut Desk, place: usize, id: &mut IdentifierNumbers) -> u32
    ensures written { IsIdentifierWritten desk.old.set place id.new result }
    ensures same { desk.new ≡ desk.old }
{
    if place >= desk.len() {
        *id = IdentifierNumbers::NONE;
        return BAD_PLACE;
    }
    *id = identifier_numbers(desk.id_at(place));
    OK
}

/// Writes how many characters stand before the one with an identifier, which may be erased.
pub fn tell_place_of(desk: &Desk, id: &IdentifierNumbers, place: &mut usize) -> u32
    ensures { IsPlaceWritten desk.now.set id.now place.new result }
{
    *place = 0;
    if id.site > MOST_SITE {
        return BAD_IDENTIFIER;
    }
    let Some(id) = Id::new(id.counter, id.site as u16) else {
        return BAD_IDENTIFIER;
    };
    match desk.place_of(id) {
        Some(found) => {
            *place = found;
            OK
        }
        None => NOT_PLACED,
    }
}

/// Writes all that a desk has, as a file of version 2.
pub fn tell_file(alloc: Global, desk: &Desk, out: &mut [u8], size: &mut usize) -> u32
    ensures { IsSaved desk.now out.old out.new size.new result }
{
    *size = 0;
    let Ok(ops) = desk.ops() else {
        return MEMORY;
    };
    let Ok(file) = encode_file_v2(alloc, &ops) else {
        return MEMORY;
    };
    copy_out(&file, out, size)
}

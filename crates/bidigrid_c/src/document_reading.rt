//! What a document has: its text, identifiers and places, and all of it as a file, from its desk.

ghost use Rattle.std.specs.Prelude.{◌≡◌, ◌<◌, None, length, encode_utf8_all};
ghost use Rattle.std.specs.Option.{IfSome};
ghost use Rattle.rga_tree.specs.TextOf.{text, visible};
ghost use Rattle.c_answers.specs.Copying.{IsLeft, IsWritten};
ghost use Rattle.c_desks.specs.Numbers.{no_identifier};
ghost use Rattle.c_desks.specs.Desks.{IsIdentifierWritten, IsPlaceWritten, IsSaved};

use c_answers::{EMPTY_HANDLE, OK};
use c_desks::{IdentifierNumbers, tell_file, tell_place_of};
use c_documents::{DocumentHandle, tell_id_in, tell_text_of};
use std::alloc::Global;

/// Writes a document's text in UTF-8.
#[unsafe(no_mangle)]
pub extern "C" fn bidigrid_document_text(
    alloc: Global,
    document: &mut DocumentHandle,
    out: &mut [u8],
    size: &mut usize,
) -> u32
    ensures written { IfSome document.old.held (λ d. IsWritten (encode_utf8_all (text d.document.desk.set)) out.old out.new size.new result) }
    ensures memory { IfSome document.old.held (λ d. result ≡ 9 → 0 < length (visible d.document.desk.set)) }
    ensures same { document.new.held ≡ document.old.held }
    ensures empty { document.old.held ≡ None → (result ≡ 101) × IsLeft out.old out.new size.new }
{
    let Some(held) = document.take(alloc) else {
        *size = 0;
        return EMPTY_HANDLE;
    };
    let answer = tell_text_of(&held.document, out, size);
    document.put(alloc, held);
    answer
}

/// Writes how many characters a document's text has.
#[unsafe(no_mangle)]
pub extern "C" fn bidigrid_document_length(
    alloc: Global,
    document: &mut DocumentHandle,
    places: &mut usize,
) -> u32
    ensures written { IfSome document.old.held (λ d. (result ≡ 0) × (places.new ≡ length (visible d.document.desk.set))) }
    ensures same { document.new.held ≡ document.old.held }
    ensures empty { document.old.held ≡ None → (result ≡ 101) × (places.new ≡ 0) }
{
    let Some(held) = document.take(alloc) else {
        *places = 0;
        return EMPTY_HANDLE;
    };
    *places = held.document.desk().len();
    document.put(alloc, held);
    OK
}

/// Writes the identifier of the character at a place.
#[unsafe(no_mangle)]
pub extern "C" fn bidigrid_document_id_at(
    alloc: Global,
    document: &mut DocumentHandle,
    place: usize,
    id: &mut IdentifierNumbers,
) -> u32
    ensures written { IfSome document.old.held (λ d. IsIdentifierWritten d.document.desk.set place id.new result) }
    ensures same { document.new.held ≡ document.old.held }
    ensures empty { document.old.held ≡ None → (result ≡ 101) × (id.new ≡ no_identifier) }
{
    let Some(mut held) = document.take(alloc) else {
        *id = IdentifierNumbers::NONE;
        return EMPTY_HANDLE;
    };
    let answer = tell_id_in(&mut held.document, place, id);
    document.put(alloc, held);
    answer
}

/// Writes how many characters stand before the one with an identifier, which may be erased.
#[unsafe(no_mangle)]
pub extern "C" fn bidigrid_document_place_of(
    alloc: Global,
    document: &mut DocumentHandle,
    id: &IdentifierNumbers,
    place: &mut usize,
) -> u32
    ensures written { IfSome document.old.held (λ d. IsPlaceWritten d.document.desk.set id.now place.new result) }
    ensures same { document.new.held ≡ document.old.held }
    ensures empty { document.old.held ≡ None → (result ≡ 101) × (place.new ≡ 0) }
{
    let Some(held) = document.take(alloc) else {
        *place = 0;
        return EMPTY_HANDLE;
    };
    let answer = tell_place_of(held.document.desk(), id, place);
    document.put(alloc, held);
    answer
}

/// Writes all that a document has, as a message.
#[unsafe(no_mangle)]
pub extern "C" fn bidigrid_document_file(
    alloc: Global,
    document: &mut DocumentHandle,
    out: &mut [u8],
    size: &mut usize,
) -> u32
    ensures written { IfSome document.old.held (λ d. IsSaved d.document.desk out.old out.new size.new result) }
    ensures same { document.new.held ≡ document.old.held }
    ensures empty { document.old.held ≡ None → (result ≡ 101) × IsLeft out.old out.new size.new }
{
    let Some(held) = document.take(alloc) else {
        *size = 0;
        return EMPTY_HANDLE;
    };
    let answer = tell_file(alloc, held.document.desk(), out, size);
    document.put(alloc, held);
    answer
}

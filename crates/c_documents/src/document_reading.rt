//! What a document has: its text, identifiers and places, and all of it as a file, from its desk.

ghost use Rattle.std.specs.Prelude.{◌≡◌, ◌<◌, length, encode_utf8_all};
ghost use Rattle.rga_tree.specs.TextOf.{text, visible};
ghost use Rattle.c_answers.specs.Copying.{IsWritten};
ghost use Rattle.c_desks.specs.Numbers.{no_identifier};
ghost use Rattle.c_desks.specs.Desks.{IsIdentifierWritten};

use c_answers::{BAD_PLACE, OK, SHORT_BUFFER};
use c_desks::{IdentifierNumbers, identifier_numbers, tell_text};
use live_document::Document;

/// Writes a document's text, unless its size is known to be more than there is room for.
pub fn tell_text_of(document: &Document, out: &mut [u8], size: &mut usize) -> u32
    ensures written { IsWritten (encode_utf8_all (text document.now.desk.set)) out.old out.new size.new result }
    ensures memory { result ≡ 9 → 0 < length (visible document.now.desk.set) }
{
    if let Some(count) = document.text_size() {
        if out.len() < count {
            *size = count;
            return SHORT_BUFFER;
        }
    }
    tell_text(document.desk(), out, size)
}

/// Writes the identifier of the character at a place.
pub fn tell_id_in(document: &mut Document, place: usize, id: &mut IdentifierNumbers) -> u32
    ensures written { IsIdentifierWritten document.old.desk.set place id.new result }
    ensures same { document.new ≡ document.old }
{
    if place >= document.len() {
        *id = IdentifierNumbers::NONE;
        return BAD_PLACE;
    }
    *id = identifier_numbers(document.id_at(place));
    OK
}

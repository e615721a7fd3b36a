//! What a document shows: a window round a place.

ghost use Rattle.std.specs.Prelude.{◌≡◌};
ghost use Rattle.c_documents.specs.Documents.{IsNotShown, IsShown};
ghost use Rattle.c_documents.specs.Numbers.{nothing_shown};

use crate::numbers::{WindowNumbers, nothing_shown, window_numbers};
use crate::told_document::ToldDocument;
use c_answers::{BAD_PLACE, BAD_ROW, MEMORY, OK};

/// The most rows above or below the row of a place that are shown.
const MOST_ROWS: usize = 1_000;

/// Shows the rows round a place.
pub fn show_in(
    held: &mut ToldDocument,
    place: usize,
    above: usize,
    below: usize,
    out: &mut WindowNumbers,
) -> u32
    ensures ok { result ≡ 0 → IsShown held.old place above below held.new out.new }
    ensures err { (result ≡ 0 → ⊥) → out.new ≡ nothing_shown }
    ensures fault { (result ≡ 0 → ⊥) → IsNotShown held.old place above below held.new result }
{
    *out = nothing_shown();
    if above > MOST_ROWS || below > MOST_ROWS {
        return BAD_ROW;
    }
    if place > held.document.len() {
        return BAD_PLACE;
    }
    if held.document.show(place, above, below).is_err() {
        return MEMORY;
    }
    *out = window_numbers(&held.document.window());
    OK
}

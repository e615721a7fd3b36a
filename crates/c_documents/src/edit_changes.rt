//! What an edit of a document changes in its text.

ghost use Rattle.std.specs.Prelude.{◌≡◌, ◌<◌, ◌≤◌, ◌+◌, ◌-◌, ◌^◌, ◌++◌, true, length, vec_len};
ghost use Rattle.std.specs.Str.{chars};
ghost use Rattle.std.specs.Vec.{vec_capacity};
ghost use Rattle.text_buffer.specs.Edits.{puts_at};
ghost use Rattle.c_documents.specs.Changes.{edit_changes};

use bg_types::Change;
use c_desks::code_points;

/// Has a list tell that the characters from one place up to another are erased, and a text typed where they began; or answers
/// false, where there is no memory for it.
pub(crate) fn list_edit(told: &mut Vec<Change>, from: usize, to: usize, text: &str) -> bool
    requires order { from ≤ to }
    requires few { (to - from) + length (chars text.now) ≤ 1_000_000 }
    requires end { from + length (chars text.now) < 2 ^ 64 }
    ensures { result ≡ true → told.new.items ≡ edit_changes from to (chars text.now) }
{
    told.clear();
    if told.resize(to - from, Change::Cut { place: from }).is_err() {
        return false;
    }
    if told.reserve(code_points(text)).is_err() {
        return false;
    }
    add_puts(told, from, text);
    true
}

/// Adds to a list, which has room for them, that the characters of a text are put from a place on.
fn add_puts(told: &mut Vec<Change>, place: usize, text: &str)
    requires room { vec_len told.old + length (chars text.now) ≤ vec_capacity told.old }
    requires end { place + length (chars text.now) < 2 ^ 64 }
    ensures { told.new.items ≡ told.old.items ++ puts_at place (chars text.now) }
{
    let mut place = place;
    let mut left = text.chars();
    while let Some(ch) = left.next() {
        told.push_reserved(Change::Put { place, ch });
        place += 1;
    }
}

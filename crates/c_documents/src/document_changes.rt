//! What the last edit, take or merge of a document changed in its text.

ghost use Rattle.std.specs.Prelude.{◌≡◌, ◌≤◌, ◌++◌, drop, length, map};
ghost use Rattle.c_documents.specs.Documents.{AreChangesTold};
ghost use Rattle.c_documents.specs.Numbers.{change_numbers};

use crate::numbers::{ChangeNumbers, change_numbers};
use crate::told_document::ToldDocument;
use bg_types::Change;
use c_answers::{MEMORY, OK, SHORT_BUFFER};

/// Lists what the last edit, take or merge changed.
pub fn tell_changes(held: &ToldDocument, out: &mut [ChangeNumbers], count: &mut usize) -> u32
    ensures { AreChangesTold held.now out.old out.new count.new result }
{
    *count = 0;
    if held.lost {
        return MEMORY;
    }
    let changes = held.told.as_slice();
    *count = changes.len();
    if out.len() < changes.len() {
        return SHORT_BUFFER;
    }
    write_changes(changes, out);
    OK
}

/// Writes the numbers of changes to the front of a list, which has room for them.
fn write_changes(changes: &[Change], out: &mut [ChangeNumbers])
    requires { length changes.now ≤ length out.old }
    ensures { out.new ≡ map change_numbers changes.now ++ drop (length changes.now) out.old }
{
    for number in 0..changes.len() {
        out[number] = change_numbers(&changes[number]);
    }
}

//! The view that the shows of a run draw from, and its room.

ghost use Rattle.std.specs.Prelude.{◌≡◌, IfOk};
ghost use Rattle.view_cache.specs.Drawings.{empty_view};
ghost use Rattle.desk_runs.specs.Room.{puts_separator, separators, room_in};

use super::setting::Setting;
use bg_types::{Bidi, Memory, Op, OpView};
use ucd_files::Tables;
use view_cache::View;

/// An empty view with room for the paragraphs of all desks, up to 1,000,000, its table hashed with
/// this key.
pub fn new_view<'a>(key: u128, setting: &Setting<'a>) -> Result<View<'a>, Memory>
    ensures { IfOk result (λ view. view ≡ empty_view setting.now.tables.now (room_in setting.now) key) }
{
    View::keyed(setting.alloc, key, setting.tables, room(setting))
}

/// How many paragraphs the texts of all desks can have together, from 1 to 1,000,000. There are as
/// many desks as files.
fn room(setting: &Setting) -> usize
    ensures { result ≡ room_in setting.now }
{
    let mut most: usize = 1;
    for ops in setting.files {
        most = most.saturating_add(separators(setting.tables, ops));
    }
    most.saturating_mul(setting.files.len()).clamp(1, 1_000_000)
}

/// How many operations put in a character that can end a paragraph.
fn separators(tables: &Tables, ops: &[Op]) -> usize
    ensures { result ≡ separators tables.now ops.now }
{
    ops.iter().filter(|op| puts_separator(tables, **op)).count()
}

/// Whether an operation puts in a character that can end a paragraph.
fn puts_separator(tables: &Tables, op: Op) -> bool
    ensures { result ≡ puts_separator tables.now op }
{
    match op.view() {
        OpView::Insert { ch, .. } => tables.bidi(ch) == Bidi::B,
        OpView::Erase { .. } => false,
    }
}

//! The rows that a document shows, and their entries.

ghost use Rattle.std.specs.Prelude.{◌≡◌, Some, None, slice_get};
ghost use Rattle.std.specs.Option.{IfSome, MatchOption};
ghost use Rattle.c_answers.specs.Copying.{AreListed};
ghost use Rattle.c_pictures.specs.Numbers.{entry_numbers, no_row, row_numbers};

use c_answers::EMPTY_HANDLE;
use c_documents::{DocumentHandle, tell_entries, tell_row};
use c_pictures::{EntryNumbers, RowNumbers};
use std::alloc::Global;

/// Writes what a row that is shown has, counted from 0 at the top.
#[unsafe(no_mangle)]
pub extern "C" fn bidigrid_document_row(
    alloc: Global,
    document: &mut DocumentHandle,
    number: usize,
    out: &mut RowNumbers,
) -> u32
    ensures written { IfSome document.old.held (λ d. MatchOption (slice_get d.document.window.rows number) ((result ≡ 108) × (out.new ≡ no_row)) (λ r. (result ≡ 0) × (out.new ≡ row_numbers r))) }
    ensures same { document.new.held ≡ document.old.held }
    ensures empty { document.old.held ≡ None → (result ≡ 101) × (out.new ≡ no_row) }
{
    let Some(held) = document.take(alloc) else {
        *out = RowNumbers::NONE;
        return EMPTY_HANDLE;
    };
    let answer = tell_row(&held.document, number, out);
    document.put(alloc, held);
    answer
}

/// Writes what all entries of a row that is shown have, from the left.
#[unsafe(no_mangle)]
pub extern "C" fn bidigrid_document_entries(
    alloc: Global,
    document: &mut DocumentHandle,
    row: usize,
    out: &mut [EntryNumbers],
    count: &mut usize,
) -> u32
    ensures written { IfSome document.old.held (λ d. MatchOption (slice_get d.document.window.rows row) ((result ≡ 108) × (out.new ≡ out.old) × (count.new ≡ 0)) (λ r. AreListed entry_numbers r.entries out.old out.new count.new result)) }
    ensures same { document.new.held ≡ document.old.held }
    ensures empty { document.old.held ≡ None → (result ≡ 101) × (out.new ≡ out.old) × (count.new ≡ 0) }
{
    let Some(held) = document.take(alloc) else {
        *count = 0;
        return EMPTY_HANDLE;
    };
    let answer = tell_entries(&held.document, row, out, count);
    document.put(alloc, held);
    answer
}

//! Prints of what a document shows.

ghost use Rattle.std.specs.Prelude.{◌≡◌, None, slice_get};
ghost use Rattle.std.specs.Option.{IfSome, MatchOption};
ghost use Rattle.cell_grid.specs.Print.{printed, printed_row, printed_sizes};
ghost use Rattle.live_document.specs.Documents.{shown_grid};
ghost use Rattle.c_answers.specs.Copying.{IsCopied, IsLeft, IsPrinted};

use c_answers::EMPTY_HANDLE;
use c_documents::{DocumentHandle, tell_entry_sizes, tell_print, tell_row_print};
use std::alloc::Global;

/// Writes all rows that are shown: the cells of each in UTF-8, and a line feed after each.
#[unsafe(no_mangle)]
pub extern "C" fn bidigrid_document_print(
    alloc: Global,
    document: &mut DocumentHandle,
    out: &mut [u8],
    size: &mut usize,
) -> u32
    ensures written { IfSome document.old.held (λ d. IsPrinted (printed (shown_grid d.document)) out.old out.new size.new result) }
    ensures same { document.new.held ≡ document.old.held }
    ensures empty { document.old.held ≡ None → (result ≡ 101) × IsLeft out.old out.new size.new }
{
    let Some(held) = document.take(alloc) else {
        *size = 0;
        return EMPTY_HANDLE;
    };
    let answer = tell_print(alloc, &held.document, out, size);
    document.put(alloc, held);
    answer
}

/// Writes a row that is shown: its cells in UTF-8, and a line feed.
#[unsafe(no_mangle)]
pub extern "C" fn bidigrid_document_row_print(
    alloc: Global,
    document: &mut DocumentHandle,
    number: usize,
    out: &mut [u8],
    size: &mut usize,
) -> u32
    ensures written { IfSome document.old.held (λ d. MatchOption (slice_get d.document.window.rows number) ((result ≡ 108) × IsLeft out.old out.new size.new) (λ _. IsPrinted (printed_row (shown_grid d.document) number) out.old out.new size.new result)) }
    ensures same { document.new.held ≡ document.old.held }
    ensures empty { document.old.held ≡ None → (result ≡ 101) × IsLeft out.old out.new size.new }
{
    let Some(held) = document.take(alloc) else {
        *size = 0;
        return EMPTY_HANDLE;
    };
    let answer = tell_row_print(alloc, &held.document, number, out, size);
    document.put(alloc, held);
    answer
}

/// Writes of each entry of a row that is shown, from the left, how many bytes its cells have in the row's print.
#[unsafe(no_mangle)]
pub extern "C" fn bidigrid_document_entry_sizes(
    alloc: Global,
    document: &mut DocumentHandle,
    row: usize,
    sizes: &mut [usize],
    count: &mut usize,
) -> u32
    ensures written { IfSome document.old.held (λ d. MatchOption (slice_get d.document.window.rows row) ((result ≡ 108) × IsLeft sizes.old sizes.new count.new) (λ _. IsCopied (printed_sizes (shown_grid d.document) row) sizes.old sizes.new count.new result)) }
    ensures same { document.new.held ≡ document.old.held }
    ensures empty { document.old.held ≡ None → (result ≡ 101) × IsLeft sizes.old sizes.new count.new }
{
    let Some(held) = document.take(alloc) else {
        *count = 0;
        return EMPTY_HANDLE;
    };
    let answer = tell_entry_sizes(&held.document, row, sizes, count);
    document.put(alloc, held);
    answer
}

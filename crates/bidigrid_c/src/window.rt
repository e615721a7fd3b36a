//! What a document shows: a window round a place.

ghost use Rattle.std.specs.Prelude.{◌≡◌, None};
ghost use Rattle.std.specs.Option.{IfSome};
ghost use Rattle.c_documents.specs.Documents.{IsNotShown, IsShown};
ghost use Rattle.c_documents.specs.Numbers.{nothing_shown};

use c_answers::EMPTY_HANDLE;
use c_documents::{DocumentHandle, WindowNumbers, nothing_shown, show_in};
use std::alloc::Global;

/// Shows the rows from so many above the row of a place to so many below it.
#[unsafe(no_mangle)]
pub extern "C" fn bidigrid_document_show(
    alloc: Global,
    document: &mut DocumentHandle,
    place: usize,
    above: usize,
    below: usize,
    out: &mut WindowNumbers,
) -> u32
    ensures ok { result ≡ 0 → IfSome document.old.held (λ d. IfSome document.new.held (λ e. IsShown d place above below e out.new)) }
    ensures err { (result ≡ 0 → ⊥) → out.new ≡ nothing_shown }
    ensures fault { (result ≡ 0 → ⊥) → IfSome document.old.held (λ d. IfSome document.new.held (λ e. IsNotShown d place above below e result)) }
    ensures empty { document.old.held ≡ None → (result ≡ 101) × (document.new.held ≡ None) }
    ensures held { document.new.held ≡ None → document.old.held ≡ None }
{
    let Some(mut held) = document.take(alloc) else {
        *out = nothing_shown();
        return EMPTY_HANDLE;
    };
    let answer = show_in(&mut held, place, above, below, out);
    document.put(alloc, held);
    answer
}

//! Documents take messages, and tell what these changed.

ghost use Rattle.std.specs.Prelude.{◌≡◌, None};
ghost use Rattle.std.specs.Option.{IfSome};
ghost use Rattle.c_desks.specs.Desks.{IsTooLong};
ghost use Rattle.c_documents.specs.Documents.{IsHeard};
ghost use Rattle.c_desks.specs.Numbers.{none_taken};

use c_answers::EMPTY_HANDLE;
use c_desks::{Taken, none_taken};
use c_documents::{DocumentHandle, take_in};
use std::alloc::Global;

/// Lets a document take a message: its bytes are read whole first, and then its operations are taken in order, up to
/// the first that is refused. What they changed is told by `bidigrid_document_changes`.
#[unsafe(no_mangle)]
pub extern "C" fn bidigrid_document_take(
    alloc: Global,
    document: &mut DocumentHandle,
    bytes: &[u8],
    taken: &mut Taken,
) -> u32
    ensures taken { IfSome document.old.held (λ d. IfSome document.new.held (λ e. IsHeard d bytes.now e taken.new result)) }
    ensures too_long { IfSome document.old.held (λ _. IsTooLong bytes.now → result ≡ 116) }
    ensures empty { document.old.held ≡ None → (result ≡ 101) × (document.new.held ≡ None) × (taken.new ≡ none_taken 0) }
    ensures held { document.new.held ≡ None → document.old.held ≡ None }
{
    let Some(mut held) = document.take(alloc) else {
        *taken = none_taken(0);
        return EMPTY_HANDLE;
    };
    let answer = take_in(alloc, &mut held, bytes, taken);
    document.put(alloc, held);
    answer
}

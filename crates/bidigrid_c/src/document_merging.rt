//! Documents take all that another one has, and tell what that changed.

ghost use Rattle.std.specs.Prelude.{◌≡◌, None};
ghost use Rattle.std.specs.Option.{IfSome};
ghost use Rattle.c_documents.specs.Documents.{IsMetWith, IsSilent};

use c_answers::{EMPTY_HANDLE, OK};
use c_documents::{DocumentHandle, merge_from};
use std::alloc::Global;

/// Lets a document take all that another one has.
#[unsafe(no_mangle)]
pub extern "C" fn bidigrid_document_merge(
    alloc: Global,
    document: &mut DocumentHandle,
    other: &mut DocumentHandle,
) -> u32
    ensures merged { IfSome other.old.held (λ o. IfSome document.old.held (λ d. IfSome document.new.held (λ e. IsMetWith d o.document.desk e result))) }
    ensures other { other.new.held ≡ other.old.held }
    ensures empty { document.old.held ≡ None → (result ≡ 101) × (document.new.held ≡ None) }
    ensures empty_other { other.old.held ≡ None → (result ≡ 101) × (document.new.held ≡ document.old.held) }
    ensures held { document.new.held ≡ None → document.old.held ≡ None }
{
    let Some(from) = other.take(alloc) else {
        return EMPTY_HANDLE;
    };
    let answer = merge_from(alloc, document, from.document.desk());
    other.put(alloc, from);
    answer
}

/// Lets a document take all that it has itself: it stays as it is, and nothing is told.
#[unsafe(no_mangle)]
pub extern "C" fn bidigrid_document_merge_itself(
    alloc: Global,
    document: &mut DocumentHandle,
) -> u32
    ensures merged { IfSome document.old.held (λ d. (result ≡ 0) × IfSome document.new.held (λ e. (e.document ≡ d.document) × IsSilent e)) }
    ensures empty { document.old.held ≡ None → (result ≡ 101) × (document.new.held ≡ None) }
    ensures held { document.new.held ≡ None → document.old.held ≡ None }
{
    let Some(mut held) = document.take(alloc) else {
        return EMPTY_HANDLE;
    };
    held.forget();
    document.put(alloc, held);
    OK
}

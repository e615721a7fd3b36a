//! What the last edit, take or merge of a document changed in its text.

ghost use Rattle.std.specs.Prelude.{◌≡◌, None};
ghost use Rattle.std.specs.Option.{IfSome};
ghost use Rattle.c_documents.specs.Documents.{AreChangesTold};

use c_answers::EMPTY_HANDLE;
use c_documents::{ChangeNumbers, DocumentHandle, tell_changes};
use std::alloc::Global;

/// Lists what the last edit, take or merge changed in the text, in order.
#[unsafe(no_mangle)]
pub extern "C" fn bidigrid_document_changes(
    alloc: Global,
    document: &mut DocumentHandle,
    out: &mut [ChangeNumbers],
    count: &mut usize,
) -> u32
    ensures told { IfSome document.old.held (λ d. AreChangesTold d out.old out.new count.new result) }
    ensures same { document.new.held ≡ document.old.held }
    ensures empty { document.old.held ≡ None → (result ≡ 101) × (out.new ≡ out.old) × (count.new ≡ 0) }
{
    let Some(held) = document.take(alloc) else {
        *count = 0;
        return EMPTY_HANDLE;
    };
    let answer = tell_changes(&held, out, count);
    document.put(alloc, held);
    answer
}

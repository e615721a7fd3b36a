//! Edits of documents: a text is typed, characters are erased or replaced.

ghost use Rattle.std.specs.Prelude.{◌≡◌, ◌-◌, [], None, length};
ghost use Rattle.std.specs.Option.{IfSome};
ghost use Rattle.std.specs.Str.{chars, IsUtf8};
ghost use Rattle.c_desks.specs.Desks.{IsErased, IsReplaced, IsRefusedErasing, IsRefusedReplacing, IsUnwritten};
ghost use Rattle.c_documents.specs.Documents.{IsEdited};

use c_answers::EMPTY_HANDLE;
use c_documents::{DocumentHandle, erase_in, replace_in};
use std::alloc::Global;

/// Types a text at a place, and writes the message for the other desks: all of it, or nothing. Then nothing is shown.
#[unsafe(no_mangle)]
pub extern "C" fn bidigrid_document_insert(
    alloc: Global,
    document: &mut DocumentHandle,
    place: usize,
    text: &[u8],
    out: &mut [u8],
    size: &mut usize,
) -> u32
    ensures ok { result ≡ 0 → IfSome document.old.held (λ d. IfSome document.new.held (λ e. IsReplaced d.document.desk place place (chars text.now) e.document.desk out.old out.new size.new × IsEdited d place place (chars text.now) e)) }
    ensures utf8 { result ≡ 0 → IsUtf8 text.now }
    ensures err { (result ≡ 0 → ⊥) → (document.new.held ≡ document.old.held) × IsUnwritten out.old out.new size.new result }
    ensures fault { (result ≡ 0 → ⊥) → IfSome document.old.held (λ d. IsRefusedReplacing d.document.desk place place text.now (length out.old) size.new result) }
    ensures empty { document.old.held ≡ None → (result ≡ 101) × (document.new.held ≡ None) }
    ensures held { document.new.held ≡ None → document.old.held ≡ None }
{
    let Some(mut held) = document.take(alloc) else {
        *size = 0;
        return EMPTY_HANDLE;
    };
    let answer = replace_in(alloc, &mut held, place, place, text, out, size);
    document.put(alloc, held);
    answer
}

/// Erases the characters from one place up to another, and writes the message for the other desks. Then nothing is shown.
#[unsafe(no_mangle)]
pub extern "C" fn bidigrid_document_erase(
    alloc: Global,
    document: &mut DocumentHandle,
    from: usize,
    to: usize,
    out: &mut [u8],
    size: &mut usize,
) -> u32
    ensures ok { result ≡ 0 → IfSome document.old.held (λ d. IfSome document.new.held (λ e. IsErased d.document.desk from to e.document.desk out.old out.new size.new × IsEdited d from to [] e)) }
    ensures err { (result ≡ 0 → ⊥) → (document.new.held ≡ document.old.held) × IsUnwritten out.old out.new size.new result }
    ensures fault { (result ≡ 0 → ⊥) → IfSome document.old.held (λ d. IsRefusedErasing d.document.desk from to (length out.old) size.new result) }
    ensures empty { document.old.held ≡ None → (result ≡ 101) × (document.new.held ≡ None) }
    ensures held { document.new.held ≡ None → document.old.held ≡ None }
{
    let Some(mut held) = document.take(alloc) else {
        *size = 0;
        return EMPTY_HANDLE;
    };
    let answer = erase_in(alloc, &mut held, from, to, out, size);
    document.put(alloc, held);
    answer
}

/// Erases the characters from one place up to another, types a text where they began, and writes the message for the
/// other desks: all of it, or nothing. Then nothing is shown.
#[unsafe(no_mangle)]
pub extern "C" fn bidigrid_document_replace(
    alloc: Global,
    document: &mut DocumentHandle,
    from: usize,
    to: usize,
    text: &[u8],
    out: &mut [u8],
    size: &mut usize,
) -> u32
    ensures ok { result ≡ 0 → IfSome document.old.held (λ d. IfSome document.new.held (λ e. IsReplaced d.document.desk from to (chars text.now) e.document.desk out.old out.new size.new × IsEdited d from to (chars text.now) e)) }
    ensures utf8 { result ≡ 0 → IsUtf8 text.now }
    ensures err { (result ≡ 0 → ⊥) → (document.new.held ≡ document.old.held) × IsUnwritten out.old out.new size.new result }
    ensures fault { (result ≡ 0 → ⊥) → IfSome document.old.held (λ d. IsRefusedReplacing d.document.desk from to text.now (length out.old) size.new result) }
    ensures empty { document.old.held ≡ None → (result ≡ 101) × (document.new.held ≡ None) }
    ensures held { document.new.held ≡ None → document.old.held ≡ None }
{
    let Some(mut held) = document.take(alloc) else {
        *size = 0;
        return EMPTY_HANDLE;
    };
    let answer = replace_in(alloc, &mut held, from, to, text, out, size);
    document.put(alloc, held);
    answer
}

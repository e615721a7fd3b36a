//! Documents: made, opened from a file, drawn at another width, given memory in advance, freed, and how many rows they keep.

ghost use Rattle.std.specs.Prelude.{◌≡◌, ◌⊎◌, ◌<◌, Some, None};
ghost use Rattle.std.specs.Option.{IfSome};
ghost use Rattle.bg_types.specs.declared.class.Base.{Base as BaseValue};
ghost use Rattle.desk_replica.specs.Desk.{fresh};
ghost use Rattle.c_pictures.specs.Bases.{base_of};
ghost use Rattle.c_documents.specs.Documents.{IsMade, IsNotMade, IsOpened, IsNotOpened, IsDrawnAt, IsPaidFor, KeepsRows};
ghost use Rattle.c_pictures.specs.Drawing.{IsWidth};
ghost use Rattle.c_desks.specs.Numbers.{IsSite, none_taken};

use c_answers::{EMPTY_HANDLE, OK};
use c_desks::{Taken, none_taken};
use c_documents::{
    DocumentHandle, keep_rows_in, new_document, opened, reserve_in, resize_in, set_base_in,
};
use c_pictures::{TablesHandle, base_of};
use std::alloc::Global;

/// Makes a document of a site without operations. What the handle held is freed.
#[unsafe(no_mangle)]
pub extern "C" fn bidigrid_document_new(
    alloc: Global,
    out: &mut DocumentHandle,
    tables: &mut TablesHandle,
    site: u32,
    width: u32,
    base: u32,
    key_high: u64,
    key_low: u64,
) -> u32
    ensures ok { result ≡ 0 → IfSome tables.old.held (λ t. IfSome out.new.held (IsMade t width base (fresh site))) }
    ensures held { result ≡ 0 → out.new.held ≡ None → ⊥ }
    ensures sound { result ≡ 0 → IsSite site × IsWidth width }
    ensures err { (result ≡ 0 → ⊥) → out.new.held ≡ out.old.held }
    ensures fault { (result ≡ 0 → ⊥) → IfSome tables.old.held (λ _. IsNotMade site width base result) }
    ensures empty { tables.old.held ≡ None → result ≡ 101 }
    ensures tables { tables.new.held ≡ tables.old.held }
{
    let Some(held) = tables.take(alloc) else {
        return EMPTY_HANDLE;
    };
    let made = new_document(alloc, &held, site, width, base, key_high, key_low);
    tables.put(alloc, held);
    match made {
        Ok(document) => {
            out.put(alloc, document);
            OK
        }
        Err(fault) => fault,
    }
}

/// Makes a document of a site that has taken a file. What the handle held is freed.
#[unsafe(no_mangle)]
pub extern "C" fn bidigrid_document_open(
    alloc: Global,
    out: &mut DocumentHandle,
    tables: &mut TablesHandle,
    site: u32,
    width: u32,
    base: u32,
    key_high: u64,
    key_low: u64,
    file: &[u8],
    taken: &mut Taken,
) -> u32
    ensures ok { result ≡ 0 → IfSome tables.old.held (λ t. IfSome out.new.held (IsOpened t site width base file.now taken.new)) }
    ensures held { result ≡ 0 → out.new.held ≡ None → ⊥ }
    ensures sound { result ≡ 0 → IsSite site × IsWidth width }
    ensures err { (result ≡ 0 → ⊥) → out.new.held ≡ out.old.held }
    ensures fault { (result ≡ 0 → ⊥) → IfSome tables.old.held (λ _. IsNotOpened site width base file.now taken.new result) }
    ensures empty { tables.old.held ≡ None → (result ≡ 101) × (taken.new ≡ none_taken 0) }
    ensures tables { tables.new.held ≡ tables.old.held }
{
    *taken = none_taken(0);
    let Some(held) = tables.take(alloc) else {
        return EMPTY_HANDLE;
    };
    let made = opened(
        alloc, &held, site, width, base, key_high, key_low, file, taken,
    );
    tables.put(alloc, held);
    match made {
        Ok(document) => {
            out.put(alloc, document);
            OK
        }
        Err(fault) => fault,
    }
}

/// Frees what a handle holds.
#[unsafe(no_mangle)]
pub extern "C" fn bidigrid_document_free(alloc: Global, document: &mut DocumentHandle)
    ensures { document.new.held ≡ None }
{
    if let Some(held) = document.take(alloc) {
        drop(held);
    }
}

/// Draws a document at another width from now on. Then nothing is shown.
#[unsafe(no_mangle)]
pub extern "C" fn bidigrid_document_resize(
    alloc: Global,
    document: &mut DocumentHandle,
    width: u32,
) -> u32
    ensures ok { result ≡ 0 → IfSome document.old.held (λ d. IfSome document.new.held (λ e. IsWidth width × IsDrawnAt d width d.document.base e)) }
    ensures err { (result ≡ 0 → ⊥) → document.new.held ≡ document.old.held }
    ensures fault { (result ≡ 0 → ⊥) → IfSome document.old.held (λ _. (result ≡ 105) × (¬ (IsWidth width))) }
    ensures empty { document.old.held ≡ None → (result ≡ 101) × (document.new.held ≡ None) }
    ensures held { document.new.held ≡ None → document.old.held ≡ None }
{
    let Some(mut held) = document.take(alloc) else {
        return EMPTY_HANDLE;
    };
    let answer = resize_in(&mut held, width);
    document.put(alloc, held);
    answer
}

/// Draws a document at another base direction from now on. Then nothing is shown.
#[unsafe(no_mangle)]
pub extern "C" fn bidigrid_document_set_base(
    alloc: Global,
    document: &mut DocumentHandle,
    base: u32,
) -> u32
    ensures ok { result ≡ 0 → IfSome document.old.held (λ d. IfSome document.new.held (λ e. (direction : BaseValue) × (base_of base ≡ Some direction) × IsDrawnAt d d.document.width direction e)) }
    ensures err { (result ≡ 0 → ⊥) → document.new.held ≡ document.old.held }
    ensures fault { (result ≡ 0 → ⊥) → IfSome document.old.held (λ _. (result ≡ 106) × (base_of base ≡ None)) }
    ensures empty { document.old.held ≡ None → (result ≡ 101) × (document.new.held ≡ None) }
    ensures held { document.new.held ≡ None → document.old.held ≡ None }
{
    let Some(mut held) = document.take(alloc) else {
        return EMPTY_HANDLE;
    };
    let answer = set_base_in(&mut held, base);
    document.put(alloc, held);
    answer
}

/// Lets so many rows be kept from now on.
#[unsafe(no_mangle)]
pub extern "C" fn bidigrid_document_keep_rows(
    alloc: Global,
    document: &mut DocumentHandle,
    rows: usize,
) -> u32
    ensures ok { result ≡ 0 → IfSome document.old.held (λ d. IfSome document.new.held (KeepsRows d rows)) }
    ensures err { (result ≡ 0 → ⊥) → document.new.held ≡ document.old.held }
    ensures fault { (result ≡ 0 → ⊥) → IfSome document.old.held (λ _. (result ≡ 115) × (1_000_000 < rows)) }
    ensures empty { document.old.held ≡ None → (result ≡ 101) × (document.new.held ≡ None) }
    ensures held { document.new.held ≡ None → document.old.held ≡ None }
{
    let Some(mut held) = document.take(alloc) else {
        return EMPTY_HANDLE;
    };
    let answer = keep_rows_in(&mut held, rows);
    document.put(alloc, held);
    answer
}

/// Reserves memory for new operations.
#[unsafe(no_mangle)]
pub extern "C" fn bidigrid_document_reserve(
    alloc: Global,
    document: &mut DocumentHandle,
    operations: usize,
) -> u32
    ensures ok { result ≡ 0 → IfSome document.old.held (λ d. IfSome document.new.held (IsPaidFor d operations)) }
    ensures err { (result ≡ 0 → ⊥) → document.new.held ≡ document.old.held }
    ensures fault { (result ≡ 0 → ⊥) → IfSome document.old.held (λ d. ((result ≡ 9) × (d.document.desk.spare < operations)) ⊎ ((result ≡ 115) × (1_000_000 < operations))) }
    ensures empty { document.old.held ≡ None → (result ≡ 101) × (document.new.held ≡ None) }
    ensures held { document.new.held ≡ None → document.old.held ≡ None }
{
    let Some(mut held) = document.take(alloc) else {
        return EMPTY_HANDLE;
    };
    let answer = reserve_in(&mut held, operations);
    document.put(alloc, held);
    answer
}

//! Documents: made, opened from a file, drawn at another width, given memory in advance, freed, and how many rows they keep.

ghost use Rattle.std.specs.Prelude.{◌≡◌, ◌⊎◌, ◌<◌, Some, None, IfOk, IfErr};
ghost use Rattle.bg_types.specs.declared.class.Base.{Base as BaseValue};
ghost use Rattle.desk_replica.specs.Desk.{fresh};
ghost use Rattle.c_pictures.specs.Bases.{base_of};
ghost use Rattle.c_documents.specs.Documents.{IsMade, IsNotMade, IsOpened, IsNotOpened, IsDrawnAt, IsPaidFor, KeepsRows};
ghost use Rattle.c_pictures.specs.Drawing.{IsWidth};
ghost use Rattle.c_desks.specs.Numbers.{IsSite, none_taken};

use crate::told_document::ToldDocument;
use bg_types::Memory;
use c_answers::{BAD_BASE, BAD_WIDTH, MEMORY, OK, TOO_MANY};
use c_desks::{Desk, MOST_KEPT, Taken, fresh_desk, none_taken, take_in};
use c_pictures::{base_of, width_of};
use live_document::Document;
use pictures::SharedTables;
use std::alloc::Global;

/// A document of a site without operations, for a handle, or the number of the fault.
pub fn new_document(
    alloc: Global,
    tables: &SharedTables,
    site: u32,
    width: u32,
    base: u32,
    key_high: u64,
    key_low: u64,
) -> Result<Box<ToldDocument>, u32>
    ensures ok { IfOk result (λ boxed. IsMade tables.now width base (fresh site) boxed.value × IsSite site × IsWidth width) }
    ensures fault { IfErr result (IsNotMade site width base) }
    ensures some { IfErr result (λ fault. 0 < fault) }
{
    let desk = fresh_desk(alloc, site, key_high, key_low)?;
    document_of(alloc, tables, width, base, desk)
}

/// A document of a site that has taken a file, for a handle, or the number of the fault.
pub fn opened(
    alloc: Global,
    tables: &SharedTables,
    site: u32,
    width: u32,
    base: u32,
    key_high: u64,
    key_low: u64,
    file: &[u8],
    taken: &mut Taken,
) -> Result<Box<ToldDocument>, u32>
    requires { taken.old ≡ none_taken 0 }
    ensures ok { IfOk result (λ boxed. IsOpened tables.now site width base file.now taken.new boxed.value × IsSite site × IsWidth width) }
    ensures fault { IfErr result (IsNotOpened site width base file.now taken.new) }
    ensures some { IfErr result (λ fault. 0 < fault) }
{
    let mut desk = fresh_desk(alloc, site, key_high, key_low)?;
    let answer = take_in(alloc, &mut desk, file, taken);
    if answer != OK {
        return Err(answer);
    }
    match document_of(alloc, tables, width, base, desk) {
        Ok(document) => Ok(document),
        Err(fault) => {
            *taken = none_taken(0);
            Err(fault)
        }
    }
}

/// The document of a desk, for a handle, or the number of the fault.
fn document_of(
    alloc: Global,
    tables: &SharedTables,
    width: u32,
    base: u32,
    desk: Desk,
) -> Result<Box<ToldDocument>, u32>
    ensures ok { IfOk result (λ boxed. IsMade tables.now width base desk boxed.value × IsWidth width) }
    ensures fault { IfErr result (λ fault. ((fault ≡ 9) × IsWidth width × (¬ (base_of base ≡ None))) ⊎ (((fault ≡ 105) × (¬ (IsWidth width))) ⊎ ((fault ≡ 106) × (base_of base ≡ None)))) }
    ensures some { IfErr result (λ fault. 0 < fault) }
{
    let Some(width) = width_of(width) else {
        return Err(BAD_WIDTH);
    };
    let Some(base) = base_of(base) else {
        return Err(BAD_BASE);
    };
    let Ok(tables) = tables.to_rc() else {
        return Err(MEMORY);
    };
    let Ok(document) = Document::of(alloc, desk, tables, width, base) else {
        return Err(MEMORY);
    };
    let Ok(told) = ToldDocument::of(alloc, document) else {
        return Err(MEMORY);
    };
    match Box::new(alloc, told) {
        Ok(boxed) => Ok(boxed),
        Err(_) => Err(MEMORY),
    }
}

/// Draws a document at another width from now on.
pub fn resize_in(held: &mut ToldDocument, width: u32) -> u32
    ensures ok { result ≡ 0 → IsWidth width × IsDrawnAt held.old width held.old.document.base held.new }
    ensures err { (result ≡ 0 → ⊥) → held.new ≡ held.old }
    ensures fault { (result ≡ 0 → ⊥) → (result ≡ 105) × (¬ (IsWidth width)) }
{
    match width_of(width) {
        Some(width) => {
            held.document.resize(width);
            OK
        }
        None => BAD_WIDTH,
    }
}

/// Draws a document at the base direction with this number from now on.
pub fn set_base_in(held: &mut ToldDocument, base: u32) -> u32
    ensures ok { result ≡ 0 → (direction : BaseValue) × (base_of base ≡ Some direction) × IsDrawnAt held.old held.old.document.width direction held.new }
    ensures err { (result ≡ 0 → ⊥) → held.new ≡ held.old }
    ensures fault { (result ≡ 0 → ⊥) → (result ≡ 106) × (base_of base ≡ None) }
{
    match base_of(base) {
        Some(base) => {
            held.document.set_base(base);
            OK
        }
        None => BAD_BASE,
    }
}

/// Lets so many rows be kept from now on, at most 1,000,000.
pub fn keep_rows_in(held: &mut ToldDocument, rows: usize) -> u32
    ensures ok { result ≡ 0 → KeepsRows held.old rows held.new }
    ensures err { (result ≡ 0 → ⊥) → held.new ≡ held.old }
    ensures fault { (result ≡ 0 → ⊥) → (result ≡ 115) × (1_000_000 < rows) }
{
    if rows > MOST_KEPT {
        return TOO_MANY;
    }
    held.document.keep_rows(rows);
    OK
}

/// Reserves memory for so many new operations, at most 1,000,000.
pub fn reserve_in(held: &mut ToldDocument, operations: usize) -> u32
    ensures ok { result ≡ 0 → IsPaidFor held.old operations held.new }
    ensures err { (result ≡ 0 → ⊥) → held.new ≡ held.old }
    ensures fault { (result ≡ 0 → ⊥) → ((result ≡ 9) × (held.old.document.desk.spare < operations)) ⊎ ((result ≡ 115) × (1_000_000 < operations)) }
{
    if operations > MOST_KEPT {
        return TOO_MANY;
    }
    match held.document.reserve(operations) {
        Ok(()) => OK,
        Err(Memory) => MEMORY,
    }
}

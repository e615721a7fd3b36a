//! A document from its first call on.

use crate::documents::small_tables;
use crate::other::KEY;
use bg_types::{Base, Memory};
use live_document::Document;
use std::alloc::Global;

/// A new document of site 7.
fn new_document(alloc: Global) -> Result<Document, Memory> {
    Document::new(alloc, 7, small_tables(alloc)?, 17, Base::Auto, KEY)
}

/// How many rows a window has that might have 19.
fn rows_shown(document: &mut Document) -> Result<usize, Memory> {
    document.show(0, 9, 9)?;
    Ok(document.window().len())
}

/// Three characters are typed that are paid for.
fn type_three(alloc: Global, document: &mut Document) -> Result<(), Memory> {
    document.reserve(3)?;
    let mut made = Vec::new(alloc);
    document.type_text(0, "ab", &mut made).map_err(|_| Memory)?;
    document.type_char(document.len(), 'c').map_err(|_| Memory)?;
    Ok(())
}

/// Counter and site of the third character.
fn third(document: &mut Document) -> Option<(u32, u16)> {
    if document.len() < 3 {
        return None;
    }
    let id = document.id_at(2);
    Some((id.counter(), id.site()))
}

/// The rows of a new document, and who its third character is.
fn from_the_start(alloc: Global) -> Result<(usize, Option<(u32, u16)>), Memory> {
    let mut document = new_document(alloc)?;
    let rows = rows_shown(&mut document)?;
    type_three(alloc, &mut document)?;
    Ok((rows, third(&mut document)))
}

#[test]
fn a_new_document_has_a_row_and_takes_what_its_site_types(rt: HostRuntime) -> Result<(), Memory> {
    let seen = from_the_start(rt.alloc())?;
    assert_eq!(rt; seen, (1, Some((3, 7))));
    Ok(())
}

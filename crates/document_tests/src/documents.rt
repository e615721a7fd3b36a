//! Documents that tests make, and what another desk sends them.

ghost use Rattle.std.specs.Prelude.{◌≤◌};

use crate::other::{KEY, desk_of};
use bg_types::{Base, Memory, Op};
use live_document::Document;
use std::alloc::Global;
use std::rc::Rc;
use ucd_files::Tables;
use ucd_files::vectors::SMALL;

/// The tables of the small files.
pub fn small_tables(alloc: Global) -> Result<Rc<Tables>, Memory> {
    let Ok(tables) = SMALL.load(alloc) else {
        return Err(Memory);
    };
    Ok(Rc::new(alloc, tables)?)
}

/// A document of a text that its site typed, drawn at this width. It has shown nothing yet.
pub fn document_of(
    alloc: Global,
    tables: Rc<Tables>,
    width: u16,
    text: &str,
) -> Result<Document, Memory>
    requires at_least { 2 ≤ width }
    requires at_most { width ≤ 500 }
{
    let mut document = Document::new(alloc, 1, tables, width, Base::Auto, KEY)?;
    let mut made = Vec::new(alloc);
    document.type_text(0, text, &mut made).map_err(|_| Memory)?;
    Ok(document)
}

/// What a desk of site 2 sends that types a text.
pub fn sent(alloc: Global, text: &str) -> Result<Vec<Op>, Memory> {
    let mut desk = desk_of(alloc, 2);
    let mut made = Vec::new(alloc);
    desk.type_text(0, text, &mut made).map_err(|_| Memory)?;
    Ok(made)
}

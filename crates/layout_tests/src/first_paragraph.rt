//! The first paragraph of a text, which many rows are about.

use crate::pieces::{Pieces, text_of};
use crate::rows::Row;
use bg_types::Memory;
use paragraphs::{Para, split};
use std::alloc::Global;
use ucd_files::Tables;

/// What is seen of a paragraph.
pub trait OfParagraph {
    /// Whether it is seen of this one.
    fn is_of(&self, alloc: Global, tables: &Tables, para: &Para) -> Result<bool, Memory>;
}

/// Whether this is seen of the first paragraph of a text.
fn is_of_first<P: OfParagraph>(
    alloc: Global,
    tables: &Tables,
    text: &str,
    seen: &P,
) -> Result<bool, Memory> {
    let paragraphs = split(alloc, tables, text)?;
    match paragraphs.first() {
        Some(para) => seen.is_of(alloc, tables, para),
        None => Ok(false),
    }
}

/// A text, and what is seen of its first paragraph.
pub struct First<P>(pub &'static str, pub P);

impl<P: OfParagraph> Row for First<P> {
    fn comes_out(&self, alloc: Global, tables: &Tables) -> Result<bool, Memory> {
        is_of_first(alloc, tables, self.0, &self.1)
    }
}

/// A text of pieces, and what is seen of its first paragraph.
pub struct FirstOf<P>(pub Pieces, pub P);

impl<P: OfParagraph> Row for FirstOf<P> {
    fn comes_out(&self, alloc: Global, tables: &Tables) -> Result<bool, Memory> {
        let text = text_of(alloc, self.0)?;
        is_of_first(alloc, tables, &text, &self.1)
    }
}

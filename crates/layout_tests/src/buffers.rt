//! Buffers beside `split` of the whole text.

use bg_types::Memory;
use paragraphs::{Para, split};
use std::alloc::Global;
use text_buffer::Buffer;
use ucd_files::Tables;

pub fn is_same(one: &Para, other: &Para) -> bool {
    one.text() == other.text()
        && one.first_byte() == other.first_byte()
        && one.first_place() == other.first_place()
}

/// The text that a buffer keeps.
pub fn text_of(alloc: Global, buffer: &Buffer<u8>) -> Result<String, Memory> {
    let mut text = String::new(alloc);
    for number in 0..buffer.paragraph_count() {
        text.push_str(buffer.paragraph(number).text())?;
    }
    Ok(text)
}

/// Whether a buffer's paragraphs are those that `split` finds in its text, and the paragraph of each place is right.
pub fn is_split(alloc: Global, tables: &Tables, buffer: &Buffer<u8>) -> Result<bool, Memory> {
    let text = text_of(alloc, buffer)?;
    let paras = split(alloc, tables, &text)?;
    let mut right = paras.len() == buffer.paragraph_count()
        && text.len() == buffer.bytes()
        && text.chars().count() == buffer.len();
    for (number, para) in paras.iter().enumerate() {
        right = number < buffer.paragraph_count()
            && is_same(&buffer.paragraph(number), para)
            && right;
    }
    let mut number: usize = 0;
    for place in 0..=buffer.len() {
        let next = number.saturating_add(1);
        if next < paras.len() && paras[next].first_place() <= place {
            number = next;
        }
        right = buffer.paragraph_of(place) == number && right;
    }
    Ok(right)
}

/// A text in which others stand in the place of the characters from one place up to another.
pub fn replaced(
    alloc: Global,
    text: &str,
    from: usize,
    to: usize,
    put: &str,
) -> Result<String, Memory> {
    let mut new = String::new(alloc);
    for (place, ch) in text.chars().enumerate() {
        if place == from {
            new.push_str(put)?;
        }
        if place < from || to <= place {
            new.push(ch)?;
        }
    }
    if text.chars().count() <= from {
        new.push_str(put)?;
    }
    Ok(new)
}

//! Long texts, as pieces that are repeated.

use std::alloc::{AllocError, Global};

/// The pieces of a text, and how often each of them stands there.
pub type Pieces = &'static [(&'static str, usize)];

fn put(text: &mut String, piece: &str, count: usize) -> Result<(), AllocError> {
    for _ in 0..count {
        text.push_str(piece)?;
    }
    Ok(())
}

/// The text of pieces.
pub fn text_of(alloc: Global, pieces: &[(&str, usize)]) -> Result<String, AllocError> {
    let mut text = String::new(alloc);
    for (piece, count) in pieces {
        put(&mut text, piece, *count)?;
    }
    Ok(text)
}

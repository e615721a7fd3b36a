//! Edits that are paid for: with no other memory each is made, and the next window is right.

use crate::documents::{document_of, sent, small_tables};
use crate::walking::shows_round;
use bg_types::{Memory, Op};
use live_document::Document;
use std::alloc::Global;

/// How many operations are paid for: more than the edits make.
const PAID: usize = 100;

/// What is replaced: from a place on so many characters, by others.
const EDITS: [(usize, usize, &str); 9] = [
    (0, 0, "one two\nthree\r\n\u{5D0}\u{5D1} four\nfive"),
    // A line feed between CR and LF, and away again.
    (14, 0, "\n"),
    (14, 1, ""),
    // A paragraph is parted, and joined again.
    (3, 1, "\n"),
    (3, 1, " "),
    // A window at the last, empty paragraph.
    (99, 0, "\n"),
    // Separators alone, and nothing.
    (0, 99, "\r\n\n\u{2029}\r"),
    (0, 99, ""),
    (0, 0, "a\nb\nc"),
];

/// Replaces what is paid for, and shows the window round its end.
fn replace(
    alloc: Global,
    document: &mut Document,
    edit: (usize, usize, &str),
    made: &mut Vec<Op>,
) -> Result<bool, Memory> {
    let length = document.len();
    let from = edit.0.min(length);
    let to = from.saturating_add(edit.1).min(length);
    let stands = document.replace(from, to, edit.2, made).is_ok();
    let end = from.saturating_add(edit.2.chars().count());
    Ok(shows(alloc, document, end)? && stands)
}

/// Whether the window round a place is right, at the second call where a growth of the first one was refused.
fn shows(alloc: Global, document: &mut Document, place: usize) -> Result<bool, Memory> {
    let place = place.min(document.len());
    match shows_round(alloc, document, place, 2, 2) {
        Err(_) => shows_round(alloc, document, place, 2, 2),
        answer => answer,
    }
}

fn replaces_all(alloc: Global, document: &mut Document) -> Result<bool, Memory> {
    let mut made = Vec::with_capacity(alloc, PAID)?;
    document.reserve(PAID)?;
    let mut right = true;
    for edit in EDITS {
        right = replace(alloc, document, edit, &mut made)? && right;
    }
    Ok(right)
}

/// Takes operations that are paid for, and shows the window at the text's start after each.
fn takes_all(alloc: Global, document: &mut Document, ops: &[Op]) -> Result<bool, Memory> {
    let mut right = true;
    for op in ops {
        right = document.take(op).is_ok() && right;
        right = shows(alloc, document, 0)? && right;
    }
    Ok(right)
}

/// Whether all is made that is paid for, and each window after it is right.
fn stands(alloc: Global) -> Result<bool, Memory> {
    let ops = sent(alloc, "six\nseven\n")?;
    let mut document = document_of(alloc, small_tables(alloc)?, 8, "")?;
    let replaced = replaces_all(alloc, &mut document)?;
    Ok(takes_all(alloc, &mut document, &ops)? && replaced)
}

#[test]
fn what_is_paid_for_stands_and_the_next_window_is_right(rt: HostRuntime) -> Result<(), Memory> {
    let right = stands(rt.alloc())?;
    assert_eq!(rt; right, true);
    Ok(())
}

//! Edits by chance at a document.

use crate::chance::Chance;
use bg_types::{Base, Memory, Op};
use live_document::Document;

/// What is typed: words of three scripts, ends of paragraphs, what may stand between a CR and its LF, controls, and marks.
const PIECES: [&str; 24] = [
    "a",
    "word ",
    "two words ",
    "\u{5D0}\u{5D1}\u{5D2} ",
    "\u{5D3}",
    "\u{627}\u{644} ",
    "12",
    "\n",
    "\n",
    "\r",
    "\r\n",
    "\n\r",
    "\u{2029}",
    "x\n",
    "(",
    ")",
    "\u{301}",
    "\u{4E16}\u{754C}",
    "\u{2067}",
    "\u{2069}",
    "\u{202E}",
    "\t",
    "\u{AD}",
    "one\ntwo\r\nthree\n\nfive ",
];

pub fn piece(chance: &mut Chance) -> &'static str {
    PIECES[chance.below(PIECES.len()) % PIECES.len()]
}

/// How many characters an edit types: mostly few, now and then some hundred.
fn stretch(chance: &mut Chance) -> usize {
    if chance.one_in(20) {
        chance.below(1_500)
    } else {
        chance.below(8)
    }
}

/// Types, erases or replaces a range.
fn edit(document: &mut Document, chance: &mut Chance, made: &mut Vec<Op>) -> Result<(), Memory> {
    let length = document.len();
    let from = chance.below(length.saturating_add(1)).min(length);
    let to = from.saturating_add(stretch(chance)).min(length);
    let answer = match chance.below(5) {
        0 => document.erase_range(from, to, made),
        1 => document.replace(from, to, piece(chance), made),
        _ => document.type_text(from, piece(chance), made),
    };
    answer.map_err(|_| Memory)
}

/// The document is drawn at another width and base direction.
fn turn(document: &mut Document, chance: &mut Chance) {
    match chance.below(3) {
        0 => document.resize(2),
        1 => document.resize(17),
        _ => document.resize(80),
    }
    match chance.below(3) {
        0 => document.set_base(Base::Auto),
        1 => document.set_base(Base::Left),
        _ => document.set_base(Base::Right),
    }
}

/// One change at the document: an edit, or now and then another width and base direction.
pub fn change(
    document: &mut Document,
    chance: &mut Chance,
    made: &mut Vec<Op>,
) -> Result<(), Memory> {
    if chance.one_in(8) {
        turn(document, chance);
        return Ok(());
    }
    edit(document, chance, made)
}

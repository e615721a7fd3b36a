//! What no clause says: rows of the standard and of worked examples, and calls that succeed.

use crate::first_paragraph::{First, OfParagraph};
use crate::pieces::{Pieces, text_of};
use crate::rows::{Row, assert_rows};
use bg_types::Base::{Auto, Left, Right};
use bg_types::{Base, Memory};
use bidi_explicit::paragraph_level;
use bidi_weak_neutral::*;
use paragraphs::{Para, split};
use std::alloc::Global;
use std::slice::Iter;
use ucd_files::Tables;

/// Whether these are the next levels, each a digit.
fn are_next(levels: &[u8], digits: &mut Iter<'_, u8>) -> bool {
    let mut right = true;
    for level in levels {
        right = digits.next().copied() == Some(level.wrapping_add(b'0')) && right;
    }
    right
}

/// Whether a paragraph has the next levels.
fn has_next(
    alloc: Global,
    tables: &Tables,
    base: Base,
    para: &Para,
    digits: &mut Iter<'_, u8>,
) -> Result<bool, Memory> {
    match levels(alloc, tables, para, base) {
        Ok(levels) => Ok(are_next(&levels, digits)),
        Err(Memory) => Err(Memory),
    }
}

/// Whether paragraphs have these levels, one paragraph after the other.
fn have_levels(
    alloc: Global,
    tables: &Tables,
    base: Base,
    paragraphs: &[Para],
    digits: &[u8],
) -> Result<bool, Memory> {
    let mut digits = digits.iter();
    let mut right = true;
    for para in paragraphs {
        right = has_next(alloc, tables, base, para, &mut digits)? && right;
    }
    Ok(right && digits.next().is_none())
}

/// Whether the paragraphs of a text have these levels.
fn has_levels(
    alloc: Global,
    tables: &Tables,
    base: Base,
    text: &str,
    digits: &[u8],
) -> Result<bool, Memory> {
    match split(alloc, tables, text) {
        Ok(paragraphs) => have_levels(alloc, tables, base, &paragraphs, digits),
        Err(Memory) => Err(Memory),
    }
}

/// A base direction, a text and its levels, a digit a code point.
struct Leveled(Base, &'static str, &'static str);

impl Row for Leveled {
    fn comes_out(&self, alloc: Global, tables: &Tables) -> Result<bool, Memory> {
        has_levels(alloc, tables, self.0, self.1, self.2.as_bytes())
    }
}

/// A paragraph's own level and those of its code points, a digit each.
struct Resolved(u8, &'static str);

impl OfParagraph for Resolved {
    fn is_of(&self, alloc: Global, tables: &Tables, para: &Para) -> Result<bool, Memory> {
        let mut digits = self.1.as_bytes().iter();
        Ok(
            has_next(alloc, tables, Auto, para, &mut digits)?
                && digits.next().is_none()
                && paragraph_level(tables, para, Auto) == self.0,
        )
    }
}

/// In the last row a body that takes pairs in order of closing gives both square brackets level 1.
const RESOLVED: &[First<Resolved>] = &[
    First("ab \u{5D0}\u{5D1}\u{5D2}", Resolved(0, "000111")),
    First("\u{5D0}\u{5D1} 12", Resolved(1, "11122")),
    First("\u{5D0}(b)", Resolved(1, "1121")),
    First("a\u{2067}b!\u{2069}c", Resolved(0, "002100")),
    First("\u{627}12", Resolved(1, "122")),
    First("a\u{202E}b\u{202C}c", Resolved(0, "00110")),
    First("a(\u{5D0})", Resolved(0, "0010")),
    First("\u{2068}\u{5D0}\u{2069}a", Resolved(0, "0100")),
    First("\u{627}1,2", Resolved(1, "1222")),
    First("\u{5D0}$1", Resolved(1, "122")),
    First("1+2", Resolved(0, "000")),
    First("\u{5D0}a(b)\u{301}\u{5D0}", Resolved(1, "1222221")),
    First("a\u{5D0}([\u{5D1}]c)", Resolved(0, "01001000")),
];

#[test]
fn levels_of_worked_paragraphs(rt: HostRuntime) {
    assert_rows(&rt, RESOLVED);
}

/// Paragraphs by their own direction, under the rules that they try.
const OF_THEIR_OWN: &[Leveled] = &[
    Leveled(Auto, "", ""),
    Leveled(Auto, "a, 1! (b)\r\n", "00000000000"),
    Leveled(Auto, "ab\n\u{5D0}\n12", "0001100"),
    // W1
    Leveled(Auto, "\u{2067}\u{301}a\u{2069}", "0120"),
    Leveled(Auto, "\u{5D0}\u{301}a\u{301}", "1122"),
    Leveled(Auto, "a\u{2067}\u{5D0}\u{2069}\u{301}\u{5D0}", "001001"),
    Leveled(Auto, "\u{627}\u{301}\u{301}1", "1112"),
    // W2
    Leveled(Auto, "\u{627} - 1", "11112"),
    Leveled(Auto, "\u{627}a 1", "1222"),
    Leveled(Auto, "\u{627}\u{5D0} 1", "1112"),
    // W4
    Leveled(Auto, "\u{627}1,2", "1222"),
    Leveled(Auto, "\u{5D0}1,2", "1222"),
    Leveled(Auto, "\u{5D0}1+2", "1222"),
    Leveled(Auto, "\u{5D0}1,,2", "12112"),
    Leveled(Auto, "\u{5D0}\u{661},\u{662}", "1222"),
    Leveled(Auto, "\u{5D0}\u{661}+\u{662}", "1212"),
    Leveled(Auto, "\u{5D0}1,\u{661}", "1212"),
    // W5
    Leveled(Auto, "\u{5D0}$$1%%", "122222"),
    Leveled(Auto, "\u{5D0}\u{661}$1", "1222"),
    Leveled(Auto, "\u{5D0}$,1", "1112"),
    Leveled(Auto, "\u{627}$1", "112"),
    // W6
    Leveled(Auto, "\u{5D0}+1", "112"),
    Leveled(Auto, "\u{5D0}$\u{661}", "112"),
    // W7
    Leveled(Auto, "\u{5D0}a  1", "12222"),
    Leveled(Auto, "\u{5D0}a \u{5D0} 1", "121112"),
    Leveled(Auto, "\u{2067}a\u{2069}1", "0200"),
    // N1
    Leveled(Auto, "a\u{5D0} 1", "0112"),
    Leveled(Auto, "a\u{5D0} \u{661} b", "011200"),
    Leveled(Auto, "\u{5D0}a 1 b", "122222"),
    Leveled(Auto, "\u{5D0}a\u{2067}b\u{2069}c", "122422"),
    // N2
    Leveled(Auto, " \u{5D0} ", "111"),
    Leveled(Auto, " a\u{5D0}!", "0010"),
    Leveled(Auto, "\u{5D0}a! ", "1211"),
    // X9
    Leveled(Auto, "\u{200D}a\u{200D}", "000"),
    Leveled(Auto, "\u{200B}\u{5D0}\u{200B}a\u{200B}", "11122"),
    Leveled(Auto, "\u{202A}a\u{202C}\u{5D0}", "0221"),
];

#[test]
fn levels_of_some_paragraphs(rt: HostRuntime) {
    assert_rows(&rt, OF_THEIR_OWN);
}

const UNDER_A_BASE: &[Leveled] = &[
    Leveled(Right, "", ""),
    Leveled(Right, "ab", "22"),
    Leveled(Right, "a!", "21"),
    Leveled(Right, "!", "1"),
    Leveled(Right, "\n", "1"),
    Leveled(Right, "\u{202A}\u{202C}", "11"),
    Leveled(Right, "\u{2068}\u{5D0}\u{2069}a", "1312"),
    Leveled(Right, "a b\n1 2", "2221212"),
    Leveled(Right, "1+2", "222"),
    Leveled(Left, "", ""),
    Leveled(Left, "ab", "00"),
    Leveled(Left, "\u{5D0}!", "10"),
    Leveled(Left, "\n", "0"),
    Leveled(Left, "\u{202B}\u{202C}", "00"),
    Leveled(Left, "\u{2068}\u{5D0}\u{2069}a", "0100"),
    Leveled(Left, "\u{5D0} \u{5D0}\n!\u{5D0}", "111001"),
    Leveled(Auto, "\u{5D0}!", "11"),
];

#[test]
fn levels_under_a_base(rt: HostRuntime) {
    assert_rows(&rt, UNDER_A_BASE);
}

/// A text of pieces, and the digits of its levels, as pieces.
struct Long(Pieces, Pieces);

/// Whether the text of a row has these levels.
fn long_has_levels(alloc: Global, tables: &Tables, row: &Long, text: &str) -> Result<bool, Memory> {
    let digits = text_of(alloc, row.1)?;
    has_levels(alloc, tables, Auto, text, digits.as_bytes())
}

impl Row for Long {
    fn comes_out(&self, alloc: Global, tables: &Tables) -> Result<bool, Memory> {
        let text = text_of(alloc, self.0)?;
        long_has_levels(alloc, tables, self, &text)
    }
}

/// 63 brackets wait for their partners; a push beyond ends the search, and the pairs found by then are kept.
const BRACKETS: &[Long] = &[
    Long(
        &[
            ("a", 1),
            ("(", 63),
            ("\u{5D0}", 1),
            (")", 63),
            ("\u{5D0}", 1),
        ],
        &[("0", 64), ("1", 1), ("0", 63), ("1", 1)],
    ),
    Long(
        &[
            ("a", 1),
            ("(", 64),
            ("\u{5D0}", 1),
            (")", 64),
            ("\u{5D0}", 1),
        ],
        &[("0", 65), ("1", 66)],
    ),
    Long(
        &[("a(\u{5D0})\u{5D0}", 1), ("(", 64)],
        &[("00101", 1), ("0", 64)],
    ),
];

#[test]
fn levels_of_many_brackets(rt: HostRuntime) {
    assert_rows(&rt, BRACKETS);
}

/// 64 times U+202B, and then a letter.
#[derive(Clone, Copy)]
struct Deep;

impl Row for Deep {
    fn comes_out(&self, alloc: Global, tables: &Tables) -> Result<bool, Memory> {
        let mut digits = [b'0'; 65];
        digits[64] = b'0' + 126;
        let text = text_of(alloc, &[("\u{202B}", 64), ("a", 1)])?;
        has_levels(alloc, tables, Auto, &text, &digits)
    }
}

#[test]
fn the_greatest_level_is_126(rt: HostRuntime) {
    assert_rows(&rt, &[Deep]);
}

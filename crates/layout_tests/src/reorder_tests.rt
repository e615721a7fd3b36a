//! What no clause says: rows of the standard, and calls that succeed.

ghost use Rattle.std.specs.Prelude.{◌≡◌, ◌<◌, length, All, sum};
ghost use Rattle.std.specs.Str.{chars};

use crate::rows::{ByClasses, Row, assert_rows};
use bg_types::Memory;
use reorder::*;
use std::alloc::Global;
use ucd_files::Tables;

/// The digits of a row, at most 64, as levels.
fn levels_of<'a>(digits: &str, levels: &'a mut [u8; 64]) -> &'a [u8] {
    for (level, digit) in levels.iter_mut().zip(digits.bytes()) {
        *level = digit.saturating_sub(b'0');
    }
    levels.get(..digits.len()).unwrap_or(&[])
}

/// Whether a line, a byte a cluster, is shown so in this order.
fn is_order(order: &[u32], stored: &[u8], shown: &[u8]) -> bool {
    let mut right = order.len() == shown.len();
    for (number, byte) in order.iter().zip(shown) {
        right = stored.get(*number as usize) == Some(byte) && right;
    }
    right
}

/// What stands in a line, its levels, and what is shown.
struct Shown(&'static str, &'static str, &'static str);

impl Row for Shown {
    fn comes_out(&self, alloc: Global, _tables: &Tables) -> Result<bool, Memory> {
        let mut buffer = [0; 64];
        let levels = levels_of(self.1, &mut buffer);
        if levels.len() > 4_000_000 {
            return Ok(false);
        }
        match visual(alloc, levels) {
            Ok(order) => Ok(is_order(&order, self.0.as_bytes(), self.2.as_bytes())),
            Err(Memory) => Err(Memory),
        }
    }
}

/// Modelled from memory on the examples of UAX #9, section 3.4, L2, with its signs > < = for LRI, RLI and PDI. Levels and order
/// are what GNU FriBidi 1.0.8 answers for these texts.
const LINES: &[Shown] = &[
    Shown("car means CAR.", "00000000001110", "car means RAC."),
    Shown("<car MEANS CAR.=", "0222111111111110", "<.RAC SNAEM car="),
    Shown(
        "he said \"<car MEANS CAR=.\" \"<IT DOES=,\" she agreed.",
        "000000000022211111111110000001111111000000000000000",
        "he said \"<RAC SNAEM car=.\" \"<SEOD TI=,\" she agreed.",
    ),
    Shown(
        "DID YOU SAY '>he said \"<car MEANS CAR=\"='?",
        "111111111111112222222222444333333333322111",
        "?'=he said \"<RAC SNAEM car=\">' YAS UOY DID",
    ),
];

#[test]
fn the_standards_examples_are_shown_in_its_order(rt: HostRuntime) {
    assert_rows(&rt, LINES);
}

/// What stands in the lines of small rows.
const ABC: &str = "abcdefghijklmnopqr";

/// First those of Unicode's own BidiCharacterTest.txt of version 15.0: the 12 lines under its heading "Examples from
/// UAX #9", then six with four or five levels. Then small ones, among them a line with an isolate, and the two lines of a
/// wrapped paragraph.
const ORDERS: &[Shown] = &[
    Shown(ABC, "11011000000000", "bacedfghijklmn"),
    Shown(ABC, "11111112211122", "mnlkjhigfedcba"),
    Shown(ABC, "00000000011100111", "abcdefghilkjmnqpo"),
    Shown(ABC, "22211222111111111", "qponmlkjifghedabc"),
    Shown(ABC, "11100000011100000", "cbadefghilkjmnopq"),
    Shown(ABC, "11111222111111222", "opqnmlkjifghedcba"),
    Shown(ABC, "00000111000000111", "abcdehgfijklmnqpo"),
    Shown(ABC, "22211111122211111", "qponmjklihgfedabc"),
    Shown(ABC, "11100111000000000", "cbadehgfijklmnopq"),
    Shown(ABC, "11111111122211222", "opqnmjklihgfedcba"),
    Shown(ABC, "11100000000", "cbadefghijk"),
    Shown(ABC, "11112222222", "efghijkdcba"),
    Shown(ABC, "2121341111", "jihgfedcba"),
    Shown(ABC, "000011112312120101", "abcdnmlkijhgfeopqr"),
    Shown(ABC, "212133334534341111", "rqponmlkijhgfedcba"),
    Shown(ABC, "1010230000", "abcdefghij"),
    Shown(ABC, "101022223423230000", "abcdefghjiklmnopqr"),
    Shown(ABC, "111122223423231212", "rqpoefghjiklmndcba"),
    Shown(ABC, "", ""),
    Shown(ABC, "0", "a"),
    Shown(ABC, "1", "a"),
    Shown(ABC, "111", "cba"),
    Shown(ABC, "222", "abc"),
    Shown(ABC, "000111", "abcfed"),
    Shown(ABC, "11122", "decba"),
    Shown(ABC, "1121", "dcba"),
    Shown(ABC, "122", "bca"),
    Shown(ABC, "002100", "abdcef"),
    Shown(ABC, "00110", "abdce"),
    Shown(ABC, "11", "ba"),
];

#[test]
fn levels_give_an_order(rt: HostRuntime) {
    assert_rows(&rt, ORDERS);
}

/// Levels, and the visual list that they give.
struct Listed(&'static [u8], &'static [u32]);

impl Row for Listed {
    fn comes_out(&self, alloc: Global, _tables: &Tables) -> Result<bool, Memory> {
        if self.0.len() > 4_000_000 {
            return Ok(false);
        }
        match visual(alloc, self.0) {
            Ok(order) => Ok(order.as_slice() == self.1),
            Err(Memory) => Err(Memory),
        }
    }
}

/// In the first line only the round of 255 is asked for: no lower level is odd.
const GREATEST: &[Listed] = &[
    Listed(&[255, 254, 255, 0, 255], &[0, 1, 2, 3, 4]),
    Listed(&[255, 255, 254, 253, 0], &[3, 1, 0, 2, 4]),
];

#[test]
fn levels_go_up_to_255(rt: HostRuntime) {
    assert_rows(&rt, GREATEST);
}

/// How many code points a line has.
fn code_points(line: &str) -> usize
    ensures { result ≡ length (chars line.now) }
{
    line.chars().count()
}

/// The sum of a few sizes.
fn total(sizes: &[u32]) -> usize
    requires { length sizes.now < 100 }
    ensures { result ≡ sum sizes.now }
{
    let mut total = 0;
    for size in sizes {
        total += *size as usize;
    }
    total
}

/// The sizes of 64 clusters of a code point each.
const ONES: &[u32] = &[1; 64];

/// A line, its levels before, the paragraph's level, its clusters' sizes or more than it has, and their levels after.
struct Reset(&'static str, &'static str, u8, &'static [u32], &'static str);

/// Whether the levels of a line's clusters become those of a row, after a test of the call's preconditions.
fn are_reset(
    alloc: Global,
    tables: &Tables,
    row: &Reset,
    levels: &[u8],
    after: &[u8],
) -> Result<bool, Memory> {
    let sizes = &row.3[..levels.len().min(row.3.len())];
    let count = levels.len();
    if sizes.len() >= 100 || !sizes.iter().all(|size| *size > 0) {
        return Ok(false);
    }
    if code_points(row.0) != count || total(sizes) != count {
        return Ok(false);
    }
    match line_levels(alloc, tables, row.0, levels, sizes, row.2) {
        Ok(levels) => Ok(levels.as_slice() == after),
        Err(Memory) => Err(Memory),
    }
}

impl Row for Reset {
    fn comes_out(&self, alloc: Global, tables: &Tables) -> Result<bool, Memory> {
        let (mut before, mut after) = ([0; 64], [0; 64]);
        let levels = levels_of(self.1, &mut before);
        are_reset(alloc, tables, self, levels, levels_of(self.4, &mut after))
    }
}

/// Lines whose code points are each a cluster.
///
/// The last four are a line with an isolate, the two lines of a wrapped paragraph, and digits after an Arabic letter.
const L1: &[Reset] = &[
    Reset("", "", 0, ONES, ""),
    Reset("a  \tb", "11111", 0, ONES, "10001"),
    Reset("ab  ", "1111", 0, ONES, "1100"),
    Reset("a b", "111", 0, ONES, "111"),
    Reset("a\tb", "111", 0, ONES, "101"),
    Reset("a\u{2029}b", "111", 0, ONES, "101"),
    Reset("a \u{2029}b", "1111", 0, ONES, "1001"),
    Reset("a \t", "222", 1, ONES, "211"),
    Reset("   ", "111", 0, ONES, "000"),
    Reset(
        "a \u{2066} \u{2067}\u{2068}\u{2069} ",
        "11111111",
        0,
        ONES,
        "10000000",
    ),
    Reset(
        "a \u{202A}\u{202B}\u{202C}\u{202D}\u{202E}\u{200B} ",
        "111111111",
        0,
        ONES,
        "100000000",
    ),
    Reset(
        "a \u{202B}\u{2069}\t\u{200B}b",
        "1111111",
        0,
        ONES,
        "1000011",
    ),
    Reset("a \u{300}", "111", 0, ONES, "111"),
    Reset("\u{3000} !", "111", 0, ONES, "111"),
    Reset("a\u{2067}b!\u{2069}c", "002100", 0, ONES, "002100"),
    Reset("a \u{5D0}\u{5D1} ", "00111", 0, ONES, "00110"),
    Reset("\u{5D2}\u{5D3}", "11", 0, ONES, "11"),
    Reset("\u{627}12", "122", 1, ONES, "122"),
];

/// The class decides, whether a space hangs or not.
const BY_CLASS: &[ByClasses<Reset>] = &[ByClasses(
    b"3000;WS",
    Reset("a\u{3000}", "11", 0, ONES, "10"),
)];

#[test]
fn l1_resets_what_stands_before_a_separator_or_the_lines_end(rt: HostRuntime) {
    assert_rows(&rt, L1);
    assert_rows(&rt, BY_CLASS);
}

const CLUSTERS: &[Reset] = &[
    Reset("ab ", "111", 0, &[1, 2], "11"),
    Reset("a\r\n", "100", 0, &[1, 2], "10"),
    Reset("e\u{301}f", "120", 0, &[2, 1], "10"),
    Reset("abcdef", "012345", 0, &[1, 2, 3], "013"),
];

#[test]
fn a_cluster_has_the_level_of_its_first_code_point(rt: HostRuntime) {
    assert_rows(&rt, CLUSTERS);
}

/// A character, a level, and the character that is shown there.
struct Mirror(char, u8, char);

impl Row for Mirror {
    fn comes_out(&self, _alloc: Global, tables: &Tables) -> Result<bool, Memory> {
        Ok(mirrored(tables, self.0, self.1) == self.2)
    }
}

const MIRRORS: &[Mirror] = &[
    Mirror('(', 0, '('),
    Mirror('(', 1, ')'),
    Mirror('(', 2, '('),
    Mirror('(', 9, ')'),
    Mirror('<', 1, '>'),
    Mirror('a', 1, 'a'),
    Mirror('\u{3009}', 1, '\u{3008}'),
    Mirror('\u{2329}', 3, '\u{232A}'),
];

#[test]
fn odd_levels_are_mirrored(rt: HostRuntime) {
    assert_rows(&rt, MIRRORS);
}

#[test]
fn the_laws_are_called() {
    laws::visual_order();
    laws::rearrangement();
}

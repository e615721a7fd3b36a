//! What no clause says: rows of the standard, and calls that succeed.

use crate::pieces::{Pieces, text_of};
use crate::rows::{Row, assert_rows_by};
use bg_types::Bidi::{L, R};
use bg_types::{Bidi, Memory};
use bracket_pairs::*;
use std::alloc::{AllocError, Global};
use ucd_files::{Tables, Ucd, vectors};

/// The type that a letter stands for: `E` is EN, `A` is AN, `M` is NSM, and `n` is ON.
fn type_of(letter: char) -> Bidi {
    match letter {
        'L' => Bidi::L,
        'R' => Bidi::R,
        'E' => Bidi::En,
        'A' => Bidi::An,
        'M' => Bidi::Nsm,
        _ => Bidi::On,
    }
}

fn types_of(alloc: Global, letters: &str) -> Result<Vec<Bidi>, AllocError> {
    let mut types = Vec::new(alloc);
    for letter in letters.chars() {
        types.push(type_of(letter))?;
    }
    Ok(types)
}

/// The characters of a text.
fn chars_of(alloc: Global, text: &str) -> Result<Vec<char>, AllocError> {
    let mut chars = Vec::new(alloc);
    for c in text.chars() {
        chars.push(c)?;
    }
    Ok(chars)
}

/// Whether types are those of letters.
fn are(types: &[Bidi], letters: &str) -> bool {
    let mut wanted = letters.chars();
    let mut right = true;
    for found in types {
        right = wanted.next().map(type_of) == Some(*found) && right;
    }
    right && wanted.next().is_none()
}

/// A sequence: its level, its sos, its characters, their types before W1, and as letters those after W7 and after N0.
#[derive(Clone, Copy)]
struct Given<'a> {
    level: u8,
    sos: Bidi,
    chars: &'a [char],
    before_w1: &'a [Bidi],
    letters: &'a str,
    after: &'a str,
}

/// Whether the types of a sequence become those after N0. A refused growth changes nothing.
fn become_after(
    alloc: Global,
    tables: &Tables,
    given: &Given,
    types: &mut [Bidi],
) -> Result<bool, Memory> {
    let (chars, before_w1) = (given.chars, given.before_w1);
    if before_w1.len() != chars.len() || types.len() != chars.len() {
        return Ok(false);
    }
    match resolve(
        alloc,
        tables,
        given.level,
        given.sos,
        chars,
        before_w1,
        types,
    ) {
        Ok(()) => Ok(are(types, given.after)),
        Err(Memory) if are(types, given.letters) => Err(Memory),
        Err(Memory) => Ok(false),
    }
}

fn resolves(alloc: Global, tables: &Tables, given: &Given) -> Result<bool, Memory> {
    let mut types = types_of(alloc, given.letters)?;
    become_after(alloc, tables, given, &mut types)
}

/// Whether a text resolves, by its types before W1, after W7 and after N0.
fn text_resolves(
    alloc: Global,
    tables: &Tables,
    (level, sos): (u8, Bidi),
    [text, before_w1, letters, after]: [&str; 4],
) -> Result<bool, Memory> {
    let chars = chars_of(alloc, text)?;
    let before_w1 = types_of(alloc, before_w1)?;
    let given = Given {
        level,
        sos,
        chars: &chars,
        before_w1: &before_w1,
        letters,
        after,
    };
    resolves(alloc, tables, &given)
}

/// A level, an sos, a text, and its types before W1, after W7 and after N0.
struct Pairs(
    u8,
    Bidi,
    &'static str,
    &'static str,
    &'static str,
    &'static str,
);

impl Row for Pairs {
    fn comes_out(&self, alloc: Global, tables: &Tables) -> Result<bool, Memory> {
        let fields = [self.2, self.3, self.4, self.5];
        text_resolves(alloc, tables, (self.0, self.1), fields)
    }
}

const fn by(brackets: &'static [u8]) -> Ucd<'static> {
    Ucd {
        bidi: b"",
        brackets,
        mirror: b"",
        lb: b"",
        ea: b"",
        wide_ambiguous: false,
    }
}

/// Small texts worked out by hand: crossed pairs; equivalent brackets; closing brackets that nothing waits for; brackets
/// under an override; numbers, which count as R; pairs that hold no strong type; marks after brackets; pairs that
/// count as they were left; the context before the opening bracket; and brackets that are marks themselves.
const SMALL_TEXTS: &[Pairs] = &[
    Pairs(0, L, "", "", "", ""),
    Pairs(
        1,
        R,
        "\u{5D0}a(b)\u{301}\u{5D0}",
        "RLnLnMR",
        "RLnLnnR",
        "RLLLLLR",
    ),
    Pairs(
        0,
        L,
        "a\u{5D0}([\u{5D1}]c)",
        "LRnnRnLn",
        "LRnnRnLn",
        "LRLLRLLL",
    ),
    Pairs(1, R, "\u{5D0}(b)", "RnLn", "RnLn", "RRLR"),
    Pairs(0, L, "a(\u{5D0})", "LnRn", "LnRn", "LLRL"),
    Pairs(0, L, "([R)]", "nnRnn", "nnRnn", "LnRLn"),
    Pairs(1, L, "([)a]", "nnnLn", "nnnLn", "nnnLn"),
    Pairs(1, L, "\u{2329}a\u{3009}", "nLn", "nLn", "LLL"),
    Pairs(1, L, "\u{3008}a\u{232A}", "nLn", "nLn", "LLL"),
    Pairs(1, L, "\u{2329}a]", "nLn", "nLn", "nLn"),
    Pairs(1, L, "a)(b)", "LnnLn", "LnnLn", "LnLLL"),
    Pairs(1, L, "(b))", "nLnn", "nLnn", "LLLn"),
    Pairs(1, L, "(a)(b)", "RLRnLn", "RLRnLn", "RLRRLR"),
    Pairs(1, L, "((b)", "RnLn", "RnLn", "RRLR"),
    Pairs(0, L, "R(1)", "RnEn", "RnEn", "RRER"),
    Pairs(0, L, "1(2)", "EnAn", "EnAn", "ERAR"),
    Pairs(1, L, "a(1)", "LnEn", "LnEn", "LRER"),
    Pairs(0, R, "()", "nn", "nn", "nn"),
    Pairs(1, R, "( + )", "nnnnn", "nnnnn", "nnnnn"),
    Pairs(
        1,
        L,
        "(\u{301}\u{301}a)\u{301}\u{301}b",
        "nMMLnMML",
        "nnnLnnnL",
        "LLLLLLLL",
    ),
    Pairs(
        0,
        R,
        "(\u{301}R)\u{301}+\u{301}",
        "nMRnMnM",
        "nnRnnnn",
        "RRRRRnn",
    ),
    Pairs(0, L, "R(R)(R)", "RnRnnRn", "RnRnnRn", "RRRRRRR"),
    Pairs(0, R, "(a)(R)", "nLnnRn", "nLnnRn", "LLLLRL"),
    Pairs(1, L, "[a](b)", "nLnnLn", "nLnnLn", "LLLLLL"),
    Pairs(0, R, "(R[R)R]", "nRnRnRn", "nRnRnRn", "RRnRRRn"),
    Pairs(0, L, "(R)R", "nRnR", "nRnR", "LRLR"),
    Pairs(0, L, "R (a(R))", "RnnLnRnn", "RnnLnRnn", "RnLLLRLL"),
    Pairs(0, L, "!(a!)(())", "nMLnMMMMM", "nnLnnnnnn", "nLLnLLLLL"),
    Pairs(1, R, "(Ra(b))", "nRLnLMM", "nRLnLnn", "RRLLLLL"),
    Pairs(
        0,
        L,
        "R(R)(())(a)",
        "RnRMMMMMMLn",
        "RnRnnnnnnLn",
        "RRRRRRRRLLL",
    ),
    Pairs(
        0,
        L,
        "R(R)(())+(a)",
        "RnRMMMMMnnLn",
        "RnRnnnnnnnLn",
        "RRRRRRRRnLLL",
    ),
];

#[test]
fn pairs_take_the_direction_that_n0_gives(rt: HostRuntime) {
    assert_rows_by(&rt, &by(vectors::BRACKETS), SMALL_TEXTS);
}

/// UAX #9, section 3.3.5, as in `BidiCharacterTest.txt`, whose levels give the brackets' directions.
const EXAMPLES: &[Pairs] = &[
    Pairs(
        0,
        L,
        "AB(CD[&ef].)gh",
        "RRnRRnnLLnnnLL",
        "RRnRRnnLLnnnLL",
        "RRLRRLnLLLnLLL",
    ),
    Pairs(
        1,
        R,
        "AB(CD[&ef].)gh",
        "RRnRRnnLLnnnLL",
        "RRnRRnnLLnnnLL",
        "RRRRRRnLLRnRLL",
    ),
    Pairs(
        0,
        L,
        "abc (def GHI) JKL",
        "LLLnnLLLnRRRnnRRR",
        "LLLnnLLLnRRRnnRRR",
        "LLLnLLLLnRRRLnRRR",
    ),
    Pairs(
        1,
        R,
        "abc (def GHI) JKL",
        "LLLnnLLLnRRRnnRRR",
        "LLLnnLLLnRRRnnRRR",
        "LLLnRLLLnRRRRnRRR",
    ),
    Pairs(
        0,
        L,
        "ABC (def GHI) jkl",
        "RRRnnLLLnRRRnnLLL",
        "RRRnnLLLnRRRnnLLL",
        "RRRnLLLLnRRRLnLLL",
    ),
    Pairs(
        1,
        R,
        "ABC (def GHI) jkl",
        "RRRnnLLLnRRRnnLLL",
        "RRRnnLLLnRRRnnLLL",
        "RRRnRLLLnRRRRnLLL",
    ),
    Pairs(
        0,
        L,
        "abc (DEF ghi) JKL",
        "LLLnnRRRnLLLnnRRR",
        "LLLnnRRRnLLLnnRRR",
        "LLLnLRRRnLLLLnRRR",
    ),
    Pairs(
        1,
        R,
        "abc (DEF ghi) JKL",
        "LLLnnRRRnLLLnnRRR",
        "LLLnnRRRnLLLnnRRR",
        "LLLnRRRRnLLLRnRRR",
    ),
    Pairs(
        0,
        L,
        "ABC (DEF ghi) jkl",
        "RRRnnRRRnLLLnnLLL",
        "RRRnnRRRnLLLnnLLL",
        "RRRnLRRRnLLLLnLLL",
    ),
    Pairs(
        1,
        R,
        "ABC (DEF ghi) jkl",
        "RRRnnRRRnLLLnnLLL",
        "RRRnnRRRnLLLnnLLL",
        "RRRnRRRRnLLLRnLLL",
    ),
    Pairs(
        0,
        L,
        "ABC book(s)",
        "RRRnLLLLnLn",
        "RRRnLLLLnLn",
        "RRRnLLLLLLL",
    ),
    Pairs(
        1,
        R,
        "ABC book(s)",
        "RRRnLLLLnLn",
        "RRRnLLLLnLn",
        "RRRnLLLLLLL",
    ),
];

#[test]
fn the_examples_of_n0_at_both_levels(rt: HostRuntime) {
    assert_rows_by(&rt, &by(vectors::BRACKETS), EXAMPLES);
}

const OF_ITSELF: &[Pairs] = &[
    Pairs(1, L, "0a0", "nLn", "nLn", "nLn"),
    Pairs(1, L, "0a0", "ELE", "ELE", "ELE"),
    Pairs(1, L, "0(a0)", "nnLnn", "nnLnn", "nLLnL"),
];

/// A character that a table makes an opening bracket of itself waits, and is never closed.
#[test]
fn a_character_that_opens_for_itself_is_never_closed(rt: HostRuntime) {
    let files = by(b"0030; 0030; o\n0028; 0029; o\n0029; 0028; c\n");
    assert_rows_by(&rt, &files, OF_ITSELF);
}

/// A row as `Pairs` is, its fields of repeated pieces.
struct Long(u8, Bidi, [Pieces; 4]);

/// The last three fields lent, beside the first.
fn long_resolves(
    alloc: Global,
    tables: &Tables,
    row: &Long,
    text: &str,
    before_w1: &str,
) -> Result<bool, Memory> {
    let letters = text_of(alloc, row.2[2])?;
    let after = text_of(alloc, row.2[3])?;
    let fields = [text, before_w1, &letters, &after];
    text_resolves(alloc, tables, (row.0, row.1), fields)
}

impl Row for Long {
    fn comes_out(&self, alloc: Global, tables: &Tables) -> Result<bool, Memory> {
        let text = text_of(alloc, self.2[0])?;
        let before_w1 = text_of(alloc, self.2[1])?;
        long_resolves(alloc, tables, self, &text, &before_w1)
    }
}

/// 63 opening brackets, a letter and as many closing ones; the same with 64; and a pair, then 64 opening brackets, the last
/// of which is closed.
const WAITING: &[Long] = &[
    Long(
        0,
        L,
        [
            &[("a", 1), ("(", 63), ("\u{5D0}", 1), (")", 63)],
            &[("L", 1), ("n", 63), ("R", 1), ("n", 63)],
            &[("L", 1), ("n", 63), ("R", 1), ("n", 63)],
            &[("L", 1), ("L", 63), ("R", 1), ("L", 63)],
        ],
    ),
    Long(
        0,
        L,
        [
            &[("a", 1), ("(", 64), ("\u{5D0}", 1), (")", 64)],
            &[("L", 1), ("n", 64), ("R", 1), ("n", 64)],
            &[("L", 1), ("n", 64), ("R", 1), ("n", 64)],
            &[("L", 1), ("n", 64), ("R", 1), ("n", 64)],
        ],
    ),
    Long(
        0,
        L,
        [
            &[("a(\u{5D0})\u{5D0}", 1), ("(", 64), ("b)", 1)],
            &[("LnRnR", 1), ("n", 64), ("Ln", 1)],
            &[("LnRnR", 1), ("n", 64), ("Ln", 1)],
            &[("LLRLR", 1), ("n", 64), ("Ln", 1)],
        ],
    ),
];

#[test]
fn sixty_three_may_wait(rt: HostRuntime) {
    assert_rows_by(&rt, &by(vectors::BRACKETS), WAITING);
}

/// Many pairs, and many that stand among the marks of one.
const MANY: &[Long] = &[
    Long(
        1,
        L,
        [
            &[("(a)", 100_000)],
            &[("nLn", 100_000)],
            &[("nLn", 100_000)],
            &[("LLL", 100_000)],
        ],
    ),
    Long(
        0,
        L,
        [
            &[("!(a!)", 1), ("(())", 100_000)],
            &[("nMLnM", 1), ("MMMM", 100_000)],
            &[("nnLnn", 1), ("nnnn", 100_000)],
            &[("nLLnL", 1), ("LLLL", 100_000)],
        ],
    ),
];

/// In time proportional to the text.
#[test]
fn many_small_pairs_are_cheap(rt: HostRuntime) {
    assert_rows_by(&rt, &by(vectors::BRACKETS), MANY);
}

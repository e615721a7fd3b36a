//! What no clause says: texts under each rule, and calls that succeed.

use crate::first_paragraph::{First, FirstOf, OfParagraph};
use crate::rows::{assert_rows, assert_rows_by};
use bg_types::Memory;
use line_break::*;
use paragraphs::Para;
use std::alloc::Global;
use ucd_files::{Tables, Ucd, vectors};

/// A letter for each break class; n is an SA of Bidi class NSM, and i, < and > are East Asian W.
const LETTERS: &[u8] = b"\
0020;SP
0021;EX
0022;QU
0023;CB
0024;PR
0025;PO
0028;OP
0029;CL
002C;IS
002D;HY
002E;IN
002F;SY
0031;NU
0032;H2
0033;H3
003A;NS
003C;OP
003D;B2
003E;CP
0041;AI
0046;LF
004A;CJ
004B;BK
004C;JL
004E;NL
0052;CR
0053;SG
0054;JT
0056;JV
0057;AL
0058;XX
005D;CP
0060;BB
0061;AL
0063;CM
0065;EB
0068;HL
0069;ID
006A;ZWJ
006D;EM
006E;SA
0072;RI
0073;SA
0077;WJ
007A;ZW
007C;BA
007E;GL
";

/// Files of these letters alone.
const BY_LETTERS: Ucd<'static> = Ucd {
    bidi: b"006E;NSM",
    brackets: b"",
    mirror: b"",
    lb: LETTERS,
    ea: b"003C;W\n003E;W\n0069;W",
    wide_ambiguous: false,
};

/// The sign of a status, as in UAX #14.
fn sign(status: Break) -> char {
    match status {
        Break::Must => '!',
        Break::May => '÷',
        Break::No => '×',
    }
}

/// Whether statuses have these signs.
fn have_signs(statuses: &[Break], signs: &str) -> bool {
    let mut wanted = signs.chars();
    let mut right = true;
    for status in statuses {
        right = wanted.next() == Some(sign(*status)) && right;
    }
    right && wanted.next().is_none()
}

/// The statuses of a paragraph, written as in UAX #14.
struct Statuses(&'static str);

impl OfParagraph for Statuses {
    fn is_of(&self, alloc: Global, tables: &Tables, para: &Para) -> Result<bool, Memory> {
        match opportunities(alloc, tables, para) {
            Ok(statuses) => Ok(have_signs(&statuses, self.0)),
            Err(Memory) => Err(Memory),
        }
    }
}

const SMALL_TEXTS: &[First<Statuses>] = &[
    First("ab cd", Statuses("××÷×!")),
    First("a-1", Statuses("××!")),
    First("(a) b", Statuses("×××÷!")),
    First("a\u{4E16}!", Statuses("÷×!")),
    First("\u{5D0}-b", Statuses("××!")),
    First("a\n", Statuses("×!")),
    First("a\u{2028}b", Statuses("×!!")),
    First("a-b c", Statuses("×÷×÷!")),
];

#[test]
fn statuses_of_small_texts(rt: HostRuntime) {
    assert_rows(&rt, SMALL_TEXTS);
}

/// Texts in the letters of the classes, and their statuses. Under each rule stand texts with a
/// boundary that it alone decides, or that shows where it ends.
const RULES: &[First<Statuses>] = &[
    // LB2, LB3
    First("", Statuses("")),
    First("a", Statuses("!")),
    // LB1
    First("iA", Statuses("÷!")),
    First("Aa", Statuses("×!")),
    First("Sa", Statuses("×!")),
    First("Xa", Statuses("×!")),
    First("iJ", Statuses("×!")),
    First("sa", Statuses("×!")),
    First("in", Statuses("×!")),
    First("na", Statuses("×!")),
    // LB4
    First("Ka", Statuses("!!")),
    // LB5
    First("RF", Statuses("×!")),
    First("Ra", Statuses("!!")),
    First("Fa", Statuses("!!")),
    First("Na", Statuses("!!")),
    // LB6
    First("iK", Statuses("×!")),
    First("iR", Statuses("×!")),
    First("iF", Statuses("×!")),
    First("iN", Statuses("×!")),
    // LB7
    First("i i", Statuses("×÷!")),
    First("iz", Statuses("×!")),
    // LB8
    First("z!", Statuses("÷!")),
    First("z  !", Statuses("××÷!")),
    // LB8a
    First("aji", Statuses("××!")),
    First("iji", Statuses("××!")),
    First("ajci", Statuses("××÷!")),
    // LB9
    First("ic", Statuses("×!")),
    First("ij", Statuses("×!")),
    First("iccc1", Statuses("×××÷!")),
    First("rcr", Statuses("××!")),
    First("Kci", Statuses("!÷!")),
    First("zci", Statuses("÷÷!")),
    // LB10
    First("ca", Statuses("×!")),
    First("ci", Statuses("÷!")),
    First("a ci", Statuses("×÷÷!")),
    First("a cc1", Statuses("×÷××!")),
    // LB11
    First("iw", Statuses("×!")),
    First("wi", Statuses("×!")),
    // LB12
    First("~i", Statuses("×!")),
    // LB12a
    First("i~", Statuses("×!")),
    First(" ~", Statuses("÷!")),
    First("|~", Statuses("÷!")),
    First("-~", Statuses("÷!")),
    // LB13
    First("i!", Statuses("×!")),
    First("i)", Statuses("×!")),
    First("i]", Statuses("×!")),
    First("i,", Statuses("×!")),
    First("i/", Statuses("×!")),
    First("i !", Statuses("××!")),
    // LB14
    First("(i", Statuses("×!")),
    First("(  i", Statuses("×××!")),
    // LB15
    First("\"  (", Statuses("×××!")),
    // LB16
    First(")  :", Statuses("×××!")),
    First("] :", Statuses("××!")),
    // LB17
    First("==", Statuses("×!")),
    First("=  =", Statuses("×××!")),
    // LB18
    First("i :", Statuses("×÷!")),
    // LB19
    First("i\"", Statuses("×!")),
    First("\"i", Statuses("×!")),
    // LB20
    First("#:", Statuses("÷!")),
    First("`#", Statuses("÷!")),
    // LB21
    First("i|", Statuses("×!")),
    First("i-", Statuses("×!")),
    First("i:", Statuses("×!")),
    First("`i", Statuses("×!")),
    // LB21a
    First("h-i", Statuses("××!")),
    First("h|i", Statuses("××!")),
    First("hc-ci", Statuses("××××!")),
    First("a-i", Statuses("×÷!")),
    // LB21b
    First("/h", Statuses("×!")),
    First("/a", Statuses("÷!")),
    // LB22
    First("i.", Statuses("×!")),
    // LB23
    First("a1", Statuses("×!")),
    First("h1", Statuses("×!")),
    First("1a", Statuses("×!")),
    First("1h", Statuses("×!")),
    // LB23a
    First("$i", Statuses("×!")),
    First("$e", Statuses("×!")),
    First("$m", Statuses("×!")),
    First("i%", Statuses("×!")),
    First("e%", Statuses("×!")),
    First("m%", Statuses("×!")),
    // LB24
    First("$a", Statuses("×!")),
    First("%h", Statuses("×!")),
    First("a$", Statuses("×!")),
    First("h%", Statuses("×!")),
    // LB25
    First(")%", Statuses("×!")),
    First("]%", Statuses("×!")),
    First(")$", Statuses("×!")),
    First("]$", Statuses("×!")),
    First("1%", Statuses("×!")),
    First("1$", Statuses("×!")),
    First("%(", Statuses("×!")),
    First("%1", Statuses("×!")),
    First("$(", Statuses("×!")),
    First("$1", Statuses("×!")),
    First("-1", Statuses("×!")),
    First(",1", Statuses("×!")),
    First("11", Statuses("×!")),
    First("/1", Statuses("×!")),
    // LB26
    First("LL", Statuses("×!")),
    First("LV", Statuses("×!")),
    First("L2", Statuses("×!")),
    First("L3", Statuses("×!")),
    First("VV", Statuses("×!")),
    First("VT", Statuses("×!")),
    First("2V", Statuses("×!")),
    First("2T", Statuses("×!")),
    First("TT", Statuses("×!")),
    First("3T", Statuses("×!")),
    // LB27
    First("L%", Statuses("×!")),
    First("V%", Statuses("×!")),
    First("T%", Statuses("×!")),
    First("2%", Statuses("×!")),
    First("3%", Statuses("×!")),
    First("$L", Statuses("×!")),
    First("$V", Statuses("×!")),
    First("$T", Statuses("×!")),
    First("$2", Statuses("×!")),
    First("$3", Statuses("×!")),
    // LB28
    First("aa", Statuses("×!")),
    First("ah", Statuses("×!")),
    First("ha", Statuses("×!")),
    First("hh", Statuses("×!")),
    // LB29
    First(",a", Statuses("×!")),
    First(",h", Statuses("×!")),
    // LB30
    First("a(", Statuses("×!")),
    First("h(", Statuses("×!")),
    First("1(", Statuses("×!")),
    First("]a", Statuses("×!")),
    First("]h", Statuses("×!")),
    First("]1", Statuses("×!")),
    First("a<", Statuses("÷!")),
    First("1<", Statuses("÷!")),
    First(">a", Statuses("÷!")),
    First(">1", Statuses("÷!")),
    // LB30a
    First("r", Statuses("!")),
    First("rr", Statuses("×!")),
    First("rrr", Statuses("×÷!")),
    First("rrrr", Statuses("×÷×!")),
    First("rrrrr", Statuses("×÷×÷!")),
    First("arr", Statuses("÷×!")),
    // LB30b
    First("em", Statuses("×!")),
    // LB31
    First("ai", Statuses("÷!")),
    First("ia", Statuses("÷!")),
    First("me", Statuses("÷!")),
];

#[test]
fn each_rule_decides(rt: HostRuntime) {
    assert_rows_by(&rt, &BY_LETTERS, RULES);
}

/// A width, and the numbers of the lines' clusters.
struct Lines(u16, &'static [(usize, usize)]);

fn are_lines(found: &[Line], want: &[(usize, usize)]) -> bool {
    let mut right = found.len() == want.len();
    for (line, wanted) in found.iter().zip(want) {
        right = (line.start, line.end) == *wanted && right;
    }
    right
}

impl OfParagraph for Lines {
    fn is_of(&self, alloc: Global, tables: &Tables, para: &Para) -> Result<bool, Memory> {
        if self.0 < 2 || self.0 > 500 || para.text().len() > 4_000_000 {
            return Ok(false);
        }
        match lines(alloc, tables, para, self.0) {
            Ok(found) => Ok(are_lines(&found, self.1)),
            Err(Memory) => Err(Memory),
        }
    }
}

const LINES: &[First<Lines>] = &[
    First("", Lines(4, &[(0, 0)])),
    First("a-b c", Lines(3, &[(0, 4), (4, 5)])),
    First("a-b c", Lines(2, &[(0, 2), (2, 4), (4, 5)])),
    First("abcdef", Lines(4, &[(0, 4), (4, 6)])),
    First("ab cd", Lines(2, &[(0, 3), (3, 5)])),
    First("a\u{4E16}b", Lines(2, &[(0, 1), (1, 2), (2, 3)])),
    First("a   ", Lines(3, &[(0, 4)])),
    First(
        "a \u{5D0}\u{5D1} \u{5D2}\u{5D3}",
        Lines(5, &[(0, 5), (5, 7)]),
    ),
    First("     ", Lines(2, &[(0, 5)])),
    // The last opportunity, not a cut, wherever one fits.
    First("a b c", Lines(3, &[(0, 4), (4, 5)])),
    First("ab cdef", Lines(4, &[(0, 3), (3, 7)])),
    // A wide cluster at the last column, with a break before it and without.
    First("aa\u{4E16}", Lines(3, &[(0, 2), (2, 3)])),
    First("a\u{A0}\u{4E16}", Lines(3, &[(0, 2), (2, 3)])),
    First("a\u{A0}\u{4E16}", Lines(4, &[(0, 3)])),
    // One cluster more ends two lines.
    First("|(\u{4E16}", Lines(2, &[(0, 1), (1, 2), (2, 3)])),
    // A line must end.
    First("a\u{2028}b", Lines(4, &[(0, 2), (2, 3)])),
    First("a\n", Lines(2, &[(0, 2)])),
    First("a\r\n", Lines(2, &[(0, 2)])),
    // Clusters of several code points, and clusters without columns at a line's end.
    First("e\u{301}", Lines(2, &[(0, 1)])),
    First("a\u{200D}\u{4E16} b", Lines(3, &[(0, 3), (3, 4)])),
    First("abcd\u{2067}\u{2069} ef", Lines(4, &[(0, 7), (7, 9)])),
    First("ab\u{2067}\u{2069}", Lines(2, &[(0, 4)])),
    // A space hangs, but neither one with a mark nor a no-break space.
    First("ab ", Lines(2, &[(0, 3)])),
    First("ab \u{301}", Lines(2, &[(0, 2), (2, 3)])),
    First("ab\u{A0}", Lines(2, &[(0, 2), (2, 3)])),
];

#[test]
fn lines_of_small_texts(rt: HostRuntime) {
    assert_rows(&rt, LINES);
}

/// A mark that is a mandatory break stands inside a cluster.
const UNBROKEN_STATUSES: &[First<Statuses>] = &[First("a\u{301}\u{302}b", Statuses("×!×!"))];

const UNBROKEN_LINES: &[First<Lines>] = &[First("a\u{301}\u{302}b", Lines(4, &[(0, 2)]))];

#[test]
fn a_mandatory_break_inside_a_cluster_counts_nowhere(rt: HostRuntime) {
    let files = Ucd {
        bidi: b"",
        brackets: b"",
        mirror: b"",
        lb: b"0301;BK\n0061;AL\n0062;AL",
        ea: b"",
        wide_ambiguous: false,
    };
    assert_rows_by(&rt, &files, UNBROKEN_STATUSES);
    assert_rows_by(&rt, &files, UNBROKEN_LINES);
}

const TEN_THOUSAND: &[FirstOf<Lines>] = &[FirstOf(
    &[("a", 1), (" ", 10_000), ("b", 1)],
    Lines(2, &[(0, 10_001), (10_001, 10_002)]),
)];

#[test]
fn ten_thousand_spaces_hang(rt: HostRuntime) {
    assert_rows(&rt, TEN_THOUSAND);
}

/// A wide space that is no SP takes its columns at a line's end.
const UNHUNG: &[First<Lines>] = &[First("ab\u{3000}", Lines(2, &[(0, 2), (2, 3)]))];

#[test]
fn only_spaces_of_class_sp_hang(rt: HostRuntime) {
    let files = Ucd {
        bidi: b"3000;WS",
        brackets: b"",
        mirror: b"",
        lb: b"0061;AL\n0062;AL\n3000;BA",
        ea: b"3000;F",
        wide_ambiguous: false,
    };
    assert_rows_by(&rt, &files, UNHUNG);
}

#[test]
fn the_laws_are_called() {
    laws::lines_join();
    laws::lines_follow();
    laws::lines_fit();
    laws::empty_line();
    laws::each_measured();
}

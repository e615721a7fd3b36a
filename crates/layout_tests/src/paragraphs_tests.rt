//! What no clause says: rows of the standards, and calls that succeed.

use crate::rows::{ByClasses, Row, assert_rows, assert_rows_by};
use bg_types::Memory;
use paragraphs::*;
use std::alloc::Global;
use std::slice::Iter;
use ucd_files::{Tables, Ucd, vectors};

/// The small files, with these widths.
fn by_width(ea: &'static [u8], wide_ambiguous: bool) -> Ucd<'static> {
    Ucd {
        ea,
        wide_ambiguous,
        ..vectors::SMALL
    }
}

/// A paragraph's text, first byte and first place.
type Wanted = (&'static str, usize, usize);

fn are_paras(found: &[Para], want: &[Wanted]) -> bool {
    let mut right = found.len() == want.len();
    for (para, wanted) in found.iter().zip(want) {
        let (piece, first_byte, first_place) = *wanted;
        right = para.text() == piece && right;
        right = (para.first_byte(), para.first_place()) == (first_byte, first_place) && right;
    }
    right
}

/// A text, and its paragraphs.
struct Split(&'static str, &'static [Wanted]);

impl Row for Split {
    fn comes_out(&self, alloc: Global, tables: &Tables) -> Result<bool, Memory> {
        match split(alloc, tables, self.0) {
            Ok(found) => Ok(are_paras(&found, self.1)),
            Err(Memory) => Err(Memory),
        }
    }
}

const PARAGRAPHS: &[Split] = &[
    Split("a\r\nb", &[("a\r\n", 0, 0), ("b", 3, 3)]),
    Split("a\n\n", &[("a\n", 0, 0), ("\n", 2, 2), ("", 3, 3)]),
    Split("", &[("", 0, 0)]),
    Split("a", &[("a", 0, 0)]),
    Split("a\r", &[("a\r", 0, 0), ("", 2, 2)]),
    Split("\r\r\n", &[("\r", 0, 0), ("\r\n", 1, 1), ("", 3, 3)]),
    Split("\n\r", &[("\n", 0, 0), ("\r", 1, 1), ("", 2, 2)]),
    Split("\u{85}a", &[("\u{85}", 0, 0), ("a", 2, 1)]),
    Split("a\u{2029}", &[("a\u{2029}", 0, 0), ("", 4, 2)]),
    Split(
        "\u{5D0}\n\u{1F600}\r\nb",
        &[("\u{5D0}\n", 0, 0), ("\u{1F600}\r\n", 3, 2), ("b", 9, 5)],
    ),
    Split("a\u{2028}b", &[("a\u{2028}b", 0, 0)]),
    Split("a\u{B}b", &[("a\u{B}b", 0, 0)]),
    Split("\r\u{85}", &[("\r", 0, 0), ("\u{85}", 1, 1), ("", 3, 2)]),
];

#[test]
fn paragraphs_end_behind_separators(rt: HostRuntime) {
    assert_rows(&rt, PARAGRAPHS);
}

/// Bidi classes, a text and its paragraphs by them.
const BY_THE_TABLES: &[ByClasses<Split>] = &[
    ByClasses(
        b"000A;B",
        Split("a\r\nb\rc", &[("a\r\n", 0, 0), ("b\rc", 3, 3)]),
    ),
    ByClasses(b"000D;B", Split("a\r\nb", &[("a\r", 0, 0), ("\nb", 2, 2)])),
    ByClasses(
        b"0061;B\n000A;B",
        Split("a\nb", &[("a", 0, 0), ("\n", 1, 1), ("b", 2, 2)]),
    ),
];

#[test]
fn the_tables_say_what_a_separator_is(rt: HostRuntime) {
    assert_rows(&rt, BY_THE_TABLES);
}

/// A text, and the clusters of its paragraphs.
struct Clustered(&'static str, &'static [&'static str]);

/// Whether a paragraph's clusters are the next ones.
fn has_next(para: &Para, wanted: &mut Iter<'_, &str>) -> bool {
    let mut right = true;
    for cluster in para.clusters() {
        right = wanted.next().copied() == Some(cluster) && right;
    }
    right
}

fn have_clusters(found: &[Para], want: &[&str]) -> bool {
    let mut wanted = want.iter();
    let mut right = true;
    for para in found {
        right = has_next(para, &mut wanted) && right;
    }
    right && wanted.next().is_none()
}

impl Row for Clustered {
    fn comes_out(&self, alloc: Global, tables: &Tables) -> Result<bool, Memory> {
        match split(alloc, tables, self.0) {
            Ok(found) => Ok(have_clusters(&found, self.1)),
            Err(Memory) => Err(Memory),
        }
    }
}

const CLUSTERS: &[Clustered] = &[
    Clustered("", &[]),
    Clustered("a\r\nb", &["a", "\r\n", "b"]),
    Clustered("e\u{301}x", &["e\u{301}", "x"]),
    Clustered("a\n\u{301}b", &["a", "\n", "\u{301}", "b"]),
    Clustered(
        "\u{1F1EE}\u{1F1F1}\u{1F1EE}\u{1F1F1}",
        &["\u{1F1EE}\u{1F1F1}", "\u{1F1EE}\u{1F1F1}"],
    ),
    Clustered("\u{2067}\u{200E}", &["\u{2067}", "\u{200E}"]),
];

/// Here a letter ends a paragraph, and the mark after it begins one.
const BY_LETTERS: &[ByClasses<Clustered>] = &[ByClasses(
    b"0061;B\n0301;NSM",
    Clustered("a\u{301}b", &["a", "\u{301}", "b"]),
)];

#[test]
fn clusters_of_each_paragraph(rt: HostRuntime) {
    assert_rows(&rt, CLUSTERS);
    assert_rows(&rt, BY_LETTERS);
}

/// 19 line feeds, and the empty paragraph after them.
const MANY: &[Split] = &[Split(
    "\n\n\n\n\n\n\n\n\n\n\n\n\n\n\n\n\n\n\n",
    &[
        ("\n", 0, 0),
        ("\n", 1, 1),
        ("\n", 2, 2),
        ("\n", 3, 3),
        ("\n", 4, 4),
        ("\n", 5, 5),
        ("\n", 6, 6),
        ("\n", 7, 7),
        ("\n", 8, 8),
        ("\n", 9, 9),
        ("\n", 10, 10),
        ("\n", 11, 11),
        ("\n", 12, 12),
        ("\n", 13, 13),
        ("\n", 14, 14),
        ("\n", 15, 15),
        ("\n", 16, 16),
        ("\n", 17, 17),
        ("\n", 18, 18),
        ("", 19, 19),
    ],
)];

/// An answer that grows several times is whole, or `Memory`.
#[test]
fn many_paragraphs_are_all_there(rt: HostRuntime) {
    assert_rows(&rt, MANY);
}

/// A cluster and its columns.
struct Columns(&'static str, u8);

impl Row for Columns {
    fn comes_out(&self, _alloc: Global, tables: &Tables) -> Result<bool, Memory> {
        Ok(!self.0.is_empty() && columns(tables, self.0) == self.1)
    }
}

const COLUMNS: &[Columns] = &[
    Columns("\u{4E16}", 2),
    Columns("e\u{301}", 1),
    Columns("\u{2067}", 0),
    Columns("\r\n", 0),
    Columns("\t", 1),
    Columns("\n", 0),
    Columns("\u{85}", 0),
    Columns("\u{2029}", 0),
    Columns("\u{1C}", 0),
    Columns("\u{B}", 0),
    Columns("\u{C}", 0),
    Columns("\u{2028}", 0),
    Columns("\u{2066}\u{2069}", 0),
    Columns("\u{202B}\u{200D}", 0),
    Columns("\u{200E}", 0),
    Columns("\u{200F}", 0),
    Columns("\u{61C}", 0),
    Columns("\u{200E}\u{301}", 1),
    Columns("\u{4E16}\u{301}", 2),
    Columns("\u{301}", 1),
    Columns("\u{301}\u{4E16}", 2),
    Columns("\u{200D}\u{4E16}", 2),
    Columns(" ", 1),
    Columns("\u{3B1}", 1),
    Columns("\u{5D0}", 1),
];

/// Here the class makes an isolate control.
const ISOLATING: &[ByClasses<Columns>] = &[
    ByClasses(b"0061;RLI", Columns("a", 0)),
    ByClasses(b"0061;RLI", Columns("\u{2067}", 1)),
];

/// Here the width makes a wide character.
const FULLWIDTH: &[Columns] = &[Columns("a", 2), Columns("b", 1)];

#[test]
fn columns_by_cases(rt: HostRuntime) {
    assert_rows(&rt, COLUMNS);
    assert_rows(&rt, ISOLATING);
    assert_rows_by(&rt, &by_width(b"0061;F", false), FULLWIDTH);
}

const AMBIGUOUS_NARROW: &[Columns] = &[
    Columns("\u{E9}", 1),
    Columns("\u{E9}\u{301}", 1),
    // Only the first code point decides.
    Columns("e\u{301}", 1),
    Columns("\u{301}", 1),
    Columns("\u{200E}\u{301}", 1),
    Columns("\u{302}", 1),
    Columns("e", 1),
    Columns("\u{4E16}", 2),
    Columns("\u{4E16}\u{301}", 2),
    // Nothing is seen of these.
    Columns("\u{200E}", 0),
    Columns("\u{85}", 0),
];

const AMBIGUOUS_WIDE: &[Columns] = &[
    Columns("\u{E9}", 2),
    Columns("\u{E9}\u{301}", 2),
    Columns("e\u{301}", 1),
    Columns("\u{301}", 2),
    Columns("\u{200E}\u{301}", 2),
    Columns("\u{302}", 1),
    Columns("e", 1),
    Columns("\u{4E16}", 2),
    Columns("\u{4E16}\u{301}", 2),
    Columns("\u{200E}", 0),
    Columns("\u{85}", 0),
];

#[test]
fn ambiguous_characters_are_wide_by_choice(rt: HostRuntime) {
    let ea = b"00E9;A\n0301;A\n200E;A\n0085;A\n4E16;W";
    assert_rows_by(&rt, &by_width(ea, false), AMBIGUOUS_NARROW);
    assert_rows_by(&rt, &by_width(ea, true), AMBIGUOUS_WIDE);
}

#[test]
fn the_laws_are_called() {
    laws::cluster_places();
    laws::clusters_join();
    laws::paragraphs_join();
}

//! What no clause says: files and what is read of them, and the faults of their lines.

mod faults;

use crate::pieces::{Pieces, text_of};
use crate::rows::{Row, assert_rows, assert_rows_by};
use bg_types::{Bidi, Ea, Lb, Memory};
use std::alloc::{AllocError, Global};
use ucd_files::*;

const NONE: Ucd<'static> = Ucd {
    bidi: b"",
    brackets: b"",
    mirror: b"",
    lb: b"",
    ea: b"",
    wide_ambiguous: false,
};

/// Loads one file with four empty ones.
fn load(alloc: Global, file: UcdFile, bytes: &[u8]) -> Result<Tables, UcdFault> {
    let mut files = NONE;
    match file {
        UcdFile::Bidi => files.bidi = bytes,
        UcdFile::Brackets => files.brackets = bytes,
        UcdFile::Mirror => files.mirror = bytes,
        UcdFile::Lb => files.lb = bytes,
        UcdFile::Ea => files.ea = bytes,
    }
    files.load(alloc)
}

/// A character's Bidi class, break class and width.
type Values = (Bidi, Lb, Ea);

fn has_values(tables: &Tables, c: char, values: Values) -> bool {
    (tables.bidi(c), tables.lb(c), tables.ea(c)) == values
}

/// A class that a file gives.
#[derive(Clone, Copy)]
enum Class {
    Bidi(Bidi),
    Lb(Lb),
    Ea(Ea),
}

/// The file of a class, and the values of a character that has no other one.
fn values_of(class: Class) -> (UcdFile, Values) {
    match class {
        Class::Bidi(bidi) => (UcdFile::Bidi, (bidi, Lb::Xx, Ea::N)),
        Class::Lb(lb) => (UcdFile::Lb, (Bidi::L, lb, Ea::N)),
        Class::Ea(ea) => (UcdFile::Ea, (Bidi::L, Lb::Xx, ea)),
    }
}

/// A file, a character, and the class that the file gives it.
struct In(&'static [u8], char, Class);

impl Row for In {
    fn comes_out(&self, alloc: Global, _tables: &Tables) -> Result<bool, Memory> {
        let (file, values) = values_of(self.2);
        match load(alloc, file, self.0) {
            Ok(tables) => Ok(has_values(&tables, self.1, values)),
            Err(UcdFault::Memory) => Err(Memory),
            Err(_) => Ok(false),
        }
    }
}

const BIDI_CLASSES: &[In] = &[
    In(b"0041..005A;L\n0041 ; R", 'A', Class::Bidi(Bidi::R)),
    In(b"0041..005A;L\n0041 ; R", 'B', Class::Bidi(Bidi::L)),
    In(
        b"# @missing: 0590..05FF; Right_To_Left",
        '\u{5D0}',
        Class::Bidi(Bidi::R),
    ),
    In(
        b"# @missing: 0590..05FF; Right_To_Left",
        'A',
        Class::Bidi(Bidi::L),
    ),
    In(
        b"# @missing: 0590..05FF; Nothing",
        '\u{5D0}',
        Class::Bidi(Bidi::L),
    ),
    In(b"", 'A', Class::Bidi(Bidi::L)),
    In(b"0041..0043;R", '@', Class::Bidi(Bidi::L)),
    In(b"0041..0043;R", 'A', Class::Bidi(Bidi::R)),
    In(b"0041..0043;R", 'C', Class::Bidi(Bidi::R)),
    In(b"0041..0043;R", 'D', Class::Bidi(Bidi::L)),
    In(b"10FFFE..10FFFF;BN", '\u{10FFFF}', Class::Bidi(Bidi::Bn)),
    In(
        b"\t0041\t;\tEN ; and more; of it\t# x\r\n",
        'A',
        Class::Bidi(Bidi::En),
    ),
    In(b"00e9;R", '\u{E9}', Class::Bidi(Bidi::R)),
    In(b"1f600..1F64f;ON", '\u{1F600}', Class::Bidi(Bidi::On)),
    In(b"01f600..01F64F;ON", '\u{1F64F}', Class::Bidi(Bidi::On)),
    In(
        b"# @missing: 0590..05FF; R",
        '\u{590}',
        Class::Bidi(Bidi::R),
    ),
    In(
        b"# @missing: 0590..05FF; R",
        '\u{5FF}',
        Class::Bidi(Bidi::R),
    ),
    In(b"#@missing:0590..05FF;R", '\u{5D0}', Class::Bidi(Bidi::R)),
    In(
        b"#\t@missing:\t 0590..05FF\t;\tR",
        '\u{5D0}',
        Class::Bidi(Bidi::R),
    ),
    In(
        b"0041;L # @missing: 0590..05FF; R",
        '\u{5D0}',
        Class::Bidi(Bidi::R),
    ),
    In(
        b"# @missing: 0590..05FF; R; x",
        '\u{5D0}',
        Class::Bidi(Bidi::L),
    ),
    In(b"# @missing: 05D0; R", '\u{5D0}', Class::Bidi(Bidi::L)),
    In(
        b"# @missing: 05FF..0590; R",
        '\u{5D0}',
        Class::Bidi(Bidi::L),
    ),
    In(b"# @missing: 590..05FF; R", '\u{5D0}', Class::Bidi(Bidi::L)),
    In(
        b"# @missing : 0590..05FF; R",
        '\u{5D0}',
        Class::Bidi(Bidi::L),
    ),
    In(
        b"# x @missing: 0590..05FF; R",
        '\u{5D0}',
        Class::Bidi(Bidi::L),
    ),
    In(
        b"# @missing: 0590..05FF; R # x",
        '\u{5D0}',
        Class::Bidi(Bidi::L),
    ),
    In(
        b"05D0;EN\n# @missing: 0590..05FF; R",
        '\u{5D0}',
        Class::Bidi(Bidi::En),
    ),
    In(
        b"05D0;EN\n# @missing: 0590..05FF; R",
        '\u{5D1}',
        Class::Bidi(Bidi::R),
    ),
    In(
        b"# @missing: 0590..05FF; R\n# @missing: 05D0..05D0; Arabic_Letter",
        '\u{5D0}',
        Class::Bidi(Bidi::Al),
    ),
    In(
        b"# @missing: 05D0..05D0; AL\n# @missing: 0590..05FF; R",
        '\u{5D0}',
        Class::Bidi(Bidi::R),
    ),
    In(b"D800..DFFF;R", '\u{D7FF}', Class::Bidi(Bidi::L)),
];

#[test]
fn bidi_classes(rt: HostRuntime) {
    assert_rows(&rt, BIDI_CLASSES);
}

const LONG: &[u8] = b"0000..10FFFF;AL\n# @missing: 20A0..20CF; Prefix_Numeric\n20AC;ZWJ";

const MISSING: &[u8] =
    b"# @missing: 20A0..20CF; Prefix_Numeric\n# @missing: 0041..0041; Alphabetic";

const IDEOGRAPHS: &[u8] = b"# @missing: 4E00..9FFF; Ideographic";

const BREAK_CLASSES: &[In] = &[
    In(IDEOGRAPHS, '\u{4E16}', Class::Lb(Lb::Id)),
    In(IDEOGRAPHS, 'a', Class::Lb(Lb::Xx)),
    In(LONG, '\u{20A0}', Class::Lb(Lb::Al)),
    In(LONG, '\u{20AC}', Class::Lb(Lb::Zwj)),
    In(MISSING, '\u{20CF}', Class::Lb(Lb::Pr)),
    In(MISSING, 'A', Class::Lb(Lb::Xx)),
];

#[test]
fn break_classes(rt: HostRuntime) {
    assert_rows(&rt, BREAK_CLASSES);
}

const NARROW: &[u8] = b"# x\r\n\r\n0041 ; Na # y\r\n";

const WIDE: &[u8] = b"# @missing: 3400..4DBF; Wide\n3400;A";

const WIDTHS: &[In] = &[
    In(NARROW, 'A', Class::Ea(Ea::Na)),
    In(NARROW, 'B', Class::Ea(Ea::N)),
    In(WIDE, '\u{4DBF}', Class::Ea(Ea::W)),
    In(WIDE, '\u{3400}', Class::Ea(Ea::A)),
];

#[test]
fn widths(rt: HostRuntime) {
    assert_rows(&rt, WIDTHS);
}

/// The bracket that a character is, or its mirror.
enum Pair {
    Bracket(char, Bracket),
    Mirror(char, Option<char>),
}

impl Row for Pair {
    fn comes_out(&self, _alloc: Global, tables: &Tables) -> Result<bool, Memory> {
        Ok(match self {
            Pair::Bracket(c, bracket) => tables.bracket(*c) == *bracket,
            Pair::Mirror(c, mirror) => tables.mirror(*c) == *mirror,
        })
    }
}

const PAIRS: &[Pair] = &[
    Pair::Bracket('(', Bracket::Open(')')),
    Pair::Mirror('(', Some(')')),
    Pair::Bracket(')', Bracket::Close('(')),
    Pair::Mirror(')', None),
    Pair::Bracket('A', Bracket::None),
    Pair::Mirror('A', None),
    Pair::Bracket('<', Bracket::None),
    Pair::Mirror('<', Some('\u{10FFFF}')),
];

#[test]
fn brackets_and_mirrors(rt: HostRuntime) {
    let files = Ucd {
        brackets: b"0028; 0029; o # LEFT\n0029;0028;c;x\n# @missing: 0041..0042; o",
        mirror: b"0028; 0029\r\nd800; 0041\n003C; 10FFFF # x",
        ..NONE
    };
    assert_rows_by(&rt, &files, PAIRS);
}

/// A character, its Bidi class, break class and width.
struct Small(char, Bidi, Lb, Ea);

impl Row for Small {
    fn comes_out(&self, _alloc: Global, tables: &Tables) -> Result<bool, Memory> {
        Ok(has_values(tables, self.0, (self.1, self.2, self.3)))
    }
}

const SMALL_VALUES: &[Small] = &[
    Small('\u{5D0}', Bidi::R, Lb::Hl, Ea::N),
    Small('\u{5FF}', Bidi::R, Lb::Xx, Ea::N),
    Small('\u{627}', Bidi::Al, Lb::Al, Ea::N),
    Small('\u{202E}', Bidi::Rlo, Lb::Cm, Ea::N),
    Small('\u{3B1}', Bidi::L, Lb::Xx, Ea::A),
    Small('\u{4E16}', Bidi::L, Lb::Id, Ea::W),
    Small('\u{10FFFF}', Bidi::L, Lb::Xx, Ea::N),
];

const SMALL_PAIRS: &[Pair] = &[
    Pair::Bracket('\u{2329}', Bracket::Open('\u{232A}')),
    Pair::Bracket('}', Bracket::Close('{')),
    Pair::Mirror('<', Some('>')),
];

#[test]
fn the_small_files_load(rt: HostRuntime) {
    assert_rows(&rt, SMALL_VALUES);
    assert_rows(&rt, SMALL_PAIRS);
}

/// Whether ambiguous characters are wide.
struct Wide(bool);

/// Whether the choice is kept, and the files' values stay as they are.
fn is_kept(tables: &Tables, yes: bool) -> bool {
    tables.wide_ambiguous() == yes && tables.ea('\u{3B1}') == Ea::A
}

/// Whether the choice is kept, and the other one that is made after it.
fn are_kept(tables: Tables, yes: bool) -> bool {
    let right = is_kept(&tables, yes);
    let other = tables.with_wide_ambiguous(!yes);
    is_kept(&other, !yes) && right
}

impl Row for Wide {
    fn comes_out(&self, alloc: Global, _tables: &Tables) -> Result<bool, Memory> {
        let files = Ucd {
            wide_ambiguous: self.0,
            ..vectors::SMALL
        };
        match files.load(alloc) {
            Ok(tables) => Ok(are_kept(tables, self.0)),
            Err(UcdFault::Memory) => Err(Memory),
            Err(_) => Ok(false),
        }
    }
}

const CHOICES: &[Wide] = &[Wide(true), Wide(false)];

#[test]
fn the_choice_of_width_is_kept(rt: HostRuntime) {
    assert_rows(&rt, CHOICES);
}

/// A file of Bidi classes whose lines name all code points again and again, and the classes of some of them.
struct Crowded(Pieces, &'static [(char, Bidi)]);

fn are_all(tables: &Tables, rows: &[(char, Bidi)]) -> bool {
    let mut right = true;
    for (c, bidi) in rows {
        right = has_values(tables, *c, (*bidi, Lb::Xx, Ea::N)) && right;
    }
    right
}

fn are_loaded(alloc: Global, bytes: &[u8], rows: &[(char, Bidi)]) -> Result<bool, Memory> {
    match load(alloc, UcdFile::Bidi, bytes) {
        Ok(tables) => Ok(are_all(&tables, rows)),
        Err(UcdFault::Memory) => Err(Memory),
        Err(_) => Ok(false),
    }
}

impl Row for Crowded {
    fn comes_out(&self, alloc: Global, _tables: &Tables) -> Result<bool, Memory> {
        let text = text_of(alloc, self.0)?;
        are_loaded(alloc, text.as_bytes(), self.1)
    }
}

/// A line that names all code points, so often that a table is filled from the last line to the first, and then others.
const CROWDED: &[Crowded] = &[
    Crowded(
        &[
            ("0000..10FFFF;R\n", 9),
            (
                "0041..0043;AL\n0042;EN\n# @missing: 0000..10FFFF; AN\n10FFFF;NSM",
                1,
            ),
        ],
        &[
            ('\0', Bidi::R),
            ('@', Bidi::R),
            ('A', Bidi::Al),
            ('B', Bidi::En),
            ('C', Bidi::Al),
            ('D', Bidi::R),
            ('\u{10FFFE}', Bidi::R),
            ('\u{10FFFF}', Bidi::Nsm),
        ],
    ),
    Crowded(
        &[
            ("# @missing: 0000..10FFFF; R\n", 9),
            ("# @missing: 0041..0043; AL\n0042;EN\n0044..10FFFE;ET", 1),
        ],
        &[
            ('\0', Bidi::R),
            ('@', Bidi::R),
            ('A', Bidi::Al),
            ('B', Bidi::En),
            ('C', Bidi::Al),
            ('D', Bidi::Et),
            ('\u{10FFFE}', Bidi::Et),
            ('\u{10FFFF}', Bidi::R),
        ],
    ),
];

/// The last data line decides, or else the last default, however often the lines name all code points.
#[test]
fn lines_that_name_all_code_points_again_and_again(rt: HostRuntime) {
    assert_rows(&rt, CROWDED);
}

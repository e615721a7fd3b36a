//! What no clause says: rows drawn and printed, with small tables, and calls that succeed.

mod from_rows;
mod hostile;
mod long_clusters;

use crate::drawn::{Drawn, Shown};
use crate::rows::{ByClasses, assert_rows, assert_rows_by};
use bg_types::Base::{Auto, Left, Right};
use bg_types::{Out, Stops};
use cell_grid::*;
use std::slice::Iter;
use ucd_files::{Ucd, vectors};

/// Whether a sink that takes at most `piece` bytes a call and `left` in all takes these bytes of a grid, which are `all`.
fn takes(grid: &Grid, (piece, left): (usize, usize), shown: &[u8], all: bool) -> bool {
    if piece == 0 {
        return false;
    }
    let mut room = [0; 256];
    let mut sink = Stops::new(Out::new(room.as_mut_slice()), piece, left);
    let whole = print(grid, &mut sink).is_ok();
    whole == all && room.starts_with(shown) && room.get(shown.len()) == Some(&0)
}

/// What is printed.
struct Printed(&'static str);

impl Shown for Printed {
    fn is_shown(&self, grid: &Grid) -> bool {
        takes(grid, (usize::MAX, usize::MAX), self.0.as_bytes(), true)
    }
}

/// A paragraph of three scripts.
const MIXED: &str =
    "The word \u{5E9}\u{5DC}\u{5D5}\u{5DD} (peace) and \u{627}\u{644}\u{639}\u{62F}\u{62F} 120 (a number) in one paragraph.";

/// This paragraph, as it is shown at width 24.
const MIXED_SHOWN: &str =
    "The word \u{5DD}\u{5D5}\u{5DC}\u{5E9} (peace)   \nand 120 \u{62F}\u{62F}\u{639}\u{644}\u{627} (a number)\nin one paragraph.       \n";

const PRINTED: &[Drawn<Printed>] = &[
    Drawn(Auto, MIXED, 24, Printed(MIXED_SHOWN)),
    Drawn(Auto, "", 4, Printed("    \n")),
    Drawn(
        Auto,
        "ab \u{5D0}\u{5D1}\u{5D2}",
        8,
        Printed("ab \u{5D2}\u{5D1}\u{5D0}  \n"),
    ),
    Drawn(
        Auto,
        "\u{5D0}\u{5D1} 12",
        8,
        Printed("   12 \u{5D1}\u{5D0}\n"),
    ),
    Drawn(Auto, "\u{5D0}(b)", 4, Printed("(b)\u{5D0}\n")),
    Drawn(Auto, "a\u{2067}b!\u{2069}c", 4, Printed("a!bc\n")),
    Drawn(Auto, "ab cd", 2, Printed("ab\ncd\n")),
    Drawn(Auto, "abcdef", 4, Printed("abcd\nef  \n")),
    // A wide cluster takes a line of two columns by itself.
    Drawn(Auto, "a\u{4E16}b", 2, Printed("a \n\u{4E16}\nb \n")),
    Drawn(Auto, "a\r\nb", 2, Printed("a \nb \n")),
    // A text that ends with a separator has a last, empty row.
    Drawn(Auto, "a\n", 2, Printed("a \n  \n")),
    Drawn(Auto, "e\u{301}", 2, Printed("e\u{301} \n")),
    Drawn(Auto, "a   ", 3, Printed("a  \n")),
    Drawn(
        Auto,
        "a \u{5D0}\u{5D1} \u{5D2}\u{5D3}",
        5,
        Printed("a \u{5D1}\u{5D0} \n\u{5D3}\u{5D2}   \n"),
    ),
    Drawn(Auto, "\u{627}12", 4, Printed(" 12\u{627}\n")),
    // A tab is shown as one space, and resets its level.
    Drawn(Auto, "a\tb", 4, Printed("a b \n")),
    Drawn(Auto, "\u{5D0}\tb", 4, Printed(" b \u{5D0}\n")),
    // Spaces that hang in a paragraph of odd level stand on its left.
    Drawn(Auto, "\u{5D0}   ", 3, Printed("  \u{5D0}\n")),
    // A bracket is mirrored only at an odd level.
    Drawn(Auto, "\u{5D0}(", 2, Printed(")\u{5D0}\n")),
    Drawn(Auto, "a(", 2, Printed("a(\n")),
    Drawn(Auto, "\u{5D0}\u{4E16}", 2, Printed(" \u{5D0}\n\u{4E16}\n")),
];

#[test]
fn texts_are_printed(rt: HostRuntime) {
    assert_rows(&rt, PRINTED);
}

const UNDER_A_BASE: &[Drawn<Printed>] = &[
    Drawn(Right, "ab", 4, Printed("  ab\n")),
    Drawn(Right, "a!", 4, Printed("  !a\n")),
    // Each paragraph has the base.
    Drawn(Right, "a!\n\nb!", 4, Printed("  !a\n    \n  !b\n")),
    // An FSI takes its direction from its content.
    Drawn(
        Right,
        "\u{2068}\u{5D0}!\u{2069}a",
        4,
        Printed(" a!\u{5D0}\n"),
    ),
    Drawn(Right, "\u{2068}b!\u{2069}a", 4, Printed(" ab!\n")),
    Drawn(Left, "\u{5D0}!", 4, Printed("\u{5D0}!  \n")),
    Drawn(
        Left,
        "\u{5D0}!\n\n\u{5D1}!",
        4,
        Printed("\u{5D0}!  \n    \n\u{5D1}!  \n"),
    ),
    Drawn(
        Left,
        "\u{2068}\u{5D0}!\u{2069}a",
        4,
        Printed("!\u{5D0}a \n"),
    ),
    Drawn(Auto, "\u{5D0}!", 4, Printed("  !\u{5D0}\n")),
];

#[test]
fn a_base_puts_each_row_at_its_edge(rt: HostRuntime) {
    assert_rows(&rt, UNDER_A_BASE);
}

/// Each row has this paragraph level and begins with a blank.
struct Blank(u8);

impl Shown for Blank {
    fn is_shown(&self, grid: &Grid) -> bool {
        let mut right = true;
        for row in grid.rows() {
            right = row.para_level() == self.0 && row.cell(0) == Some(Cell::Blank) && right;
        }
        right
    }
}

/// Texts of an empty paragraph, of one of class B and of one of controls alone.
const WITHOUT_A_LETTER: &[Drawn<Blank>] = &[
    Drawn(Auto, "", 2, Blank(0)),
    Drawn(Auto, "\n", 2, Blank(0)),
    Drawn(Auto, "\u{2029}", 2, Blank(0)),
    Drawn(Auto, "\u{202A}\u{202C}", 2, Blank(0)),
    Drawn(Auto, "\u{2067}\u{2069}\u{200B}", 2, Blank(0)),
    Drawn(Left, "", 2, Blank(0)),
    Drawn(Left, "\n", 2, Blank(0)),
    Drawn(Left, "\u{2029}", 2, Blank(0)),
    Drawn(Left, "\u{202A}\u{202C}", 2, Blank(0)),
    Drawn(Left, "\u{2067}\u{2069}\u{200B}", 2, Blank(0)),
    Drawn(Right, "", 2, Blank(1)),
    Drawn(Right, "\n", 2, Blank(1)),
    Drawn(Right, "\u{2029}", 2, Blank(1)),
    Drawn(Right, "\u{202A}\u{202C}", 2, Blank(1)),
    Drawn(Right, "\u{2067}\u{2069}\u{200B}", 2, Blank(1)),
];

#[test]
fn paragraphs_without_a_letter_have_the_level_of_the_base(rt: HostRuntime) {
    assert_rows(&rt, WITHOUT_A_LETTER);
}

const NARROW: &[Drawn<Printed>] = &[
    Drawn(Auto, "\u{3B1}a", 4, Printed("\u{3B1}a  \n")),
    Drawn(Auto, "\u{3B1}a", 2, Printed("\u{3B1}a\n")),
    Drawn(
        Auto,
        "\u{3B1}\u{3B1} \u{3B1}",
        3,
        Printed("\u{3B1}\u{3B1} \n\u{3B1}  \n"),
    ),
];

const WIDE: &[Drawn<Printed>] = &[
    Drawn(Auto, "\u{3B1}a", 4, Printed("\u{3B1}a \n")),
    Drawn(Auto, "\u{3B1}a", 2, Printed("\u{3B1}\na \n")),
    // The choice changes no place where a line may end.
    Drawn(
        Auto,
        "\u{3B1}\u{3B1} \u{3B1}",
        4,
        Printed("\u{3B1}\u{3B1}\n\u{3B1}  \n"),
    ),
    Drawn(Right, "\u{3B1}!", 4, Printed(" !\u{3B1}\n")),
];

#[test]
fn ambiguous_characters_are_as_wide_as_the_tables_say(rt: HostRuntime) {
    assert_rows(&rt, NARROW);
    let wide = Ucd {
        wide_ambiguous: true,
        ..vectors::SMALL
    };
    assert_rows_by(&rt, &wide, WIDE);
}

const MIRRORED: &[Drawn<Printed>] = &[Drawn(Auto, "\u{5D0}(", 2, Printed("\n\u{5D0}\n"))];

#[test]
fn a_mirror_that_is_a_line_feed_is_printed_as_one(rt: HostRuntime) {
    let files = Ucd {
        mirror: b"0028; 000A",
        ..vectors::SMALL
    };
    assert_rows_by(&rt, &files, MIRRORED);
}

/// A width, and of each row its first and last place, its paragraph level, and its entries: the bytes of each, its places,
/// its level, its column and its columns.
struct Entries(u16, &'static [&'static [usize]]);

/// Whether these are the next numbers that are wanted.
fn are_next(wanted: &mut Iter<'_, usize>, numbers: &[usize]) -> bool {
    let mut right = true;
    for number in numbers {
        right = wanted.next() == Some(number) && right;
    }
    right
}

fn is_entry(wanted: &mut Iter<'_, usize>, entry: &Entry) -> bool {
    let own = [
        entry.span.first_byte as usize,
        entry.span.end_byte as usize,
        entry.span.first_place as usize,
        entry.span.end_place as usize,
        usize::from(entry.level),
        usize::from(entry.column),
        usize::from(entry.columns),
    ];
    are_next(wanted, &own)
}

fn is_row(row: &Row, want: &[usize]) -> bool {
    let mut wanted = want.iter();
    let head = [
        row.first_place(),
        row.last_place(),
        usize::from(row.para_level()),
    ];
    let mut right = are_next(&mut wanted, &head);
    for entry in row.entries() {
        right = is_entry(&mut wanted, &entry) && right;
    }
    right && wanted.next().is_none()
}

impl Shown for Entries {
    fn is_shown(&self, grid: &Grid) -> bool {
        let mut right = grid.rows().len() == self.1.len();
        for (row, numbers) in grid.rows().iter().zip(self.1) {
            right = row.width() == self.0 && is_row(row, numbers) && right;
        }
        right
    }
}

const ODD_LEVEL: &[Drawn<Entries>] = &[Drawn(
    Auto,
    "\u{5D0}\u{5D1} 12",
    8,
    Entries(
        8,
        &[&[
            0, 5, 1, 5, 6, 3, 4, 2, 3, 1, 6, 7, 4, 5, 2, 4, 1, 4, 5, 2, 3, 1, 5, 1, 2, 4, 1, 2, 1,
            6, 1, 0, 2, 0, 1, 1, 7, 1,
        ]],
    ),
)];

#[test]
fn an_order_of_numbers_at_an_odd_level(rt: HostRuntime) {
    assert_rows(&rt, ODD_LEVEL);
}

const ISOLATES: &[Drawn<Entries>] = &[Drawn(
    Auto,
    "a\u{2067}b!\u{2069}c",
    4,
    Entries(
        4,
        &[&[
            0, 6, 0, 0, 1, 0, 1, 0, 0, 1, 1, 4, 1, 2, 0, 1, 0, 5, 6, 3, 4, 1, 1, 1, 4, 5, 2, 3, 2,
            2, 1, 6, 9, 4, 5, 0, 3, 0, 9, 10, 5, 6, 0, 3, 1,
        ]],
    ),
)];

#[test]
fn isolates_have_entries_without_columns(rt: HostRuntime) {
    assert_rows(&rt, ISOLATES);
}

const HANGING: &[Drawn<Entries>] = &[
    Drawn(
        Auto,
        "ab cd",
        2,
        Entries(
            2,
            &[
                &[
                    0, 3, 0, 0, 1, 0, 1, 0, 0, 1, 1, 2, 1, 2, 0, 1, 1, 2, 3, 2, 3, 0, 2, 0,
                ],
                &[3, 5, 0, 3, 4, 3, 4, 0, 0, 1, 4, 5, 4, 5, 0, 1, 1],
            ],
        ),
    ),
    Drawn(
        Auto,
        "a   ",
        3,
        Entries(
            3,
            &[&[
                0, 4, 0, 0, 1, 0, 1, 0, 0, 1, 1, 2, 1, 2, 0, 1, 1, 2, 3, 2, 3, 0, 2, 1, 3, 4, 3, 4,
                0, 3, 0,
            ]],
        ),
    ),
];

#[test]
fn hanging_spaces_have_entries(rt: HostRuntime) {
    assert_rows(&rt, HANGING);
}

/// A separator has no column, and is its row's; a last, empty row has its own place.
const COUNTED: &[Drawn<Entries>] = &[
    Drawn(
        Auto,
        "\u{5D0}\r\nb\n",
        2,
        Entries(
            2,
            &[
                &[0, 3, 1, 2, 4, 1, 3, 1, 1, 0, 0, 2, 0, 1, 1, 1, 1],
                &[3, 5, 0, 4, 5, 3, 4, 0, 0, 1, 5, 6, 4, 5, 0, 1, 0],
                &[5, 5, 0],
            ],
        ),
    ),
    Drawn(Auto, "", 4, Entries(4, &[&[0, 0, 0]])),
];

#[test]
fn rows_are_counted_in_the_whole_text(rt: HostRuntime) {
    assert_rows(&rt, COUNTED);
}

/// What stands in the columns of each row, seen in two ways.
struct Cells(&'static [Cell]);

fn has_cells(row: &Row, want: &[Cell]) -> bool {
    let mut column = 0usize;
    let mut right = true;
    for cell in row.cells() {
        let wanted = want.get(column).copied();
        right = wanted == Some(cell) && row.cell(column) == wanted && right;
        column = column.wrapping_add(1);
    }
    right && column == want.len() && row.cell(column).is_none()
}

impl Shown for Cells {
    fn is_shown(&self, grid: &Grid) -> bool {
        let mut right = true;
        for row in grid.rows() {
            right = has_cells(row, self.0) && right;
        }
        right
    }
}

const CELLS: &[Drawn<Cells>] = &[
    Drawn(
        Auto,
        "\u{5D0}\u{4E16}\u{5D1}",
        6,
        Cells(&[
            Cell::Blank,
            Cell::Blank,
            Cell::Head(0),
            Cell::Head(1),
            Cell::Tail(1),
            Cell::Head(2),
        ]),
    ),
    Drawn(Auto, "e\u{301}", 2, Cells(&[Cell::Head(0), Cell::Blank])),
];

#[test]
fn cells_are_heads_tails_and_blanks(rt: HostRuntime) {
    assert_rows(&rt, CELLS);
}

/// What a sink that takes at most so many bytes a call, and fails somewhere, has a beginning of.
struct Beginnings(usize, &'static str);

impl Shown for Beginnings {
    fn is_shown(&self, grid: &Grid) -> bool {
        let shown = self.1.as_bytes();
        let mut right = true;
        for left in 0..=shown.len() {
            let all = left == shown.len();
            right = takes(grid, (self.0, left), &shown[..left], all) && right;
        }
        right
    }
}

const STOPPED: &str = "\u{5D0}(\u{4E16}\na\tb";

const STOPPED_SHOWN: &str = "\u{4E16})\u{5D0}\na b \n";

const BEGINNINGS: &[Drawn<Beginnings>] = &[
    Drawn(Auto, STOPPED, 4, Beginnings(1, STOPPED_SHOWN)),
    Drawn(Auto, STOPPED, 4, Beginnings(3, STOPPED_SHOWN)),
    Drawn(Auto, STOPPED, 4, Beginnings(64, STOPPED_SHOWN)),
];

/// A sink that fails leaves a beginning, and the answer is Device.
#[test]
fn a_failing_sink_keeps_a_beginning(rt: HostRuntime) {
    assert_rows(&rt, BEGINNINGS);
}

#[test]
fn the_laws_are_called() {
    laws::clusters_once();
    laws::cells_once();
    laws::rows_follow();
    laws::places_once();
    laws::rows_may_shift();
    laws::first_places_rise();
    laws::windows_in_stretches();
    laws::rows_of_paragraphs();
    laws::rows_move_with_paragraphs();
}

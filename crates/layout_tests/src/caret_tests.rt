//! What no clause says: lines walked by hand.

ghost use Rattle.std.specs.Prelude.{◌≡◌, ◌≤◌, length};
ghost use Rattle.std.specs.Str.{chars};
ghost use Rattle.caret.specs.Gaps.{IsCaretOf};

use crate::drawn::{Drawn, DrawnOf, Shown};
use crate::rows::assert_rows;
use bg_types::Base::{Auto, Left, Right};
use caret::*;
use cell_grid::Grid;

/// How many code points a text has.
fn code_points(text: &str) -> usize
    ensures { result ≡ length (chars text.now) }
{
    text.chars().count()
}

/// The caret after the move of a letter: `r`, `l`, `u` or `d`.
fn moved(grid: &Grid, caret: Caret, letter: u8) -> Caret
    requires { IsCaretOf grid.now.rows caret }
    ensures { IsCaretOf grid.now.rows result }
{
    match letter {
        b'r' => right(grid, caret),
        b'l' => left(grid, caret),
        b'u' => up(grid, caret),
        _ => down(grid, caret),
    }
}

fn digit(n: usize) -> u8 {
    b'0' + (n % 10) as u8
}

/// Whether a caret's row, gap and place have these three digits.
fn is_at(caret: Caret, stop: &str) -> bool {
    stop.as_bytes() == [digit(caret.row), digit(caret.gap), digit(caret.place)].as_slice()
}

/// A place, the letters of moves, and where the caret stops at first and after each move, as its row, gap and place.
struct Walk(usize, &'static str, &'static str);

impl Shown for Walk {
    fn is_shown(&self, grid: &Grid) -> bool {
        walks(grid, self.0, self.1, self.2)
    }
}

fn walks(grid: &Grid, place: usize, moves: &str, stops: &str) -> bool {
    if place > code_points(grid.text()) {
        return false;
    }
    let mut caret = at_place(grid, place);
    let mut letters = moves.bytes();
    let mut count = 0usize;
    let mut right = true;
    for stop in stops.split(' ') {
        right = is_at(caret, stop) && right;
        count = count.wrapping_add(1);
        if let Some(letter) = letters.next() {
            caret = moved(grid, caret, letter);
        }
    }
    right && count == moves.len().wrapping_add(1)
}

const STEPS: &[Drawn<Walk>] = &[
    Drawn(
        Auto,
        "ab \u{5D0}\u{5D1}\u{5D2}",
        8,
        Walk(3, "llllr", "063 054 045 036 022 033"),
    ),
    Drawn(
        Auto,
        "ab \u{5D0}\u{5D1}\u{5D2}",
        8,
        Walk(0, "rrrrrrr", "000 011 022 033 045 054 063 063"),
    ),
    Drawn(
        Auto,
        "\u{5D0}\u{5D1} 12",
        8,
        Walk(0, "llllll", "050 041 032 023 014 003 003"),
    ),
    Drawn(
        Auto,
        "a\u{2067}b!\u{2069}c",
        4,
        Walk(0, "rrrrrrr", "000 011 022 033 043 055 066 066"),
    ),
];

#[test]
fn steps_cross_one_entry_each(rt: HostRuntime) {
    assert_rows(&rt, STEPS);
}

const EDGES: &[Drawn<Walk>] = &[
    Drawn(Auto, "a\n", 2, Walk(0, "rrrrl", "000 011 022 102 102 022")),
    Drawn(
        Auto,
        "abcdef",
        4,
        Walk(4, "llrrrrr", "104 044 033 044 104 115 126 126"),
    ),
    Drawn(Auto, "abcdef", 4, Walk(0, "l", "000 000")),
    // Two rows of a paragraph of level 1; such a row before one of level 0, and after it.
    Drawn(
        Auto,
        "\u{5D0}\u{5D1}\u{5D2}\u{5D3}",
        2,
        Walk(
            0,
            "llllllrrrrrr",
            "020 011 002 122 113 104 104 113 122 002 011 020 020",
        ),
    ),
    Drawn(
        Auto,
        "\u{5D0}\u{5D1}\nab",
        4,
        Walk(0, "lllllr", "030 021 012 003 103 003 012"),
    ),
    Drawn(
        Auto,
        "a\n\u{5D0}",
        4,
        Walk(1, "rrrll", "011 022 112 022 011 000"),
    ),
];

#[test]
fn edges_lead_on_and_back(rt: HostRuntime) {
    assert_rows(&rt, EDGES);
}

const UP_AND_DOWN: &[Drawn<Walk>] = &[
    Drawn(Auto, "a\n", 2, Walk(0, "d", "000 102")),
    Drawn(Auto, "ab cd", 2, Walk(0, "rdu", "000 011 114 011")),
    // To a shorter row and back; at the first and the last row nothing changes.
    Drawn(
        Auto,
        "abcdef",
        4,
        Walk(3, "udduu", "033 033 126 126 022 022"),
    ),
    // Under wide cells.
    Drawn(
        Auto,
        "\u{4E16}\u{4E16}\na b",
        4,
        Walk(4, "urrdu", "114 000 011 022 136 011"),
    ),
    Drawn(Auto, "\u{4E16}\u{4E16}\na b", 4, Walk(1, "d", "011 125")),
    // Among entries of no columns, the last gap of a column.
    Drawn(
        Auto,
        "a\u{2067}b!\u{2069}c\nxy",
        4,
        Walk(7, "rud", "107 118 022 118"),
    ),
    Drawn(Auto, "ab\ncd", 2, Walk(5, "u", "125 033")),
    Drawn(Auto, "ab cd", 2, Walk(5, "u", "125 033")),
    // No gap of the row above is that far left.
    Drawn(
        Auto,
        "\u{5D0}\u{5D1}\nab",
        4,
        Walk(3, "urrru", "103 003 012 021 030 030"),
    ),
    Drawn(Auto, "\u{5D0}\u{5D1}\nab", 4, Walk(5, "ud", "125 012 125")),
    Drawn(Auto, "\u{5D0}\u{5D1}\nab", 4, Walk(0, "d", "030 125")),
    // An empty row.
    Drawn(Auto, "", 4, Walk(0, "rlud", "000 000 000 000 000")),
    Drawn(Auto, "ab\n", 4, Walk(3, "udd", "103 000 103 103")),
];

#[test]
fn up_and_down_keep_to_the_column(rt: HostRuntime) {
    assert_rows(&rt, UP_AND_DOWN);
}

/// Latin lines from right to left, and Hebrew ones from left to right.
const UNDER_A_BASE: &[Drawn<Walk>] = &[
    Drawn(Right, "ab", 4, Walk(0, "rrrll", "000 011 022 022 011 000")),
    Drawn(
        Right,
        "ab\ncd",
        4,
        Walk(
            0,
            "llllllrrrrrrr",
            "010 003 123 114 103 103 103 114 125 003 012 021 032 032",
        ),
    ),
    Drawn(Right, "ab\ncd", 4, Walk(0, "ddu", "010 103 103 012")),
    Drawn(Right, "", 4, Walk(0, "rlud", "000 000 000 000 000")),
    Drawn(
        Left,
        "\u{5D0}!",
        4,
        Walk(0, "rrlll", "010 022 022 011 001 001"),
    ),
    Drawn(
        Left,
        "\u{5D0}\n\u{5D1}",
        4,
        Walk(0, "rrrrll", "010 022 102 112 112 103 022"),
    ),
];

#[test]
fn a_base_turns_the_edges_and_no_step(rt: HostRuntime) {
    assert_rows(&rt, UNDER_A_BASE);
}

/// Where the caret stops at each place of a text in turn.
struct Stops(&'static str);

impl Shown for Stops {
    fn is_shown(&self, grid: &Grid) -> bool {
        let mut place = 0usize;
        let mut right = true;
        for stop in self.0.split(' ') {
            right = walks(grid, place, "", stop) && right;
            place = place.wrapping_add(1);
        }
        right && place == code_points(grid.text()).wrapping_add(1)
    }
}

const STOPS: &[Drawn<Stops>] = &[
    // The text's end, after a cluster of even and of odd level, and after a separator.
    Drawn(Auto, "", 4, Stops("000")),
    Drawn(Auto, "a", 2, Stops("000 011")),
    Drawn(Auto, "a\n", 2, Stops("000 011 102")),
    Drawn(Auto, "\u{5D0}\u{5D1}", 4, Stops("020 011 002")),
    Drawn(
        Auto,
        "\u{5D0}\u{5D1} 12",
        8,
        Stops("050 041 032 003 014 025"),
    ),
    Drawn(
        Auto,
        "ab \u{5D0}\u{5D1}\u{5D2}",
        8,
        Stops("000 011 022 063 054 045 036"),
    ),
    Drawn(
        Auto,
        "a\u{2067}b!\u{2069}c",
        4,
        Stops("000 011 032 033 044 055 066"),
    ),
    // Places inside clusters.
    Drawn(Auto, "e\u{301}x", 2, Stops("000 000 012 023")),
    Drawn(Auto, "a\r\nb", 2, Stops("000 011 011 103 114")),
    Drawn(Auto, "\u{5D0}\u{301}\u{5D1}", 4, Stops("020 020 012 003")),
    // Hung spaces, and the place at which one row ends and the next begins.
    Drawn(Auto, "ab cd", 2, Stops("000 011 022 103 114 125")),
    Drawn(Auto, "a   ", 3, Stops("000 011 022 033 044")),
];

#[test]
fn each_place_has_its_cluster(rt: HostRuntime) {
    assert_rows(&rt, STOPS);
}

/// Rows of a line feed alone, and the empty one after them: each place has its own row.
struct OwnRows(usize);

fn has_own_row(grid: &Grid, place: usize) -> bool {
    if place > code_points(grid.text()) {
        return false;
    }
    let caret = at_place(grid, place);
    (caret.row, caret.gap, caret.place) == (place, 0, place)
}

impl Shown for OwnRows {
    fn is_shown(&self, grid: &Grid) -> bool {
        let mut right = true;
        for place in 0..=self.0 {
            right = has_own_row(grid, place) && right;
        }
        right
    }
}

const MANY: &[DrawnOf<OwnRows>] = &[DrawnOf(&[("\n", 1_000)], 2, OwnRows(1_000))];

#[test]
fn a_place_is_found_among_many_rows(rt: HostRuntime) {
    assert_rows(&rt, MANY);
}

#[test]
fn the_laws_are_called() {
    laws::one_entry();
    laws::every_gap();
    laws::opposites();
    laws::each_place();
    laws::positions_are_carets();
    laws::moves_in_windows();
    laws::places_in_windows();
}

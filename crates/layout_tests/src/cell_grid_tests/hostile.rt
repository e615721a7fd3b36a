//! Tables that give letters the classes of controls, and embeddings and isolates deeper than levels go.

use super::*;
use crate::drawn::DrawnOf;

/// A letter that ends a paragraph, begins or ends an isolate, or is a mark.
const CONTROLS: &[ByClasses<Drawn<Printed>>] = &[
    ByClasses(b"0061;B", Drawn(Auto, "bac", 4, Printed("b   \nc   \n"))),
    ByClasses(
        b"0061;RLI\n0021;ON",
        Drawn(Auto, "ab!", 4, Printed("!b  \n")),
    ),
    ByClasses(
        b"0061;PDI\n0021;ON",
        Drawn(Auto, "ab!", 4, Printed("b!  \n")),
    ),
    ByClasses(
        b"0061;NSM\n05D0;R",
        Drawn(Auto, "\u{5D0}a", 4, Printed("  a\u{5D0}\n")),
    ),
];

/// A digit that opens a bracket pair that it would close itself.
const DIGITS: &[Drawn<Printed>] = &[Drawn(Auto, "0a0", 4, Printed("0a0 \n"))];

#[test]
fn letters_that_tables_make_controls(rt: HostRuntime) {
    assert_rows(&rt, CONTROLS);
    let files = Ucd {
        bidi: b"0030;ON",
        brackets: b"0030; 0030; o",
        ..vectors::SMALL
    };
    assert_rows_by(&rt, &files, DIGITS);
}

/// One row of so many entries: a letter of level 126, and marks of this level at most.
struct Deep(usize, u8);

fn is_deep(row: &Row, mark_level: u8) -> bool {
    let mut right = true;
    for entry in row.entries() {
        let level = entry.level;
        let fits = if entry.columns == 1 {
            level == 126
        } else {
            level <= mark_level
        };
        right = fits && right;
    }
    right
}

impl Shown for Deep {
    fn is_shown(&self, grid: &Grid) -> bool {
        let mut right = grid.rows().len() == 1;
        for row in grid.rows() {
            right = row.entry_count() == self.0 && is_deep(row, self.1) && right;
        }
        right && takes(grid, (usize::MAX, usize::MAX), b"a   \n", true)
    }
}

const EMBEDDINGS: &[DrawnOf<Deep>] = &[DrawnOf(&[("\u{202B}", 64), ("a", 1)], 4, Deep(65, 0))];

#[test]
fn deep_embeddings_reach_level_126(rt: HostRuntime) {
    assert_rows(&rt, EMBEDDINGS);
}

/// Of 130 isolates 63 fit below level 125, and the others change nothing.
const ISOLATES: &[DrawnOf<Deep>] = &[DrawnOf(
    &[("\u{2067}", 130), ("a", 1), ("\u{2069}", 130)],
    4,
    Deep(261, 125),
)];

#[test]
fn deep_isolates_reach_level_126(rt: HostRuntime) {
    assert_rows(&rt, ISOLATES);
}

//! Clusters that have more bytes or code points than fit into 16 bits.

use super::*;
use crate::drawn::DrawnOf;

/// Of 65,535 bytes, of 65,536 and of 70,000, and of 65,536 code points, with others round each, below a paragraph.
const LONG: &[DrawnOf<Entries>] = &[
    DrawnOf(
        &[("a\nab", 1), ("e", 1), ("\u{301}", 32_767), ("cd", 1)],
        8,
        Entries(
            8,
            &[
                &[0, 2, 0, 0, 1, 0, 1, 0, 0, 1, 1, 2, 1, 2, 0, 1, 0],
                &[
                    2, 32_774, 0, 2, 3, 2, 3, 0, 0, 1, 3, 4, 3, 4, 0, 1, 1, 4, 65_539, 4, 32_772,
                    0, 2, 1, 65_539, 65_540, 32_772, 32_773, 0, 3, 1, 65_540, 65_541, 32_773,
                    32_774, 0, 4, 1,
                ],
            ],
        ),
    ),
    DrawnOf(
        &[("a\nab", 1), ("\u{5D0}", 1), ("\u{301}", 32_767), ("cd", 1)],
        8,
        Entries(
            8,
            &[
                &[0, 2, 0, 0, 1, 0, 1, 0, 0, 1, 1, 2, 1, 2, 0, 1, 0],
                &[
                    2, 32_774, 0, 2, 3, 2, 3, 0, 0, 1, 3, 4, 3, 4, 0, 1, 1, 4, 65_540, 4, 32_772,
                    1, 2, 1, 65_540, 65_541, 32_772, 32_773, 0, 3, 1, 65_541, 65_542, 32_773,
                    32_774, 0, 4, 1,
                ],
            ],
        ),
    ),
    DrawnOf(
        &[("a\nab", 1), ("\u{5D0}", 1), ("\u{301}", 34_999), ("cd", 1)],
        8,
        Entries(
            8,
            &[
                &[0, 2, 0, 0, 1, 0, 1, 0, 0, 1, 1, 2, 1, 2, 0, 1, 0],
                &[
                    2, 35_006, 0, 2, 3, 2, 3, 0, 0, 1, 3, 4, 3, 4, 0, 1, 1, 4, 70_004, 4, 35_004,
                    1, 2, 1, 70_004, 70_005, 35_004, 35_005, 0, 3, 1, 70_005, 70_006, 35_005,
                    35_006, 0, 4, 1,
                ],
            ],
        ),
    ),
    DrawnOf(
        &[("a\nab", 1), ("e", 1), ("\u{301}", 65_535), ("cd", 1)],
        8,
        Entries(
            8,
            &[
                &[0, 2, 0, 0, 1, 0, 1, 0, 0, 1, 1, 2, 1, 2, 0, 1, 0],
                &[
                    2, 65_542, 0, 2, 3, 2, 3, 0, 0, 1, 3, 4, 3, 4, 0, 1, 1, 4, 131_075, 4, 65_540,
                    0, 2, 1, 131_075, 131_076, 65_540, 65_541, 0, 3, 1, 131_076, 131_077, 65_541,
                    65_542, 0, 4, 1,
                ],
            ],
        ),
    ),
];

#[test]
fn long_clusters_have_entries(rt: HostRuntime) {
    assert_rows(&rt, LONG);
}

/// One row, which prints its text and then three blanks.
struct TextAndBlanks;

impl Shown for TextAndBlanks {
    fn is_shown(&self, grid: &Grid) -> bool {
        let mut room = [0; 140_000];
        let whole = print(grid, &mut Out::new(room.as_mut_slice())).is_ok();
        let text = grid.text().as_bytes();
        let blanks = match room.get(text.len()..) {
            Some(rest) => rest.starts_with(b"   \n\0"),
            None => false,
        };
        whole && room.starts_with(text) && blanks
    }
}

const PRINTED_LONG: &[DrawnOf<TextAndBlanks>] = &[
    DrawnOf(
        &[("ab", 1), ("e", 1), ("\u{301}", 32_767), ("cd", 1)],
        8,
        TextAndBlanks,
    ),
    DrawnOf(
        &[("ab", 1), ("\u{5D0}", 1), ("\u{301}", 32_767), ("cd", 1)],
        8,
        TextAndBlanks,
    ),
    DrawnOf(
        &[("ab", 1), ("\u{5D0}", 1), ("\u{301}", 34_999), ("cd", 1)],
        8,
        TextAndBlanks,
    ),
    DrawnOf(
        &[("ab", 1), ("e", 1), ("\u{301}", 65_535), ("cd", 1)],
        8,
        TextAndBlanks,
    ),
];

#[test]
fn long_clusters_are_printed(rt: HostRuntime) {
    assert_rows(&rt, PRINTED_LONG);
}

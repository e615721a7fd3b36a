//! What no clause says: texts typed and erased character by character, each time beside `split` of the whole text.
//!
//! An edit that was refused memory leaves the text, and is made again.

ghost use Rattle.std.specs.Prelude.{◌≡◌};
ghost use Rattle.text_buffer.specs.Buffers.{paragraphs_in, IsSplit};

use crate::buffers::{is_split, text_of};
use crate::rows::{Row, assert_rows};
use bg_types::{Change, Memory};
use std::alloc::Global;
use text_buffer::*;
use ucd_files::Tables;

/// A change of a text: a character put at a place, or the character at a place erased.
#[derive(Clone, Copy)]
enum Step {
    Put(usize, char),
    Cut(usize),
}

use Step::{Cut, Put};

/// By which calls steps are made: `put` and `cut`, or `apply`.
#[derive(Clone, Copy, PartialEq, Eq)]
enum Way {
    PutAndCut,
    Apply,
}

fn change(
    tables: &Tables,
    buffer: &mut Buffer<u8>,
    way: Way,
    step: Step,
) -> Result<Touched, BufferFault>
    requires { IsSplit tables.now (paragraphs_in buffer.old) }
    ensures { IsSplit tables.now (paragraphs_in buffer.new) }
{
    match step {
        Put(place, ch) if place <= buffer.len() => match way {
            Way::PutAndCut => buffer.put(tables, place, ch),
            Way::Apply => buffer.apply(tables, &Change::Put { place, ch }),
        },
        Cut(place) if place < buffer.len() => match way {
            Way::PutAndCut => buffer.cut(tables, place),
            Way::Apply => buffer.apply(tables, &Change::Cut { place }),
        },
        _ => Err(BufferFault::TooLong),
    }
}

/// Makes a change, once more where memory was refused and the text as it was.
fn make(
    alloc: Global,
    tables: &Tables,
    buffer: &mut Buffer<u8>,
    way: Way,
    step: Step,
) -> Result<bool, Memory>
    requires { IsSplit tables.now (paragraphs_in buffer.old) }
    ensures { IsSplit tables.now (paragraphs_in buffer.new) }
{
    let before = text_of(alloc, buffer)?;
    match change(tables, buffer, way, step) {
        Ok(_) => Ok(true),
        Err(BufferFault::TooLong) => Ok(false),
        Err(BufferFault::Memory) => {
            let same = text_of(alloc, buffer)? == before;
            Ok(change(tables, buffer, way, step).is_ok() && same)
        }
    }
}

/// A text, changes of it, and the text after each.
struct Typed(&'static str, &'static [(Step, &'static str)]);

impl Typed {
    fn comes_out_by(&self, alloc: Global, tables: &Tables, way: Way) -> Result<bool, Memory> {
        let mut buffer = match Buffer::of(alloc, tables, self.0) {
            Ok(buffer) => buffer,
            Err(BufferFault::Memory) => return Err(Memory),
            Err(BufferFault::TooLong) => return Ok(false),
        };
        let mut right = is_split(alloc, tables, &buffer)?;
        for (step, after) in self.1 {
            right = make(alloc, tables, &mut buffer, way, *step)? && right;
            right = is_split(alloc, tables, &buffer)? && right;
            right = text_of(alloc, &buffer)?.as_str() == *after && right;
        }
        Ok(right)
    }
}

impl Row for Typed {
    fn comes_out(&self, alloc: Global, tables: &Tables) -> Result<bool, Memory> {
        Ok(
            self.comes_out_by(alloc, tables, Way::PutAndCut)?
                && self.comes_out_by(alloc, tables, Way::Apply)?,
        )
    }
}

const TYPED: &[Typed] = &[
    Typed("", &[]),
    Typed(
        "",
        &[
            (Put(0, 'a'), "a"),
            (Put(1, '\n'), "a\n"),
            (Cut(0), "\n"),
            (Cut(0), ""),
        ],
    ),
    // CR and LF on both sides of each other.
    Typed(
        "ab",
        &[
            (Put(1, '\r'), "a\rb"),
            (Put(2, '\n'), "a\r\nb"),
            (Cut(1), "a\nb"),
            (Put(1, '\r'), "a\r\nb"),
            (Cut(2), "a\rb"),
            (Cut(1), "ab"),
        ],
    ),
    Typed(
        "ab",
        &[
            (Put(1, '\n'), "a\nb"),
            (Put(1, '\r'), "a\r\nb"),
            (Put(2, '\r'), "a\r\r\nb"),
            (Put(2, '\n'), "a\r\n\r\nb"),
            (Put(3, 'x'), "a\r\nx\r\nb"),
        ],
    ),
    Typed(
        "a\r\nb",
        &[
            (Put(2, 'x'), "a\rx\nb"),
            (Cut(2), "a\r\nb"),
            (Put(2, '\n'), "a\r\n\nb"),
            (Cut(1), "a\n\nb"),
        ],
    ),
    Typed(
        "\r\u{2029}\n",
        &[
            (Cut(1), "\r\n"),
            (Put(1, '\u{2029}'), "\r\u{2029}\n"),
            (Cut(0), "\u{2029}\n"),
            (Cut(0), "\n"),
        ],
    ),
    Typed("\rx\nb", &[(Cut(1), "\r\nb"), (Cut(0), "\nb")]),
    // Separators alone.
    Typed(
        "\n\n\n",
        &[
            (Cut(1), "\n\n"),
            (Put(1, '\r'), "\n\r\n"),
            (Cut(2), "\n\r"),
            (Put(0, '\r'), "\r\n\r"),
            (Put(3, '\n'), "\r\n\r\n"),
        ],
    ),
    Typed(
        "\r\r\r",
        &[
            (Put(1, '\n'), "\r\n\r\r"),
            (Put(4, '\n'), "\r\n\r\r\n"),
            (Cut(3), "\r\n\r\n"),
            (Cut(1), "\r\r\n"),
        ],
    ),
    // Characters of one to four bytes, and the ends of paragraphs.
    Typed(
        "\u{5D0}b\n\u{20AC}\u{1F600}\n",
        &[
            (
                Put(3, '\u{1F600}'),
                "\u{5D0}b\n\u{1F600}\u{20AC}\u{1F600}\n",
            ),
            (Cut(2), "\u{5D0}b\u{1F600}\u{20AC}\u{1F600}\n"),
            (
                Put(6, '\u{5D0}'),
                "\u{5D0}b\u{1F600}\u{20AC}\u{1F600}\n\u{5D0}",
            ),
            (Cut(5), "\u{5D0}b\u{1F600}\u{20AC}\u{1F600}\u{5D0}"),
        ],
    ),
];

#[test]
fn edits_come_out_as_split_of_the_whole(rt: HostRuntime) {
    assert_rows(&rt, TYPED);
}

const ALPHABET: &[char] = &[
    '\r',
    '\n',
    'a',
    '\u{5D0}',
    '\u{2029}',
    '\u{20AC}',
    '\u{1F600}',
    '\r',
    '\n',
    '\u{85}',
];

/// So many edits by chance, from a seed.
struct ByChance {
    seed: u32,
    edits: usize,
}

impl Row for ByChance {
    fn comes_out(&self, alloc: Global, tables: &Tables) -> Result<bool, Memory> {
        let mut buffer = match Buffer::of(alloc, tables, "") {
            Ok(buffer) => buffer,
            Err(_) => return Err(Memory),
        };
        let mut state = self.seed;
        let mut right = true;
        for _ in 0..self.edits {
            state = state.wrapping_mul(1_664_525).wrapping_add(1_013_904_223);
            let place = (state >> 8) as usize % (buffer.len().saturating_add(1));
            let pick = (state >> 4) as usize % 16;
            let step = match ALPHABET.get(pick) {
                Some(ch) => Put(place, *ch),
                None if place < buffer.len() => Cut(place),
                None => Put(place, 'b'),
            };
            let way = if state < 0x8000_0000 {
                Way::PutAndCut
            } else {
                Way::Apply
            };
            right = make(alloc, tables, &mut buffer, way, step)? && right;
            right = is_split(alloc, tables, &buffer)? && right;
        }
        Ok(right)
    }
}

#[test]
fn edits_by_chance_come_out_as_split_of_the_whole(rt: HostRuntime) {
    assert_rows(
        &rt,
        &[
            ByChance {
                seed: 7,
                edits: 300,
            },
            ByChance {
                seed: 11,
                edits: 300,
            },
        ],
    );
}

/// A text of so many lines, and so many line feeds that are put at a place of it and cut again: blocks of paragraphs part,
/// and lose those that they got.
struct Crowded {
    lines: usize,
    place: usize,
    typed: usize,
}

impl Crowded {
    /// The text, with these line feeds behind the first `place` lines.
    fn text(&self, alloc: Global, typed: usize) -> Result<String, Memory> {
        let mut text = String::new(alloc);
        for line in 0..self.lines {
            if line == self.place {
                for _ in 0..typed {
                    text.push('\n')?;
                }
            }
            text.push('\n')?;
        }
        Ok(text)
    }
}

/// Makes a change, once more where memory was refused.
fn make_again(tables: &Tables, buffer: &mut Buffer<u8>, way: Way, step: Step) -> bool
    requires { IsSplit tables.now (paragraphs_in buffer.old) }
    ensures { IsSplit tables.now (paragraphs_in buffer.new) }
{
    match change(tables, buffer, way, step) {
        Err(BufferFault::Memory) => change(tables, buffer, way, step).is_ok(),
        answer => answer.is_ok(),
    }
}

impl Row for Crowded {
    fn comes_out(&self, alloc: Global, tables: &Tables) -> Result<bool, Memory> {
        let text = self.text(alloc, 0)?;
        let mut buffer = match Buffer::of(alloc, tables, &text) {
            Ok(buffer) => buffer,
            Err(_) => return Err(Memory),
        };
        let mut right = true;
        for _ in 0..self.typed {
            let step = Put(self.place, '\n');
            right = make_again(tables, &mut buffer, Way::PutAndCut, step) && right;
        }
        right = is_split(alloc, tables, &buffer)? && right;
        right = text_of(alloc, &buffer)? == self.text(alloc, self.typed)? && right;
        for _ in 0..self.typed {
            let step = Cut(self.place);
            right = make_again(tables, &mut buffer, Way::Apply, step) && right;
        }
        Ok(is_split(alloc, tables, &buffer)? && text_of(alloc, &buffer)? == text && right)
    }
}

#[test]
fn many_paragraphs_come_out_as_split_of_the_whole(rt: HostRuntime) {
    assert_rows(
        &rt,
        &[
            Crowded {
                lines: 1,
                place: 0,
                typed: 600,
            },
            Crowded {
                lines: 700,
                place: 0,
                typed: 500,
            },
            Crowded {
                lines: 700,
                place: 350,
                typed: 300,
            },
            Crowded {
                lines: 700,
                place: 699,
                typed: 300,
            },
        ],
    );
}

/// A fault, its number, and how it prints.
struct Printed(BufferFault, u8, &'static str);

impl Row for Printed {
    fn comes_out(&self, alloc: Global, _tables: &Tables) -> Result<bool, Memory> {
        let printed = format!(in alloc; "{}", self.0)?;
        Ok(self.0.code() == self.1 && printed.as_str() == self.2)
    }
}

#[test]
fn faults_print_their_names(rt: HostRuntime) {
    assert_rows(
        &rt,
        &[
            Printed(BufferFault::TooLong, 1, "TooLong"),
            Printed(BufferFault::Memory, 9, "Memory"),
        ],
    );
}

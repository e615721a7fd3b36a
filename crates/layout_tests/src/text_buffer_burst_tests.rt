//! Changes that are made at once, beside a text that gets them one by one.

ghost use Rattle.text_buffer.specs.Buffers.{paragraphs_in, IsSplit};

use crate::buffers::{is_split, replaced, text_of};
use crate::rows::{Row, assert_rows};
use Change::{Cut, Put};
use bg_types::{Change, Memory};
use std::alloc::Global;
use text_buffer::*;
use ucd_files::Tables;

/// Makes changes at once, and those that a refused growth left once more.
fn apply_again(tables: &Tables, buffer: &mut Buffer<u8>, changes: &[Change]) -> bool
    requires { IsSplit tables.now (paragraphs_in buffer.old) }
    ensures { IsSplit tables.now (paragraphs_in buffer.new) }
{
    if !buffer.may_apply(changes) {
        return false;
    }
    match buffer.apply_all(tables, changes) {
        Ok(()) => true,
        Err(stopped) => {
            let left = &changes[stopped.made..];
            if !buffer.may_apply(left) {
                return false;
            }
            buffer.apply_all(tables, left).is_ok()
        }
    }
}

/// A text, changes of it, and the text then.
struct Burst(&'static str, &'static [Change], &'static str);

impl Row for Burst {
    fn comes_out(&self, alloc: Global, tables: &Tables) -> Result<bool, Memory> {
        let mut buffer = match Buffer::of(alloc, tables, self.0) {
            Ok(buffer) => buffer,
            Err(_) => return Err(Memory),
        };
        let right = apply_again(tables, &mut buffer, self.1);
        Ok(
            right
                && is_split(alloc, tables, &buffer)?
                && text_of(alloc, &buffer)?.as_str() == self.2,
        )
    }
}

const BURSTS: &[Burst] = &[
    Burst("", &[], ""),
    // Characters behind one another.
    Burst(
        "ab",
        &[
            Put { place: 1, ch: 'x' },
            Put {
                place: 2,
                ch: '\u{5D0}',
            },
            Put { place: 3, ch: '\n' },
            Put { place: 4, ch: 'z' },
        ],
        "ax\u{5D0}\nzb",
    ),
    // Each in front of the one before.
    Burst(
        "a",
        &[
            Put { place: 0, ch: 'x' },
            Put { place: 0, ch: 'y' },
            Put { place: 0, ch: 'z' },
        ],
        "zyxa",
    ),
    // Cut behind one another, and backwards.
    Burst("abcd", &[Cut { place: 1 }, Cut { place: 1 }], "ad"),
    Burst(
        "a\u{1F600}c",
        &[Cut { place: 2 }, Cut { place: 1 }, Cut { place: 0 }],
        "",
    ),
    // A range that others replace.
    Burst(
        "abcd",
        &[
            Cut { place: 1 },
            Cut { place: 1 },
            Put { place: 1, ch: 'x' },
            Put { place: 2, ch: 'y' },
        ],
        "axyd",
    ),
    // CR and LF.
    Burst(
        "a\r\nb",
        &[Cut { place: 1 }, Put { place: 2, ch: '\r' }],
        "a\n\rb",
    ),
    Burst(
        "a\nb",
        &[
            Cut { place: 1 },
            Put { place: 1, ch: '\r' },
            Put { place: 2, ch: '\n' },
            Cut { place: 0 },
        ],
        "\r\nb",
    ),
];

#[test]
fn bursts_come_out(rt: HostRuntime) {
    assert_rows(&rt, BURSTS);
}

/// A text after a change.
fn changed(alloc: Global, text: &str, change: Change) -> Result<String, Memory> {
    match change {
        Put { place, ch } => {
            let mut bytes = [0; 4];
            replaced(alloc, text, place, place, ch.encode_utf8(&mut bytes))
        }
        Cut { place } => replaced(alloc, text, place, place.saturating_add(1), ""),
    }
}

const ALPHABET: &[char] = &[
    '\r',
    '\n',
    'a',
    '\u{5D0}',
    '\u{2029}',
    '\u{20AC}',
    '\u{1F600}',
];

/// A change by chance of a text of so many characters: at a place, or where the one before left off.
fn change_by(state: u32, len: usize, before: Option<Change>) -> Change {
    let pick = (state >> 4) as usize % 7;
    let place = match before {
        Some(Put { place, .. }) if state % 3 > 0 => place.saturating_add(1),
        Some(Cut { place }) if state % 3 > 0 => place,
        _ => (state >> 8) as usize % len.saturating_add(1),
    };
    match before {
        Some(Cut { .. }) if state % 5 > 0 && place < len => Cut { place },
        _ if state % 7 == 0 && place < len => Cut { place },
        _ => Put {
            place: place.min(len),
            ch: ALPHABET[pick],
        },
    }
}

/// So many bursts by chance, from a seed.
struct ByChance {
    seed: u32,
    bursts: usize,
}

impl Row for ByChance {
    fn comes_out(&self, alloc: Global, tables: &Tables) -> Result<bool, Memory> {
        let mut text = String::new(alloc);
        let mut buffer = match Buffer::of(alloc, tables, "") {
            Ok(buffer) => buffer,
            Err(_) => return Err(Memory),
        };
        let mut state = self.seed;
        let mut right = true;
        'bursts: for _ in 0..self.bursts {
            let mut changes = Vec::new(alloc);
            let mut before = None;
            for _ in 0..20 {
                state = state.wrapping_mul(1_664_525).wrapping_add(1_013_904_223);
                let change = change_by(state, text.chars().count(), before);
                text = changed(alloc, &text, change)?;
                changes.push(change)?;
                before = Some(change);
            }
            right = apply_again(tables, &mut buffer, &changes) && right;
            right = is_split(alloc, tables, &buffer)? && right;
            right = text_of(alloc, &buffer)? == text && right;
        }
        Ok(right)
    }
}

#[test]
fn bursts_by_chance_come_out(rt: HostRuntime) {
    assert_rows(
        &rt,
        &[
            ByChance {
                seed: 3,
                bursts: 20,
            },
            ByChance {
                seed: 29,
                bursts: 20,
            },
        ],
    );
}

/// Changes of a text of 4,000,000 bytes, and how many of them are made.
struct Full(&'static [Change], Result<(), Stopped>);

impl Row for Full {
    fn comes_out(&self, alloc: Global, tables: &Tables) -> Result<bool, Memory> {
        let mut text = String::with_capacity(alloc, 4_000_000)?;
        for _ in 0..40_000 {
            text.push_str(
                "the hundred bytes of a line: a quick brown fox jumps over a lazy dog that lies by the river tonight\n",
            )?;
        }
        let mut buffer: Buffer<u8> = match Buffer::of(alloc, tables, &text) {
            Ok(buffer) => buffer,
            Err(_) => return Err(Memory),
        };
        if !buffer.may_apply(self.0) {
            return Ok(false);
        }
        Ok(text.len() == 4_000_000 && buffer.apply_all(tables, self.0) == self.1)
    }
}

#[test]
fn a_full_text_takes_no_more(rt: HostRuntime) {
    assert_rows(
        &rt,
        &[
            Full(
                &[Put { place: 9, ch: 'x' }],
                Err(Stopped {
                    made: 0,
                    fault: BufferFault::TooLong,
                }),
            ),
            Full(
                &[
                    Cut { place: 0 },
                    Put { place: 5, ch: 'x' },
                    Put { place: 0, ch: 'y' },
                ],
                Err(Stopped {
                    made: 2,
                    fault: BufferFault::TooLong,
                }),
            ),
            Full(&[Cut { place: 7 }, Put { place: 7, ch: 'x' }], Ok(())),
            // Neighbours are made together, or none of them.
            Full(
                &[
                    Cut { place: 0 },
                    Put { place: 0, ch: 'x' },
                    Put { place: 1, ch: 'y' },
                ],
                Err(Stopped {
                    made: 0,
                    fault: BufferFault::TooLong,
                }),
            ),
        ],
    );
}

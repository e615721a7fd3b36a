//! What is kept beside paragraphs, beside a list of what is kept.

ghost use Rattle.std.specs.Prelude.{◌≡◌};
ghost use Rattle.text_buffer.specs.Buffers.{paragraphs_in, IsSplit};

use crate::buffers::{is_same, is_split, replaced, text_of};
use crate::rows::{Row, assert_rows};
use bg_types::Memory;
use paragraphs::{Para, split};
use std::alloc::Global;
use text_buffer::*;
use ucd_files::Tables;

/// Makes an edit, once more where memory was refused.
fn edit_again(
    tables: &Tables,
    buffer: &mut Buffer<u8>,
    from: usize,
    to: usize,
    put: &str,
) -> Option<Touched>
    requires { IsSplit tables.now (paragraphs_in buffer.old) }
    ensures { IsSplit tables.now (paragraphs_in buffer.new) }
{
    if to < from || buffer.len() < to {
        return None;
    }
    match buffer.edit(tables, from, to, put) {
        Err(BufferFault::Memory) => buffer.edit(tables, from, to, put).ok(),
        answer => answer.ok(),
    }
}

/// What is kept beside paragraphs after an edit, and where one more is kept then.
fn kept_after(
    alloc: Global,
    kept: &[Option<u8>],
    touched: Touched,
    number: usize,
    value: u8,
) -> Result<Vec<Option<u8>>, Memory> {
    let behind = touched.first.saturating_add(touched.old);
    let mut all = Vec::new(alloc);
    for value in kept.iter().take(touched.first) {
        all.push(*value)?;
    }
    for _ in 0..touched.new {
        all.push(None)?;
    }
    for value in kept.iter().skip(behind) {
        all.push(*value)?;
    }
    if number < all.len() {
        all[number] = Some(value);
    }
    Ok(all)
}

/// Keeps a value beside a paragraph that is there.
fn keep_beside(buffer: &mut Buffer<u8>, number: usize, value: u8)
    ensures { paragraphs_in buffer.new ≡ paragraphs_in buffer.old }
{
    if number < buffer.paragraph_count() {
        buffer.keep(number, value);
    }
}

/// Whether a buffer keeps this.
fn is_kept(buffer: &Buffer<u8>, kept: &[Option<u8>]) -> bool {
    let mut right = kept.len() == buffer.paragraph_count();
    for (number, value) in kept.iter().enumerate() {
        right = number < buffer.paragraph_count()
            && buffer.kept(number).copied() == *value
            && right;
    }
    right
}

/// So many edits by chance of a text of so many lines, with something kept beside a paragraph after each.
struct Keeping {
    seed: u32,
    lines: usize,
    edits: usize,
}

const PUTS: &[&str] = &["", "a", "\n", "\r", "\r\n", "\u{2029}b", "", "c\nd\ne\n"];

impl Row for Keeping {
    fn comes_out(&self, alloc: Global, tables: &Tables) -> Result<bool, Memory> {
        let mut text = String::new(alloc);
        for _ in 0..self.lines {
            text.push('\n')?;
        }
        let mut buffer: Buffer<u8> = match Buffer::of(alloc, tables, &text) {
            Ok(buffer) => buffer,
            Err(_) => return Err(Memory),
        };
        let mut kept = Vec::new(alloc);
        for _ in 0..buffer.paragraph_count() {
            kept.push(None)?;
        }
        let mut state = self.seed;
        let mut right = true;
        'edits: for _ in 0..self.edits {
            state = state.wrapping_mul(1_664_525).wrapping_add(1_013_904_223);
            let from = (state >> 8) as usize % buffer.len().saturating_add(1);
            let more = (state >> 4) as usize % self.lines.saturating_add(3);
            let to = from.saturating_add(more / 2).min(buffer.len());
            let put = PUTS[(state >> 5) as usize % 8];
            text = replaced(alloc, &text, from, to, put)?;
            let Some(touched) = edit_again(tables, &mut buffer, from, to, put) else {
                return Ok(false);
            };
            let number = (state >> 9) as usize % buffer.paragraph_count().max(1);
            let value = ((state >> 3) % 256) as u8;
            keep_beside(&mut buffer, number, value);
            kept = kept_after(alloc, &kept, touched, number, value)?;
            right = is_kept(&buffer, &kept) && right;
            right = is_split(alloc, tables, &buffer)? && right;
            right = text_of(alloc, &buffer)? == text && right;
        }
        Ok(right)
    }
}

#[test]
fn what_is_kept_stays_but_for_what_is_made_anew(rt: HostRuntime) {
    assert_rows(
        &rt,
        &[
            Keeping {
                seed: 5,
                lines: 3,
                edits: 60,
            },
            Keeping {
                seed: 17,
                lines: 1_100,
                edits: 6,
            },
            // Blocks that are joined.
            Keeping {
                seed: 23,
                lines: 700,
                edits: 12,
            },
        ],
    );
}

/// A text of so many lines, beside each of which its number is kept, which then shrinks: so many line feeds go at a place, again
/// and again until there is none.
struct Shrinking {
    lines: usize,
    place: usize,
    by: usize,
}

impl Row for Shrinking {
    fn comes_out(&self, alloc: Global, tables: &Tables) -> Result<bool, Memory> {
        let mut text = String::new(alloc);
        for _ in 0..self.lines {
            text.push('\n')?;
        }
        let mut buffer: Buffer<u8> = match Buffer::of(alloc, tables, &text) {
            Ok(buffer) => buffer,
            Err(_) => return Err(Memory),
        };
        let mut right = true;
        'steps: for _ in 0..self.lines {
            let from = self.place.min(buffer.len().saturating_sub(self.by));
            let to = from.saturating_add(self.by).min(buffer.len());
            right = edit_again(tables, &mut buffer, from, to, "").is_some() && right;
            right = is_split(alloc, tables, &buffer)? && right;
            if buffer.len() == 0 {
                break;
            }
        }
        Ok(right && buffer.paragraph_count() == 1)
    }
}

#[test]
fn many_paragraphs_become_one(rt: HostRuntime) {
    assert_rows(
        &rt,
        &[
            Shrinking {
                lines: 5,
                place: 2,
                by: 1,
            },
            Shrinking {
                lines: 1_100,
                place: 300,
                by: 60,
            },
            Shrinking {
                lines: 700,
                place: 0,
                by: 37,
            },
            Shrinking {
                lines: 700,
                place: 700,
                by: 37,
            },
        ],
    );
}

/// A text of so many lines with something kept beside each, and the stretch of paragraphs of which it stays.
struct Forgetting {
    lines: usize,
    from: usize,
    to: usize,
}

/// Drops what is kept of all but a stretch that is one.
fn forget_but(buffer: &mut Buffer<u8>, from: usize, to: usize)
    ensures { paragraphs_in buffer.new ≡ paragraphs_in buffer.old }
{
    if from <= to {
        buffer.forget_but(from, to);
    }
}

impl Row for Forgetting {
    fn comes_out(&self, alloc: Global, tables: &Tables) -> Result<bool, Memory> {
        let mut text = String::new(alloc);
        for _ in 0..self.lines {
            text.push('\n')?;
        }
        let mut buffer: Buffer<u8> = match Buffer::of(alloc, tables, &text) {
            Ok(buffer) => buffer,
            Err(_) => return Err(Memory),
        };
        let mut kept = Vec::new(alloc);
        for number in 0..buffer.paragraph_count() {
            let value = (number % 251) as u8;
            keep_beside(&mut buffer, number, value);
            let stays = self.from <= number && number < self.to;
            kept.push(if stays { Some(value) } else { None })?;
        }
        forget_but(&mut buffer, self.from, self.to);
        let mut right = is_kept(&buffer, &kept);
        keep_beside(&mut buffer, 0, 255);
        forget_but(&mut buffer, 0, self.to);
        if self.from > 0 && kept.len() > 0 && self.to > 0 {
            kept[0] = Some(255);
        }
        right = (self.from == 0 || is_kept(&buffer, &kept)) && right;
        let paras = split(alloc, tables, &text)?;
        Ok(right && is_walked(&buffer, &paras))
    }
}

/// Whether a cursor goes over these paragraphs, to the end and back, and meets what is kept beside them.
fn is_walked(buffer: &Buffer<u8>, paras: &[Para<'_>]) -> bool {
    if buffer.paragraph_count() == 0 {
        return false;
    }
    let mut cursor = buffer.cursor(0);
    let mut right = true;
    for (number, para) in paras.iter().enumerate() {
        right = cursor.number() == number && is_same(&cursor.paragraph(), para) && right;
        right = number < buffer.paragraph_count()
            && cursor.kept().copied() == buffer.kept(number).copied()
            && right;
        right = cursor.next() == (number.saturating_add(1) < paras.len()) && right;
    }
    for para in paras.iter().rev() {
        right = is_same(&cursor.paragraph(), para) && right;
        let _ = cursor.back();
    }
    for place in 0..=buffer.len() {
        right = buffer.cursor_at(place).number() == buffer.paragraph_of(place) && right;
    }
    right && cursor.number() == 0
}

#[test]
fn what_is_kept_is_dropped_but_for_a_stretch(rt: HostRuntime) {
    assert_rows(
        &rt,
        &[
            Forgetting {
                lines: 0,
                from: 0,
                to: 1,
            },
            Forgetting {
                lines: 3,
                from: 1,
                to: 3,
            },
            Forgetting {
                lines: 1_100,
                from: 250,
                to: 600,
            },
            Forgetting {
                lines: 1_100,
                from: 1_090,
                to: 5_000,
            },
            Forgetting {
                lines: 700,
                from: 3,
                to: 3,
            },
        ],
    );
}

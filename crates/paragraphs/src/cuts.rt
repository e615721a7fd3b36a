//! Where paragraphs end (P1).

ghost use Rattle.std.specs.Prelude.{◌≡◌, IfOk, MatchOption, map};
ghost use Rattle.std.specs.List.{All, concat};
ghost use Rattle.unicode_tables.specs.Tables.{bidi_of};
ghost use Rattle.paragraphs.specs.Text.{code_points};
ghost use Rattle.paragraphs.specs.Paragraphs.{begins_with_line_feed, ends_paragraph, meets_at_cut, paragraphs, StandsIn};
ghost use Rattle.paragraphs.specs.Separators.{HasNoSeparator, IsBehind};

use crate::para::Para;
use bg_types::Memory;
use std::alloc::Global;
use unicode_tables::{Tables, is_separator};

/// Whether a text begins with a U+000A of class B.
#[inline]
fn begins_with_line_feed(tables: &Tables, text: &str) -> bool
    ensures { result ≡ begins_with_line_feed (bidi_of tables.now) (code_points text.now) }
{
    match text.chars().next() {
        Some(c) => c == '\n' && is_separator(tables.bidi(c)),
        None => false,
    }
}

/// Whether a character, directly before `rest`, ends a paragraph.
#[inline]
fn ends_paragraph(tables: &Tables, c: char, rest: &str) -> bool
    ensures { result ≡ ends_paragraph (bidi_of tables.now) c (code_points rest.now) }
{
    is_separator(tables.bidi(c)) && !(c == '\r' && begins_with_line_feed(tables, rest))
}

/// Whether a text, where `rest` follows it, ends at a cut or is empty (P1).
pub fn meets_at_cut(tables: &Tables, text: &str, rest: &str) -> bool
    ensures { result ≡ meets_at_cut (bidi_of tables.now) (code_points text.now) (code_points rest.now) }
{
    let mut chars = text.chars();
    let Some(c) = chars.next_back() else {
        return true;
    };
    // What stands before the last character is a text, so that character is one too.
    let _before = chars.as_str();
    ends_paragraph(tables, c, rest)
}

/// The first character of a text that is likely to be a separator, behind so many that are none; and what follows it.
#[inline]
fn first_likely<'a>(tables: &Tables, text: &'a str) -> Option<(usize, char, &'a str)>
    ensures { MatchOption result (HasNoSeparator (bidi_of tables.now) text.now) (λ first. IsBehind (bidi_of tables.now) text.now first.0 first.1 first.2.now) }
{
    let (bytes, before) = tables.before_separator(text);
    let mut chars = text[bytes..].chars();
    let c = chars.next()?;
    Some((before, c, chars.as_str()))
}

/// The paragraphs of a text, in order (P1). The last one is empty where the text is empty or ends
/// with a separator.
/// Cost: O(n), 32 bytes of memory a paragraph.
pub fn split<'a>(alloc: Global, tables: &Tables, text: &'a str) -> Result<Vec<Para<'a>>, Memory>
    ensures ok { IfOk result (λ v. v.items ≡ paragraphs tables.now text.now) }
    ensures joined { IfOk result (λ v. concat (map (λ p. p.text) v.items) ≡ text.now) }
    ensures slices { IfOk result (λ v. All (StandsIn text.now) v.items) }
{
    let mut paragraphs = Vec::new(alloc);
    let mut first_byte = 0;
    let mut first_place = 0;
    let mut place = 0;
    let mut rest = text;
    while let Some((before, c, after)) = first_likely(tables, rest) {
        place += before + 1;
        rest = after;
        if ends_paragraph(tables, c, rest) {
            let end = text.len() - rest.len();
            paragraphs.push(Para::new(&text[first_byte..end], first_byte, first_place))?;
            first_byte = end;
            first_place = place;
        }
    }
    paragraphs.push(Para::new(&text[first_byte..], first_byte, first_place))?;
    Ok(paragraphs)
}

//! Texts that are parted between two characters.

ghost use Rattle.std.specs.Prelude.{◌≡◌, ◌-◌, ◌<◌, ◌≤◌, ◌++◌, length, take, drop, string_bytes, IfOk};
ghost use Rattle.std.specs.Str.{IsUtf8};
ghost use Rattle.paragraphs.specs.Text.{code_points};

use bg_types::Memory;
use std::alloc::Global;

/// A text's first `offset` code points, and the others.
pub fn parted(text: &str, offset: usize) -> (&str, &str)
    requires { offset ≤ length (code_points text.now) }
    ensures whole { result.0.now ++ result.1.now ≡ text.now }
    ensures first { IsUtf8 result.0.now }
    ensures second { IsUtf8 result.1.now }
    ensures front { code_points result.0.now ≡ take offset (code_points text.now) }
    ensures back { code_points result.1.now ≡ drop offset (code_points text.now) }
{
    let mut rest = text;
    let mut left = offset;
    while left > 0 {
        rest = past_first(rest);
        left -= 1;
    }
    (&text[..text.len() - rest.len()], rest)
}

/// What stands behind a text's first code point.
fn past_first(text: &str) -> &str
    requires { 0 < length (code_points text.now) }
    ensures points { code_points result.now ≡ drop 1 (code_points text.now) }
    ensures len { length result.now < length text.now }
    ensures end { result.now ≡ drop (length text.now - length result.now) text.now }
{
    let mut chars = text.chars();
    match chars.next() {
        Some(_) => chars.as_str(),
        None => text,
    }
}

/// Two texts, one behind the other.
pub fn joined_text(alloc: Global, first: &str, second: &str) -> Result<String, Memory>
    ensures { IfOk result (λ s. string_bytes s ≡ first.now ++ second.now) }
{
    let mut whole = String::with_capacity(alloc, first.len().saturating_add(second.len()))?;
    whole.push_str(first)?;
    whole.push_str(second)?;
    Ok(whole)
}

/// A text between two others.
pub fn text_between(alloc: Global, front: &str, text: &str, back: &str) -> Result<String, Memory>
    ensures { IfOk result (λ s. string_bytes s ≡ front.now ++ (text.now ++ back.now)) }
{
    let room = front.len().saturating_add(text.len());
    let mut whole = String::with_capacity(alloc, room.saturating_add(back.len()))?;
    whole.push_str(front)?;
    whole.push_str(text)?;
    whole.push_str(back)?;
    Ok(whole)
}

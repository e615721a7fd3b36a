//! The level of a paragraph (P2, P3).

ghost use Rattle.std.specs.Prelude.{◌≡◌, ◌≤◌, ◌<◌, ◌+◌, ◌^◌};
ghost use Rattle.bidi_explicit.specs.Strong.{strong_level, depth_behind};
ghost use Rattle.bidi_explicit.specs.Embedding.{paragraph_level, classes_of};

use bg_types::{Base, Bidi};
use paragraphs::Para;
use unicode_tables::Tables;

/// A paragraph's level, 0 or 1: by its first strong character outside isolates (P2, P3), or as the base says (HL1).
/// Takes no memory.
/// Cost: O(n) up to the first strong character.
pub fn paragraph_level(tables: &Tables, para: &Para, base: Base) -> u8
    ensures level { result ≡ paragraph_level base (classes_of tables.now para.now.text) }
    ensures bound { result ≤ 1 }
{
    match base {
        Base::Auto => first_strong_level(tables, para.text()),
        Base::Left => 0,
        Base::Right => 1,
    }
}

/// 1 if the first L, R or AL outside isolates is R or AL, else 0.
fn first_strong_level(tables: &Tables, text: &str) -> u8
    ensures level { result ≡ paragraph_level Base.Auto (classes_of tables.now text.now) }
    ensures bound { result ≤ 1 }
{
    let mut depth = 0;
    let mut chars = text.chars();
    while let Some(c) = chars.next() {
        let class = tables.bidi(c);
        if depth == 0 {
            if let Some(level) = strong_level(class) {
                return level;
            }
        }
        depth = depth_behind(depth, class);
    }
    0
}

/// The level that a strong class sets.
#[inline]
pub(crate) fn strong_level(class: Bidi) -> Option<u8>
    ensures { result ≡ strong_level class }
{
    match class {
        Bidi::L => Some(0),
        Bidi::R | Bidi::Al => Some(1),
        _ => None,
    }
}

/// How many isolates are open after a character, where `depth` are open before it. An unmatched PDI ends none.
#[inline]
fn depth_behind(depth: usize, class: Bidi) -> usize
    requires { depth + 1 < 2 ^ 64 }
    ensures { result ≡ depth_behind depth class }
{
    match class {
        Bidi::Lri | Bidi::Rli | Bidi::Fsi => depth + 1,
        Bidi::Pdi => depth.saturating_sub(1),
        _ => depth,
    }
}

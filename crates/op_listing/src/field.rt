//! What the words of a listing's line say.

ghost use Rattle.std.specs.Prelude.{◌≡◌, ◌<◌, ◌==◌, Some, None, length, option_map, MatchOption};
ghost use Rattle.std.specs.List.{before_first, position_or_len};
ghost use Rattle.op_listing.specs.Line.{counter_in, site_in, scalar_in, identifier_in, parent_in};
ghost use Rattle.op_listing.specs.Field.{identifier_of, parent_place};

use crate::number::{leading_number, read_number};

/// The most digits of a counter or a site, leading zeros included.
const DECIMAL_DIGITS: usize = 10;

/// The fewest and the most digits of a character's code, leading zeros included.
pub const FEWEST_DIGITS: usize = 4;

pub const MOST_DIGITS: usize = 6;

/// A counter and a site as a line writes them: each may be 0.
#[derive(Clone, Copy)]
pub struct Numbers {
    pub counter: u32,
    pub site: u16,
}

/// A parent as a line writes it.
#[derive(Clone, Copy)]
pub enum Parent {
    Root,
    After(Numbers),
}

/// The identifier that a word writes as `C.S`.
pub fn read_numbers(word: &[u8]) -> Option<Numbers>
    ensures { option_map identifier_of result ≡ identifier_in word.now }
{
    let (counter, point) = leading_counter(word)?;
    let site = read_site(&word[point + 1..])?;
    Some(Numbers { counter, site })
}

/// The parent that a word writes.
pub fn read_parent(word: &[u8]) -> Option<Parent>
    ensures { option_map parent_place result ≡ parent_in word.now }
{
    if word == b"root".as_slice() {
        return Some(Parent::Root);
    }
    Some(Parent::After(read_numbers(word)?))
}

/// The code that a word writes in hexadecimal, in either case.
pub fn read_scalar(word: &[u8]) -> Option<u32>
    ensures { result ≡ scalar_in word.now }
{
    read_number(word, 16, FEWEST_DIGITS, MOST_DIGITS)
}

/// The counter before a word's first point, and where that point is.
fn leading_counter(word: &[u8]) -> Option<(u32, usize)>
    ensures { MatchOption result (identifier_in word.now ≡ None)
        (λ found. (found.1 < length word.now) × (found.1 ≡ position_or_len (λ b. b == 46) word.now)
        × (counter_in (before_first (λ b. b == 46) word.now) ≡ Some found.0)) }
{
    let (counter, point) = leading_number(word);
    if point == word.len() || word[point] != b'.' {
        return None;
    }
    if point == 0 || point > DECIMAL_DIGITS {
        return None;
    }
    Some((u32::try_from(counter).ok()?, point))
}

fn read_site(word: &[u8]) -> Option<u16>
    ensures { result ≡ site_in word.now }
{
    u16::try_from(read_number(word, 10, 1, DECIMAL_DIGITS)?).ok()
}

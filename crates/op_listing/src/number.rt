//! The number that a word writes.

ghost use Rattle.std.specs.Prelude.{◌≡◌, ◌<◌, ◌≤◌, length, take, get_or};
ghost use Rattle.std.specs.Char.{digit_value};
ghost use Rattle.std.specs.Str.Parse.{AllDigits, digits_value};
ghost use Rattle.op_listing.specs.Number.{number_in, up_to};

/// The number that a word of 1 to `most` decimal digits writes, leading zeros included.
/// Cost: O(n) of the word.
pub fn read_decimal(word: &[u8], most: usize) -> Option<u32>
    // Such a number always fits.
    requires { most ≤ 9 }
    ensures { result ≡ number_in 10 1 most word.now }
{
    read_number(word, 10, 1, most)
}

/// The number that a word of `least` to `most` digits of a base writes, leading zeros included: none where it is
/// above `u32::MAX`.
pub fn read_number(word: &[u8], base: u32, least: usize, most: usize) -> Option<u32>
    requires low { 2 ≤ base }
    requires high { base ≤ 16 }
    ensures { result ≡ up_to 4_294_967_295 (number_in base least most word.now) }
{
    if word.len() < least || word.len() > most {
        return None;
    }
    let mut value: u32 = 0;
    for byte in word {
        let digit = char::from(*byte).to_digit(base)?;
        value = value.checked_mul(base)?.checked_add(digit)?;
    }
    Some(value)
}

/// The number that the decimal digits at the front of a word write, and how many they are: of the
/// first eleven bytes, since no number has as many digits.
pub fn leading_number(word: &[u8]) -> (u64, usize)
    ensures within { (result.1 ≤ length word.now) × (result.1 ≤ 11) }
    ensures digits { AllDigits 10 (take result.1 word.now) }
    ensures value { result.0 ≡ digits_value 10 (take result.1 word.now) }
    ensures stop { result.1 < 11 → result.1 < length word.now → 10 ≤ digit_value (get_or word.now result.1 0) }
{
    let end = word.len().min(11);
    let mut value: u64 = 0;
    let mut count = 0;
    while count < end && word[count] >= b'0' && word[count] <= b'9' {
        value = value * 10 + u64::from(word[count] - b'0');
        count += 1;
    }
    (value, count)
}

//! Words off a line.

ghost use Rattle.std.specs.Prelude.{◌≡◌, ◌≢◌, ◌≤◌, ◌==◌, ◌∷◌, [], length, MatchOption};
ghost use Rattle.std.specs.List.{prefix_len, position_or_len};
ghost use Rattle.op_listing.specs.Words.{words, TakesWord};

/// The first word of a line, empty where there is none, and what follows it. Only spaces
/// separate words.
/// Cost: O(n) of the word.
pub fn next_word(line: &[u8]) -> (&[u8], &[u8])
    ensures { TakesWord result.0.now (words line.now) (words result.1.now) }
{
    let line = &line[count_spaces(line)..];
    line.split_at(first_place(line, b' '))
}

/// The word of a line that has exactly one.
/// Cost: O(n) of the line.
pub fn one_word(line: &[u8]) -> Option<&[u8]>
    ensures { MatchOption result (length (words line.now) ≢ 1) (λ word. words line.now ≡ word.now ∷ []) }
{
    let (word, rest) = next_word(line);
    let (more, _) = next_word(rest);
    if word.is_empty() || !more.is_empty() {
        return None;
    }
    Some(word)
}

/// The words of a line that has two.
/// Cost: O(n) of the line.
pub fn two_words(line: &[u8]) -> Option<(&[u8], &[u8])>
    ensures { MatchOption result (length (words line.now) ≢ 2)
        (λ found. words line.now ≡ found.0.now ∷ found.1.now ∷ []) }
{
    let (first, rest) = next_word(line);
    let (second, rest) = next_word(rest);
    let (more, _) = next_word(rest);
    if second.is_empty() || !more.is_empty() {
        return None;
    }
    Some((first, second))
}

/// The words of a line that has three.
/// Cost: O(n) of the line.
pub fn three_words(line: &[u8]) -> Option<(&[u8], &[u8], &[u8])>
    ensures { MatchOption result (length (words line.now) ≢ 3)
        (λ found. words line.now ≡ found.0.now ∷ found.1.now ∷ found.2.now ∷ []) }
{
    let (first, rest) = next_word(line);
    let (second, rest) = next_word(rest);
    let (third, rest) = next_word(rest);
    let (more, _) = next_word(rest);
    if third.is_empty() || !more.is_empty() {
        return None;
    }
    Some((first, second, third))
}

/// How many spaces are at the front.
fn count_spaces(line: &[u8]) -> usize
    ensures count { result ≡ prefix_len (λ b. b == 32) line.now }
    ensures within { result ≤ length line.now }
{
    line.iter().take_while(|b| **b == b' ').count()
}

/// The index of the first byte of this value, or the number of bytes if there is none.
pub fn first_place(bytes: &[u8], value: u8) -> usize
    ensures place { result ≡ position_or_len (λ b. b == value) bytes.now }
    ensures within { result ≤ length bytes.now }
{
    bytes.iter().take_while(|b| **b != value).count()
}

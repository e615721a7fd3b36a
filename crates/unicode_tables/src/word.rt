//! What the tables say of a code point, in one word.

ghost use Rattle.std.specs.Prelude.{◌≡◌, ℕ, ◌+◌, ◌-◌, ◌*◌, ◌<◌, ◌≤◌, true};
ghost use Rattle.unicode_tables.specs.Alone.{is_by_properties};
ghost use Rattle.unicode_tables.specs.Word.{is_bracket, word_with};
ghost use Rattle.unicode_tables.specs.Evenness.{HasEvenMarks, IsWordIn};

use crate::alone::{columns_alone, is_plain};
use crate::bracket::Bracket;
use crate::class::is_space;
use crate::page::BLOCK;
use crate::property::Property;
use bg_types::{Bidi, Ea, Lb};

/// What the tables say of a code point, but for the characters that it pairs with and mirrors to.
#[derive(Clone, Copy, Debug, PartialEq, Eq)]
pub struct Word {
    /// Bidi_Class.
    pub bidi: Bidi,
    /// Line_Break.
    pub lb: Lb,
    /// East_Asian_Width.
    pub ea: Ea,
    /// Whether it is an opening or a closing bracket (UAX #9, BD14 and BD15).
    pub is_bracket: bool,
    /// Whether it has a mirrored character.
    pub has_mirror: bool,
    /// Whether it stands in a block without marks, in which most text does.
    pub is_plain: bool,
    /// The columns of a cluster of it alone, 0 to 2, where ambiguous characters are narrow.
    pub columns: u8,
    /// Whether it is a space (UAX #14, SP).
    pub is_space: bool,
}

/// Behind this block no code point is plain.
const LAST_PLAIN_BLOCK: usize = 6;

/// Behind the plain blocks the marks of direction stand in this one.
const DIRECTION_MARKS_BLOCK: usize = 32;

/// The five properties that words are made of.
#[derive(Clone, Copy)]
pub(crate) struct Properties<'a> {
    pub(crate) bidi: &'a Property<Bidi>,
    pub(crate) bracket: &'a Property<Bracket>,
    pub(crate) mirror: &'a Property<Option<char>>,
    pub(crate) lb: &'a Property<Lb>,
    pub(crate) ea: &'a Property<Ea>,
}

fn is_bracket(bracket: Bracket) -> bool
    ensures { result ≡ is_bracket bracket }
{
    match bracket {
        Bracket::None => false,
        Bracket::Open(_) | Bracket::Close(_) => true,
    }
}

/// Whether no code point of a block is plain or a mark of direction: the properties say its word.
fn is_by_properties(block: usize) -> bool
    ensures { result ≡ is_by_properties block }
{
    block > LAST_PLAIN_BLOCK && block != DIRECTION_MARKS_BLOCK
}

/// Whether two words are known to be the same.
fn are_same(word: Word, other: Word) -> bool
    ensures { result ≡ true → word ≡ other }
{
    word == other
}

impl Properties<'_> {
    /// The word of a code point.
    pub(crate) fn word(&self, c: usize) -> Word
        requires { c < 0x110000 }
        ensures { result ≡ word_with self.now c }
    {
        let (bidi, lb, ea) = (self.bidi.at(c), self.lb.at(c), self.ea.at(c));
        Word {
            bidi,
            lb,
            ea,
            is_bracket: is_bracket(self.bracket.at(c)),
            has_mirror: self.mirror.at(c).is_some(),
            is_plain: is_plain(c),
            columns: columns_alone(bidi, lb, ea, c),
            is_space: is_space(lb),
        }
    }

    /// Whether all code points of a block are known to have one bracket and one mirrored character.
    fn has_even_marks(&self, block: usize) -> bool
        requires { block < 4352 }
        ensures { result ≡ true → HasEvenMarks self.now block }
    {
        self.bracket.is_even(block) && self.mirror.is_even(block)
    }

    /// Whether a code point is known to have a word of its block, given whether the marks of all its code points are even.
    #[inline]
    fn has_word(&self, word: Word, block: usize, place: usize, even_marks: bool) -> bool
        requires by_properties { is_by_properties block ≡ true }
        requires block { block < 4352 }
        requires place { place < 256 }
        requires word { IsWordIn self.now block word }
        requires marks { even_marks ≡ true → HasEvenMarks self.now block }
        ensures { result ≡ true → word_with self.now (block * 256 + place) ≡ word }
    {
        self.bidi.in_block(block, place) == word.bidi
            && self.lb.in_block(block, place) == word.lb
            && self.ea.in_block(block, place) == word.ea
            && (even_marks
                || is_bracket(self.bracket.in_block(block, place)) == word.is_bracket
                    && self.mirror.in_block(block, place).is_some() == word.has_mirror)
    }

    /// The place in a block up to which all code points from one on are known to have its word.
    pub(crate) fn run_end(&self, word: Word, block: usize, from: usize) -> usize
        requires block { block < 4352 }
        requires from { from < 256 }
        requires word { word ≡ word_with self.now (block * 256 + from) }
        ensures behind { from < result }
        ensures within { result ≤ 256 }
        ensures same { (k : ℕ) → from ≤ k → k < result → word_with self.now (block * 256 + k) ≡ word }
    {
        if !is_by_properties(block) {
            return from + 1;
        }
        let even_marks = self.has_even_marks(block);
        for place in from + 1..BLOCK {
            if !self.has_word(word, block, place, even_marks) {
                return place;
            }
        }
        BLOCK
    }

    /// Whether a block is known to have one word.
    #[tactic(auto, using(crate::proofs::Marks::words_even))]
    pub(crate) fn are_even(&self, block: usize) -> bool
        requires { block < 4352 }
        ensures { result ≡ true → (k : ℕ) → k < 256
            → word_with self.now (block * 256 + k) ≡ word_with self.now (block * 256) }
    {
        is_by_properties(block)
            && self.has_even_marks(block)
            && self.bidi.is_even(block)
            && self.lb.is_even(block)
            && self.ea.is_even(block)
    }

    /// Whether a block is known to have one word, and the block before it the same. `before` is the word of that block's
    /// first code point.
    pub(crate) fn repeat(&self, before: Word, block: usize) -> bool
        requires behind { 0 < block }
        requires within { block < 4352 }
        requires before { before ≡ word_with self.now ((block - 1) * 256) }
        ensures same { result ≡ true → (k : ℕ) → k < 256
            → word_with self.now (block * 256 + k) ≡ word_with self.now ((block - 1) * 256 + k) }
        ensures one { result ≡ true → (k : ℕ) → k < 256
            → word_with self.now (block * 256 + k) ≡ word_with self.now ((block - 1) * 256) }
    {
        self.are_even(block - 1)
            && self.are_even(block)
            && are_same(self.word(block * BLOCK), before)
    }
}

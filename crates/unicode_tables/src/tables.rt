//! The tables, and the looking up.

ghost use Rattle.std.specs.Prelude.{◌≡◌, ◌||◌, true, false, is_some, length, map, take, IfOk, OnOk};
ghost use Rattle.std.specs.List.{list_any};
ghost use Rattle.std.specs.Str.{IsCharBoundary, chars};

use crate::bracket::Bracket;
use crate::property::Property;
use crate::word::{Properties, Word};
use crate::words::Words;
use bg_types::{Bidi, Ea, Lb, Memory};
use std::alloc::Global;
use std::marker::Model;
use std::mem;

/// What the five data files say of each code point, and how wide ambiguous characters are. A look-up reads one word, and
/// the few code points that it marks have their bracket or their mirrored character beside it.
pub struct Tables {
    words: Words,
    bracket: Property<Bracket>,
    mirror: Property<Option<char>>,
    wide_ambiguous: bool,
}

impl Model for Tables {
    ghost use Rattle.unicode_tables.specs.Tables.{TableValues, with_width};

    ghost Value = { TableValues };

    ghost use Rattle.unicode_tables.specs.FirstBytes.{AreFirstBytes};
    ghost use Rattle.unicode_tables.specs.Words.{word_in, tables_of_words, IsWordTable, HasMarks};

    ghost view = { λ t. with_width (tables_of_words t.words t.bracket t.mirror) t.wide_ambiguous };

    ghost invariant = { λ t. IsWordTable t.words × HasMarks t.words t.bracket t.mirror
        × AreFirstBytes (word_in t.words) 0x110000 t.words.first_bytes };
}

// Written out: a crate above then proves the call, and nothing of the parts.
impl Drop for Tables {
    fn drop(self) {
        let Tables {
            words: _,
            bracket: _,
            mirror: _,
            wide_ambiguous: _,
        } = self;
    }
}

impl Tables {
    ghost use Rattle.unicode_tables.specs.Tables.{tables_of_lists, with_width, bidi_of, bracket_of, mirror_of, lb_of, ea_of};
    ghost use Rattle.unicode_tables.specs.Classes.{is_separator, is_segment_separator};
    ghost use Rattle.unicode_tables.specs.Word.{word_of};

    /// The tables of five properties. Ambiguous characters are narrow.
    /// Cost: O(1), a step for each code point of a page; memory for the words.
    pub fn new(
        alloc: Global,
        bidi: Property<Bidi>,
        bracket: Property<Bracket>,
        mirror: Property<Option<char>>,
        lb: Property<Lb>,
        ea: Property<Ea>,
    ) -> Result<Tables, Memory>
        ensures { IfOk result (λ tables. tables ≡ tables_of_lists bidi bracket mirror lb ea) }
    {
        let properties = Properties {
            bidi: &bidi,
            bracket: &bracket,
            mirror: &mirror,
            lb: &lb,
            ea: &ea,
        };
        let words = Words::of(alloc, &properties)?;
        Ok(Tables {
            words,
            bracket,
            mirror,
            wide_ambiguous: false,
        })
    }

    /// These tables, in which characters of East_Asian_Width A are wide or not (UAX #11, 5: the
    /// context decides). Takes no memory.
    pub fn with_wide_ambiguous(mut self, yes: bool) -> Tables
        ensures { result ≡ with_width self yes }
    {
        self.wide_ambiguous = yes;
        self
    }

    /// Whether characters of East_Asian_Width A are wide.
    #[inline]
    pub fn wide_ambiguous(&self) -> bool
        ensures { result ≡ self.now.wide_ambiguous }
    {
        self.wide_ambiguous
    }

    /// All that the tables say of a character, but for the characters that it pairs with and mirrors to.
    #[inline]
    pub fn word(&self, c: char) -> Word
        ensures { result ≡ word_of self.now c }
    {
        self.words.at(c as usize)
    }

    /// Puts the word of each of these characters into a list, in place of what it has.
    /// Cost: O(n), 8 bytes of memory a character.
    pub fn words_into(&self, words: &mut Vec<Word>, points: &[char]) -> Result<(), Memory>
        ensures { OnOk result (words.new.items ≡ map (word_of self.now) points.now) }
    {
        words.clear();
        words.reserve(points.len())?;
        // A list that is lent would have its length written at each push.
        let empty = Vec::new(*words.allocator());
        let mut own = mem::replace(words, empty);
        for c in points {
            own.push_reserved(self.word(*c));
        }
        *words = own;
        Ok(())
    }

    /// Bidi_Class of a character.
    #[inline]
    pub fn bidi(&self, c: char) -> Bidi
        ensures { result ≡ bidi_of self.now c }
    {
        self.words.at(c as usize).bidi
    }

    /// Bidi_Class of each character of a text.
    /// Cost: O(n), memory for the classes.
    pub fn bidi_of_text(&self, alloc: Global, text: &str) -> Result<Vec<Bidi>, Memory>
        ensures { IfOk result (λ classes. classes.items ≡ map (bidi_of self.now) (chars text.now)) }
    {
        Ok(text.chars().map(|c| self.bidi(c)).collect(alloc)?)
    }

    /// Whether a character is a bracket, and with which character it pairs.
    #[inline]
    pub fn bracket(&self, c: char) -> Bracket
        ensures { result ≡ bracket_of self.now c }
    {
        if !self.words.at(c as usize).is_bracket {
            return Bracket::None;
        }
        self.bracket.get(c)
    }

    /// The mirrored character, where the file lists one.
    #[inline]
    pub fn mirror(&self, c: char) -> Option<char>
        ensures { result ≡ mirror_of self.now c }
    {
        if !self.words.at(c as usize).has_mirror {
            return None;
        }
        self.mirror.get(c)
    }

    /// How many bytes and how many characters of a text stand before the first that may end a paragraph, as far as the first
    /// byte of each tells.
    /// Cost: O(n) of these.
    #[inline]
    pub fn before_separator(&self, text: &str) -> (usize, usize)
        ensures boundary { IsCharBoundary text.now result.0 }
        ensures count { result.1 ≡ length (chars (take result.0 text.now)) }
        ensures none { list_any (λ c. is_separator (bidi_of self.now c)) (chars (take result.0 text.now)) ≡ false }
    {
        self.words.first_bytes.to_separators.passed(text)
    }

    /// Whether the first bytes of a text's characters tell that none separates segments.
    /// Cost: O(n).
    #[inline]
    pub fn is_one_segment(&self, text: &str) -> bool
        ensures { result ≡ true → list_any (λ c. is_segment_separator (bidi_of self.now c)) (chars text.now) ≡ false }
    {
        let (bytes, _) = self.words.first_bytes.to_separators.passed(text);
        bytes == text.len()
    }

    /// Whether the first bytes of a text's characters tell that none is shown by others at an odd level: none separates
    /// segments, and none has a mirrored character (UAX #9, L4).
    /// Cost: O(n).
    #[inline]
    pub fn is_shown_as_it_is(&self, text: &str) -> bool
        ensures { result ≡ true
            → list_any (λ c. is_segment_separator (bidi_of self.now c) || is_some (mirror_of self.now c)) (chars text.now) ≡ false }
    {
        let (bytes, _) = self.words.first_bytes.to_replaced.passed(text);
        bytes == text.len()
    }

    /// Line_Break of a character.
    #[inline]
    pub fn lb(&self, c: char) -> Lb
        ensures { result ≡ lb_of self.now c }
    {
        self.words.at(c as usize).lb
    }

    /// East_Asian_Width of a character.
    #[inline]
    pub fn ea(&self, c: char) -> Ea
        ensures { result ≡ ea_of self.now c }
    {
        self.words.at(c as usize).ea
    }
}

//! A cursor over the paragraphs of a buffer.

ghost use Rattle.std.specs.Prelude.{◌≡◌, ◌↔◌, ◌+◌, ◌-◌, ◌<◌, [], Some, IsTrue, length, take, get_or, slice_get, option_copied, encode_utf8_all, if◌then◌else◌};
ghost use Rattle.std.specs.List.{concat};
ghost use Rattle.unicode_tables.specs.Tables.{TableValues};
ghost use Rattle.paragraphs.specs.Text.{code_points};
ghost use Rattle.paragraphs.specs.Paragraphs.{paragraphs};
ghost use Rattle.text_buffer.specs.Buffers.{bytes_in, paragraphs_in, kept_in, text_in, Fits, IsSplit};
ghost use Rattle.text_buffer.specs.Blocks.{texts_in, seen_in};
ghost use Rattle.text_buffer.specs.Places.{IsFound};

use crate::block::Block;
use crate::found::{Found, before_of, next_of, piece_at};
use paragraphs::Para;
use std::marker::Model;

/// A paragraph of a buffer, from which one goes on to the next one or back to the one before. A step takes O(1).
#[derive(Drop)]
pub struct Cursor<'a, K> {
    blocks: &'a [Block<K>],
    found: Found,
}

impl<'a, K> Model for Cursor<'a, K> {
    ghost use Rattle.text_buffer.specs.Buffers.{Standing};

    // The paragraphs of the buffer, and the number of this one.
    ghost Value = { Standing K };

    ghost use Rattle.text_buffer.specs.Blocks.{seen_in};
    ghost use Rattle.text_buffer.specs.Places.{IsStanding};

    ghost view = { λ c. record { paragraphs = seen_in c.blocks.now; number = c.found.number } };

    ghost invariant = { λ c. IsStanding c.blocks.now c.found };
}

impl<'a, K> Cursor<'a, K> {
    /// At a paragraph that was found.
    pub(crate) fn at(blocks: &'a [Block<K>], found: Found) -> Cursor<'a, K>
        requires found { IsFound blocks.now found }
        requires fits { Fits (texts_in blocks.now) }
        ensures paragraphs { result.paragraphs ≡ seen_in blocks.now }
        ensures number { result.number ≡ found.number }
    {
        Cursor { blocks, found }
    }

    /// The number of the paragraph, from 0.
    #[inline]
    pub fn number(&self) -> usize
        ensures number { result ≡ self.now.number }
        ensures there { self.now.number < length self.now.paragraphs }
    {
        self.found.number
    }

    /// The paragraph, with how many bytes and code points stand before it.
    pub fn paragraph(&self) -> Para<'a>
        ensures text { code_points result.text ≡ get_or (paragraphs_in self.now.paragraphs) self.now.number [] }
        ensures first_byte { result.first_byte ≡ bytes_in (concat (take self.now.number (paragraphs_in self.now.paragraphs))) }
        ensures first_place { result.first_place ≡ length (concat (take self.now.number (paragraphs_in self.now.paragraphs))) }
        ensures paragraph { (tables : TableValues) → IsSplit tables (paragraphs_in self.now.paragraphs)
            → slice_get (paragraphs tables (encode_utf8_all (text_in self.now.paragraphs))) self.now.number ≡ Some result }
    {
        let piece = piece_at(self.blocks, self.found);
        Para::new(piece.text.as_str(), self.found.bytes, self.found.places)
    }

    /// What is kept of it, or nothing.
    pub fn kept(&self) -> Option<&'a K>
        ensures { slice_get (kept_in self.now.paragraphs) self.now.number ≡ Some (option_copied result) }
    {
        piece_at(self.blocks, self.found).kept.as_ref()
    }

    /// Goes on to the next paragraph, if there is one, and answers whether there is. At the last one it stays.
    pub fn next(&mut self) -> bool
        ensures paragraphs { self.new.paragraphs ≡ self.old.paragraphs }
        ensures moved { IsTrue result ↔ (self.old.number + 1 < length self.old.paragraphs) }
        ensures number { self.new.number ≡ (if result then self.old.number + 1 else self.old.number) }
    {
        match next_of(self.blocks, self.found) {
            Some(found) => {
                self.found = found;
                true
            }
            None => false,
        }
    }

    /// Goes back to the paragraph before, if there is one, and answers whether there is. At the first one it stays.
    pub fn back(&mut self) -> bool
        ensures paragraphs { self.new.paragraphs ≡ self.old.paragraphs }
        ensures moved { IsTrue result ↔ (0 < self.old.number) }
        ensures number { self.new.number ≡ self.old.number - 1 }
    {
        match before_of(self.blocks, self.found) {
            Some(found) => {
                self.found = found;
                true
            }
            None => false,
        }
    }
}

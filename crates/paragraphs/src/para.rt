//! A paragraph.

ghost use Rattle.std.specs.Prelude.{◌≡◌, ◌<◌, length};
ghost use Rattle.std.specs.List.{All, concat};
ghost use Rattle.std.specs.Str.{IsUtf8};
ghost use Rattle.paragraphs.specs.Clusters.{clusters};

use crate::cluster::Clusters;
use std::marker::Model;

/// A paragraph of a text.
#[derive(Debug, Drop)]
pub struct Para<'a> {
    text: &'a str,
    first_byte: usize,
    first_place: usize,
}

impl<'a> Model for Para<'a> {
    ghost use Rattle.paragraphs.specs.Paragraphs.{Paragraph};

    ghost Value = { Paragraph };

    ghost view = { λ p. record { text = p.text.now; first_byte = p.first_byte; first_place = p.first_place } };
}

impl<'a> Para<'a> {
    /// A paragraph that is kept apart from its text: its own text with its separator, and how many bytes and how many
    /// code points stand before it.
    #[inline]
    pub fn new(text: &'a str, first_byte: usize, first_place: usize) -> Para<'a>
        ensures { result ≡ record { text = text.now; first_byte = first_byte; first_place = first_place } }
    {
        Para {
            text,
            first_byte,
            first_place,
        }
    }

    /// The paragraph with its separator, as a slice of the text.
    #[inline]
    pub fn text(&self) -> &'a str
        ensures { result.now ≡ self.now.text }
    {
        self.text
    }

    /// How many bytes of the text stand before it.
    #[inline]
    pub fn first_byte(&self) -> usize
        ensures { result ≡ self.now.first_byte }
    {
        self.first_byte
    }

    /// How many code points of the text stand before it.
    #[inline]
    pub fn first_place(&self) -> usize
        ensures { result ≡ self.now.first_place }
    {
        self.first_place
    }

    /// Its extended grapheme clusters, in order. They don't depend on the other paragraphs.
    /// Cost: O(1); O(n) to go over them.
    #[inline]
    pub fn clusters(&self) -> Clusters<'a>
        ensures clusters { result ≡ clusters self.now.text }
        ensures joined { concat result ≡ self.now.text }
        ensures utf8 { All IsUtf8 result }
        ensures some { All (λ cluster. 0 < length cluster) result }
    {
        Clusters::of(self.text())
    }
}

//! A paragraph as it is stored.

ghost use Rattle.std.specs.Prelude.{◌≡◌, ◌<◌, None, IfOk, is_some, cond, length, string_bytes};
ghost use Rattle.paragraphs.specs.Text.{code_points};
ghost use Rattle.text_buffer.specs.Forgetting.{stays};

use crate::spared::Spared;
use bg_types::Memory;
use std::alloc::Global;

/// A paragraph's text, how many code points it has, and what its owner keeps of it.
#[derive(Drop)]
pub struct Piece<K> {
    pub text: String,
    pub places: usize,
    pub kept: Option<K>,
    ghost counted: { places ≡ length (code_points (string_bytes text)) },
}

impl<K: Drop> Piece<K> {
    /// A paragraph of which nothing is kept.
    pub fn of(alloc: Global, text: &str) -> Result<Piece<K>, Memory>
        ensures text { IfOk result (λ piece. string_bytes piece.text ≡ text.now) }
        ensures nothing { IfOk result (λ piece. piece.kept ≡ None) }
    {
        let places = text.chars().count();
        Ok(Piece::holding(String::from_str(alloc, text)?, places))
    }

    /// A paragraph that has this text of so many code points, and of which nothing is kept.
    pub fn holding(text: String, places: usize) -> Piece<K>
        requires { places ≡ length (code_points (string_bytes text)) }
        ensures text { string_bytes result.text ≡ string_bytes text }
        ensures nothing { result.kept ≡ None }
    {
        Piece {
            text,
            places,
            kept: None,
        }
    }

    /// Drops what is kept, unless the paragraph with this number, which this is, is spared.
    pub fn forget_unless(&mut self, spared: Spared, number: usize)
        requires { 0 < spared.step }
        ensures text { self.new.text ≡ self.old.text }
        ensures kept { self.new.kept ≡ cond (stays spared number) self.old.kept None }
    {
        if !self.kept.is_some() {
            return;
        }
        if !spared.has(number) {
            self.kept = None;
        }
    }
}

impl<K> Piece<K> {
    /// Of how many paragraphs something is kept: of this one or none.
    #[inline]
    pub fn kept_count(&self) -> usize
        ensures { result ≡ cond (is_some self.now.kept) 1 0 }
    {
        if self.kept.is_some() { 1 } else { 0 }
    }
}

//! A source of known bytes, for tests.

ghost use Rattle.std.specs.Prelude.{◌≡◌, ◌<◌, ◌≤◌, ◌+◌, Some, None, false, length, take, is_none, option_map, IfSome, IfNone};
ghost use Rattle.std.specs.Io.KnownBytes.{Consumes, IsAtEnd, Keeps};
ghost use Rattle.op_codec.specs.Source.{greatest_piece};
ghost use Rattle.op_codec.specs.Gives.{bytes_to_come};

use crate::source::Source;

/// A source for tests: it gives some bytes, at most `piece` a call, and then ends, gives others
/// forever, or fails for good at the get after `left` bytes.
#[derive(Drop)]
pub struct Gives<'a> {
    bytes: &'a [u8],
    again: &'a [u8],
    /// The greatest number of bytes that one get gives.
    pub piece: usize,
    /// How many bytes it still gives before it fails.
    pub left: Option<usize>,
    failed: bool,
    pub ghost gives_some: { 0 < piece },
}

impl<'a> Gives<'a> {
    /// A source that gives these bytes and ends, at most `piece` a call.
    pub fn new(bytes: &'a [u8], piece: usize) -> Gives<'a>
        requires { 0 < piece }
        ensures remaining { ⟦<Gives<'a> as Source>⟧.remaining result ≡ Some bytes.now }
        ensures working { ⟦<Gives<'a> as Source>⟧.has_failed result ≡ false }
        ensures piece { result.piece ≡ piece }
        ensures left { result.left ≡ None }
    {
        Gives {
            bytes,
            again: &[],
            piece,
            left: None,
            failed: false,
        }
    }

    /// A source that gives what this one does and then, instead of ending, `again` forever, if `again` has a byte.
    pub fn then_for_ever(self, again: &'a [u8]) -> Gives<'a>
        ensures working { ⟦<Gives<'a> as Source>⟧.has_failed result ≡ ⟦<Gives<'a> as Source>⟧.has_failed self.entry }
        ensures piece { result.piece ≡ self.entry.piece }
        ensures left { result.left ≡ self.entry.left }
    {
        let mut gives = self;
        gives.again = again;
        gives
    }

    /// A source that gives what this one does, and fails at the get after `left` more bytes.
    pub fn failing_after(self, left: usize) -> Gives<'a>
        ensures remaining { ⟦<Gives<'a> as Source>⟧.remaining result ≡ ⟦<Gives<'a> as Source>⟧.remaining self.entry }
        ensures working { ⟦<Gives<'a> as Source>⟧.has_failed result ≡ ⟦<Gives<'a> as Source>⟧.has_failed self.entry }
        ensures piece { result.piece ≡ self.entry.piece }
        ensures left { result.left ≡ Some left }
    {
        let mut gives = self;
        gives.left = Some(left);
        gives
    }
}

impl<'a> Source for Gives<'a> {
    ghost remaining = { λ g. bytes_to_come g.bytes.now g.again.now };

    ghost has_failed = { λ g. g.failed };

    fn failed(&self) -> bool {
        self.failed
    }

    fn get(&mut self, piece: &mut [u8]) -> Option<usize>
        requires some { 0 < length piece.old }
        requires at_most { length piece.old ≤ greatest_piece }
        requires working { ⟦<Gives<'a> as Source>⟧.has_failed self.old ≡ false }
        ensures within { IfSome result (λ n. n ≤ length piece.new) }
        ensures given { IfSome result (λ n. Consumes (⟦<Gives<'a> as Source>⟧.remaining self.old) (⟦<Gives<'a> as Source>⟧.remaining self.new) (take n piece.new)) }
        ensures end { IfSome result (λ n. n ≡ 0 → IsAtEnd (⟦<Gives<'a> as Source>⟧.remaining self.new)) }
        ensures lost { IfNone result (Keeps (⟦<Gives<'a> as Source>⟧.remaining self.old) (⟦<Gives<'a> as Source>⟧.remaining self.new)) }
        ensures failed { ⟦<Gives<'a> as Source>⟧.has_failed self.new ≡ is_none result }
        ensures counted { IfSome result (λ n. (n ≤ self.old.piece) × (option_map (λ left. left + n) self.new.left ≡ self.old.left)) }
        ensures due { IfNone result (self.old.left ≡ Some 0) }
        ensures piece { self.new.piece ≡ self.old.piece }
    {
        if self.left == Some(0) {
            self.failed = true;
            return None;
        }
        if self.bytes.is_empty() {
            self.bytes = self.again;
        }
        let most = self.bytes.len().min(piece.len()).min(self.piece);
        let given = most.min(self.left.unwrap_or(most));
        piece[..given].copy_from_slice(&self.bytes[..given]);
        self.bytes = &self.bytes[given..];
        self.left = self.left.map(|left| left - given);
        Some(given)
    }
}

//! Where bytes come from.

ghost use Rattle.std.specs.Prelude.{◌≡◌, ◌<◌, ◌≤◌, ℕ, Bool, false, List, Option, length, take, is_none, IfSome, IfNone};
ghost use Rattle.std.specs.Io.KnownBytes.{Consumes, IsAtEnd, Keeps};
ghost use Rattle.op_codec.specs.Source.{greatest_piece};

/// Gives bytes in order, until its end or until it fails for good.
pub trait Source {
    /// What is still to come, or `None` where that is not known, as for a file, or has no end.
    ghost remaining: { Self → Option (List ℕ) };

    ghost has_failed: { Self → Bool };

    /// Whether a read has failed. Once true, it stays true.
    fn failed(&self) -> bool
        ensures { result ≡ has_failed self.now };

    /// Fills the first n bytes of the piece with the next ones at `Some(n)`; 0 is the end. At `None`
    /// nothing was read, and the source has failed for good. A piece has 1 to 4,096 bytes.
    /// Cost: that of the reader, for at most 4,096 bytes.
    fn get(&mut self, piece: &mut [u8]) -> Option<usize>
        requires some { 0 < length piece.old }
        requires at_most { length piece.old ≤ greatest_piece }
        requires working { has_failed self.old ≡ false }
        ensures within { IfSome result (λ n. n ≤ length piece.new) }
        ensures given { IfSome result (λ n. Consumes (remaining self.old) (remaining self.new) (take n piece.new)) }
        ensures end { IfSome result (λ n. n ≡ 0 → IsAtEnd (remaining self.new)) }
        ensures lost { IfNone result (Keeps (remaining self.old) (remaining self.new)) }
        ensures failed { has_failed self.new ≡ is_none result };
}

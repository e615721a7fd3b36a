//! Where bytes go, and the one loop that writes them.

ghost use Rattle.std.specs.Prelude.{◌≡◌, ◌<◌, ◌≤◌, ℕ, Bool, false, List, Option, length, take, is_err, is_none, IfSome, IfNone, OnOk, OnErr};
ghost use Rattle.std.specs.Io.KnownBytes.{Appends, Keeps};
ghost use Rattle.bg_types.specs.Sink.{AppendsBeginning};

use crate::fault::Device;

/// Takes bytes in order, until it fails for good.
pub trait Sink {
    /// What was written, or `None` where that is not known, as for a file.
    ghost written: { Self → Option (List ℕ) };

    ghost has_failed: { Self → Bool };

    /// Whether a put has failed. Once true, it stays true.
    fn failed(&self) -> bool
        ensures { result ≡ has_failed self.now };

    /// Writes the first n of the bytes at `Some(n)`, at least one. At `None` nothing was written,
    /// and the sink has failed for good.
    /// Cost: that of the writer.
    fn put(&mut self, bytes: &[u8]) -> Option<usize>
        requires some { 0 < length bytes.now }
        requires working { has_failed self.old ≡ false }
        ensures taken { IfSome result (λ n. (0 < n) × (n ≤ length bytes.now)
            × Appends (written self.old) (written self.new) (take n bytes.now)) }
        ensures lost { IfNone result (Keeps (written self.old) (written self.new)) }
        ensures failed { has_failed self.new ≡ is_none result };
}

/// Writes all of the bytes, or a beginning of them if the sink fails.
/// Cost: O(n), one `put` for as many bytes as the sink takes.
pub fn put_all<S: Sink>(sink: &mut S, bytes: &[u8]) -> Result<(), Device>
    requires working { S.has_failed sink.old ≡ false }
    ensures ok { OnOk result (Appends (S.written sink.old) (S.written sink.new) bytes.now) }
    ensures err { OnErr result (AppendsBeginning (S.written sink.old) (S.written sink.new) bytes.now) }
    ensures failed { S.has_failed sink.new ≡ is_err result }
{
    let mut rest = bytes;
    while !rest.is_empty() {
        match sink.put(rest) {
            Some(taken) => rest = &rest[taken..],
            None => return Err(Device),
        }
    }
    Ok(())
}

//! A sink that stops, to test what has been written by then.

ghost use Rattle.std.specs.Prelude.{◌≡◌, ◌<◌, ◌≤◌, ◌+◌, ◌⊎◌, ◌||◌, false, true, length, take, is_none, IfSome, IfNone};
ghost use Rattle.std.specs.Io.KnownBytes.{Appends, Keeps};

use crate::sink::Sink;

/// A sink around another, for tests: it takes at most `piece` bytes a call, and fails for good at
/// the first put after it has taken `left` bytes.
#[derive(Drop)]
pub struct Stops<S> {
    /// The sink that it writes to.
    pub sink: S,
    /// The greatest number of bytes that one put takes.
    pub piece: usize,
    /// How many bytes it still takes.
    pub left: usize,
    stopped: bool,
    pub ghost takes_some: { 0 < piece },
}

impl<S: Sink> Stops<S> {
    /// A sink that takes `left` bytes in all, at most `piece` a call.
    pub fn new(sink: S, piece: usize, left: usize) -> Stops<S>
        requires { 0 < piece }
        ensures written { ⟦<Stops<S> as Sink>⟧.written result ≡ S.written sink }
        ensures failed { ⟦<Stops<S> as Sink>⟧.has_failed result ≡ S.has_failed sink }
        ensures piece { result.piece ≡ piece }
        ensures left { result.left ≡ left }
    {
        Stops {
            sink,
            piece,
            left,
            stopped: false,
        }
    }
}

impl<S: Sink> Sink for Stops<S> {
    ghost written = { λ s. S.written s.sink };

    ghost has_failed = { λ s. s.stopped || S.has_failed s.sink };

    fn failed(&self) -> bool {
        self.stopped || self.sink.failed()
    }

    fn put(&mut self, bytes: &[u8]) -> Option<usize>
        requires some { 0 < length bytes.now }
        requires working { ⟦<Stops<S> as Sink>⟧.has_failed self.old ≡ false }
        ensures taken { IfSome result (λ n. (0 < n) × (n ≤ length bytes.now)
            × Appends (⟦<Stops<S> as Sink>⟧.written self.old) (⟦<Stops<S> as Sink>⟧.written self.new) (take n bytes.now)) }
        ensures lost { IfNone result (Keeps (⟦<Stops<S> as Sink>⟧.written self.old) (⟦<Stops<S> as Sink>⟧.written self.new)) }
        ensures failed { ⟦<Stops<S> as Sink>⟧.has_failed self.new ≡ is_none result }
        ensures counted { IfSome result (λ n. (n ≤ self.old.piece) × (self.new.left + n ≡ self.old.left)) }
        ensures piece { self.new.piece ≡ self.old.piece }
        // It fails only where nothing is left, or where the sink that it writes to fails.
        ensures used_up { IfNone result ((self.old.left ≡ 0) ⊎ (S.has_failed self.new.sink ≡ true)) }
    {
        let most = bytes.len().min(self.piece).min(self.left);
        if most == 0 {
            self.stopped = true;
            return None;
        }
        let taken = self.sink.put(&bytes[..most])?;
        self.left -= taken;
        Some(taken)
    }
}

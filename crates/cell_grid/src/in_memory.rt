//! A sink in memory.

ghost use Rattle.std.specs.Prelude.{◌≡◌, [], false, Some};

use bg_types::Sink;
use std::alloc::Global;

/// A sink that has the bytes. It fails where a growth is refused.
#[derive(Drop)]
pub struct InMemory {
    pub bytes: Vec<u8>,
    pub failed: bool,
}

impl InMemory {
    /// A sink that was put nothing.
    pub fn new(alloc: Global) -> InMemory
        ensures bytes { result.bytes.items ≡ [] }
        ensures working { result.failed ≡ false }
    {
        InMemory {
            bytes: Vec::new(alloc),
            failed: false,
        }
    }
}

impl Sink for InMemory {
    ghost written = { λ s. Some s.bytes.items };

    ghost has_failed = { λ s. s.failed };

    fn failed(&self) -> bool {
        self.failed
    }

    fn put(&mut self, bytes: &[u8]) -> Option<usize> {
        match self.bytes.extend_from_slice(bytes) {
            Ok(()) => Some(bytes.len()),
            Err(_) => {
                self.failed = true;
                None
            }
        }
    }
}

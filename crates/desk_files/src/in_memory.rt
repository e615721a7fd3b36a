//! Readers over files in memory.

ghost use Rattle.std.specs.Prelude.{◌≡◌, Some, false, IfOk, map as each};
ghost use Rattle.desk_files.specs.Files.{bytes_of};

use bg_types::Memory;
use op_codec::Source;
use std::alloc::Global;

/// A source over bytes in memory. It never fails.
#[derive(Drop)]
pub struct InMemory<'a> {
    bytes: &'a [u8],
}

impl<'a> Source for InMemory<'a> {
    ghost remaining = { λ m. Some m.bytes.now };

    ghost has_failed = { λ m. false };

    fn failed(&self) -> bool {
        false
    }

    fn get(&mut self, piece: &mut [u8]) -> Option<usize> {
        let given = self.bytes.len().min(piece.len());
        piece[..given].copy_from_slice(&self.bytes[..given]);
        self.bytes = &self.bytes[given..];
        Some(given)
    }
}

/// A source over each file.
/// Cost: O(n), memory for a reader a file.
pub fn readers_of<'a>(alloc: Global, files: &'a [Vec<u8>]) -> Result<Vec<InMemory<'a>>, Memory>
    ensures { IfOk result (λ readers. each ⟦<InMemory<'a> as Source>⟧.remaining readers.items ≡ each (λ file. Some file) (bytes_of files.now)) }
{
    let mut readers = Vec::with_capacity(alloc, files.len())?;
    for file in files {
        readers.push(InMemory { bytes: file })?;
    }
    Ok(readers)
}

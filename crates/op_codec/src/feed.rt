//! Operation files that are read piece by piece.

ghost use Rattle.std.specs.Prelude.{◌≡◌, ◌≢◌, [], List, ℕ, IfOk, IfErr};
ghost use Rattle.op_codec.specs.declared.fault.CodecFault.TheVariants.{Memory as memory};
ghost use Rattle.op_codec.specs.Spelling.{Spells};
ghost use Rattle.op_codec.specs.Fault.{TellsFault};
ghost use Rattle.op_codec.specs.Feed.{IsWhole, IsFeedOutcome, bytes_of, IsCut};

use crate::fault::CodecFault;
use crate::stream::Stream;
use bg_types::Op;
use std::alloc::Global;
use std::marker::Model;

/// Reads an operation file (docs/FORMATS.md) in pieces of any size. Clauses see it as the bytes that
/// were fed, up to those that show a fault.
#[derive(Drop)]
pub struct Feed {
    /// The operations of the whole frames.
    ops: Vec<Op>,
    /// Where the reading stands after them.
    stream: Stream,
}

impl Model for Feed {
    ghost Value = { List ℕ };

    ghost view = { λ f. bytes_of f.stream.position f.ops.items f.stream.kept };

    ghost invariant = { λ f. IsCut f.stream.position f.ops.items f.stream.kept };
}

impl Feed {
    /// A feed that was fed nothing. It takes no memory.
    pub fn new(alloc: Global) -> Feed
        ensures { result ≡ [] }
    {
        Feed {
            ops: Vec::new(alloc),
            stream: Stream::new(),
        }
    }

    /// Reads on. Returns the first fault of all bytes so far, except a missing byte; such a
    /// fault stays. `Memory` changes nothing.
    /// Cost: O(n) of the piece, amortized; 20 bytes of memory an operation.
    pub fn feed(&mut self, piece: &[u8]) -> Result<(), CodecFault>
        ensures outcome { IsFeedOutcome self.old piece.now self.new result }
    {
        self.stream.feed(piece, &mut self.ops)
    }

    /// The operations of the whole frames so far, or of those before the faulty one.
    pub fn ops(&self) -> &[Op]
        ensures { IsWhole self.now result.now }
    {
        &self.ops
    }

    /// The operations of the file, or the first fault of all its bytes. It takes no memory.
    pub fn finish(self) -> Result<Vec<Op>, CodecFault>
        ensures ok { IfOk result (λ ops. Spells self ops.items) }
        ensures fault { IfErr result (TellsFault self) }
        ensures no_memory { IfErr result (λ fault. fault ≢ memory) }
    {
        match self.stream.finish() {
            Ok(()) => Ok(self.ops),
            Err(fault) => Err(fault),
        }
    }
}

//! Operation files that are read whole.

ghost use Rattle.std.specs.Prelude.{◌≡◌, ◌⊎◌, ℕ, List, None, IfOk, IfErr, IsErrOf, MatchResult};
ghost use Rattle.bg_types.specs.declared.op.OpView.{OpView as Operation};
ghost use Rattle.op_codec.specs.declared.fault.Cause.{Cause as CauseOf};
ghost use Rattle.op_codec.specs.Spelling.{Spells};
ghost use Rattle.op_codec.specs.Fault.{header_cause, IsFault, TellsFault};

use crate::fault::CodecFault;
use crate::feed::Feed;
use bg_types::Op;
use std::alloc::Global;

/// The operations that the bytes spell, or their first fault with its frame (docs/FORMATS.md).
/// Cost: O(n); 20 bytes of memory an operation.
pub fn decode_file(alloc: Global, bytes: &[u8]) -> Result<Vec<Op>, CodecFault>
    // What is read is what the bytes spell, and a fault is the first one.
    ensures ok { IfOk result (λ ops. Spells bytes.now ops.items) }
    ensures fault { IfErr result (TellsFault bytes.now) }
    // Memory is taken only after a right header.
    ensures memory { IsErrOf result CodecFault.Memory → header_cause bytes.now ≡ None }

    // What is spelled is read, and a fault is reported, unless memory runs out.
    ensures spelled { (ops : List Operation) → Spells bytes.now ops
        → MatchResult result (λ read. read.items ≡ ops) (λ fault. fault ≡ CodecFault.Memory) }
    ensures faulty { (frame : ℕ) (cause : CauseOf) → IsFault bytes.now frame cause
        → MatchResult result (λ _. ⊥)
        (λ fault. (fault ≡ CodecFault.Malformed frame cause) ⊎ (fault ≡ CodecFault.Memory)) }
{
    let mut feed = Feed::new(alloc);
    match feed.feed(bytes) {
        Ok(()) => feed.finish(),
        Err(fault) => Err(fault),
    }
}

//! Migrating an operation file to version 2.

ghost use Rattle.std.specs.Prelude.{◌≡◌, ◌⊎◌, ℕ, List, None, IfOk, IfErr, IsErrOf, MatchResult};
ghost use Rattle.bg_types.specs.declared.op.OpView.{OpView as Operation};
ghost use Rattle.op_codec.specs.declared.fault.Cause.{Cause as CauseOf};
ghost use Rattle.op_codec.specs.Spelling.{Spells, SpellsIn};
ghost use Rattle.op_codec.specs.Fault.{header_cause, IsFault, TellsFault};
ghost use Rattle.op_codec.specs.Migration.{IsMigration};

use crate::decode::decode_file;
use crate::encode_v2::encode_file_v2;
use crate::fault::CodecFault;
use crate::position::Version;
use std::alloc::Global;

/// The file of version 2 that spells the operations of the bytes, or the bytes' first fault with its
/// frame (docs/FORMATS.md). Besides the file it takes at most 20 bytes an operation.
/// Cost: O(n); 20 bytes of memory an operation, and the file.
pub fn migrate(alloc: Global, bytes: &[u8]) -> Result<Vec<u8>, CodecFault>
    ensures ok { IfOk result (λ migrated. IsMigration bytes.now migrated.items) }
    ensures fault { IfErr result (TellsFault bytes.now) }
    // Memory is taken only after a right header.
    ensures memory { IsErrOf result CodecFault.Memory → header_cause bytes.now ≡ None }

    // What is spelled is migrated, and a fault is reported, unless memory runs out.
    ensures spelled { (ops : List Operation) → Spells bytes.now ops
        → MatchResult result (λ migrated. SpellsIn Version.Two migrated.items ops) (λ fault. fault ≡ CodecFault.Memory) }
    ensures faulty { (frame : ℕ) (cause : CauseOf) → IsFault bytes.now frame cause
        → MatchResult result (λ _. ⊥)
        (λ fault. (fault ≡ CodecFault.Malformed frame cause) ⊎ (fault ≡ CodecFault.Memory)) }
{
    let ops = decode_file(alloc, bytes)?;
    Ok(encode_file_v2(alloc, &ops)?)
}

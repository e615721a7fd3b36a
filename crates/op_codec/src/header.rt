//! The header of an operation file.

ghost use Rattle.std.specs.Prelude.{◌≡◌, ◌++◌, Some, None, IfOk, MatchResult};
ghost use Rattle.op_codec.specs.Spelling.{header};
ghost use Rattle.op_codec.specs.Fault.{header_cause};

use crate::fault::Cause;
use crate::format::{HEADER_SIZE, MAGIC};
use crate::position::Version;

/// The version, and what follows the header.
pub fn read_header(bytes: &[u8]) -> Result<(Version, &[u8]), Cause>
    ensures ok { IfOk result (λ read. bytes.now ≡ header read.0 ++ read.1.now) }
    ensures fault { MatchResult result (λ _. header_cause bytes.now ≡ None)
        (λ cause. header_cause bytes.now ≡ Some cause) }
{
    let beginning = &bytes[..bytes.len().min(MAGIC.len())];
    if !MAGIC.starts_with(beginning) {
        return Err(Cause::BadMagic);
    }
    if bytes.len() <= MAGIC.len() {
        return Err(Cause::Truncated);
    }
    let rest = &bytes[HEADER_SIZE..];
    match bytes[MAGIC.len()] {
        1 => Ok((Version::One, rest)),
        2 => Ok((Version::Two, rest)),
        _ => Err(Cause::BadVersion),
    }
}

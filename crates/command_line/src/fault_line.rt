//! The line on standard error about a run that ended early.

ghost use Rattle.std.specs.Prelude.{◌≡◌, false, is_err};

use crate::ending::tell;
use crate::unread::CannotRead;
use bg_types::{Device, Sink};
use desk_files::RunFault;

/// The program's name in its lines.
pub const PROGRAM: &str = "bidigrid";

/// Writes the line about a fault, as `bidigrid: file 2 frame 1: Truncated`, without memory. The path
/// is that of the file that can't be read.
/// Cost: O(n).
pub fn report<S: Sink>(fault: &RunFault, path: &str, err: &mut S) -> Result<(), Device>
    requires { S.has_failed err.old ≡ false }
    ensures { S.has_failed err.new ≡ is_err result }
{
    match fault {
        RunFault::ReadFailed(_) => tell(PROGRAM, &CannotRead(path), err),
        fault => tell(PROGRAM, fault, err),
    }
}

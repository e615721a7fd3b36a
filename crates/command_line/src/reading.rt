//! Files: read whole, or opened to be read piece by piece.

ghost use Rattle.std.specs.Prelude.{◌≡◌, ◌<◌, ◌≤◌, ◌-◌, ◌^◌, IfOk, IfSome, IfNone, length, vec_len};
ghost use Rattle.command_line.specs.Given.{AreGiven};

use crate::opener::Opener;
use crate::unread::Unread;
use op_codec::LONGEST_FILE;
use std::alloc::Global;
use std::fs::File;
use std::io::{self, ErrorKind, Read};
use std::rt::Files;

/// All bytes that a reader gives, or `None` where there are more than the limit.
/// Cost: O(n), memory for what is read.
pub fn read_whole<F: Read + Drop>(alloc: Global, file: F, limit: u64) -> io::Result<Option<Vec<u8>>>
    requires { limit < 2 ^ 64 - 1 }
    ensures whole { IfOk result (λ read. IfSome read (λ bytes. IfSome (F.remaining file) (λ all. bytes.items ≡ all))) }
    ensures within { IfOk result (λ read. IfSome read (λ bytes. vec_len bytes ≤ limit)) }
    ensures longer { IfOk result (λ read. IfNone read (IfSome (F.remaining file) (λ all. limit < length all))) }
{
    let mut bytes = Vec::new(alloc);
    let count = file.take(limit + 1).read_to_end(&mut bytes)?;
    if count as u64 > limit {
        return Ok(None);
    }
    Ok(Some(bytes))
}

/// The bytes of a file that can be opened and read, and is not longer than the limit, or those of
/// standard input at `-`.
/// Cost: O(n), memory for the file.
pub fn read<O: Opener + AllocGlobal>(rt: &O, path: &str) -> Result<Vec<u8>, Unread>
    ensures given { IfOk result (λ bytes. AreGiven (O.gives rt.now path.now) bytes.items) }
    ensures within { IfOk result (λ bytes. vec_len bytes ≤ LONGEST_FILE) }
{
    let file = rt.open(path)?;
    match read_whole(rt.alloc(), file, LONGEST_FILE as u64) {
        Ok(Some(bytes)) => Ok(bytes),
        Err(error) if error.kind() == ErrorKind::OutOfMemory => Err(Unread::Memory),
        _ => Err(Unread::ReadFailed(String::from_str(rt.alloc(), path)?)),
    }
}

/// A file that can be opened, to be read from its front.
/// Cost: O(1); memory for the path, where it can't be opened.
pub fn open<R: Files + AllocGlobal>(rt: &R, path: &str) -> Result<R::File, Unread> {
    match File::open(rt, path) {
        Ok(file) => Ok(file),
        Err(error) if error.kind() == ErrorKind::OutOfMemory => Err(Unread::Memory),
        Err(_) => Err(Unread::ReadFailed(String::from_str(rt.alloc(), path)?)),
    }
}

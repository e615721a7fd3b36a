//! Bytes that a call writes to a buffer of C.

ghost use Rattle.c_answers.specs.Copying.{IsCopied};

use crate::fault::{OK, SHORT_BUFFER};

/// Copies bytes to the front of a buffer, if it has room for them, writes how many there are, and returns
/// what the call answers.
pub fn copy_out(bytes: &[u8], out: &mut [u8], size: &mut usize) -> u32
    ensures { IsCopied bytes.now out.old out.new size.new result }
{
    let count = bytes.len();
    *size = count;
    if out.len() < count {
        return SHORT_BUFFER;
    }
    out[..count].copy_from_slice(bytes);
    OK
}

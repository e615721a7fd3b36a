//! An environment that a test gives.

ghost use Rattle.std.specs.Io.{WritesAtMost};

use std::env::FillError;
use std::rt::Env;

/// The words of a command line, and the value of every variable, if one is given.
#[derive(Drop)]
pub struct Given<'a> {
    pub words: &'a [&'a [u8]],
    pub value: Option<&'a [u8]>,
}

impl Env for Given<'_> {
    fn arg(&self, i: usize, buf: &mut [u8]) -> Result<usize, FillError> {
        fill(buf, self.words.get(i).copied())
    }

    fn var(&self, _name: &str, buf: &mut [u8]) -> Result<usize, FillError> {
        fill(buf, self.value)
    }

    fn var_at(&self, _i: usize, _buf: &mut [u8]) -> Result<usize, FillError> {
        Err(FillError::NotPresent)
    }
}

fn fill(buf: &mut [u8], value: Option<&[u8]>) -> Result<usize, FillError>
    ensures { WritesAtMost result buf.new }
{
    let Some(value) = value else {
        return Err(FillError::NotPresent);
    };
    if value.len() > buf.len() {
        return Err(FillError::TooLong);
    }
    buf[..value.len()].copy_from_slice(value);
    Ok(value.len())
}

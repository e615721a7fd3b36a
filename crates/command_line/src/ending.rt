//! The end of a run: the help, what is wrong with the command line, and the line about a fault.

ghost use Rattle.std.specs.Prelude.{◌≡◌, false, is_err};
ghost use Rattle.std.specs.Io.KnownBytes.{Appends};
ghost use Rattle.bg_types.specs.Sink.{AppendsBeginning};
ghost use Rattle.command_line.specs.Ending.{status_of, help_of, IsReported};

use crate::stop::Stop;
use bg_types::{Device, Sink, put_all};
use std::fmt::{self, Display, Write as _};
use std::io;

/// The status of a wrong command line.
const USAGE: u8 = 2;

/// The status of lack of memory, and of a device that fails.
const LOST: u8 = 3;

/// Writes the line about a fault, as `bidigrid: memory`, without memory.
/// Cost: O(n).
pub fn tell<S: Sink, F: Display>(program: &str, fault: &F, err: &mut S) -> Result<(), Device>
    requires { S.has_failed err.old ≡ false }
    ensures { S.has_failed err.new ≡ is_err result }
{
    let mut text = Text(err);
    let _told_by_the_sink = writeln!(text, "{program}: {fault}");
    if err.failed() { Err(Device) } else { Ok(()) }
}

/// Lets a format be written to a sink, without memory.
#[derive(Drop)]
struct Text<'a, S>(&'a mut S);

impl<S: Sink> fmt::Write for Text<'_, S> {
    fn write_str(&mut self, text: &str) -> fmt::Result {
        if self.0.failed() {
            return Err(fmt::Error);
        }
        match put_all(self.0, text.as_bytes()) {
            Ok(()) => Ok(()),
            Err(Device) => Err(fmt::Error),
        }
    }
}

/// Ends a run that has nothing to do, and returns its status. The help goes to `out`, with status 0;
/// what is wrong with the command line to `err`, with status 2. Where memory is lacking, or the
/// help can't be written, `err` gets the line about it, and the status is 3. A failure of `err`
/// goes unreported: only the status shows it.
/// Cost: O(n).
pub fn end<O: Sink, E: Sink>(program: &str, stop: &Stop, out: &mut O, err: &mut E) -> u8
    requires out { O.has_failed out.old ≡ false }
    requires err { E.has_failed err.old ≡ false }
    ensures status { result ≡ status_of stop.now (O.has_failed out.new) }
    ensures out { O.has_failed out.new ≡ false → Appends (O.written out.old) (O.written out.new) (help_of stop.now) }
    ensures lost { AppendsBeginning (O.written out.old) (O.written out.new) (help_of stop.now) }
    ensures err { IsReported stop.now (O.has_failed out.new) (E.has_failed err.new) (E.written err.old) (E.written err.new) }
{
    match stop {
        Stop::Help(text) => match put_all(out, text.as_bytes()) {
            Ok(()) => 0,
            Err(Device) => {
                let _unheard = tell(program, &"device", err);
                LOST
            }
        },
        Stop::Usage(text) => {
            let _unheard = put_all(err, text.as_bytes());
            USAGE
        }
        Stop::Memory => {
            let _unheard = tell(program, &"memory", err);
            LOST
        }
    }
}

/// Flushes what a run wrote: a late failure of the device shows only here.
/// Cost: that of the writer.
pub fn flush<W: io::Write>(out: &mut W) -> Result<(), Device> {
    out.flush().map_err(|_| Device)
}

//! The end of a print, which is held until its sink takes it as one.

ghost use Rattle.std.specs.Prelude.{◌≡◌, ◌+◌, ◌≤◌, ◌++◌, [], false, length, replicate, encode_utf8, is_err, OnOk, OnErr};
ghost use Rattle.std.specs.Io.KnownBytes.{Appends};
ghost use Rattle.bg_types.specs.Sink.{AppendsBeginning};
ghost use Rattle.cell_grid.specs.Held.{AppendsAllBut};

use arrayvec::ArrayString;
use bg_types::{Device, Sink, put_all};

/// The last characters of a print, which its sink does not have yet.
pub(crate) type Held = ArrayString<256>;

/// As many spaces as are printed at once.
const SPACES: &str = "                                                                ";

/// Prints a text behind what is held.
pub(crate) fn hold_text<W: Sink>(text: &str, held: &mut Held, sink: &mut W) -> Result<(), Device>
    requires working { W.has_failed sink.old ≡ false }
    ensures ok { OnOk result (AppendsAllBut (W.written sink.old) (W.written sink.new) (held.old.bytes ++ text.now) held.new.bytes) }
    ensures err { OnErr result (AppendsBeginning (W.written sink.old) (W.written sink.new) (held.old.bytes ++ text.now)) }
    ensures failed { W.has_failed sink.new ≡ is_err result }
{
    if text.len() <= held.remaining_capacity() {
        held.push_str(text);
        return Ok(());
    }
    let_go(held, sink)?;
    put_all(sink, text.as_bytes())
}

/// Prints a character behind what is held.
pub(crate) fn hold_char<W: Sink>(c: char, held: &mut Held, sink: &mut W) -> Result<(), Device>
    requires working { W.has_failed sink.old ≡ false }
    ensures ok { OnOk result (AppendsAllBut (W.written sink.old) (W.written sink.new) (held.old.bytes ++ encode_utf8 c) held.new.bytes) }
    ensures err { OnErr result (AppendsBeginning (W.written sink.old) (W.written sink.new) (held.old.bytes ++ encode_utf8 c)) }
    ensures failed { W.has_failed sink.new ≡ is_err result }
{
    make_room(held, sink)?;
    held.push(c);
    Ok(())
}

/// Writes what is held, if a character might not fit behind it.
fn make_room<W: Sink>(held: &mut Held, sink: &mut W) -> Result<(), Device>
    requires working { W.has_failed sink.old ≡ false }
    ensures room { OnOk result (length held.new.bytes + 4 ≤ 256) }
    ensures ok { OnOk result (AppendsAllBut (W.written sink.old) (W.written sink.new) held.old.bytes held.new.bytes) }
    ensures err { OnErr result (AppendsBeginning (W.written sink.old) (W.written sink.new) held.old.bytes) }
    ensures failed { W.has_failed sink.new ≡ is_err result }
{
    if held.remaining_capacity() >= 4 {
        return Ok(());
    }
    let_go(held, sink)
}

/// Prints so many spaces behind what is held.
pub(crate) fn hold_spaces<W: Sink>(
    columns: u16,
    held: &mut Held,
    sink: &mut W,
) -> Result<(), Device>
    requires working { W.has_failed sink.old ≡ false }
    ensures ok { OnOk result (AppendsAllBut (W.written sink.old) (W.written sink.new) (held.old.bytes ++ replicate columns 32) held.new.bytes) }
    ensures err { OnErr result (AppendsBeginning (W.written sink.old) (W.written sink.new) (held.old.bytes ++ replicate columns 32)) }
    ensures failed { W.has_failed sink.new ≡ is_err result }
{
    let mut left = columns as usize;
    while left > 0 {
        let count = left.min(SPACES.len());
        hold_text(&SPACES[..count], held, sink)?;
        left -= count;
    }
    Ok(())
}

/// Writes what is held.
pub(crate) fn let_go<W: Sink>(held: &mut Held, sink: &mut W) -> Result<(), Device>
    requires working { W.has_failed sink.old ≡ false }
    ensures empty { held.new.bytes ≡ [] }
    ensures ok { OnOk result (Appends (W.written sink.old) (W.written sink.new) held.old.bytes) }
    ensures err { OnErr result (AppendsBeginning (W.written sink.old) (W.written sink.new) held.old.bytes) }
    ensures failed { W.has_failed sink.new ≡ is_err result }
{
    let done = put_all(sink, held.as_str().as_bytes());
    held.clear();
    done
}

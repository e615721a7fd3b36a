//! What a text prints.

ghost use Rattle.std.specs.Prelude.{◌≡◌, false, is_err, OnOk, OnErr};
ghost use Rattle.std.specs.Io.KnownBytes.{Appends};
ghost use Rattle.std.specs.List.{flat_map};
ghost use Rattle.std.specs.Rc.{rc_slice_items};
ghost use Rattle.bg_types.specs.Sink.{AppendsBeginning};

use bg_types::{Device, Sink, put_all};
use std::marker::Model;
use std::rc::RcSlice;

/// What a text prints, in parts that it shares with the view that made it. It borrows nothing.
pub struct Print {
    parts: Vec<RcSlice<u8>>,
}

impl Model for Print {
    ghost use Rattle.std.specs.Prelude.{ℕ, List};
    ghost use Rattle.std.specs.List.{flat_map};
    ghost use Rattle.std.specs.Rc.{rc_slice_items};

    ghost Value = { List ℕ };

    ghost view = { λ p. flat_map rc_slice_items p.parts.items };
}

// Written out: a crate above then proves the call, and nothing of the parts.
impl Drop for Print {
    fn drop(self) {
        let Print { parts: _ } = self;
    }
}

impl Print {
    /// The print that these are the parts of, in order.
    pub(crate) fn of(parts: Vec<RcSlice<u8>>) -> Print
        ensures { result ≡ flat_map rc_slice_items parts.items }
    {
        Print { parts }
    }

    /// Writes it. Takes no memory.
    ///
    /// After `Device` a beginning of it is written.
    /// Cost: O(n) of its paragraphs, and that of the writer.
    pub fn write<W: Sink>(&self, sink: &mut W) -> Result<(), Device>
        requires working { W.has_failed sink.old ≡ false }
        ensures ok { OnOk result (Appends (W.written sink.old) (W.written sink.new) self.now) }
        ensures err { OnErr result (AppendsBeginning (W.written sink.old) (W.written sink.new) self.now) }
        ensures failed { W.has_failed sink.new ≡ is_err result }
    {
        put_each(&self.parts, sink)
    }
}

/// Writes all parts in order, or a beginning of what they are together.
fn put_each<W: Sink>(parts: &[RcSlice<u8>], sink: &mut W) -> Result<(), Device>
    requires working { W.has_failed sink.old ≡ false }
    ensures ok { OnOk result (Appends (W.written sink.old) (W.written sink.new) (flat_map rc_slice_items parts.now)) }
    ensures err { OnErr result (AppendsBeginning (W.written sink.old) (W.written sink.new) (flat_map rc_slice_items parts.now)) }
    ensures failed { W.has_failed sink.new ≡ is_err result }
{
    for part in parts {
        put_all(sink, part.as_slice())?;
    }
    Ok(())
}

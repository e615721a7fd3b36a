//! Desks: typing, taking what another desk made, and meeting.

ghost use Rattle.std.specs.Prelude.{◌≡◌, ◌<◌, ◌++◌, length, IfOk, IfErr, OnOk, OnErr, string_bytes, encode_utf8_all};
ghost use Rattle.std.specs.Str.{chars};
ghost use Rattle.rga_tree.specs.TextOf.{text};
ghost use Rattle.desk_replica.specs.Desk.{fresh};
ghost use Rattle.desk_replica.specs.Merging.{with_operations};
ghost use Rattle.desk_replica.specs.Replacement.{IsTextRefused};
ghost use Rattle.desk_replica.specs.declared.answer.TypeFault.{TypeFault as Untyped};
ghost use Rattle.bg_types.specs.OperationSet.{union};
ghost use Rattle.calling.specs.declared.fault.Fault.TheVariants.{«Type» as type_fault};
ghost use Rattle.calling.specs.Made.{words_made};

use crate::fault::Fault;
use bg_types::Op;
use desk_replica::{Replica, laws};
use rga_runs::Runs;
use rga_tree::Fresh;
use std::alloc::Global;

/// A desk over the sequence in stretches, the small one.
pub type Desk = Replica<Runs>;

/// A desk of this site (at least 1) without operations. No two desks of one text may have the same site.
pub fn new_desk(alloc: Global, site: u16, key: u128) -> Desk
    requires { 0 < site }
    ensures { result ≡ fresh site }
{
    Replica::new(alloc, site, Runs::fresh(alloc, key), key)
}

/// Types words at the end of a desk's text, each character behind the one before, and appends the
/// operations that this makes to `made`, to be sent to the other desks. A fault changes nothing.
pub fn type_words(desk: &mut Desk, words: &str, made: &mut Vec<Op>) -> Result<(), Fault>
    ensures made { OnOk result (made.new.items ≡ made.old.items ++ words_made desk.old (chars words.now)) }
    ensures ok { OnOk result (desk.new.set ≡ with_operations desk.old.set (words_made desk.old (chars words.now))) }
    ensures typed { OnOk result (text desk.new.set ≡ text desk.old.set ++ chars words.now) }
    ensures fault { IfErr result (λ fault. (why : Untyped) × (fault ≡ type_fault why) × IsTextRefused desk.old.set (length (chars words.now)) why) }
    ensures err { OnErr result (desk.new ≡ desk.old) }
    ensures unmade { OnErr result (made.new.items ≡ made.old.items) }
    ensures site { desk.new.site ≡ desk.old.site }
{
    desk.type_text(desk.len(), words, made)?;
    Ok(())
}

/// Lets a desk take operations, in whatever order and however often they came.
pub fn take_all(desk: &mut Desk, ops: &[Op]) -> Result<(), Fault>
    ensures { OnOk result (desk.new.set ≡ with_operations desk.old.set ops.now) }
{
    match desk.take_all(ops) {
        Ok(()) => Ok(()),
        Err(stop) => Err(Fault::Take(stop.fault)),
    }
}

/// Lets two desks meet: each takes all that the other has. Then both have what either had, so
/// they show the same text.
pub fn meet(one: &mut Desk, other: &mut Desk) -> Result<(), Fault>
    ensures all { OnOk result (one.new.set ≡ union one.old.set other.old.set) }
    ensures same { OnOk result (one.new.set ≡ other.new.set) }
{
    laws::union_law();
    one.merge(other)?;
    other.merge(one)?;
    Ok(())
}

/// A desk's text.
pub fn read_text(desk: &Desk) -> Result<String, Fault>
    ensures { IfOk result (λ t. string_bytes t ≡ encode_utf8_all (text desk.now.set)) }
{
    let text = desk.text()?;
    Ok(text)
}

//! A desk of a run.

ghost use Rattle.std.specs.Prelude.{◌≡◌, ◌<◌, ◌≤◌, IfOk, length, string_bytes, encode_utf8_all};
ghost use Rattle.desk_replica.specs.Desk.{fresh};
ghost use Rattle.rga_tree.specs.TextOf.{text};

use bg_types::Memory;
use desk_replica::Replica;
use rga_runs::Runs;
use rga_tree::Fresh;
use std::alloc::Global;

/// The sequence of the desks of a run: no other place names it.
pub type Elements = Runs;

/// A desk of a run.
pub type Desk = Replica<Elements>;

/// A desk of this site (at least 1) without operations.
pub fn new_desk(alloc: Global, site: u16, key: u128) -> Desk
    requires { 0 < site }
    ensures { result ≡ fresh site }
{
    Replica::new(alloc, site, Elements::fresh(alloc, key), key)
}

/// Lets a desk go. Who owns one calls this at its one way out: what it takes to drop a desk is then proved here alone.
/// Cost: O(n).
pub fn let_go(_desk: Desk) {}

/// A desk's text. It has at most 1,000,000 characters, of at most 4 bytes each.
/// Cost: O(n), memory for the text.
pub fn read_text(desk: &Desk) -> Result<String, Memory>
    ensures value { IfOk result (λ t. string_bytes t ≡ encode_utf8_all (text desk.now.set)) }
    ensures size { IfOk result (λ t. length (string_bytes t) ≤ 4_000_000) }
{
    desk.text()
}

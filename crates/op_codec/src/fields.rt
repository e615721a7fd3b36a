//! The fields of frames.

ghost use Rattle.std.specs.Prelude.{◌≡◌, ◌≤◌, length, drop, is_some, not, IfSome, IfOk, Some, None, MatchResult, nat_le, false};
ghost use Rattle.bg_types.specs.WellFormed.{MayFollow};
ghost use Rattle.op_codec.specs.Spelling.{parent_identifier};
ghost use Rattle.op_codec.specs.Fault.{identifier_at, has_zero, is_half_zero, numbers_cause};

use crate::fault::Cause;
use bg_types::{Id, Op, Place};
use byteorder::{BigEndian, ByteOrder};

/// The identifier and the parent of an insertion.
#[inline(always)]
pub fn read_numbers(fields: &[u8]) -> Result<(Id, Place), Cause>
    requires { 12 ≤ length fields.now }
    ensures id { IfOk result (λ numbers. numbers.0 ≡ identifier_at fields.now) }
    ensures parent { IfOk result (λ numbers. parent_identifier numbers.1 ≡ identifier_at (drop 6 fields.now)) }
    ensures follows { IfOk result (λ numbers. MayFollow numbers.1 numbers.0) }
    ensures fault { MatchResult result (λ _. numbers_cause fields.now ≡ None)
        (λ cause. numbers_cause fields.now ≡ Some cause) }
{
    let (Some(id), Some(parent)) = (read_id(fields), read_place(&fields[6..])) else {
        return Err(Cause::ZeroField);
    };
    if is_late(&parent, id) {
        return Err(Cause::ParentNotBefore);
    }
    Ok((id, parent))
}

/// Whether an insertion with this identifier may not have this parent.
fn is_late(parent: &Place, id: Id) -> bool
    ensures late { result ≡ nat_le id.counter (parent_identifier parent.now).counter }
    ensures follows { result ≡ false → MayFollow parent.now id }
{
    let counter = id.counter();
    match parent {
        Place::Root => counter == 0,
        Place::After(before) => counter <= before.counter(),
    }
}

pub fn read_id(bytes: &[u8]) -> Option<Id>
    requires { 6 ≤ length bytes.now }
    ensures zero { is_some result ≡ not (has_zero (identifier_at bytes.now)) }
    ensures value { IfSome result (λ id. id ≡ identifier_at bytes.now) }
{
    Id::new(BigEndian::read_u32(bytes), BigEndian::read_u16(&bytes[4..]))
}

/// A parent, whose two numbers are 0 for the root.
pub fn read_place(bytes: &[u8]) -> Option<Place>
    requires { 6 ≤ length bytes.now }
    ensures zero { is_some result ≡ not (is_half_zero (identifier_at bytes.now)) }
    ensures value { IfSome result (λ place. parent_identifier place ≡ identifier_at bytes.now) }
{
    if let Some(before) = read_id(bytes) {
        return Some(Place::After(before));
    }
    match (BigEndian::read_u32(bytes), BigEndian::read_u16(&bytes[4..])) {
        (0, 0) => Some(Place::Root),
        _ => None,
    }
}

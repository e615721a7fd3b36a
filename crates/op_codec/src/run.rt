//! Runs of insertions: reading one, and what it stands for.

ghost use Rattle.std.specs.Prelude.{◌≡◌, ◌<◌, ◌≤◌, ◌+◌, ◌-◌, ◌*◌, ◌^◌, ◌++◌, [], length, take, drop, Some, None, IfOk, IfErr, OnOk, cond, nat_lt, false};
ghost use Rattle.std.specs.List.{AllByRecursion, list_all};
ghost use Rattle.std.specs.Char.{IsScalar};
ghost use Rattle.std.proofs.Math.Utf8.{scalar};
ghost use Rattle.byteorder.specs.Endian.{big_number};
ghost use Rattle.bg_types.specs.WellFormed.{IsWellFormed};
ghost use Rattle.op_codec.specs.Spelling.{frame_fields, frame_ops, further_ops, followers, last_id, joins as joins_tip, tip, most_insertions};
ghost use Rattle.op_codec.specs.Frames.{IsFrame, MayGoOn};
ghost use Rattle.op_codec.specs.Fault.{characters_in, run_cause, is_run_length as has_run_length};
ghost use Rattle.op_codec.specs.Feed.{IsNext};

use crate::encode::parent_numbers;
use crate::fault::Cause;
use crate::fields::read_numbers;
use crate::format::CHARACTER_SIZE;
use crate::position::Position;
use bg_types::{Id, Memory, Op, OpView, Place};
use byteorder::{BigEndian, ByteOrder};

/// Whether an operation joins the insertion with this identifier.
pub fn joins(tip: &Option<Id>, op: &Op) -> bool
    ensures { result ≡ joins_tip tip.now op.now }
{
    let Some(before) = tip else {
        return false;
    };
    match op.view() {
        OpView::Insert { id, parent, .. } => {
            let (counter, site) = parent_numbers(&parent);
            counter == before.counter()
                && site == before.site()
                && id.site() == before.site()
                && u64::from(id.counter()) == u64::from(before.counter()) + 1
        }
        OpView::Erase { .. } => false,
    }
}

/// The identifier of an insertion.
pub fn inserted(op: &Op) -> Option<Id>
    ensures id { result ≡ last_id op.now [] }
    // What every operation is, for the caller's proof.
    ensures well_formed { IsWellFormed op.now }
{
    match op.view() {
        OpView::Insert { id, .. } => Some(id),
        OpView::Erase { .. } => None,
    }
}

/// Whether a frame of this length has a run of 2 to 1,024 insertions.
pub fn is_run_length(size: u16) -> bool
    ensures { result ≡ has_run_length size }
{
    let count = size.saturating_sub(13) / 4;
    (2..=1_024).contains(&count) && 13 + 4 * count == size
}

/// The first insertion of a run.
pub fn read_run(fields: &[u8]) -> Result<Op, Cause>
    requires { 20 ≤ length fields.now }
    ensures fields { IfOk result (λ op. fields.now ≡ frame_fields op ++ drop 16 fields.now) }
    ensures well_formed { IfOk result IsWellFormed }
    ensures goes_on { IfOk result (λ op. MayGoOn op (characters_in (drop 16 fields.now))) }
    ensures scalars { OnOk result (AllByRecursion IsScalar (characters_in (drop 16 fields.now))) }
    ensures err { IfErr result (λ cause. run_cause fields.now ≡ Some cause) }
{
    let (id, parent) = read_numbers(fields)?;
    let chars = &fields[12..];
    if u64::from(id.counter()) + (chars.len() / CHARACTER_SIZE) as u64 > 1 << 32 {
        return Err(Cause::CounterOverflow);
    }
    if !are_scalars(chars) {
        return Err(Cause::NotAScalar);
    }
    Ok(Op::insert(id, parent, read_char(chars)).unwrap())
}

/// The character in the four bytes at the front.
fn read_char(bytes: &[u8]) -> char
    requires long { 4 ≤ length bytes.now }
    requires scalar { IsScalar (big_number 4 bytes.now) }
    ensures { result ≡ big_number 4 bytes.now }
{
    char::from_u32(BigEndian::read_u32(bytes)).unwrap()
}

/// Whether the bytes, four for each, are all characters.
fn are_scalars(bytes: &[u8]) -> bool
    ensures { result ≡ list_all scalar (characters_in bytes.now) }
{
    let mut rest = bytes;
    while rest.len() >= CHARACTER_SIZE {
        if char::from_u32(BigEndian::read_u32(rest)).is_none() {
            return false;
        }
        rest = &rest[CHARACTER_SIZE..];
    }
    true
}

/// Appends the operations of a frame, and moves the position after it. Where memory
/// is refused, the operations have only grown.
#[inline(always)]
pub fn push_frame(
    ops: &mut Vec<Op>,
    at: &mut Position,
    first: &Op,
    further: &[u8],
) -> Result<(), Memory>
    requires is_frame { IsFrame (most_insertions at.old.version) (record { first = first.now; further = characters_in further.now }) }
    requires counted { at.old.frames < 2 ^ 64 - 1 }
    ensures next { OnOk result (IsNext at.old at.new (record { first = first.now; further = characters_in further.now })) }
    ensures ops { OnOk result (ops.new.items ≡ ops.old.items ++ frame_ops (record { first = first.now; further = characters_in further.now })) }
    ensures grown { take (length ops.old.items) ops.new.items ≡ ops.old.items }
{
    if further.is_empty() {
        ops.push(*first)?;
        at.frames += 1;
        at.tip = open_tip(1, at.version.most_insertions(), inserted(first));
        return Ok(());
    }
    push_run(ops, at, first, further)
}

/// Appends the operations of a frame of any length, in one growth.
#[inline(never)]
fn push_run(ops: &mut Vec<Op>, at: &mut Position, first: &Op, further: &[u8]) -> Result<(), Memory>
    requires is_frame { IsFrame (most_insertions at.old.version) (record { first = first.now; further = characters_in further.now }) }
    requires counted { at.old.frames < 2 ^ 64 - 1 }
    ensures next { OnOk result (IsNext at.old at.new (record { first = first.now; further = characters_in further.now })) }
    ensures ops { OnOk result (ops.new.items ≡ ops.old.items ++ frame_ops (record { first = first.now; further = characters_in further.now })) }
    ensures grown { take (length ops.old.items) ops.new.items ≡ ops.old.items }
{
    let count = further.len() / CHARACTER_SIZE + 1;
    ops.reserve(count)?;
    ops.push(*first)?;
    let last = push_further(ops, first, further)?;
    at.frames += 1;
    at.tip = open_tip(count, at.version.most_insertions(), last);
    Ok(())
}

/// The last identifier of a run of `count` insertions, if it has room for more.
fn open_tip(count: usize, most: usize, last: Option<Id>) -> Option<Id>
    ensures { result ≡ cond (nat_lt count most) last None }
{
    if count < most { last } else { None }
}

/// Appends the further insertions of a run, and returns the last identifier.
fn push_further(ops: &mut Vec<Op>, first: &Op, further: &[u8]) -> Result<Option<Id>, Memory>
    requires goes_on { MayGoOn first.now (characters_in further.now) }
    requires scalars { AllByRecursion IsScalar (characters_in further.now) }
    ensures last { IfOk result (λ last. last ≡ last_id first.now (characters_in further.now)) }
    ensures ops { OnOk result (ops.new.items ≡ ops.old.items ++ further_ops first.now (characters_in further.now)) }
    ensures grown { take (length ops.old.items) ops.new.items ≡ ops.old.items }
{
    match first.view() {
        OpView::Insert { id, .. } => {
            let last = push_followers(ops, id, further)?;
            Ok(Some(last))
        }
        OpView::Erase { .. } => Ok(None),
    }
}

/// Appends insertions of these characters, each after the one before, and returns the last identifier.
fn push_followers(ops: &mut Vec<Op>, id: Id, further: &[u8]) -> Result<Id, Memory>
    requires fits { id.counter + length (characters_in further.now) < 2 ^ 32 }
    requires scalars { AllByRecursion IsScalar (characters_in further.now) }
    ensures counter { IfOk result (λ last. last.counter ≡ id.counter + length (characters_in further.now)) }
    ensures site { IfOk result (λ last. last.site ≡ id.site) }
    ensures ops { OnOk result (ops.new.items ≡ ops.old.items ++ followers id (characters_in further.now)) }
    ensures grown { take (length ops.old.items) ops.new.items ≡ ops.old.items }
{
    let mut last = id;
    let mut rest = further;
    while rest.len() >= CHARACTER_SIZE {
        let next = Id::new(last.counter() + 1, last.site()).unwrap();
        let ch = read_char(rest);
        ops.push(Op::insert(next, Place::After(last), ch).unwrap())?;
        last = next;
        rest = &rest[CHARACTER_SIZE..];
    }
    Ok(last)
}

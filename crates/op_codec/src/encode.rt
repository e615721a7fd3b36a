//! Writing one frame, and a whole operation file.

ghost use Rattle.std.specs.Prelude.{◌≡◌, ◌≤◌, ◌+◌, ◌-◌, ◌^◌, ◌++◌, ◌∷◌, [], min, length, drop, OnOk, OnErr, IsOk, IfOk, vec_len};
ghost use Rattle.std.specs.Vec.{vec_capacity};
ghost use Rattle.bg_types.specs.WellFormed.{IsWellFormed};
ghost use Rattle.op_codec.specs.Spelling.{frame, spelling, SpellsIn, parent_identifier, identifier_bytes};

use crate::format::{
    ERASURE, ERASURE_FILE_SIZE, ERASURE_LENGTH, ERASURE_SIZE, HEADER_SIZE, INSERTION,
    INSERTION_FILE_SIZE, INSERTION_LENGTH, INSERTION_SIZE, MAGIC,
};
use crate::position::Version;
use bg_types::{Id, Memory, Op, OpView, Place};
use byteorder::{BigEndian, ByteOrder};
use std::alloc::Global;

/// Appends an operation's frame (docs/FORMATS.md): 19 bytes for an insertion, 9 for a
/// deletion. `Memory` leaves `out` as it was.
/// Cost: O(1) amortized, memory for the frame.
#[inline(always)]
pub fn encode_op(op: &Op, out: &mut Vec<u8>) -> Result<(), Memory>
    ensures ok { OnOk result (out.new.items ≡ out.old.items ++ frame op.now) }
    ensures err { OnErr result (out.new.items ≡ out.old.items) }
    // It fails only where room is missing, and never gives room back.
    ensures room { vec_len out.old + length (frame op.now) ≤ vec_capacity out.old → IsOk result }
    ensures capacity { vec_capacity out.old ≤ vec_capacity out.new }
    // What is true of every operation, for the caller's proof.
    ensures well_formed { IsWellFormed op.now }
{
    match op.view() {
        OpView::Insert { id, parent, ch } => {
            out.extend_from_slice(&insertion_frame(id, &parent, ch))?;
        }
        OpView::Erase { target } => out.extend_from_slice(&erasure_frame(target))?,
    }
    Ok(())
}

/// Writes the file of one operation, in version 1 (docs/FORMATS.md), to the front of `out`, and returns how many bytes it
/// has: 24 of an insertion, 14 of a deletion. Takes no memory.
pub fn encode_one(op: &Op, out: &mut [u8]) -> usize
    requires room { length (spelling (op.now ∷ [])) ≤ length out.old }
    ensures written { out.new ≡ spelling (op.now ∷ []) ++ drop (length (spelling (op.now ∷ []))) out.old }
    ensures size { result ≡ length (spelling (op.now ∷ [])) }
{
    out[..MAGIC.len()].copy_from_slice(&MAGIC);
    out[MAGIC.len()] = Version::One.number();
    match op.view() {
        OpView::Insert { id, parent, ch } => {
            let frame = insertion_frame(id, &parent, ch);
            out[HEADER_SIZE..INSERTION_FILE_SIZE].copy_from_slice(&frame);
            INSERTION_FILE_SIZE
        }
        OpView::Erase { target } => {
            out[HEADER_SIZE..ERASURE_FILE_SIZE].copy_from_slice(&erasure_frame(target));
            ERASURE_FILE_SIZE
        }
    }
}

/// The file of the operations, in version 1 (docs/FORMATS.md). Memory is taken once.
/// Cost: O(n); memory for exactly the file, in one growth.
pub fn encode_file(alloc: Global, ops: &[Op]) -> Result<Vec<u8>, Memory>
    ensures spelled { IfOk result (λ file. SpellsIn Version.One file.items ops.now) }
    ensures frames { IfOk result (λ file. file.items ≡ spelling ops.now) }
{
    let mut file = Vec::with_capacity(alloc, file_size(ops))?;
    // The whole file has room, so nothing below grows it.
    file.extend_from_slice(&MAGIC).unwrap();
    file.push(Version::One.number()).unwrap();
    for op in ops {
        encode_op(op, &mut file).unwrap();
    }
    Ok(file)
}

/// How many bytes the file of the operations has, or `usize::MAX` if it has more.
fn file_size(ops: &[Op]) -> usize
    ensures { result ≡ min (length (spelling ops.now)) (2 ^ 64 - 1) }
{
    let mut size = HEADER_SIZE;
    for op in ops {
        size = size.saturating_add(frame_size(op));
    }
    size
}

pub fn frame_size(op: &Op) -> usize
    ensures { result ≡ length (frame op.now) }
{
    match op.view() {
        OpView::Insert { .. } => INSERTION_SIZE,
        OpView::Erase { .. } => ERASURE_SIZE,
    }
}

pub fn insertion_frame(id: Id, parent: &Place, ch: char) -> [u8; INSERTION_SIZE]
    ensures { result ≡ frame (OpView.Insert id parent.now ch) }
{
    let mut frame = [0; INSERTION_SIZE];
    let (counter, site) = parent_numbers(parent);
    BigEndian::write_u16(&mut frame, INSERTION_LENGTH);
    frame[2] = INSERTION;
    write_numbers(&mut frame[3..], id.counter(), id.site());
    write_numbers(&mut frame[9..], counter, site);
    BigEndian::write_u32(&mut frame[15..], u32::from(ch));
    frame
}

fn erasure_frame(target: Id) -> [u8; ERASURE_SIZE]
    ensures { result ≡ frame (OpView.Erase target) }
{
    let mut frame = [0; ERASURE_SIZE];
    BigEndian::write_u16(&mut frame, ERASURE_LENGTH);
    frame[2] = ERASURE;
    write_numbers(&mut frame[3..], target.counter(), target.site());
    frame
}

/// Writes an identifier, or the root's two zeros, at the front.
fn write_numbers(out: &mut [u8], counter: u32, site: u16)
    requires { 6 ≤ length out.old }
    ensures { out.new ≡ identifier_bytes (record { counter = counter; site = site }) ++ drop 6 out.old }
{
    BigEndian::write_u32(out, counter);
    BigEndian::write_u16(&mut out[4..], site);
}

/// A parent's counter and site, both 0 for the root.
pub fn parent_numbers(parent: &Place) -> (u32, u16)
    ensures counter { result.0 ≡ (parent_identifier parent.now).counter }
    ensures site { result.1 ≡ (parent_identifier parent.now).site }
{
    match parent {
        Place::Root => (0, 0),
        Place::After(id) => (id.counter(), id.site()),
    }
}

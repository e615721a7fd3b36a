//! Writing a whole operation file of version 2.

ghost use Rattle.std.specs.Prelude.{◌≡◌, ◌≤◌, ◌+◌, ◌-◌, ◌*◌, ◌^◌, ◌++◌, min, length, OnOk, IsOk, IfOk, vec_len};
ghost use Rattle.std.specs.Vec.{vec_capacity};
ghost use Rattle.std.specs.List.{flat_map};
ghost use Rattle.byteorder.specs.Endian.{big_bytes};
ghost use Rattle.op_codec.specs.Spelling.{frame_bytes, spelling_in, SpellsIn};
ghost use Rattle.op_codec.specs.Frames.{IsFrame};
ghost use Rattle.op_codec.specs.Gathering.{inserted_characters};

use crate::encode::{encode_op, frame_size, insertion_frame};
use crate::format::{CHARACTER_SIZE, HEADER_SIZE, INSERTION_LENGTH, MAGIC, RUN};
use crate::gather::gather;
use crate::position::Version;
use bg_types::{Memory, Op, OpView};
use byteorder::{BigEndian, ByteOrder};
use std::alloc::Global;

/// The file of the operations, in version 2 (docs/FORMATS.md): what was typed in one go is a frame of
/// four bytes a character, plus fifteen. Memory is taken once.
/// Cost: O(n); memory for exactly the file, in one growth.
pub fn encode_file_v2(alloc: Global, ops: &[Op]) -> Result<Vec<u8>, Memory>
    ensures spelled { IfOk result (λ file. SpellsIn Version.Two file.items ops.now) }
{
    let mut file = Vec::with_capacity(alloc, file_size(ops))?;
    // The whole file has room, so nothing below grows it.
    file.extend_from_slice(&MAGIC).unwrap();
    file.push(Version::Two.number()).unwrap();
    let mut rest = ops;
    while let Some(next) = gather(rest) {
        write_frame(&next.first, next.further, &mut file).unwrap();
        rest = next.rest;
    }
    Ok(file)
}

/// How many bytes the file of the operations has in version 2, or `usize::MAX` where it has more.
fn file_size(ops: &[Op]) -> usize
    ensures { result ≡ min (length (spelling_in Version.Two ops.now)) (2 ^ 64 - 1) }
{
    let mut size = HEADER_SIZE;
    let mut rest = ops;
    while let Some(next) = gather(rest) {
        size = size.saturating_add(frame_size(&next.first) + CHARACTER_SIZE * next.further.len());
        rest = next.rest;
    }
    size
}

/// Appends the frame of an operation and a run's further insertions.
fn write_frame(first: &Op, further: &[Op], out: &mut Vec<u8>) -> Result<(), Memory>
    requires is_frame { IsFrame 1024 (record { first = first.now; further = inserted_characters further.now }) }
    requires insertions { length (inserted_characters further.now) ≡ length further.now }
    ensures ok { OnOk result (out.new.items ≡ out.old.items ++ frame_bytes (record { first = first.now; further = inserted_characters further.now })) }
    // It fails only where room was missing, and never gives room back.
    ensures room { vec_len out.old + length (frame_bytes (record { first = first.now; further = inserted_characters further.now })) ≤ vec_capacity out.old → IsOk result }
    ensures capacity { vec_capacity out.old ≤ vec_capacity out.new }
{
    match first.view() {
        OpView::Insert { id, parent, ch } if !further.is_empty() => {
            let mut front = insertion_frame(id, &parent, ch);
            let length = INSERTION_LENGTH + 4 * further.len() as u16;
            BigEndian::write_u16(&mut front, length);
            front[2] = RUN;
            out.extend_from_slice(&front)?;
            write_characters(further, out)?;
        }
        _ => encode_op(first, out)?,
    }
    Ok(())
}

/// Appends the characters of the insertions.
fn write_characters(ops: &[Op], out: &mut Vec<u8>) -> Result<(), Memory>
    ensures ok { OnOk result (out.new.items ≡ out.old.items ++ flat_map (big_bytes 4) (inserted_characters ops.now)) }
    // It fails only where room was missing, and never gives room back.
    ensures room { vec_len out.old + 4 * length (inserted_characters ops.now) ≤ vec_capacity out.old → IsOk result }
    ensures capacity { vec_capacity out.old ≤ vec_capacity out.new }
{
    for op in ops {
        match op.view() {
            OpView::Insert { ch, .. } => {
                let mut bytes = [0; CHARACTER_SIZE];
                BigEndian::write_u32(&mut bytes, u32::from(ch));
                out.extend_from_slice(&bytes)?;
            }
            OpView::Erase { .. } => {}
        }
    }
    Ok(())
}

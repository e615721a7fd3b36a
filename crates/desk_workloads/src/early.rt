//! Operations that reach a live desk in a bad order, and desks that meet.

use crate::chance::Chance;
use crate::desk::{Desk, desk_of};
use crate::digest::Digest;
use crate::history::{operations, written};
use anyhow::Result;
use bg_types::Op;
use desk_replica::Taken;
use std::alloc::Global;

/// How many operations each text has.
const COUNT: usize = 400_000;

/// The streams of chance that the texts and the order are made of: one in random order, that order, and the one in
/// halves.
const STREAMS: [[u32; 3]; 2] = [[4, 5, 6], [24, 25, 26]];

/// Does this with two times two texts.
pub fn early(alloc: Global, seed: u32, share: usize, digest: &mut Digest) -> Result<()> {
    for streams in &STREAMS {
        take_two(alloc, seed, streams, COUNT / share.max(1), digest)?;
    }
    Ok(())
}

/// A desk takes operations in random order. Two others take a half each, the later one from the back, and then
/// they meet.
fn take_two(
    alloc: Global,
    seed: u32,
    streams: &[u32; 3],
    count: usize,
    digest: &mut Digest,
) -> Result<()> {
    let mut desk = desk_of(alloc, 5);
    let mut one = desk_of(alloc, 5);
    let mut other = desk_of(alloc, 6);
    let done = take_shuffled(alloc, seed, streams, count, &mut desk, digest);
    let met = take_halves(alloc, seed, streams[2], count, &mut one, &mut other, digest);
    done.and(met)
}

/// A desk takes the operations of a text in random order.
fn take_shuffled(
    alloc: Global,
    seed: u32,
    streams: &[u32; 3],
    count: usize,
    desk: &mut Desk,
    digest: &mut Digest,
) -> Result<()> {
    let made = written(alloc, seed, streams[0], count)?;
    let mut ops = operations(alloc, &made)?;
    shuffle(&mut Chance::new(seed, streams[1]), &mut ops);
    take_all(desk, &ops, digest)?;
    tell(desk, digest)
}

/// One desk takes the later half of a text's operations from the back, another the earlier half, and they meet.
fn take_halves(
    alloc: Global,
    seed: u32,
    stream: u32,
    count: usize,
    one: &mut Desk,
    other: &mut Desk,
    digest: &mut Digest,
) -> Result<()> {
    let made = written(alloc, seed, stream, count)?;
    let mut ops = operations(alloc, &made)?;
    let half = ops.len() / 2;
    let (earlier, later) = ops.split_at_mut(half);
    later.reverse();
    take_all(one, later, digest)?;
    take_all(other, earlier, digest)?;
    digest.add_number(one.merge(other)? as usize);
    digest.add_number(other.merge(one)? as usize);
    tell(one, digest)?;
    tell(other, digest)
}

/// Puts operations into a random order.
fn shuffle(chance: &mut Chance, ops: &mut [Op]) {
    for k in 1..ops.len() {
        let other = chance.below(k).min(k);
        ops.swap(k, other);
    }
}

fn take_all(desk: &mut Desk, ops: &[Op], digest: &mut Digest) -> Result<()> {
    for op in ops {
        let became = match desk.take(op)? {
            Taken::Known => 0,
            Taken::Hidden => 1,
            Taken::Held => 2,
            Taken::Placed(count) => count.saturating_add(3),
        };
        digest.add_number(became);
    }
    Ok(())
}

fn tell(desk: &Desk, digest: &mut Digest) -> Result<()> {
    let text = desk.text()?;
    digest.add(text.as_bytes());
    Ok(())
}

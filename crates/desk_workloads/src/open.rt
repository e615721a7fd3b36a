//! Operation files become text, as when a text is opened.

use crate::desk::KEY;
use crate::digest::Digest;
use crate::history::{DESKS, operations, operations_of, written};
use anyhow::Result;
use desk_files::text;
use op_codec::{encode_file, encode_file_v2};
use std::alloc::Global;

/// How many operations each text has.
const COUNT: usize = 800_000;

/// The streams of chance that the texts are made of, three texts at a time.
const STREAMS: [[u32; 3]; 2] = [[1, 2, 3], [21, 22, 23]];

/// Opens two times three texts.
pub fn open(alloc: Global, seed: u32, share: usize, digest: &mut Digest) -> Result<()> {
    for streams in &STREAMS {
        open_three(alloc, seed, streams, COUNT / share.max(1), digest)?;
    }
    Ok(())
}

/// Opens three texts that four desks wrote: from a log in version 1, from a log in version 2, and from a file of
/// each desk.
fn open_three(
    alloc: Global,
    seed: u32,
    streams: &[u32; 3],
    count: usize,
    digest: &mut Digest,
) -> Result<()> {
    let made = written(alloc, seed, streams[0], count)?;
    let ops = operations(alloc, &made)?;
    let file = encode_file(alloc, &ops)?;
    open_files(alloc, &[file], digest)?;

    let made = written(alloc, seed, streams[1], count)?;
    let ops = operations(alloc, &made)?;
    let file = encode_file_v2(alloc, &ops)?;
    open_files(alloc, &[file], digest)?;

    let made = written(alloc, seed, streams[2], count)?;
    let mut files = Vec::new(alloc);
    for desk in 0..DESKS {
        let ops = operations_of(alloc, &made, desk)?;
        files.push(encode_file(alloc, &ops)?)?;
    }
    open_files(alloc, &files, digest)
}

fn open_files(alloc: Global, files: &[Vec<u8>], digest: &mut Digest) -> Result<()> {
    text(alloc, KEY, files, digest)?;
    Ok(())
}

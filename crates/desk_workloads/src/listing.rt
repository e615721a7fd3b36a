//! Operation files become listings, files again, and files of version 2.

use crate::digest::Digest;
use crate::history::{operations, written};
use anyhow::Result;
use bg_types::Out;
use op_codec::{encode_file, encode_file_v2};
use op_listing::{dump, migrate, pack};
use std::alloc::Global;

/// How many operations each file has.
const COUNT: usize = 1_000_000;

/// The streams of chance that the files are made of, three files at a time.
const STREAMS: [[u32; 3]; 2] = [[10, 11, 12], [30, 31, 32]];

/// Does this with two times three files.
pub fn listing(alloc: Global, seed: u32, share: usize, digest: &mut Digest) -> Result<()> {
    for streams in &STREAMS {
        list_three(alloc, seed, streams, COUNT / share.max(1), digest)?;
    }
    Ok(())
}

/// Lists an operation file and makes a file of the listing; lists a file of version 2; and migrates a file.
fn list_three(
    alloc: Global,
    seed: u32,
    streams: &[u32; 3],
    count: usize,
    digest: &mut Digest,
) -> Result<()> {
    let file = encode_file(
        alloc,
        &operations(alloc, &written(alloc, seed, streams[0], count)?)?,
    )?;
    let mut listed = Vec::new(alloc);
    dump(alloc, &file, &mut Out::new(&mut listed))?;
    digest.add(&listed);
    pack(alloc, &listed, digest)?;

    let file = encode_file_v2(
        alloc,
        &operations(alloc, &written(alloc, seed, streams[1], count)?)?,
    )?;
    dump(alloc, &file, digest)?;

    let file = encode_file(
        alloc,
        &operations(alloc, &written(alloc, seed, streams[2], count)?)?,
    )?;
    migrate(alloc, &file, digest)?;
    Ok(())
}

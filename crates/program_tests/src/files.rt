//! Operation files that tests give, and what runs over files come to.

use bg_types::Memory;
use command_line::Unread;
use desk_runs::RunFault;
use std::alloc::{AllocError, Global};
use std::process::Abort;

/// Any key.
pub const KEY: u128 = 0x2545_F491_4F6C_DD1D;

/// (1,1) after the root, `a`; (2,1) after (1,1), `b`.
pub const TWO: [u8; 43] = [
    0x42, 0x47, 0x4F, 0x50, 1, // BGOP, version 1
    0, 17, 1, 0, 0, 0, 1, 0, 1, 0, 0, 0, 0, 0, 0, 0, 0, 0, 0x61, // frame 1
    0, 17, 1, 0, 0, 0, 2, 0, 1, 0, 0, 0, 1, 0, 1, 0, 0, 0, 0x62, // frame 2
];

/// `a`, `x` and `b` after it, `y` after `x`.
pub const FOUR: [u8; 81] = [
    0x42, 0x47, 0x4F, 0x50, 1, // BGOP, version 1
    0, 17, 1, 0, 0, 0, 1, 0, 1, 0, 0, 0, 0, 0, 0, 0, 0, 0, 0x61, // frame 1
    0, 17, 1, 0, 0, 0, 2, 0, 2, 0, 0, 0, 1, 0, 1, 0, 0, 0, 0x78, // frame 2
    0, 17, 1, 0, 0, 0, 3, 0, 2, 0, 0, 0, 2, 0, 2, 0, 0, 0, 0x79, // frame 3
    0, 17, 1, 0, 0, 0, 2, 0, 1, 0, 0, 0, 1, 0, 1, 0, 0, 0, 0x62, // frame 4
];

/// (2,1) after (2,2), `b`: a parent of no smaller counter.
pub const LATE_PARENT: [u8; 24] = [
    0x42, 0x47, 0x4F, 0x50, 1, // BGOP, version 1
    0, 17, 1, 0, 0, 0, 2, 0, 1, 0, 0, 0, 2, 0, 2, 0, 0, 0, 0x62, // frame 1
];

/// A file that a test gives.
#[derive(Clone, Copy)]
pub enum Given {
    /// The operations that letters stand for: (1,1) `a`, after it (2,2) `x` with (3,2) `y`, and
    /// (2,1) `b`; (1,2) `b` is `z`, a `b` with the identifier of `a` is `B`, and `e` erases `x`.
    Letters(&'static str),
    /// What a site types, each character after the one before it, with counters from 1.
    Typed(u16, &'static str),
    Bytes(&'static [u8]),
}

/// The frame of an insertion. No identifier has counter 0, so (0, 0) is the root.
fn frame(id: (u32, u16), parent: (u32, u16), ch: char) -> [u8; 19] {
    let [a, b, c, d] = id.0.to_be_bytes();
    let [e, f] = id.1.to_be_bytes();
    let [g, h, i, j] = parent.0.to_be_bytes();
    let [k, l] = parent.1.to_be_bytes();
    let [m, n, o, p] = (ch as u32).to_be_bytes();
    [0, 17, 1, a, b, c, d, e, f, g, h, i, j, k, l, m, n, o, p]
}

/// Appends the operation of a letter.
fn put_letter(file: &mut Vec<u8>, letter: char) -> Result<(), AllocError> {
    let frame = match letter {
        'a' => frame((1, 1), (0, 0), 'a'),
        'x' => frame((2, 2), (1, 1), 'x'),
        'y' => frame((3, 2), (2, 2), 'y'),
        'b' => frame((2, 1), (1, 1), 'b'),
        'z' => frame((1, 2), (0, 0), 'b'),
        'B' => frame((1, 1), (0, 0), 'b'),
        _ => return file.extend_from_slice(&[0, 7, 2, 0, 0, 0, 2, 0, 2]),
    };
    file.extend_from_slice(&frame)
}

fn put_letters(file: &mut Vec<u8>, letters: &str) -> Result<(), AllocError> {
    file.extend_from_slice(b"BGOP\x01")?;
    for letter in letters.chars() {
        put_letter(file, letter)?;
    }
    Ok(())
}

fn put_typed(file: &mut Vec<u8>, site: u16, text: &str) -> Result<(), AllocError> {
    file.extend_from_slice(b"BGOP\x01")?;
    let mut before = (0u32, 0u16);
    for ch in text.chars() {
        let id = (before.0.saturating_add(1), site);
        file.extend_from_slice(&frame(id, before, ch))?;
        before = id;
    }
    Ok(())
}

fn put(file: &mut Vec<u8>, given: Given) -> Result<(), AllocError> {
    match given {
        Given::Letters(letters) => put_letters(file, letters),
        Given::Typed(site, text) => put_typed(file, site, text),
        Given::Bytes(bytes) => file.extend_from_slice(bytes),
    }
}

/// The bytes of a file.
pub fn file_of(alloc: Global, given: Given) -> Result<Vec<u8>, AllocError> {
    let mut file = Vec::new(alloc);
    put(&mut file, given)?;
    Ok(file)
}

/// The bytes of each file.
pub fn files_of(alloc: Global, given: &[Given]) -> Result<Vec<Vec<u8>>, AllocError> {
    let mut files = Vec::new(alloc);
    for given in given {
        files.push(file_of(alloc, *given)?)?;
    }
    Ok(files)
}

/// What a run answers, and what is written.
pub type Outcome<'a> = (Result<(), RunFault>, &'a [u8]);

/// Whether these bytes stand at the start of the room, and nothing after them.
pub fn are_written(room: &[u8], bytes: &[u8]) -> bool {
    room.starts_with(bytes) && room.get(bytes.len()) == Some(&0)
}

/// With ample memory a run is right; where a growth is refused it says so, and nothing is written.
pub fn is_right_or_memory(answer: Result<(), RunFault>, room: &[u8], right: &[u8]) -> bool {
    match answer {
        Ok(()) => are_written(room, right),
        Err(fault) => fault == RunFault::Memory && room.starts_with(&[0]),
    }
}

/// Compares the path that can't be read with this one, lack of memory aside.
pub fn assert_unread(rt: &impl Abort, fault: Option<Unread>, path: &str) -> Result<(), Memory> {
    match fault {
        Some(Unread::ReadFailed(named)) => assert_eq!(rt; named.as_str(), path),
        Some(Unread::Memory) => return Err(Memory),
        None => panic!(rt; "{path} was read"),
    }
    Ok(())
}

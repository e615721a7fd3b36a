//! The numbers of the format.

/// The first bytes of every operation file.
pub const MAGIC: [u8; 4] = *b"BGOP";

/// How many bytes stand before the first frame.
pub const HEADER_SIZE: usize = 5;

/// The kind of an insertion's frame.
pub const INSERTION: u8 = 1;

/// How many bytes follow the length of an insertion's frame.
pub const INSERTION_LENGTH: u16 = 17;

/// How many bytes an insertion's frame has, its length included.
pub const INSERTION_SIZE: usize = 19;

/// How many bytes the file of one insertion has in version 1.
pub const INSERTION_FILE_SIZE: usize = 24;

/// The kind of a deletion's frame.
pub const ERASURE: u8 = 2;

/// How many bytes follow the length of a deletion's frame.
pub const ERASURE_LENGTH: u16 = 7;

/// How many bytes a deletion's frame has, its length included.
pub const ERASURE_SIZE: usize = 9;

/// How many bytes the file of one deletion has.
pub const ERASURE_FILE_SIZE: usize = 14;

/// The kind of a run's frame, of version 2.
pub const RUN: u8 = 3;

/// How many bytes a character of a run has.
pub const CHARACTER_SIZE: usize = 4;

/// The most insertions that a run has after its first.
pub const MOST_FURTHER: usize = 1_023;

/// How many bytes of a run's frame stand between its kind and its further characters:
/// the fields of its first insertion.
pub const INSERTION_FIELDS: usize = 16;

/// How many bytes the longest frame has, that of a run of 1,024.
pub const LONGEST_FRAME: usize = 4_111;

/// The greatest length of a file that programs read, in bytes. The calls of this crate read files of any length.
pub const LONGEST_FILE: usize = 67_108_864;

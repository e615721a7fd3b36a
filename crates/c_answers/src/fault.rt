//! What the calls answer: 0, or the number of a fault.

/// It was done.
pub const OK: u32 = 0;
/// A growth was refused.
pub const MEMORY: u32 = 9;
/// A handle holds nothing.
pub const EMPTY_HANDLE: u32 = 101;
/// A buffer is shorter than what is to be written to it.
pub const SHORT_BUFFER: u32 = 102;
/// The bytes of a text are not UTF-8.
pub const NOT_UTF8: u32 = 103;
/// A text has more than 4,000,000 bytes.
pub const TEXT_TOO_LONG: u32 = 104;
/// A width is not 2 to 500.
pub const BAD_WIDTH: u32 = 105;
/// A base is neither 0, 1 nor 2.
pub const BAD_BASE: u32 = 106;
/// A place lies behind the text's end.
pub const BAD_PLACE: u32 = 107;
/// There is no such row.
pub const BAD_ROW: u32 = 108;
/// The row has no such entry.
pub const BAD_ENTRY: u32 = 109;
/// A caret's row or gap is none of the picture's or document's.
pub const BAD_CARET: u32 = 110;
/// A character is above 10FFFF or a surrogate.
pub const BAD_CHARACTER: u32 = 111;
/// A site is not 1 to 65,535.
pub const BAD_SITE: u32 = 112;
/// An identifier's counter is 0, or its site not 1 to 65,535.
pub const BAD_IDENTIFIER: u32 = 113;
/// An identifier is nowhere in the text's walk.
pub const NOT_PLACED: u32 = 114;
/// More than 1,000,000 operations are asked room for.
pub const TOO_MANY: u32 = 115;
/// A message has more than 67,108,864 bytes.
pub const MESSAGE_TOO_LONG: u32 = 116;
/// An identifier is there with another parent or character.
pub const IDENTIFIER_REUSED: u32 = 201;
/// There are 1,000,000 operations.
pub const FULL: u32 = 202;
/// The next counter is above 4,294,967,295.
pub const COUNTER_SPENT: u32 = 203;
/// The first number of the faults of messages: their cause's is added.
pub const MESSAGE: u32 = 300;
/// The first number of the faults of data files: their cause's is added.
pub const DATA: u32 = 400;

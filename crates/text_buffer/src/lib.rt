//! A text in paragraphs, in which an edit makes anew those that it touches.
#![tactic(auto)]

mod block;
mod buffer;
mod change;
mod cursor;
mod fault;
mod find;
mod forget;
mod found;
mod parted;
mod piece;
mod place;
mod replace;
mod row;
mod rows;
mod run;
mod spared;
mod stretch;
mod touched;
mod weighed;

pub use buffer::Buffer;
pub use cursor::Cursor;
pub use fault::{BufferFault, Stopped};
pub use touched::Touched;
pub use weighed::Weighed;

//! What programs do at their command line: the words and what they ask for, the files that they name, and how a run ends, with
//! its help or the line about a fault.
#![tactic(auto)]

mod asked;
mod data;
mod ending;
mod fault_line;
mod files;
mod folder;
mod grammar;
mod help;
mod opener;
mod reading;
mod request;
mod stop;
mod table;
mod unread;

pub use asked::job;
pub use data::{DATA_FILES, Data, read_data};
pub use ending::{end, flush, tell};
pub use fault_line::{PROGRAM, report};
pub use files::{open_all, path_of};
pub use folder::folder_of;
pub use opener::{HasInput, INPUT, Opened, Opener};
pub use reading::{open, read, read_whole};
pub use request::{Job, Replay, Typing, Walk};
pub use stop::{Stop, words};
pub use unread::{CannotRead, Unread};

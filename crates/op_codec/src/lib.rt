//! Operation files of both versions: how they spell operations, and what is wrong with them first.
#![tactic(auto)]

mod cut;
mod decode;
mod encode;
mod encode_v2;
mod fault;
mod feed;
mod fields;
mod format;
mod frame;
mod gather;
mod gives;
mod header;
mod input;
pub mod laws;
mod migration;
mod position;
mod run;
mod source;
mod stream;

pub use decode::decode_file;
pub use encode::{encode_file, encode_one, encode_op};
pub use encode_v2::encode_file_v2;
pub use fault::{Cause, CodecFault};
pub use feed::Feed;
pub use format::LONGEST_FILE;
pub use gives::Gives;
pub use input::In;
pub use migration::migrate;
pub use position::Version;
pub use source::Source;
pub use stream::Stream;

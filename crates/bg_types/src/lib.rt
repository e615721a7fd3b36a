//! Identifiers and operations of a replicated text, how tables hash them, changes of a text, character classes, and
//! where bytes go.
#![tactic(auto)]

mod change;
mod class;
mod fault;
mod id;
mod keyed;
pub mod laws;
mod op;
mod out;
mod sink;
mod stops;

pub use change::Change;
pub use class::{Base, Bidi, Ea, Lb};
pub use fault::{Device, Memory};
pub use id::Id;
pub use keyed::{Hashed, Keyed, KeyedHasher};
pub use op::{Op, OpView, Place};
pub use out::Out;
pub use sink::{Sink, put_all};
pub use stops::Stops;

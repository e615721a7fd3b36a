//! A sequence in stretches: characters that one site typed one after the other are stored as one.
#![tactic(auto)]

mod block;
mod bounds;
mod change;
mod counts;
mod cut;
mod key;
mod keys;
pub mod laws;
mod leaf;
mod lists;
mod marks;
mod parent;
mod rank;
mod read;
mod room;
mod row;
mod runs;
mod search;
mod skip;
mod stretch;

pub use runs::Runs;

//! A desk: one set of operations, in a tree of placed insertions and a store of what came early; and worlds of desks.
#![tactic(auto)]

mod answer;
mod cursor;
pub mod laws;
mod listener;
mod placing;
mod reading;
mod replica;
mod run;
mod stretching;
mod taking;
mod world;

pub use answer::{Stopped, TakeFault, Taken, TypeFault};
pub use replica::{MOST_OPERATIONS, Replica};
pub use taking::{merge_at, take_at};
pub use world::{Reply, Step, World, WorldFault, run_world};

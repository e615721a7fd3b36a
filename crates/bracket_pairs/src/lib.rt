//! Bracket pairs and what they do to the types of a sequence: UAX #9, BD14 to BD16 and N0.
#![tactic(auto)]

mod direction;
pub mod laws;
mod n0;
mod role;
mod search;

pub use n0::resolve;

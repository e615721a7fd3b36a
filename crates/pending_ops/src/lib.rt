//! Operations that came early: those that wait for an insertion that is not there yet.
#![tactic(auto)]

mod chains;
mod held;
pub mod laws;

pub use held::Held;

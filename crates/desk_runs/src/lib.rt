//! Runs over operation files: desks take and merge operations and their texts are drawn, a caret walks over the drawn text,
//! and what a site types becomes an operation file of its own.
#![tactic(auto)]

mod change;
mod desks;
pub mod laws;
mod operations;
mod replaying;
mod typing;
mod typing_fault;
mod walk;
mod walking;

pub use caret::Move;
pub use change::Change;
pub use desk_files::{Desk, RunFault, ScheduleFault, TakeFault, status, text, text_from};
pub use replaying::{replay, replay_from};
pub use typing::typed;
pub use typing_fault::TypingFault;
pub use ucd_files::Ucd;
pub use walking::{carets, carets_from};

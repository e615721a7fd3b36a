//! The files of a run (data files, operation files, which are read piece by piece, and schedules), and the one desk that
//! takes what operation files have: its text is written.
#![tactic(auto)]

mod desk;
mod engine;
mod in_memory;
pub mod laws;
mod one_desk;
mod reading;
mod run_fault;
mod schedule;
mod schedule_fault;

pub use desk::{Desk, Elements, let_go, new_desk, read_text};
pub use desk_replica::TakeFault;
pub use engine::{text, text_from};
pub use in_memory::{InMemory, readers_of};
pub use one_desk::{joined_text, step_fault, take_files};
pub use reading::read_all;
pub use run_fault::{RunFault, status};
pub use schedule::{Numbered, RunStep, read_schedule};
pub use schedule_fault::ScheduleFault;

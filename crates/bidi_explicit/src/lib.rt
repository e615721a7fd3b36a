//! Explicit levels and isolating run sequences (UAX #9, X1 to X10).
#![tactic(auto)]

mod class;
mod controls;
mod embedded;
mod kept;
mod kind;
pub mod laws;
mod level;
mod level_run;
mod lists;
mod paragraph;
mod places;
mod sequence;
mod sequences;
mod stack;

pub use class::has_controls;
pub use embedded::Embedded;
pub use kept::Kept;
pub use level::paragraph_level;
pub use level_run::LevelRun;
pub use lists::Lists;
pub use paragraph::explicit;
pub use sequence::Sequence;

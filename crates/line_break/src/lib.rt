//! Break opportunities (UAX #14), and the lines of a paragraph at a width.
#![tactic(auto)]

mod class;
mod cluster;
mod cursor;
pub mod laws;
mod line;
mod measure;
mod open;
mod opportunity;
mod outline;
mod reached;
mod run;
mod state;
mod state_table;
mod status;
mod status_table;

pub use class::is_one_of;
pub use cluster::Cluster;
pub use line::{Line, lines, lines_into};
pub use opportunity::{Boundary, Opportunity};
pub use outline::{Outline, outline_into};
pub use run::ShapeRun;
pub use status::{Break, opportunities};

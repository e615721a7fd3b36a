//! A text as paragraphs, clusters and columns.
#![tactic(auto)]

mod cluster;
mod cuts;
pub mod laws;
mod para;
mod points;
mod span;
mod width;

pub use cluster::Clusters;
pub use cuts::{meets_at_cut, split};
pub use para::Para;
pub use points::code_points_into;
pub use span::Span;
pub use width::{columns, columns_of_marked, columns_of_one};

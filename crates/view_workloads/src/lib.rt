//! Work at desks whose texts are drawn by views, on inputs made by chance.
#![tactic(auto)]

pub mod draw;
pub mod edit;
mod imported;
pub mod meet;

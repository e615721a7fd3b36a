//! Pictures that own all that they show: a share in the tables, the text and its rows.
#![tactic(auto)]

mod picture;
mod shared_tables;

pub use picture::Picture;
pub use shared_tables::SharedTables;

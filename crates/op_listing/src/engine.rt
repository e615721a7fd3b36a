//! The engines: each reads one whole file, and writes what it is converted into.

pub mod dump;
pub mod migrate;
pub mod pack;

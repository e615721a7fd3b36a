//! Work at desks and on their files, on inputs made by chance.
#![tactic(auto)]

mod chance;
mod desk;
mod digest;
pub mod early;
mod history;
mod keys;
pub mod listing;
pub mod live;
pub mod open;
mod prose;

pub use chance::Chance;
pub use desk::{Desk, KEY, desk_of};
pub use digest::Digest;
pub use keys::{Key, Way, keys_of, press_at_desk};
pub use prose::{CHINESE, HEBREW, KNOTTED, LATIN, MIXED, POINTED, Prose};

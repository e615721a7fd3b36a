//! What no clause says of a live document.
#![tactic(auto)]

mod chance;
#[cfg(test)]
mod documents;
mod edits;
#[cfg(test)]
mod forgetting_tests;
#[cfg(test)]
mod live_document_tests;
mod other;
#[cfg(test)]
mod paid_tests;
#[cfg(test)]
mod positions_tests;
#[cfg(test)]
mod prints_tests;
#[cfg(test)]
mod taking_all_tests;
mod walking;
#[cfg(test)]
mod walking_tests;

pub use walking::walk;

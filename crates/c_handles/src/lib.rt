//! Values in the hands of C: a box or none as a pointer, and what such a pointer owns.
#![tactic(auto)]

mod nullable_box;
mod opaque;

pub use nullable_box::NullableBox;
pub use opaque::Opaque;

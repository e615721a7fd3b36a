//! Where clusters stand in a text.

/// Where a cluster stands: from its first byte and its first place up to those after it. Bytes
/// count bytes, and places count code points.
#[derive(Clone, Copy, Debug, PartialEq, Eq)]
pub struct Span {
    pub first_byte: u32,
    pub end_byte: u32,
    pub first_place: u32,
    pub end_place: u32,
}

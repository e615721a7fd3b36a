//! What a handle points to.

/// What a handle points to, as C sees it: nothing that it may read.
#[repr(C)]
pub struct Opaque {
    byte: u8,
}

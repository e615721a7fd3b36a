//! What one line says.

/// The value of the code points from `first` to `last`.
#[derive(Clone, Copy)]
pub(crate) struct Entry<V> {
    pub(crate) first: u32,
    pub(crate) last: u32,
    pub(crate) value: V,
}

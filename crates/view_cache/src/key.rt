//! The key under which a paragraph's rows are kept.

ghost use Rattle.std.specs.Prelude.{◌≡◌, IfOk};
ghost use Rattle.view_cache.specs.Keys.{said, paragraph_key};

use bg_types::{Base, Memory};
use std::alloc::Global;

/// What a paragraph's rows depend on besides the tables: its text, the width in columns and the
/// base. Before them stands the key of the hash, so that each hash begins with it.
#[derive(PartialEq, Eq, Hash, Drop)]
pub struct Key {
    hash_key: u128,
    text: String,
    width: u16,
    base: Base,
}

impl Key {
    /// The key of a paragraph's text at a width and a base, hashed with this key.
    pub fn of(
        alloc: Global,
        hash_key: u128,
        text: &str,
        width: u16,
        base: Base,
    ) -> Result<Key, Memory>
        ensures says { IfOk result (λ key. said key ≡ paragraph_key text.now width base) }
        ensures hashed { IfOk result (λ key. key.hash_key ≡ hash_key) }
    {
        Ok(Key {
            hash_key,
            text: String::from_str(alloc, text)?,
            width,
            base,
        })
    }
}

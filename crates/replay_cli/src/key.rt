//! The key of a run's hash tables.

use std::random::RandomSource;

/// Draws a key, so that it is hard to write a file whose identifiers share a slot. If the
/// system has no random bytes to give, the key is 0: answers don't depend on it, only speed does.
pub fn draw_key<R: RandomSource>(rt: &R) -> u128 {
    let mut bytes = [0; 16];
    match rt.fill_bytes(&mut bytes) {
        Ok(()) => u128::from_le_bytes(bytes),
        Err(_) => 0,
    }
}

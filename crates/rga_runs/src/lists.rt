//! Lists that have memory for a block or a leaf.

ghost use Rattle.std.specs.Prelude.{◌≡◌, ◌+◌, ◌<◌, ◌≤◌, [], insert, OnOk, OnErr, vec_len, vec_capacity};

use crate::cut::FULL;
use bg_types::Memory;
use std::alloc::Global;

/// An empty list with memory for a block or a leaf.
#[derive(Drop)]
pub struct Spare<T> {
    pub list: Vec<T>,
    ghost empty: { list.items ≡ [] },
    ghost room: { 256 ≤ vec_capacity list },
}

/// Makes `more` more of them, or gives back what it made. There is memory to note them.
pub fn add_spares<T: Drop>(
    spares: &mut Vec<Spare<T>>,
    alloc: Global,
    more: usize,
) -> Result<(), Memory>
    requires { vec_len spares.old + more ≤ vec_capacity spares.old }
    ensures ok { OnOk result (vec_len spares.new ≡ vec_len spares.old + more) }
    ensures kept { vec_len spares.old ≤ vec_len spares.new }
    ensures most { vec_len spares.new ≤ vec_len spares.old + more }
    ensures within { vec_len spares.new ≤ vec_capacity spares.old }
    ensures err { OnErr result (vec_len spares.new ≡ vec_len spares.old) }
{
    let had = spares.len();
    for _ in 0..more {
        let Ok(list) = Vec::with_capacity(alloc, FULL) else {
            spares.truncate(had);
            return Err(Memory);
        };
        spares.push_reserved(Spare { list });
    }
    Ok(())
}

/// Puts one more into a list of stretches or of keys that has memory for it. At the end nothing moves.
pub fn put_in<T: Copy>(list: &mut Vec<T>, at: usize, new: T)
    requires within { at ≤ vec_len list.old }
    requires few { vec_len list.old < 256 }
    requires room { vec_len list.old < vec_capacity list.old }
    ensures items { list.new.items ≡ insert list.old.items at new }
    ensures len { vec_len list.new ≡ vec_len list.old + 1 }
    ensures capacity { vec_capacity list.new ≡ vec_capacity list.old }
{
    if at == list.len() {
        list.push_reserved(new);
    } else {
        // The remainder is the index: by it compiled code sees no wrap behind it, and moves all in one piece.
        list.insert(at % FULL, new).unwrap();
    }
}

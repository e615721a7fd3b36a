//! Leaves of keys.

ghost use Rattle.std.specs.Prelude.{◌≡◌, ◌+◌, ◌<◌, ◌≤◌, ◌++◌, ◌∷◌, [], length, take, drop, insert, slice_set, vec_len, vec_capacity};
ghost use Rattle.rga_runs.specs.Keyed.{begins};

use crate::key::Key;
use crate::lists::put_in;
use crate::rank::rank_of;

/// At least one key and at most 256, with memory for 256.
#[derive(Drop)]
pub struct Leaf {
    pub keys: Vec<Key>,
    /// The number of its first key.
    front: u64,
    ghost some: { 0 < vec_len keys },
    ghost few: { vec_len keys ≤ 256 },
    ghost room: { 256 ≤ vec_capacity keys },
    ghost begun: { front ≡ begins keys.items },
}

impl Leaf {
    /// A leaf of one key.
    pub fn lone(mut keys: Vec<Key>, key: Key) -> Leaf
        requires empty { keys.items ≡ [] }
        requires room { 256 ≤ vec_capacity keys }
        ensures { result.keys.items ≡ key ∷ [] }
    {
        let front = rank_of(key.first);
        keys.push(key).unwrap();
        Leaf { keys, front }
    }

    /// The number of its first key.
    pub fn rank(&self) -> u64
        ensures { result ≡ begins self.now.keys.items }
    {
        self.front
    }

    /// Puts in a key, with room for it.
    pub fn insert(&mut self, at: usize, key: Key)
        requires within { at ≤ length self.old.keys.items }
        requires room { length self.old.keys.items < 256 }
        ensures { self.new.keys.items ≡ insert self.old.keys.items at key }
    {
        put_in(&mut self.keys, at, key);
        self.front = rank_of(self.keys[0].first);
    }

    /// Writes a key in place of another.
    pub fn write(&mut self, at: usize, key: Key)
        requires { at < length self.old.keys.items }
        ensures { self.new.keys.items ≡ slice_set self.old.keys.items at key }
    {
        self.keys[at] = key;
        self.front = rank_of(self.keys[0].first);
    }

    /// Moves the keys of a full leaf from one on to a new leaf.
    pub fn split(&mut self, cut: usize, mut upper: Vec<Key>) -> Leaf
        requires full { length self.old.keys.items ≡ 256 }
        requires some { 0 < cut }
        requires most { cut < 256 }
        requires empty { upper.items ≡ [] }
        requires room { 256 ≤ vec_capacity upper }
        ensures keys { self.new.keys.items ≡ take cut self.old.keys.items }
        ensures upper { result.keys.items ≡ drop cut self.old.keys.items }
    {
        upper.extend_from_slice(&self.keys[cut..]).unwrap();
        self.keys.truncate(cut);
        let front = rank_of(upper[0].first);
        Leaf { keys: upper, front }
    }

    /// Gives its keys from one on to the next leaf, which has room for them.
    pub fn give(&mut self, at: usize, next: &mut Leaf)
        requires some { 0 < at }
        requires within { at < length self.old.keys.items }
        requires room { length self.old.keys.items + length next.old.keys.items ≤ at + 256 }
        ensures keys { self.new.keys.items ≡ take at self.old.keys.items }
        ensures next { next.new.keys.items ≡ drop at self.old.keys.items ++ next.old.keys.items }
    {
        let given = &self.keys[at..];
        next.keys.extend_from_slice(given).unwrap();
        next.keys.rotate_right(given.len());
        next.front = rank_of(next.keys[0].first);
        self.keys.truncate(at);
    }
}

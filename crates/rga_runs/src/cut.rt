//! Where full blocks and leaves are split.

ghost use Rattle.std.specs.Prelude.{◌≡◌, ◌+◌, ◌*◌, ◌<◌, ◌≤◌};

/// How many stretches a block has memory for, and how many keys a leaf.
pub const FULL: usize = 256;

/// How many each block and leaf but the last has at least.
pub const HALF: usize = 128;

/// More than any place of a row. A place is its own remainder by it: so compiled code sees no wrap behind the place, and moves what
/// stands there in one piece.
pub const BEYOND: usize = 9_223_372_036_854_775_808;

/// How many stay in block q of so many, which is full, where one more goes in at a place: half of them. In the last one, where it
/// grows at its end, all but one do, so that it stays full.
pub fn kept_of(q: usize, count: usize, at: usize) -> usize
    requires { q < count }
    ensures least { 128 ≤ result }
    ensures most { result < 256 }
    ensures half { q + 1 < count → result ≡ 128 }
{
    if q + 1 == count && at == FULL {
        FULL - 1
    } else {
        HALF
    }
}

/// How many more blocks it takes to hold n more of so many in all: one for each of the n, or else as many as hold all, where each of
/// those that are there and of the spare ones holds 128 for certain.
pub fn missing(all: usize, n: usize, there: usize, spare: usize) -> usize
    ensures { spare + result < n → all ≤ 128 * (there + spare + result) }
{
    let more = all
        .div_ceil(HALF)
        .saturating_sub(there)
        .saturating_sub(spare);
    let most = n.saturating_sub(spare);
    if more < most { more } else { most }
}

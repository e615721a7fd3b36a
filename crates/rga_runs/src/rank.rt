//! Where keys stand in a list of them.

ghost use Rattle.std.specs.Prelude.{◌≡◌, ◌+◌, ◌<◌, ◌≤◌, ℕ, IfSome, length, get_or};
ghost use Rattle.std.specs.Bool.{OnTrue};
ghost use Rattle.std.specs.List.Sorted.{IsNonDecreasingBy};
ghost use Rattle.rga_runs.specs.declared.key.Key.{Key as Kept};
ghost use Rattle.rga_runs.specs.Keyed.{rank};

use crate::key::Key;
use bg_types::Id;

/// The number by which keys are in order.
pub fn rank_of(id: Id) -> u64
    ensures { result ≡ rank id }
{
    u64::from(id.site()) * 4_294_967_296 + u64::from(id.counter())
}

/// About which of the numbers up to a count stands where a number stands between two others: the count from the greater one on.
pub fn share(from: u64, to: u64, count: usize, at: u64) -> usize {
    if at >= to {
        return count;
    }
    let part = at.saturating_sub(from).saturating_mul(count as u64);
    (part / to.saturating_sub(from).max(1)) as usize
}

/// How many keys at the front aren't above an identifier. Identifiers of one site are often dense, or even, and its place then is known.
pub fn not_above(keys: &[Key], id: Id) -> usize
    requires { IsNonDecreasingBy (λ k. rank k.first) keys.now }
    ensures within { result ≤ length keys.now }
    ensures below { (i : ℕ) (d : Kept) → i < result → rank (get_or keys.now i d).first ≤ rank id }
    ensures above { (i : ℕ) (d : Kept) → result ≤ i → i < length keys.now → rank id < rank (get_or keys.now i d).first }
{
    let Some(end) = keys.last() else {
        return 0;
    };
    let last = rank_of(id);
    let greatest = rank_of(end.first);
    let behind = keys.len() - 1;
    let dense = behind.saturating_sub(greatest.saturating_sub(last) as usize);
    if ends_not_above(keys, dense, last) {
        return dense + 1;
    }
    let even = share(rank_of(keys[0].first), greatest, behind, last);
    if let Some(near) = ends_near(keys, even, last) {
        return near + 1;
    }
    keys.partition_point(|k| rank_of(k.first) <= last)
}

/// Which key isn't above a number, where the next one is, if it is key j or one beside that.
fn ends_near(keys: &[Key], j: usize, last: u64) -> Option<usize>
    ensures there { IfSome result (λ i. i < length keys.now) }
    ensures below { IfSome result (λ i. (d : Kept) → rank (get_or keys.now i d).first ≤ last) }
    ensures above { IfSome result (λ i. (d : Kept) → i + 1 < length keys.now → last < rank (get_or keys.now (i + 1) d).first) }
{
    if ends_not_above(keys, j, last) {
        return Some(j);
    }
    if j < keys.len() && ends_not_above(keys, j + 1, last) {
        return Some(j + 1);
    }
    if j > 0 && ends_not_above(keys, j - 1, last) {
        return Some(j - 1);
    }
    None
}

/// Whether key j isn't above a number, and the next one is.
pub fn ends_not_above(keys: &[Key], j: usize, last: u64) -> bool
    ensures there { OnTrue result (j < length keys.now) }
    ensures below { OnTrue result ((d : Kept) → rank (get_or keys.now j d).first ≤ last) }
    ensures above { OnTrue result ((d : Kept) → j + 1 < length keys.now → last < rank (get_or keys.now (j + 1) d).first) }
{
    if j >= keys.len() || last < rank_of(keys[j].first) {
        return false;
    }
    j + 1 == keys.len() || last < rank_of(keys[j + 1].first)
}

//! Which stretch an identifier may be of, and in which block that is.

ghost use Rattle.std.specs.Prelude.{◌≡◌, ◌+◌, ◌*◌, ◌^◌, ◌<◌, ◌≤◌, ◌++◌, ◌∷◌, ℕ, Some, None, IfSome, IfNone, [], OnOk, OnErr, if◌then◌else◌, length, take, drop, get_or, insert, slice_set, vec_len, vec_capacity};
ghost use Rattle.std.specs.Bool.{OnTrue};
ghost use Rattle.std.specs.List.Sorted.{IsNonDecreasingBy};
ghost use Rattle.bg_types.specs.Identifier.{Identifier};
ghost use Rattle.rga_runs.specs.declared.key.Key.{Key as Kept};
ghost use Rattle.rga_runs.specs.Blocks.{AreHalfFull};
ghost use Rattle.rga_runs.specs.Keyed.{rank, look_in, reaches, begins};
ghost use Rattle.rga_runs.specs.Leaves.{keys_of, all_keys, place_in};

use crate::cut::{BEYOND, FULL, HALF, kept_of};
use crate::key::Key;
use crate::leaf::Leaf;
use crate::lists::{Spare, add_spares};
use crate::rank::{ends_not_above, not_above, rank_of, share};
use bg_types::{Id, Memory};
use std::alloc::Global;

/// For how many sites it is kept where the last key was put or renewed. Those with the same rest share that.
const SITES: usize = 8;

/// A key for each stretch, by sites and then by counters, and memory for more.
#[derive(Drop)]
pub struct Keys {
    pub leaves: Vec<Leaf>,
    pub spares: Vec<Spare<Key>>,
    /// The leaf into which the last key of a site was put. The next one is often put behind that.
    recent: [usize; SITES],
    /// A leaf, and a place there, behind the last key of a site that was renewed. The next one often stands there.
    renewed: [(usize, usize); SITES],
    ghost rising: { IsNonDecreasingBy (λ k. rank k.first) (all_keys leaves.items) },
    ghost halves: { AreHalfFull (keys_of leaves.items) },
    ghost memory: { vec_len leaves + vec_len spares ≤ vec_capacity leaves },
}

/// No keys, which take no memory.
pub fn none(alloc: Global) -> Keys
    ensures leaves { result.leaves.items ≡ [] }
    ensures spares { vec_len result.spares ≡ 0 }
{
    Keys {
        leaves: Vec::new(alloc),
        spares: Vec::new(alloc),
        recent: [0; SITES],
        renewed: [(0, 0); SITES],
    }
}

/// Makes memory for `more` more leaves.
pub fn reserve(keys: &mut Keys, alloc: Global, more: usize) -> Result<(), Memory>
    ensures leaves { keys.new.leaves.items ≡ keys.old.leaves.items }
    ensures ok { OnOk result (vec_len keys.new.spares ≡ vec_len keys.old.spares + more) }
    ensures kept { vec_len keys.old.spares ≤ vec_len keys.new.spares }
    ensures len { vec_len keys.new.leaves ≡ vec_len keys.old.leaves }
{
    keys.spares.reserve(more)?;
    keys.leaves.reserve(keys.spares.capacity())?;
    add_spares(&mut keys.spares, alloc, more)
}

/// The key of the stretch that an identifier may be of.
pub fn find(keys: &Keys, id: Id) -> Option<Key>
    ensures found { IfSome result (λ k. look_in (all_keys keys.now.leaves.items) id ≡ Some (k.first, k.number)) }
    ensures none { IfNone result (look_in (all_keys keys.now.leaves.items) id ≡ None) }
{
    if keys.leaves.is_empty() {
        return None;
    }
    let (b, at) = spot(&keys.leaves, likely_leaf(keys, id), id);
    if at == 0 {
        return None;
    }
    let key = keys.leaves[b].keys[at - 1];
    if key.first.site() == id.site() {
        Some(key)
    } else {
        None
    }
}

/// Adds the key of a stretch that was put in and begins with an identifier, at a place of a block. The next one of its site is sought
/// from its leaf on.
pub fn put(keys: &mut Keys, id: Id, number: usize, place: usize)
    requires few { number < 2 ^ 32 }
    requires room { vec_len keys.old.spares ≡ 0 → length (all_keys keys.old.leaves.items) < 128 * vec_len keys.old.leaves }
    ensures looks { (q : Identifier) → q.counter < 2 ^ 32 → look_in (all_keys keys.new.leaves.items) q
        ≡ (if reaches id q (look_in (all_keys keys.old.leaves.items) q) then Some (id, number) else look_in (all_keys keys.old.leaves.items) q) }
    ensures len { length (all_keys keys.new.leaves.items) ≡ length (all_keys keys.old.leaves.items) + 1 }
    ensures room { vec_len keys.new.leaves + vec_len keys.new.spares ≡ vec_len keys.old.leaves + vec_len keys.old.spares }
    ensures spares { vec_len keys.old.spares ≤ vec_len keys.new.spares + 1 }
{
    let leaf = add(keys, id, number, place);
    keys.recent[usize::from(id.site()) % SITES] = leaf;
}

/// Adds the key of a stretch, and answers its leaf. The rest of a stretch that was parted is often far from where its site goes on.
pub fn add(keys: &mut Keys, id: Id, number: usize, place: usize) -> usize
    requires few { number < 2 ^ 32 }
    requires room { vec_len keys.old.spares ≡ 0 → length (all_keys keys.old.leaves.items) < 128 * vec_len keys.old.leaves }
    ensures looks { (q : Identifier) → q.counter < 2 ^ 32 → look_in (all_keys keys.new.leaves.items) q
        ≡ (if reaches id q (look_in (all_keys keys.old.leaves.items) q) then Some (id, number) else look_in (all_keys keys.old.leaves.items) q) }
    ensures len { length (all_keys keys.new.leaves.items) ≡ length (all_keys keys.old.leaves.items) + 1 }
    ensures room { vec_len keys.new.leaves + vec_len keys.new.spares ≡ vec_len keys.old.leaves + vec_len keys.old.spares }
    ensures spares { vec_len keys.old.spares ≤ vec_len keys.new.spares + 1 }
{
    let key = Key::of(id, number, place);
    if keys.leaves.is_empty() {
        let memory = keys.spares.pop().unwrap().list;
        keys.leaves.push_reserved(Leaf::lone(memory, key));
        0
    } else {
        let (b, at) = spot(&keys.leaves, likely_leaf(keys, id), id);
        put_in(keys, b, at, key)
    }
}

/// Puts a key in where it keeps the order, and answers its leaf.
fn put_in(keys: &mut Keys, b: usize, at: usize, key: Key) -> usize
    requires leaf { b < vec_len keys.old.leaves }
    requires within { at ≤ length (get_or (keys_of keys.old.leaves.items) b []) }
    requires below { (i : ℕ) (d : Kept) → i < place_in (keys_of keys.old.leaves.items) b at → rank (get_or (all_keys keys.old.leaves.items) i d).first ≤ rank key.first }
    requires above { (i : ℕ) (d : Kept) → place_in (keys_of keys.old.leaves.items) b at ≤ i → i < length (all_keys keys.old.leaves.items)
        → rank key.first ≤ rank (get_or (all_keys keys.old.leaves.items) i d).first }
    requires room { vec_len keys.old.spares ≡ 0 → length (all_keys keys.old.leaves.items) < 128 * vec_len keys.old.leaves }
    ensures keys { all_keys keys.new.leaves.items ≡ insert (all_keys keys.old.leaves.items) (place_in (keys_of keys.old.leaves.items) b at) key }
    ensures room { vec_len keys.new.leaves + vec_len keys.new.spares ≡ vec_len keys.old.leaves + vec_len keys.old.spares }
    ensures spares { vec_len keys.old.spares ≤ vec_len keys.new.spares + 1 }
{
    let (q, j) = make_room(keys, b, at);
    keys.leaves[q].insert(j, key);
    q
}

/// The leaf into which the last key of the identifier's site was put, or of another with the same rest. For one that is below, which
/// leaf before that it would be if they began evenly.
fn likely_leaf(keys: &Keys, id: Id) -> usize {
    let recent = keys.recent[usize::from(id.site()) % SITES];
    match keys.leaves.get(recent) {
        Some(leaf) => share(keys.leaves[0].rank(), leaf.rank(), recent, rank_of(id)),
        None => 0,
    }
}

/// The place that is given by a leaf and a place there, with room for a key. A full leaf is split first. Where a site ends at the place,
/// the keys behind go to the next leaf instead, so that those that the site puts in next don't move them.
fn make_room(keys: &mut Keys, b: usize, at: usize) -> (usize, usize)
    requires leaf { b < vec_len keys.old.leaves }
    requires within { at ≤ length (get_or (keys_of keys.old.leaves.items) b []) }
    requires room { vec_len keys.old.spares ≡ 0 → length (all_keys keys.old.leaves.items) < 128 * vec_len keys.old.leaves }
    ensures leaf { result.0 < vec_len keys.new.leaves }
    ensures within { result.1 ≤ length (get_or (keys_of keys.new.leaves.items) result.0 []) }
    ensures free { length (get_or (keys_of keys.new.leaves.items) result.0 []) < 256 }
    ensures place { place_in (keys_of keys.new.leaves.items) result.0 result.1 ≡ place_in (keys_of keys.old.leaves.items) b at }
    ensures keys { all_keys keys.new.leaves.items ≡ all_keys keys.old.leaves.items }
    ensures room { vec_len keys.new.leaves + vec_len keys.new.spares ≡ vec_len keys.old.leaves + vec_len keys.old.spares }
    ensures spares { vec_len keys.old.spares ≤ vec_len keys.new.spares + 1 }
{
    if keys.leaves[b].keys.len() < FULL {
        return (b, at);
    }
    if ends_site(&keys.leaves, b, at) {
        give_behind(keys, b, at);
        return (b, at);
    }
    let cut = kept_of(b, keys.leaves.len(), at);
    split(keys, b, cut);
    if at <= cut {
        (b, at)
    } else {
        (b + 1, at - cut)
    }
}

/// Whether a site's keys end before a place of a leaf, with at least half a leaf in front and another leaf behind.
fn ends_site(leaves: &[Leaf], b: usize, at: usize) -> bool
    requires { b < length leaves.now }
    ensures next { OnTrue result (b + 1 < length leaves.now) }
    ensures least { OnTrue result (128 ≤ at) }
    ensures within { OnTrue result (at < length (get_or (keys_of leaves.now) b [])) }
{
    if at < HALF || b + 1 >= leaves.len() {
        return false;
    }
    let keys = &leaves[b].keys;
    at < keys.len() && keys[at].first.site() != keys[at - 1].first.site()
}

/// Gives the keys of a full leaf behind a place to the next leaf, as many as it has room for. If that is full, it is split first.
fn give_behind(keys: &mut Keys, b: usize, at: usize)
    requires next { b + 1 < vec_len keys.old.leaves }
    requires full { length (get_or (keys_of keys.old.leaves.items) b []) ≡ 256 }
    requires least { 128 ≤ at }
    requires most { at < 256 }
    requires room { vec_len keys.old.spares ≡ 0 → length (all_keys keys.old.leaves.items) < 128 * vec_len keys.old.leaves }
    ensures leaf { b < vec_len keys.new.leaves }
    ensures within { at ≤ length (get_or (keys_of keys.new.leaves.items) b []) }
    ensures free { length (get_or (keys_of keys.new.leaves.items) b []) < 256 }
    ensures place { place_in (keys_of keys.new.leaves.items) b at ≡ place_in (keys_of keys.old.leaves.items) b at }
    ensures keys { all_keys keys.new.leaves.items ≡ all_keys keys.old.leaves.items }
    ensures room { vec_len keys.new.leaves + vec_len keys.new.spares ≡ vec_len keys.old.leaves + vec_len keys.old.spares }
    ensures spares { vec_len keys.old.spares ≤ vec_len keys.new.spares + 1 }
{
    split_full(keys, b + 1);
    let from = at.max(keys.leaves[b + 1].keys.len());
    give_at(&mut keys.leaves, b, from);
}

/// Splits a leaf into halves if it is full.
fn split_full(keys: &mut Keys, b: usize)
    requires leaf { b < vec_len keys.old.leaves }
    requires room { vec_len keys.old.spares ≡ 0 → length (all_keys keys.old.leaves.items) < 128 * vec_len keys.old.leaves }
    ensures leaf { b < vec_len keys.new.leaves }
    ensures free { length (get_or (keys_of keys.new.leaves.items) b []) < 256 }
    ensures before { take b (keys_of keys.new.leaves.items) ≡ take b (keys_of keys.old.leaves.items) }
    ensures keys { all_keys keys.new.leaves.items ≡ all_keys keys.old.leaves.items }
    ensures room { vec_len keys.new.leaves + vec_len keys.new.spares ≡ vec_len keys.old.leaves + vec_len keys.old.spares }
    ensures spares { vec_len keys.old.spares ≤ vec_len keys.new.spares + 1 }
{
    if keys.leaves[b].keys.len() < FULL {
        return;
    }
    split(keys, b, HALF);
}

/// Gives the keys of leaf b from one on to the next leaf, which has room for them.
fn give_at(leaves: &mut [Leaf], b: usize, at: usize)
    requires next { b + 1 < length leaves.old }
    requires some { 0 < at }
    requires within { at < length (get_or (keys_of leaves.old) b []) }
    requires room { length (get_or (keys_of leaves.old) b []) + length (get_or (keys_of leaves.old) (b + 1) []) ≤ at + 256 }
    ensures { let x = get_or (keys_of leaves.old) b [] in let y = get_or (keys_of leaves.old) (b + 1) [] in
        keys_of leaves.new ≡ slice_set (slice_set (keys_of leaves.old) b (take at x)) (b + 1) (drop at x ++ y) }
{
    let (front, back) = leaves.split_at_mut(b + 1);
    front[b].give(at, &mut back[0]);
}

/// Splits a full leaf into two, of which the first keeps `cut` keys: half of them, or more in the last leaf.
fn split(keys: &mut Keys, b: usize, cut: usize)
    requires leaf { b < vec_len keys.old.leaves }
    requires full { length (get_or (keys_of keys.old.leaves.items) b []) ≡ 256 }
    requires least { 128 ≤ cut }
    requires most { cut < 256 }
    requires half { b + 1 < vec_len keys.old.leaves → cut ≡ 128 }
    requires room { vec_len keys.old.spares ≡ 0 → length (all_keys keys.old.leaves.items) < 128 * vec_len keys.old.leaves }
    ensures leaves { let x = get_or (keys_of keys.old.leaves.items) b [] in
        keys_of keys.new.leaves.items ≡ insert (slice_set (keys_of keys.old.leaves.items) b (take cut x)) (b + 1) (drop cut x) }
    ensures len { vec_len keys.new.leaves ≡ vec_len keys.old.leaves + 1 }
    ensures room { vec_len keys.new.leaves + vec_len keys.new.spares ≡ vec_len keys.old.leaves + vec_len keys.old.spares }
    ensures spares { vec_len keys.new.spares + 1 ≡ vec_len keys.old.spares }
{
    let memory = keys.spares.pop().unwrap().list;
    let upper = keys.leaves[b].split(cut, memory);
    keys.leaves.insert((b + 1) % BEYOND, upper).unwrap();
}

/// Writes down that the stretch that begins with an identifier is at a place of another block now.
pub fn renew(keys: &mut Keys, id: Id, number: usize, place: usize)
    requires few { number < 2 ^ 32 }
    requires there { (n : ℕ) × (look_in (all_keys keys.old.leaves.items) id ≡ Some (id, n)) }
    ensures looks { (q : Identifier) → q.counter < 2 ^ 32 → look_in (all_keys keys.new.leaves.items) q
        ≡ (if reaches id q (look_in (all_keys keys.old.leaves.items) q) then Some (id, number) else look_in (all_keys keys.old.leaves.items) q) }
    ensures len { length (all_keys keys.new.leaves.items) ≡ length (all_keys keys.old.leaves.items) }
    ensures leaves { vec_len keys.new.leaves ≡ vec_len keys.old.leaves }
    ensures spares { vec_len keys.new.spares ≡ vec_len keys.old.spares }
{
    let (leaf, likely) = keys.renewed[usize::from(id.site()) % SITES];
    let (b, at) = spot_behind(&keys.leaves, leaf, likely, id);
    keys.leaves[b].write(at - 1, Key::of(id, number, place));
    keys.renewed[usize::from(id.site()) % SITES] = (b, at);
}

/// Where the keys end that aren't above an identifier: a leaf, and a place there, which is the front only where none is. One leaf is
/// tried first.
fn spot(leaves: &[Leaf], leaf: usize, id: Id) -> (usize, usize)
    requires some { 0 < length leaves.now }
    requires rising { IsNonDecreasingBy (λ k. rank k.first) (all_keys leaves.now) }
    ensures leaf { result.0 < length leaves.now }
    ensures within { result.1 ≤ length (get_or (keys_of leaves.now) result.0 []) }
    ensures front { result.1 ≡ 0 → result.0 ≡ 0 }
    ensures below { (i : ℕ) (d : Kept) → i < place_in (keys_of leaves.now) result.0 result.1 → rank (get_or (all_keys leaves.now) i d).first ≤ rank id }
    ensures above { (i : ℕ) (d : Kept) → place_in (keys_of leaves.now) result.0 result.1 ≤ i → i < length (all_keys leaves.now) → rank id < rank (get_or (all_keys leaves.now) i d).first }
{
    let b = begun(leaves, leaf, id).saturating_sub(1);
    (b, not_above(&leaves[b].keys, id))
}

/// Where the keys end that aren't above an identifier, as `spot` gives it; one key of a leaf is tried first.
#[inline(always)]
fn spot_behind(leaves: &[Leaf], leaf: usize, likely: usize, id: Id) -> (usize, usize)
    requires some { 0 < length leaves.now }
    requires rising { IsNonDecreasingBy (λ k. rank k.first) (all_keys leaves.now) }
    ensures leaf { result.0 < length leaves.now }
    ensures within { result.1 ≤ length (get_or (keys_of leaves.now) result.0 []) }
    ensures front { result.1 ≡ 0 → result.0 ≡ 0 }
    ensures below { (i : ℕ) (d : Kept) → i < place_in (keys_of leaves.now) result.0 result.1 → rank (get_or (all_keys leaves.now) i d).first ≤ rank id }
    ensures above { (i : ℕ) (d : Kept) → place_in (keys_of leaves.now) result.0 result.1 ≤ i → i < length (all_keys leaves.now) → rank id < rank (get_or (all_keys leaves.now) i d).first }
{
    if ends_in(leaves, leaf, likely, rank_of(id)) {
        return (leaf, likely + 1);
    }
    spot(leaves, leaf, id)
}

/// Whether key j of leaf b isn't above a number, and the next one there is.
fn ends_in(leaves: &[Leaf], b: usize, j: usize, last: u64) -> bool
    ensures leaf { OnTrue result (b < length leaves.now) }
    ensures within { OnTrue result (j + 1 < length (get_or (keys_of leaves.now) b [])) }
    ensures below { OnTrue result ((d : Kept) → rank (get_or (get_or (keys_of leaves.now) b []) j d).first ≤ last) }
    ensures above { OnTrue result ((d : Kept) → last < rank (get_or (get_or (keys_of leaves.now) b []) (j + 1) d).first) }
{
    if b >= leaves.len() {
        return false;
    }
    let keys = &leaves[b].keys;
    ends_not_above(keys, j, last) && j + 1 < keys.len()
}

/// How many leaves at the front begin with a key that isn't above an identifier. They end behind one leaf most often.
fn begun(leaves: &[Leaf], likely: usize, id: Id) -> usize
    requires { IsNonDecreasingBy (λ k. rank k.first) (all_keys leaves.now) }
    ensures within { result ≤ length leaves.now }
    ensures below { (i : ℕ) → i < result → begins (get_or (keys_of leaves.now) i []) ≤ rank id }
    ensures above { (i : ℕ) → result ≤ i → i < length leaves.now → rank id < begins (get_or (keys_of leaves.now) i []) }
{
    let last = rank_of(id);
    if ends_begun(leaves, likely, last) {
        return likely + 1;
    }
    leaves.partition_point(|leaf| leaf.rank() <= last)
}

/// Whether leaf b begins with a key that isn't above a number, and the next one with one that is.
fn ends_begun(leaves: &[Leaf], b: usize, last: u64) -> bool
    ensures there { OnTrue result (b < length leaves.now) }
    ensures below { OnTrue result (begins (get_or (keys_of leaves.now) b []) ≤ last) }
    ensures above { OnTrue result (b + 1 < length leaves.now → last < begins (get_or (keys_of leaves.now) (b + 1) [])) }
{
    if b >= leaves.len() || last < leaves[b].rank() {
        return false;
    }
    b + 1 == leaves.len() || last < leaves[b + 1].rank()
}

//! Which block each identifier is in, and where blocks stand.

ghost use Rattle.std.specs.Prelude.{◌≡◌, ◌+◌, ◌*◌, ◌-◌, ◌%◌, ◌^◌, ◌<◌, ◌≤◌, ℕ, length, get_or, slice_get, IsSome, None, option_map, OnOk, if◌then◌else◌, Some};
ghost use Rattle.std.specs.List.{AllByRecursion};
ghost use Rattle.std.specs.HashMap.{get, hash_map_len, hasher_of};
ghost use Rattle.bg_types.specs.Identifier.{Identifier, same_id};
ghost use Rattle.rga_sequence.specs.BlockRows.{has, numbers_of};
ghost use Rattle.rga_sequence.specs.Grouped.{group_of, home_in, IsGrouped, HasIndexRoom};

use crate::block::{Block, FULL};
use bg_types::{Id, Keyed, Memory};
use rga_tree::Element;
use std::alloc::Global;
use std::collections::HashMap;

/// How many identifiers a group has: those of one site whose counters are neighbours.
const GROUP: usize = 8;

/// The number of the block of each identifier, by groups: so what is typed in a run is hashed once a group.
#[derive(Drop)]
pub struct Index {
    /// The number of each group, in the order in which they came.
    pub groups: HashMap<Id, usize, Keyed>,
    /// For each identifier of each group 1 more than its block's number, or 0 where it does not stand.
    pub numbers: Vec<u32>,
    /// Where each identifier stood in its block when that was written down, or 0. What came before it since then has
    /// moved it on, so it is sought from there. Nothing depends on it but the time of that search.
    pub hints: Vec<u16>,
    /// The group that was written last, and its number. The next identifier is often of it too.
    pub recent: Option<(Id, usize)>,
}

/// An index without identifiers, which takes no memory.
pub fn empty(alloc: Global, hasher: Keyed) -> Index
    ensures homes { (q : Identifier) → home_in ⟦<Id as Eq>⟧.eq result q ≡ None }
    ensures grouped { IsGrouped ⟦<Id as Eq>⟧.eq result }
    ensures room { HasIndexRoom result 0 }
    ensures hasher { hasher_of result.groups ≡ hasher }
{
    Index {
        groups: HashMap::with_hasher(alloc, hasher),
        numbers: Vec::new(alloc),
        hints: Vec::new(alloc),
        recent: None,
    }
}

/// Makes memory for n more identifiers, wherever they belong.
pub fn reserve(index: &mut Index, n: usize) -> Result<(), Memory>
    requires few { n ≤ 2 ^ 40 }
    requires grouped { IsGrouped ⟦<Id as Eq>⟧.eq index.old }
    ensures homes { (q : Identifier) → home_in ⟦<Id as Eq>⟧.eq index.new q ≡ home_in ⟦<Id as Eq>⟧.eq index.old q }
    ensures grouped { IsGrouped ⟦<Id as Eq>⟧.eq index.new }
    ensures ok { OnOk result (HasIndexRoom index.new n) }
    ensures kept { (m : ℕ) → HasIndexRoom index.old m → HasIndexRoom index.new m }
{
    index.groups.reserve(n)?;
    index.numbers.reserve(GROUP * n)?;
    index.hints.reserve(GROUP * n)?;
    Ok(())
}

/// The number of the block of an identifier, and from where on it may stand there.
pub fn home(index: &Index, id: Id) -> Option<(usize, usize)>
    requires { IsGrouped ⟦<Id as Eq>⟧.eq index.now }
    ensures { option_map (λ found. found.0) result ≡ home_in ⟦<Id as Eq>⟧.eq index.now id }
{
    let place = find(index, group(id))?;
    let slot = slot(place, id);
    let hint = index.hints.get(slot).copied().unwrap_or(0);
    match index.numbers[slot] {
        0 => None,
        number => Some((number as usize - 1, usize::from(hint))),
    }
}

/// Writes down the block of an identifier, and its place there.
pub fn put(index: &mut Index, id: Id, number: usize, at: usize)
    requires grouped { IsGrouped ⟦<Id as Eq>⟧.eq index.old }
    requires few { number + 1 < 2 ^ 32 }
    requires room { HasIndexRoom index.old 1 }
    ensures homes { (q : Identifier) → home_in ⟦<Id as Eq>⟧.eq index.new q
        ≡ (if same_id q id then Some number else home_in ⟦<Id as Eq>⟧.eq index.old q) }
    ensures grouped { IsGrouped ⟦<Id as Eq>⟧.eq index.new }
    ensures room { (n : ℕ) → HasIndexRoom index.old (n + 1) → HasIndexRoom index.new n }
{
    let place = find_or_add(index, group(id));
    write(index, place, id, number, at);
}

/// The elements are all of another block now, from its front.
pub fn rehome(index: &mut Index, moved: &[Element], number: usize)
    requires grouped { IsGrouped ⟦<Id as Eq>⟧.eq index.old }
    requires few { number + 1 < 2 ^ 32 }
    requires known { AllByRecursion (λ e. IsSome (home_in ⟦<Id as Eq>⟧.eq index.old e.id)) moved.now }
    ensures home { (q : Identifier) → home_in ⟦<Id as Eq>⟧.eq index.new q
        ≡ (if has q moved.now then Some number else home_in ⟦<Id as Eq>⟧.eq index.old q) }
    ensures grouped { IsGrouped ⟦<Id as Eq>⟧.eq index.new }
    ensures room { (n : ℕ) → HasIndexRoom index.old n → HasIndexRoom index.new n }
{
    let mut at = 0usize;
    for e in moved {
        let place = find(index, group(e.id)).unwrap();
        write(index, place, e.id, number, at);
        at = at.wrapping_add(1);
    }
}

/// The group of an identifier, named by the identifier that its number and its site make.
fn group(id: Id) -> Id
    ensures { result ≡ group_of id }
{
    Id::new(id.counter() / GROUP as u32 + 1, id.site()).unwrap()
}

/// Where the number of an identifier's block is, of the group with this number.
fn slot(place: usize, id: Id) -> usize
    requires { 8 * place + 8 < 2 ^ 64 }
    ensures { result ≡ 8 * place + id.counter % 8 }
{
    GROUP * place + id.counter() as usize % GROUP
}

/// The number of a group. The one that was written last is known without a hash.
#[inline(always)]
fn find(index: &Index, group: Id) -> Option<usize>
    requires { IsGrouped ⟦<Id as Eq>⟧.eq index.now }
    ensures { result ≡ get ⟦<Id as Eq>⟧.eq index.now.groups group }
{
    match index.recent {
        Some((recent, place)) if recent == group => Some(place),
        _ => look_up(index, group),
    }
}

/// The number of a group, by its hash. Not inlined, so that the callers of `find` stay short.
#[inline(never)]
fn look_up(index: &Index, group: Id) -> Option<usize>
    ensures { result ≡ get ⟦<Id as Eq>⟧.eq index.now.groups group }
{
    index.groups.get(&group).copied()
}

/// The number of a group, which is added where it is new.
fn find_or_add(index: &mut Index, group: Id) -> usize
    requires grouped { IsGrouped ⟦<Id as Eq>⟧.eq index.old }
    requires room { HasIndexRoom index.old 1 }
    ensures place { get ⟦<Id as Eq>⟧.eq index.new.groups group ≡ Some result }
    ensures homes { (q : Identifier) → home_in ⟦<Id as Eq>⟧.eq index.new q ≡ home_in ⟦<Id as Eq>⟧.eq index.old q }
    ensures grouped { IsGrouped ⟦<Id as Eq>⟧.eq index.new }
    ensures room { (n : ℕ) → HasIndexRoom index.old (n + 1) → HasIndexRoom index.new n }
{
    match find(index, group) {
        Some(place) => place,
        None => add(index, group),
    }
}

/// Adds a group, and returns its number.
#[inline(never)]
fn add(index: &mut Index, group: Id) -> usize
    requires grouped { IsGrouped ⟦<Id as Eq>⟧.eq index.old }
    requires new { get ⟦<Id as Eq>⟧.eq index.old.groups group ≡ None }
    requires room { HasIndexRoom index.old 1 }
    ensures place { get ⟦<Id as Eq>⟧.eq index.new.groups group ≡ Some result }
    ensures homes { (q : Identifier) → home_in ⟦<Id as Eq>⟧.eq index.new q ≡ home_in ⟦<Id as Eq>⟧.eq index.old q }
    ensures grouped { IsGrouped ⟦<Id as Eq>⟧.eq index.new }
    ensures room { (n : ℕ) → HasIndexRoom index.old (n + 1) → HasIndexRoom index.new n }
{
    let place = index.groups.len();
    let kept: Result<_, _> = index.groups.insert(group, place);
    kept.unwrap();
    index.numbers.extend_from_slice(&[0; GROUP]).unwrap();
    add_hints(&mut index.hints);
    place
}

/// Adds the hints of a group. They have memory wherever the group's numbers have.
fn add_hints(hints: &mut Vec<u16>) {
    if hints.capacity() - hints.len() >= GROUP {
        hints.extend_from_slice(&[0; GROUP]).unwrap();
    }
}

/// Writes down where the identifier of a slot stands in its block.
fn write_hint(hints: &mut [u16], slot: usize, at: usize) {
    if let Some(hint) = hints.get_mut(slot) {
        *hint = (at % FULL) as u16;
    }
}

/// Writes down the block of an identifier, whose group has this number, and its place in the block.
fn write(index: &mut Index, place: usize, id: Id, number: usize, at: usize)
    requires grouped { IsGrouped ⟦<Id as Eq>⟧.eq index.old }
    requires place { get ⟦<Id as Eq>⟧.eq index.old.groups (group_of id) ≡ Some place }
    requires few { number + 1 < 2 ^ 32 }
    ensures homes { (q : Identifier) → home_in ⟦<Id as Eq>⟧.eq index.new q
        ≡ (if same_id q id then Some number else home_in ⟦<Id as Eq>⟧.eq index.old q) }
    ensures grouped { IsGrouped ⟦<Id as Eq>⟧.eq index.new }
    ensures room { (n : ℕ) → HasIndexRoom index.old n → HasIndexRoom index.new n }
{
    let slot = slot(place, id);
    index.numbers[slot] = (number + 1) as u32;
    write_hint(&mut index.hints, slot, at);
    index.recent = Some((group(id), place));
}

/// Writes down the place of each block from one on. Those before it are written down already.
pub fn renumber(places: &mut [usize], blocks: &[Block], from: usize)
    requires known { (p : ℕ) → p < length blocks.now → get_or (numbers_of blocks.now) p 0 < length places.old }
    requires apart { (p r : ℕ) → p < length blocks.now → r < length blocks.now
        → get_or (numbers_of blocks.now) p 0 ≡ get_or (numbers_of blocks.now) r 0 → p ≡ r }
    requires before { (p : ℕ) → p < from → slice_get places.old (get_or (numbers_of blocks.now) p 0) ≡ Some p }
    requires from { from ≤ length blocks.now }
    ensures { (p : ℕ) → p < length blocks.now → slice_get places.new (get_or (numbers_of blocks.now) p 0) ≡ Some p }
{
    for p in from..blocks.len() {
        places[blocks[p].number] = p;
    }
}

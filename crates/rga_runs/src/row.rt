//! The row of blocks with the index of its stretches.

ghost use Rattle.std.specs.Prelude.{◌≡◌, ◌+◌, ◌-◌, ◌^◌, ◌<◌, ◌≤◌, ◌∷◌, [], ℕ, All, length, get_or, insert, slice_set, false, Some, IfSome, IfNone, vec_len};
ghost use Rattle.std.specs.Bool.{OnTrue, OnFalse};
ghost use Rattle.rga_runs.specs.declared.stretch.Stretch.{Stretch as Kept};
ghost use Rattle.rga_runs.specs.Typed.{later, is_odd, bits_from};
ghost use Rattle.rga_runs.specs.Stretches.{IsOutside, AreApart};
ghost use Rattle.rga_runs.specs.Changed.{IsGrown, IsHidden, IsParted, IsLone};
ghost use Rattle.rga_runs.specs.Blocks.{at_spot};
ghost use Rattle.rga_runs.specs.BlockRows.{items_of};
ghost use Rattle.rga_runs.specs.Keyed.{look_in};
ghost use Rattle.rga_runs.specs.KeyRows.{keys_in};
ghost use Rattle.rga_runs.specs.Indexed.{stretches_in, IsIndexed, HasRoom, TakesRoom};

use crate::block::Block;
use crate::key::Key;
use crate::keys::{self, Keys};
use crate::lists::Spare;
use crate::room::make_room;
use crate::stretch::{Stretch, weight};
use crate::{bounds, counts, search};
use bg_types::{Id, Place};

/// Blocks in order, memory for more, the key of each stretch, and the place of the block of each number.
#[derive(Drop)]
pub struct Row {
    pub blocks: Vec<Block>,
    pub spares: Vec<Spare<Stretch>>,
    pub keys: Keys,
    pub places: Vec<usize>,
    /// How many stretches the blocks have.
    pub count: usize,
    /// Where a character was put in or found last. The next one is often put after it, or after what it was put after.
    pub recent: (usize, usize),
    /// The counter with which the last stretch began that was put in.
    pub latest: u32,
    /// For each 32 blocks of the row an identifier that is no greater than any with which a stretch of theirs begins. The last
    /// blocks may have none.
    pub bounds: Vec<Id>,
    /// For each 32 blocks of the row how many of their characters are visible. The last blocks may have none.
    pub sums: Vec<usize>,
}

/// The block of an identifier, the place of its stretch there, and which character of that it is.
pub fn spot(row: &Row, id: Id) -> Option<(usize, usize, usize)>
    requires indexed { IsIndexed row.now }
    requires apart { AreApart (stretches_in row.now) }
    ensures block { IfSome result (λ s. s.0 < vec_len row.now.blocks) }
    ensures within { IfSome result (λ s. s.1 < length (get_or (items_of row.now.blocks.items) s.0 [])) }
    ensures inside { IfSome result (λ s. (d : Kept) → s.2 < (get_or (get_or (items_of row.now.blocks.items) s.0 []) s.1 d).count) }
    ensures there { IfSome result (λ s. (d : Kept) → id ≡ later (get_or (get_or (items_of row.now.blocks.items) s.0 []) s.1 d).first s.2) }
    ensures absent { IfNone result (All (IsOutside id) (stretches_in row.now)) }
{
    match recent_spot(row, id) {
        Some(found) => Some(found),
        None => keyed_spot(row, id),
    }
}

/// Whether an identifier stands.
pub fn stands(row: &Row, id: Id) -> bool
    requires indexed { IsIndexed row.now }
    requires apart { AreApart (stretches_in row.now) }
    ensures yes { OnTrue result (All (IsOutside id) (stretches_in row.now) → ⊥) }
    ensures no { OnFalse result (All (IsOutside id) (stretches_in row.now)) }
{
    recent_spot(row, id).is_some() || is_keyed(row, id)
}

/// What `spot` gives, of a character of the stretch in which one was put last, or of the stretch before it.
fn recent_spot(row: &Row, id: Id) -> Option<(usize, usize, usize)>
    ensures block { IfSome result (λ s. s.0 < vec_len row.now.blocks) }
    ensures within { IfSome result (λ s. s.1 < length (get_or (items_of row.now.blocks.items) s.0 [])) }
    ensures inside { IfSome result (λ s. (d : Kept) → s.2 < (get_or (get_or (items_of row.now.blocks.items) s.0 []) s.1 d).count) }
    ensures there { IfSome result (λ s. (d : Kept) → id ≡ later (get_or (get_or (items_of row.now.blocks.items) s.0 []) s.1 d).first s.2) }
{
    let (b, j) = row.recent;
    match spot_in(row, b, j, id) {
        Some(found) => Some(found),
        None => spot_in(row, b, j.saturating_sub(1), id),
    }
}

/// What `spot` gives, of a character of stretch j of block b, if there is that stretch.
fn spot_in(row: &Row, b: usize, j: usize, id: Id) -> Option<(usize, usize, usize)>
    ensures block { IfSome result (λ s. s.0 < vec_len row.now.blocks) }
    ensures within { IfSome result (λ s. s.1 < length (get_or (items_of row.now.blocks.items) s.0 [])) }
    ensures inside { IfSome result (λ s. (d : Kept) → s.2 < (get_or (get_or (items_of row.now.blocks.items) s.0 []) s.1 d).count) }
    ensures there { IfSome result (λ s. (d : Kept) → id ≡ later (get_or (get_or (items_of row.now.blocks.items) s.0 []) s.1 d).first s.2) }
{
    let block = row.blocks.get(b)?;
    let stretch = block.stretches.get(j)?;
    let k = stretch.place_in(id)?;
    Some((b, j, k))
}

/// The stretch in which a character was put last, its block and how many more it takes in behind that, where the character is
/// stored last and is its last one.
pub fn room_behind(row: &Row, last: Id, end: usize) -> Option<(usize, usize, usize)>
    ensures block { IfSome result (λ s. s.0 < vec_len row.now.blocks) }
    ensures within { IfSome result (λ s. s.1 < length (get_or (items_of row.now.blocks.items) s.0 [])) }
    ensures last { IfSome result (λ s. (d : Kept) → let t = get_or (get_or (items_of row.now.blocks.items) s.0 []) s.1 d in last ≡ later t.first (t.count - 1)) }
    ensures end { IfSome result (λ s. (d : Kept) → let t = get_or (get_or (items_of row.now.blocks.items) s.0 []) s.1 d in end ≡ t.start + t.count) }
    ensures few { IfSome result (λ s. (d : Kept) → (get_or (get_or (items_of row.now.blocks.items) s.0 []) s.1 d).count + s.2 ≤ 24) }
    ensures bits { IfSome result (λ s. (d : Kept) → let t = get_or (get_or (items_of row.now.blocks.items) s.0 []) s.1 d in bits_from t.count t.hidden ≡ 0) }
{
    let (b, j) = row.recent;
    let block = row.blocks.get(b)?;
    let stretch = block.stretches.get(j)?;
    let most = stretch.room_behind(last, end)?;
    Some((b, j, most))
}

/// Whether an identifier stands, by the keys. One with which a stretch begins does, and the stretch isn't read.
#[inline(never)]
fn is_keyed(row: &Row, id: Id) -> bool
    requires indexed { IsIndexed row.now }
    requires apart { AreApart (stretches_in row.now) }
    ensures yes { OnTrue result (All (IsOutside id) (stretches_in row.now) → ⊥) }
    ensures no { OnFalse result (All (IsOutside id) (stretches_in row.now)) }
{
    match keys::find(&row.keys, id) {
        Some(key) => key.first == id || spot_by(row, &key, id).is_some(),
        None => false,
    }
}

/// What `spot` gives, found by the keys.
#[inline(never)]
fn keyed_spot(row: &Row, id: Id) -> Option<(usize, usize, usize)>
    requires indexed { IsIndexed row.now }
    requires apart { AreApart (stretches_in row.now) }
    ensures block { IfSome result (λ s. s.0 < vec_len row.now.blocks) }
    ensures within { IfSome result (λ s. s.1 < length (get_or (items_of row.now.blocks.items) s.0 [])) }
    ensures inside { IfSome result (λ s. (d : Kept) → s.2 < (get_or (get_or (items_of row.now.blocks.items) s.0 []) s.1 d).count) }
    ensures there { IfSome result (λ s. (d : Kept) → id ≡ later (get_or (get_or (items_of row.now.blocks.items) s.0 []) s.1 d).first s.2) }
    ensures absent { IfNone result (All (IsOutside id) (stretches_in row.now)) }
{
    let key = keys::find(&row.keys, id)?;
    spot_by(row, &key, id)
}

/// What `spot` gives, by the key to which an identifier leads: where that key's stretch hasn't it, it stands nowhere.
fn spot_by(row: &Row, key: &Key, id: Id) -> Option<(usize, usize, usize)>
    requires indexed { IsIndexed row.now }
    requires apart { AreApart (stretches_in row.now) }
    requires found { look_in (keys_in row.now.keys) id ≡ Some (key.now.first, key.now.number) }
    ensures block { IfSome result (λ s. s.0 < vec_len row.now.blocks) }
    ensures within { IfSome result (λ s. s.1 < length (get_or (items_of row.now.blocks.items) s.0 [])) }
    ensures inside { IfSome result (λ s. (d : Kept) → s.2 < (get_or (get_or (items_of row.now.blocks.items) s.0 []) s.1 d).count) }
    ensures there { IfSome result (λ s. (d : Kept) → id ≡ later (get_or (get_or (items_of row.now.blocks.items) s.0 []) s.1 d).first s.2) }
    ensures absent { IfNone result (All (IsOutside id) (stretches_in row.now)) }
{
    let b = *row.places.get(key.number as usize)?;
    let block = row.blocks.get(b)?;
    let j = search::begun_by(&block.stretches, usize::from(key.hint), key.first)?;
    let stretch = block.stretches.get(j)?;
    let k = stretch.place_in(id)?;
    Some((b, j, k))
}

/// Puts in the first stretch.
#[inline(never)]
pub fn put_first(row: &mut Row, id: Id, parent: Place, start: usize, hidden: bool)
    requires none { vec_len row.old.blocks ≡ 0 }
    requires indexed { IsIndexed row.old }
    requires place { start < 2 ^ 32 }
    requires room { HasRoom row.old 1 }
    ensures row { (s : Kept) × IsLone s id parent start hidden × (stretches_in row.new ≡ s ∷ []) }
    ensures indexed { IsIndexed row.new }
    ensures room { TakesRoom 1 row.old row.new }
{
    let stretches = row.spares.pop().unwrap().list;
    let block = Block::lone(stretches, 0, id, parent, start, hidden);
    row.blocks.push(block).unwrap();
    row.places.push(0).unwrap();
    row.bounds.clear();
    keys::put(&mut row.keys, id, 0, 0);
    row.count = 1;
    row.recent = (0, 0);
    row.latest = id.counter();
}

/// Puts in a stretch of one character at a spot.
pub fn put_lone(
    row: &mut Row,
    b: usize,
    j: usize,
    id: Id,
    parent: Place,
    start: usize,
    hidden: bool,
)
    requires block { b < vec_len row.old.blocks }
    requires within { j ≤ length (get_or (items_of row.old.blocks.items) b []) }
    requires indexed { IsIndexed row.old }
    requires apart { AreApart (stretches_in row.old) }
    requires new { All (IsOutside id) (stretches_in row.old) }
    requires place { start < 2 ^ 32 }
    requires room { HasRoom row.old 1 }
    ensures row { (s : Kept) × IsLone s id parent start hidden
        × (stretches_in row.new ≡ insert (stretches_in row.old) (at_spot (items_of row.old.blocks.items) b j) s) }
    ensures indexed { IsIndexed row.new }
    ensures room { TakesRoom 1 row.old row.new }
{
    let (q, at) = make_room(row, b, j);
    row.blocks[q].insert(at, id, parent, start, hidden);
    bounds::lower(&mut row.bounds, q, id);
    counts::raise(&mut row.sums, q, weight(hidden));
    let number = row.blocks[q].number;
    keys::put(&mut row.keys, id, number, at);
    row.count += 1;
    row.recent = (q, at);
    row.latest = id.counter();
}

/// Parts stretch j of block b before its character k, and answers where the rest stands: its block, and its place there, which
/// is right behind the stretch.
pub fn part(row: &mut Row, b: usize, j: usize, k: usize) -> (usize, usize)
    requires block { b < vec_len row.old.blocks }
    requires within { j < length (get_or (items_of row.old.blocks.items) b []) }
    requires some { 0 < k }
    requires inside { (d : Kept) → k < (get_or (get_or (items_of row.old.blocks.items) b []) j d).count }
    requires indexed { IsIndexed row.old }
    requires apart { AreApart (stretches_in row.old) }
    requires room { HasRoom row.old 1 }
    ensures block { result.0 < vec_len row.new.blocks }
    ensures within { result.1 < length (get_or (items_of row.new.blocks.items) result.0 []) }
    ensures behind { 0 < result.1 }
    ensures place { at_spot (items_of row.new.blocks.items) result.0 result.1 ≡ at_spot (items_of row.old.blocks.items) b j + 1 }
    ensures row { (d : Kept) → let p = at_spot (items_of row.old.blocks.items) b j in (s : Kept) × (rest : Kept) × IsParted (get_or (stretches_in row.old) p d) s rest k
        × (stretches_in row.new ≡ insert (slice_set (stretches_in row.old) p s) (p + 1) rest) }
    ensures indexed { IsIndexed row.new }
    ensures room { TakesRoom 1 row.old row.new }
{
    let (q, at) = make_room(row, b, j + 1);
    let first = row.blocks[q].part(at - 1, k);
    let number = row.blocks[q].number;
    keys::add(&mut row.keys, first, number, at);
    row.count += 1;
    (q, at)
}

/// Lets stretch j of block b take in the characters behind its last one.
pub fn grow(row: &mut Row, b: usize, j: usize, more: usize)
    requires block { b < vec_len row.old.blocks }
    requires within { j < length (get_or (items_of row.old.blocks.items) b []) }
    requires new { (d : Kept) → let s = get_or (get_or (items_of row.old.blocks.items) b []) j d in (k : ℕ) → k < more → All (IsOutside (later s.first (s.count + k))) (stretches_in row.old) }
    requires counter { (d : Kept) → let s = get_or (get_or (items_of row.old.blocks.items) b []) j d in s.first.counter + s.count + more ≤ 2 ^ 32 }
    requires place { (d : Kept) → let s = get_or (get_or (items_of row.old.blocks.items) b []) j d in s.start + s.count + more ≤ 2 ^ 32 }
    requires few { (d : Kept) → (get_or (get_or (items_of row.old.blocks.items) b []) j d).count + more ≤ 24 }
    requires bits { (d : Kept) → let s = get_or (get_or (items_of row.old.blocks.items) b []) j d in bits_from s.count s.hidden ≡ 0 }
    requires indexed { IsIndexed row.old }
    ensures row { (d : Kept) → let p = at_spot (items_of row.old.blocks.items) b j in (s : Kept) × IsGrown (get_or (stretches_in row.old) p d) s more
        × (stretches_in row.new ≡ slice_set (stretches_in row.old) p s) }
    ensures indexed { IsIndexed row.new }
    ensures room { TakesRoom 0 row.old row.new }
{
    row.blocks[b].grow(j, more);
    counts::raise(&mut row.sums, b, more);
    row.recent = (b, j);
}

/// Hides character k of stretch j of block b, which is visible.
pub fn hide_character(row: &mut Row, b: usize, j: usize, k: usize)
    requires block { b < vec_len row.old.blocks }
    requires within { j < length (get_or (items_of row.old.blocks.items) b []) }
    requires inside { (d : Kept) → k < (get_or (get_or (items_of row.old.blocks.items) b []) j d).count }
    requires visible { (d : Kept) → is_odd (bits_from k (get_or (get_or (items_of row.old.blocks.items) b []) j d).hidden) ≡ false }
    requires indexed { IsIndexed row.old }
    ensures row { (d : Kept) → let p = at_spot (items_of row.old.blocks.items) b j in (s : Kept) × IsHidden (get_or (stretches_in row.old) p d) s k
        × (stretches_in row.new ≡ slice_set (stretches_in row.old) p s) }
    ensures indexed { IsIndexed row.new }
    ensures room { TakesRoom 0 row.old row.new }
{
    row.blocks[b].hide(j, k);
    counts::lower(&mut row.sums, b, 1);
}

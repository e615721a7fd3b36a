//! Blocks of stretches.

ghost use Rattle.std.specs.Prelude.{◌≡◌, ◌+◌, ◌^◌, ◌<◌, ◌≤◌, ◌∷◌, [], ℕ, length, take, drop, get_or, insert, slice_set, true, false, vec_len, vec_capacity, if◌then◌else◌};
ghost use Rattle.std.specs.Ordering.{is_lt};
ghost use Rattle.bg_types.specs.Identifier.{id_cmp};
ghost use Rattle.rga_runs.specs.declared.stretch.Stretch.{Stretch as Kept};
ghost use Rattle.rga_runs.specs.Changed.{IsLone, IsGrown, IsHidden, IsParted};
ghost use Rattle.rga_runs.specs.Stretches.{count_in, visible_in};
ghost use Rattle.rga_runs.specs.Typed.{is_odd, bits_from};
ghost use Rattle.rga_runs.specs.Blocks.{none_below};

use crate::cut::FULL;
use crate::lists::put_in;
use crate::search::{count_all, count_visible};
use crate::stretch::Stretch;
use bg_types::{Id, Place};
use std::mem::replace;

/// At least one stretch and at most 256, in the order of the walk, with memory for 256.
#[derive(Drop)]
pub struct Block {
    pub stretches: Vec<Stretch>,
    /// How many characters they have, and how many of those are visible.
    pub count: usize,
    pub visible: usize,
    /// None begins with a lesser identifier.
    pub least: Id,
    pub number: usize,
    ghost some: { 0 < vec_len stretches },
    ghost few: { vec_len stretches ≤ 256 },
    ghost room: { 256 ≤ vec_capacity stretches },
    ghost counted: { count ≡ count_in stretches.items },
    ghost visible_are: { visible ≡ visible_in stretches.items },
    ghost low: { none_below least stretches.items ≡ true },
}

impl Block {
    /// A block of one stretch, which has one character.
    pub fn lone(
        mut stretches: Vec<Stretch>,
        number: usize,
        id: Id,
        parent: Place,
        start: usize,
        hidden: bool,
    ) -> Block
        requires empty { stretches.items ≡ [] }
        requires room { 256 ≤ vec_capacity stretches }
        requires place { start < 2 ^ 32 }
        ensures items { (s : Kept) × IsLone s id parent start hidden × (result.stretches.items ≡ s ∷ []) }
        ensures number { result.number ≡ number }
    {
        let new = Stretch::lone(id, parent, start, hidden);
        let visible = new.visible();
        stretches.push(new).unwrap();
        Block {
            stretches,
            count: 1,
            visible,
            least: id,
            number,
        }
    }

    /// Puts in a stretch of one character, with room for it.
    pub fn insert(&mut self, j: usize, id: Id, parent: Place, start: usize, hidden: bool)
        requires within { j ≤ length self.old.stretches.items }
        requires room { length self.old.stretches.items < 256 }
        requires place { start < 2 ^ 32 }
        ensures items { (s : Kept) × IsLone s id parent start hidden × (self.new.stretches.items ≡ insert self.old.stretches.items j s) }
        ensures number { self.new.number ≡ self.old.number }
    {
        let new = Stretch::lone(id, parent, start, hidden);
        self.least = lesser(id, self.least);
        self.count += 1;
        self.visible += new.visible();
        put_in(&mut self.stretches, j, new);
    }

    /// Lets a stretch take in more characters.
    pub fn grow(&mut self, j: usize, more: usize)
        requires there { j < length self.old.stretches.items }
        requires counter { (d : Kept) → let s = get_or self.old.stretches.items j d in s.first.counter + s.count + more ≤ 2 ^ 32 }
        requires place { (d : Kept) → let s = get_or self.old.stretches.items j d in s.start + s.count + more ≤ 2 ^ 32 }
        requires few { (d : Kept) → (get_or self.old.stretches.items j d).count + more ≤ 24 }
        requires bits { (d : Kept) → let s = get_or self.old.stretches.items j d in bits_from s.count s.hidden ≡ 0 }
        ensures items { (d : Kept) → (s : Kept) × IsGrown (get_or self.old.stretches.items j d) s more
            × (self.new.stretches.items ≡ slice_set self.old.stretches.items j s) }
        ensures number { self.new.number ≡ self.old.number }
    {
        self.stretches[j].grow(more);
        self.count += more;
        self.visible += more;
    }

    /// Hides character k of a stretch, which is visible.
    pub fn hide(&mut self, j: usize, k: usize)
        requires there { j < length self.old.stretches.items }
        requires within { (d : Kept) → k < (get_or self.old.stretches.items j d).count }
        requires visible { (d : Kept) → is_odd (bits_from k (get_or self.old.stretches.items j d).hidden) ≡ false }
        ensures items { (d : Kept) → (s : Kept) × IsHidden (get_or self.old.stretches.items j d) s k
            × (self.new.stretches.items ≡ slice_set self.old.stretches.items j s) }
        ensures number { self.new.number ≡ self.old.number }
    {
        self.stretches[j].hide(k);
        self.visible -= 1;
    }

    /// Parts a stretch before its character k, and answers with which identifier the rest begins. There is room for one more.
    pub fn part(&mut self, j: usize, k: usize) -> Id
        requires there { j < length self.old.stretches.items }
        requires some { 0 < k }
        requires within { (d : Kept) → k < (get_or self.old.stretches.items j d).count }
        requires room { length self.old.stretches.items < 256 }
        ensures items { (d : Kept) → (s : Kept) × (rest : Kept) × IsParted (get_or self.old.stretches.items j d) s rest k
            × (rest.first ≡ result) × (self.new.stretches.items ≡ insert (slice_set self.old.stretches.items j s) (j + 1) rest) }
        ensures number { self.new.number ≡ self.old.number }
    {
        let rest = self.stretches[j].part(k);
        let first = rest.first;
        put_in(&mut self.stretches, j + 1, rest);
        first
    }

    /// Moves the stretches of a full block from one on to a new block. The new memory is for those that stay.
    pub fn split(&mut self, cut: usize, mut lower: Vec<Stretch>, number: usize) -> Block
        requires full { length self.old.stretches.items ≡ 256 }
        requires some { 0 < cut }
        requires most { cut < 256 }
        requires empty { lower.items ≡ [] }
        requires room { 256 ≤ vec_capacity lower }
        ensures items { self.new.stretches.items ≡ take cut self.old.stretches.items }
        ensures upper { result.stretches.items ≡ drop cut self.old.stretches.items }
        ensures number { self.new.number ≡ self.old.number }
        ensures upper_number { result.number ≡ number }
    {
        lower.extend_from_slice(&self.stretches[..cut]).unwrap();
        let mut upper = replace(&mut self.stretches, lower);
        upper.copy_within(cut.., 0);
        upper.truncate(FULL - cut);
        let least = least_of(&upper);
        let count = count_all(&upper);
        let visible = count_visible(&upper);
        self.least = least_of(&self.stretches);
        self.count -= count;
        self.visible -= visible;
        Block {
            stretches: upper,
            count,
            visible,
            least,
            number,
        }
    }
}

/// The least identifier with which a stretch begins.
fn least_of(stretches: &[Stretch]) -> Id
    requires { 0 < length stretches.now }
    ensures { none_below result stretches.now ≡ true }
{
    let mut least = stretches[0].first;
    for stretch in stretches {
        least = lesser(stretch.first, least);
    }
    least
}

/// The lesser of two identifiers.
pub fn lesser(a: Id, b: Id) -> Id
    ensures { result ≡ (if is_lt (id_cmp a b) then a else b) }
{
    if is_below(a, b) { a } else { b }
}

/// Whether the first identifier is the lesser. Written out: compiled code then compares sites only where the counters are equal.
#[inline(always)]
pub fn is_below(a: Id, b: Id) -> bool
    ensures { result ≡ is_lt (id_cmp a b) }
{
    a.counter() < b.counter() || (a.counter() == b.counter() && a.site() < b.site())
}

//! Stretches.

ghost use Rattle.std.specs.Prelude.{◌≡◌, ◌+◌, ◌-◌, ◌*◌, ◌^◌, ◌<◌, ◌≤◌, ◌++◌, ℕ, List, length, take, drop, slice_get, Some, IfSome, IfNone, OnOk, true, false, if◌then◌else◌, string_bytes, encode_utf8_all};
ghost use Rattle.std.specs.Bool.{OnTrue, OnFalse};
ghost use Rattle.std.specs.Ordering.{is_lt};
ghost use Rattle.std.specs.Str.{IsUtf8};
ghost use Rattle.bg_types.specs.Identifier.{id_cmp};
ghost use Rattle.bg_types.specs.declared.op.Place.TheVariants.{After};
ghost use Rattle.rga_tree.specs.Row.{shown_of};
ghost use Rattle.rga_runs.specs.Typed.{later, parent_at, is_odd, bits_from, unset};

use crate::marks::Marks;
use crate::parent::Parent;
use bg_types::{Id, Memory, Place};
use rga_tree::{Element, UNPACKED, Unpacked, push_bytes, put_char};

/// How many characters a stretch has at most: as many as its marks say of whether they are hidden.
pub const LONG: usize = 24;

const _: () = prove!(LONG <= UNPACKED);

/// Characters that one site typed one after the other, each behind the one before.
#[derive(Clone, Copy)]
pub struct Stretch {
    /// Where its characters stand among all that were placed.
    pub start: u32,
    /// The identifier of the first one. Those of the others have the counters after it.
    pub first: Id,
    /// The parent of the first one.
    pub parent: Parent,
    /// A bit for each of them, from the lowest on, that says whether it is hidden.
    pub hidden: Marks,
    pub count: u8,
    ghost some: { 0 < count },
    ghost few: { count ≤ 24 },
    ghost counters: { first.counter + count ≤ 2 ^ 32 },
    ghost places: { start + count ≤ 2 ^ 32 },
}

const _: () = prove!(size_of::<Stretch>() == 20);

impl Stretch {
    ghost use Rattle.rga_runs.specs.Stretches.{characters_of, elements_of, visible_of};

    /// A stretch of one character.
    pub fn lone(id: Id, parent: Place, start: usize, hidden: bool) -> Stretch
        requires { start < 2 ^ 32 }
        ensures start { result.start ≡ start }
        ensures count { result.count ≡ 1 }
        ensures first { result.first ≡ id }
        ensures parent { result.parent ≡ parent }
        ensures hidden { result.hidden ≡ (if hidden then 1 else 0) }
    {
        // Reading the identifier shows the proof that its counter fits.
        let _known = id.counter();
        Stretch {
            start: start as u32,
            first: id,
            parent: Parent::of(parent),
            hidden: Marks::of(u32::from(hidden)),
            count: 1,
        }
    }

    /// How many characters it has.
    pub fn len(&self) -> usize
        ensures { result ≡ self.now.count }
    {
        usize::from(self.count)
    }

    /// How many of them are visible.
    pub fn visible(&self) -> usize
        ensures { result ≡ visible_of self.now }
    {
        if self.hidden.bits() == 0 {
            self.len()
        } else {
            self.visible_before(self.len())
        }
    }

    /// The identifier of character k.
    pub fn id_at(&self, k: usize) -> Id
        requires { k < self.now.count }
        ensures { result ≡ later self.now.first k }
    {
        Id::new(self.first.counter() + k as u32, self.first.site()).unwrap()
    }

    /// The parent of character k.
    fn parent_of(&self, k: usize) -> Place
        requires { k < self.now.count }
        ensures { result ≡ parent_at self.now.first self.now.parent k }
    {
        if k == 0 {
            self.parent.place()
        } else {
            Place::After(self.id_at(k - 1))
        }
    }

    /// Whether character k is hidden.
    pub fn hides(&self, k: usize) -> bool
        requires { k < 32 }
        ensures { result ≡ is_odd (bits_from k self.now.hidden) }
    {
        (self.hidden.bits() >> k) % 2 == 1
    }

    /// Character k as an element.
    pub fn element(&self, chars: &[char], k: usize) -> Element
        requires stored { self.now.start + self.now.count ≤ length chars.now }
        requires within { k < self.now.count }
        ensures { slice_get (elements_of chars.now self.now) k ≡ Some result }
    {
        let parent = self.parent_of(k);
        Element {
            ch: chars[self.start as usize + k],
            id: self.id_at(k),
            parent,
            hidden: self.hides(k),
        }
    }

    /// Its characters as elements, which are put to the front of what is lent.
    pub fn unpack<'a>(&self, chars: &[char], unpacked: &'a mut Unpacked) -> &'a [Element]
        requires { self.now.start + self.now.count ≤ length chars.now }
        ensures { result.now ≡ elements_of chars.now self.now }
    {
        for k in 0..self.len() {
            unpacked.elements[k] = self.element(chars, k);
        }
        &unpacked.elements[..self.len()]
    }

    /// Appends its visible characters. The bytes are lent for the work.
    pub fn push_shown(
        &self,
        chars: &[char],
        read: &mut String,
        bytes: &mut [u8],
    ) -> Result<(), Memory>
        requires stored { self.now.start + self.now.count ≤ length chars.now }
        requires room { 4 * self.now.count ≤ length bytes.old }
        ensures { OnOk result (string_bytes read.new ≡ string_bytes read.old ++ encode_utf8_all (shown_of (elements_of chars.now self.now))) }
    {
        let end = self.encode_shown(chars, bytes);
        push_bytes(read, &bytes[..end])
    }

    /// Puts its visible characters to the front of these bytes, and answers where they end.
    fn encode_shown(&self, chars: &[char], bytes: &mut [u8]) -> usize
        requires stored { self.now.start + self.now.count ≤ length chars.now }
        requires room { 4 * self.now.count ≤ length bytes.old }
        ensures within { result ≤ length bytes.new }
        ensures bytes { take result bytes.new ≡ encode_utf8_all (shown_of (elements_of chars.now self.now)) }
        ensures utf8 { IsUtf8 (take result bytes.new) }
    {
        let mut end = 0;
        for (k, ch) in self.characters(chars).iter().enumerate() {
            if !self.hides(k) {
                end = put_char(*ch, bytes, end);
            }
        }
        end
    }

    /// Its characters, hidden ones included.
    fn characters<'a>(&self, chars: &'a [char]) -> &'a [char]
        requires { self.now.start + self.now.count ≤ length chars.now }
        ensures { result.now ≡ characters_of chars.now self.now }
    {
        let start = self.start as usize;
        &chars[start..start + self.len()]
    }

    /// How many of its first characters are visible.
    pub fn visible_before(&self, k: usize) -> usize
        requires { k ≤ self.now.count }
        ensures { result ≡ unset k self.now.hidden }
    {
        let mut visible = 0;
        for i in 0..k {
            visible += weight(self.hides(i));
        }
        visible
    }

    /// Which of its characters is visible character n of it.
    pub fn visible_at(&self, n: usize) -> usize
        requires { n < visible_of self.now }
        ensures within { result < self.now.count }
        ensures visible { is_odd (bits_from result self.now.hidden) ≡ false }
        ensures before { unset result self.now.hidden ≡ n }
    {
        if self.hidden.bits() == 0 {
            return n;
        }
        let mut left = n;
        for k in 0..self.len() {
            let here = weight(self.hides(k));
            if left < here {
                return k;
            }
            left -= here;
        }
        unreachable!()
    }

    /// Which of its characters has this identifier.
    pub fn place_in(&self, id: Id) -> Option<usize>
        ensures within { IfSome result (λ k. k < self.now.count) }
        ensures there { IfSome result (λ k. id ≡ later self.now.first k) }
        ensures absent { IfNone result ((k : ℕ) → k < self.now.count → id ≡ later self.now.first k → ⊥) }
    {
        let (from, counter) = (self.first.counter(), id.counter());
        if id.site() != self.first.site() || counter < from {
            return None;
        }
        let k = (counter - from) as usize;
        if k < self.len() { Some(k) } else { None }
    }

    /// Whether its characters from k on stop an element with this identifier that goes behind greater ones.
    pub fn stops(&self, k: usize, id: Id) -> bool
        ensures yes { OnTrue result (k < self.now.count) }
        ensures no { OnFalse result (k < self.now.count → is_lt (id_cmp id (later self.now.first k)) ≡ true) }
    {
        k < self.len() && id >= self.id_at(k)
    }

    /// Whether its first character is a greater child of the same parent.
    pub fn is_greater_sibling(&self, id: Id, parent: &Place) -> bool
        ensures parent { OnTrue result (self.now.parent ≡ parent.now) }
        ensures greater { OnTrue result (is_lt (id_cmp id self.now.first) ≡ true) }
    {
        id < self.first && self.parent.place() == *parent
    }

    /// Whether a character that is placed right behind it, and stored there, is its next one.
    pub fn goes_on(&self, id: Id, parent: &Place, start: usize, hidden: bool) -> bool
        ensures id { OnTrue result (id ≡ later self.now.first self.now.count) }
        ensures parent { OnTrue result (parent.now ≡ After (later self.now.first (self.now.count - 1))) }
        ensures start { OnTrue result (start ≡ self.now.start + self.now.count) }
        ensures hidden { OnTrue result (hidden ≡ false) }
        ensures few { OnTrue result (self.now.count < 24) }
        ensures bits { OnTrue result (bits_from self.now.count self.now.hidden ≡ 0) }
    {
        if hidden
            || id.site() != self.first.site()
            || id.counter() as usize != self.next_counter()
        {
            return false;
        }
        match parent {
            Place::Root => false,
            Place::After(above) => match self.room_behind(*above, start) {
                Some(most) => most > 0,
                None => false,
            },
        }
    }

    /// How many more characters it takes in behind one that is stored last, where that is its last one.
    pub fn room_behind(&self, last: Id, end: usize) -> Option<usize>
        ensures last { IfSome result (λ n. last ≡ later self.now.first (self.now.count - 1)) }
        ensures end { IfSome result (λ n. end ≡ self.now.start + self.now.count) }
        ensures few { IfSome result (λ n. self.now.count + n ≤ 24) }
        ensures bits { IfSome result (λ n. bits_from self.now.count self.now.hidden ≡ 0) }
    {
        if last.site() != self.first.site() || last.counter() as usize + 1 != self.next_counter() {
            return None;
        }
        if end != self.start as usize + self.len() || self.marks_behind() {
            return None;
        }
        Some(LONG - self.len())
    }

    /// Whether a bit is set that is of no character. One may be, where it was parted.
    fn marks_behind(&self) -> bool
        requires { self.now.count < 32 }
        ensures { OnFalse result (bits_from self.now.count self.now.hidden ≡ 0) }
    {
        self.hidden.bits() >> self.count != 0
    }

    /// The counter after that of its last character.
    fn next_counter(&self) -> usize
        ensures { result ≡ self.now.first.counter + self.now.count }
    {
        self.first.counter() as usize + self.len()
    }

    /// Takes in more characters, which are visible.
    pub fn grow(&mut self, more: usize)
        requires counter { self.old.first.counter + self.old.count + more ≤ 2 ^ 32 }
        requires place { self.old.start + self.old.count + more ≤ 2 ^ 32 }
        requires few { self.old.count + more ≤ 24 }
        requires bits { bits_from self.old.count self.old.hidden ≡ 0 }
        ensures start { self.new.start ≡ self.old.start }
        ensures count { self.new.count ≡ self.old.count + more }
        ensures first { self.new.first ≡ self.old.first }
        ensures parent { self.new.parent ≡ self.old.parent }
        ensures hidden { self.new.hidden ≡ self.old.hidden }
        ensures visible { visible_of self.new ≡ visible_of self.old + more }
    {
        self.count += more as u8;
    }

    /// Hides character k, which is visible.
    pub fn hide(&mut self, k: usize)
        requires within { k < self.old.count }
        requires visible { is_odd (bits_from k self.old.hidden) ≡ false }
        ensures start { self.new.start ≡ self.old.start }
        ensures count { self.new.count ≡ self.old.count }
        ensures first { self.new.first ≡ self.old.first }
        ensures parent { self.new.parent ≡ self.old.parent }
        ensures hidden { self.new.hidden ≡ self.old.hidden + 2 ^ k }
        ensures visible { visible_of self.new + 1 ≡ visible_of self.old }
    {
        self.hidden = Marks::of(self.hidden.bits() + (1 << k));
    }

    /// Keeps the first k characters, and returns the others.
    pub fn part(&mut self, k: usize) -> Stretch
        requires some { 0 < k }
        requires within { k < self.old.count }
        ensures elements { (chars : List ℕ) → elements_of chars self.new ≡ take k (elements_of chars self.old) }
        ensures rest { (chars : List ℕ) → elements_of chars result ≡ drop k (elements_of chars self.old) }
        ensures count { self.new.count ≡ k }
        ensures rest_count { k + result.count ≡ self.old.count }
        ensures first { self.new.first ≡ self.old.first }
        ensures rest_first { result.first ≡ later self.old.first k }
        ensures start { self.new.start ≡ self.old.start }
        ensures rest_start { result.start ≡ self.old.start + k }
        ensures visible { visible_of self.new + visible_of result ≡ visible_of self.old }
    {
        let rest = Stretch {
            start: self.start + k as u32,
            first: self.id_at(k),
            parent: Parent::of(self.parent_of(k)),
            hidden: Marks::of(self.hidden.bits() >> k),
            count: self.count - k as u8,
        };
        self.count = k as u8;
        rest
    }
}

/// How many visible characters one counts as.
pub fn weight(hidden: bool) -> usize
    ensures { result ≡ (if hidden then 0 else 1) }
{
    if hidden { 0 } else { 1 }
}

//! Blocks of elements.

ghost use Rattle.std.specs.Prelude.{◌≡◌, ◌+◌, ◌<◌, ◌≤◌, ◌∷◌, length, take, drop, insert, slice_set, slice_index_or, nat_lt, vec_len, vec_capacity, true, [], if◌then◌else◌};
ghost use Rattle.std.specs.Ordering.{is_lt};
ghost use Rattle.bg_types.specs.Identifier.{id_cmp};
ghost use Rattle.rga_sequence.specs.Blocks.{seen, is_least, FallsFrom, FallsFrom-prop};

use bg_types::{Id, Place};
use rga_tree::Element;
use std::mem::replace;

/// How many elements a block has memory for.
pub const FULL: usize = 512;

/// How many elements stay in a full block that is split.
pub const HALF: usize = 256;

/// At least one element and at most 512, in the order of the walk, with memory for 512.
#[derive(Drop)]
pub struct Block {
    pub elements: Vec<Element>,
    pub visible: usize,
    pub least: Id,
    pub number: usize,
    /// Where an element was put in last. The next one is often put after it.
    pub recent: usize,
    /// From here on each identifier is greater than the next, as in children of one parent. It
    /// need not be the first such place.
    pub falling: usize,
    ghost few: { vec_len elements ≤ 512 },
    ghost room: { 512 ≤ vec_capacity elements },
    ghost counted: { visible ≡ seen elements.items },
    ghost least_is: { is_least least elements.items ≡ true },
    ghost falling_within: { falling ≤ vec_len elements },
    ghost falls: { FallsFrom falling elements.items } by { FallsFrom-prop falling elements.items },
}

impl Block {
    ghost use Rattle.rga_tree.specs.declared.element.Element.{Element};

    /// A block of one element.
    pub fn lone(
        mut elements: Vec<Element>,
        number: usize,
        id: Id,
        parent: Place,
        ch: char,
        hidden: bool,
    ) -> Block
        requires empty { elements.items ≡ [] }
        requires room { 512 ≤ vec_capacity elements }
        ensures items { result.elements.items ≡ record { id = id; parent = parent; ch = ch; hidden = hidden } ∷ [] }
        ensures number { result.number ≡ number }
    {
        elements
            .push(Element {
                id,
                parent,
                ch,
                hidden,
            })
            .unwrap();
        Block {
            elements,
            visible: weight(hidden),
            least: id,
            number,
            recent: 0,
            falling: 0,
        }
    }

    /// Puts an element in, with room for it.
    pub fn insert(&mut self, at: usize, id: Id, parent: Place, ch: char, hidden: bool)
        requires within { at ≤ length self.old.elements.items }
        requires room { length self.old.elements.items < 512 }
        ensures items { self.new.elements.items ≡ insert self.old.elements.items at
            (record { id = id; parent = parent; ch = ch; hidden = hidden }) }
        ensures number { self.new.number ≡ self.old.number }
    {
        self.least = lesser(id, self.least);
        self.visible += weight(hidden);
        self.recent = at;
        self.falling = falling_with(&self.elements, self.falling, at, id);
        insert_element(&mut self.elements, at, id, parent, ch, hidden);
    }

    /// Hides an element, and returns how many fewer are visible.
    pub fn hide(&mut self, at: usize) -> usize
        requires { at < length self.old.elements.items }
        ensures items { (d : Element) → let e = slice_index_or self.old.elements.items at d in
            self.new.elements.items ≡ slice_set self.old.elements.items at (record e { hidden = true }) }
        ensures number { self.new.number ≡ self.old.number }
        ensures seen { seen self.new.elements.items + result ≡ seen self.old.elements.items }
    {
        let gone = weight(self.elements[at].hidden);
        self.visible -= gone;
        self.elements[at].hidden = true;
        gone
    }

    /// Moves the upper half of a full block to a new one. The new memory is for the lower half: in
    /// blocks that grow only at their end, the half that stays empty was never written.
    pub fn split(&mut self, mut lower: Vec<Element>, number: usize) -> Block
        requires full { length self.old.elements.items ≡ 512 }
        requires empty { lower.items ≡ [] }
        requires room { 512 ≤ vec_capacity lower }
        ensures items { self.new.elements.items ≡ take 256 self.old.elements.items }
        ensures upper { result.elements.items ≡ drop 256 self.old.elements.items }
        ensures number { self.new.number ≡ self.old.number }
        ensures upper_number { result.number ≡ number }
    {
        lower.extend_from_slice(&self.elements[..HALF]).unwrap();
        let mut upper = replace(&mut self.elements, lower);
        upper.copy_within(HALF.., 0);
        upper.truncate(HALF);
        self.least = least_of(&self.elements);
        self.visible = count_visible(&self.elements);
        let least = least_of(&upper);
        let visible = count_visible(&upper);
        let falling = self.falling.saturating_sub(HALF);
        self.falling = self.falling.min(HALF);
        Block {
            elements: upper,
            visible,
            least,
            number,
            recent: HALF - 1,
            falling,
        }
    }
}

/// Puts an element into a list that has memory for it. At the end nothing moves.
fn insert_element(row: &mut Vec<Element>, at: usize, id: Id, parent: Place, ch: char, hidden: bool)
    requires within { at ≤ length row.old.items }
    requires few { length row.old.items < 512 }
    requires room { length row.old.items < vec_capacity row.old }
    ensures items { row.new.items ≡ insert row.old.items at
        (record { id = id; parent = parent; ch = ch; hidden = hidden }) }
    ensures capacity { vec_capacity row.old ≤ vec_capacity row.new }
{
    let element = Element {
        id,
        parent,
        ch,
        hidden,
    };
    if at == row.len() {
        row.push_reserved(element);
    } else {
        // The remainder is the index: by it compiled code sees no wrap behind it, and moves all in one piece.
        row.insert(at % FULL, element).unwrap();
    }
}

/// From where on identifiers fall once this one stands at `at`. Only its neighbours are looked at.
fn falling_with(row: &[Element], falling: usize, at: usize, id: Id) -> usize
    requires within { at ≤ length row.now }
    requires few { length row.now ≤ 512 }
    requires falls { FallsFrom falling row.now }
    requires from { falling ≤ length row.now }
    ensures falls { (n : Element) → n.id ≡ id → FallsFrom result (insert row.now at n) }
    ensures from { result ≤ length row.now + 1 }
{
    if at < falling {
        return falling + 1;
    }
    if at < row.len() && !is_below(row[at].id, id) {
        return at + 1;
    }
    if falling < at && !is_below(id, row[at - 1].id) {
        return at;
    }
    falling
}

/// How many elements of a list are visible.
pub fn count_visible(row: &[Element]) -> usize
    ensures { result ≡ seen row.now }
{
    let mut visible = 0;
    for e in row {
        visible += weight(e.hidden);
    }
    visible
}

/// How many visible elements an element counts as.
pub fn weight(hidden: bool) -> usize
    ensures { result ≡ (if hidden then 0 else 1) }
{
    if hidden { 0 } else { 1 }
}

/// The least identifier.
fn least_of(row: &[Element]) -> Id
    requires { 0 < length row.now }
    ensures { is_least result row.now ≡ true }
{
    let mut least = row[0].id;
    let mut counter = least.counter();
    for e in row {
        if is_below_at(e.id, least, counter) {
            least = e.id;
            counter = least.counter();
        }
    }
    least
}

/// The lesser of two identifiers.
pub fn lesser(a: Id, b: Id) -> Id
    ensures { result ≡ (if is_lt (id_cmp a b) then a else b) }
{
    if is_below(a, b) { a } else { b }
}

/// Whether the first identifier is the lesser.
#[inline(always)]
pub fn is_below(a: Id, b: Id) -> bool
    ensures { result ≡ is_lt (id_cmp a b) }
{
    is_below_at(a, b, b.counter())
}

/// Whether the first identifier is the lesser, where the second one's counter is at hand. Mostly the counters decide.
#[inline(always)]
fn is_below_at(a: Id, b: Id, counter: u32) -> bool
    requires { counter ≡ b.counter }
    ensures { result ≡ is_lt (id_cmp a b) }
{
    let own = a.counter();
    own < counter || (own == counter && is_site_below(a.site(), b.site()))
}

/// Not inlined, so that compiled code compares no sites where counters decide.
#[inline(never)]
fn is_site_below(a: u16, b: u16) -> bool
    ensures { result ≡ nat_lt a b }
{
    a < b
}

/// An empty list with memory for a block.
#[derive(Drop)]
pub struct Spare {
    pub row: Vec<Element>,
    ghost empty: { row.items ≡ [] },
    ghost room: { 512 ≤ vec_capacity row },
}

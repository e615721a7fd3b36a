//! Tests of any sequence, through the trait alone.
//!
//! A refused growth is seen to leave everything as it was, and the call is made again: so each test
//! also passes with any one allocation refused (`rt try --test --fail-alloc N`).

ghost use Rattle.std.specs.Prelude.{◌≡◌};
ghost use Rattle.rga_tree.specs.Tree.{stands_in};

use bg_types::{Id, Memory, Place};
use rga_tree::{Element, Fresh, Sequence, text_of};
use std::alloc::Global;

/// Counter and site.
pub type Name = (u32, u16);

/// An element: itself, its parent, (0,0) for the root, its character, and whether it is hidden.
pub type Row = (Name, Name, char, bool);

pub fn id(name: Name) -> Option<Id> {
    Id::new(name.0, name.1)
}

fn element(row: Row) -> Option<Element> {
    let (name, above, ch, hidden) = row;
    let parent = match id(above) {
        Some(above) => Place::After(above),
        None => Place::Root,
    };
    Some(Element {
        id: id(name)?,
        parent,
        ch,
        hidden,
    })
}

fn row_of(e: &Element) -> Row {
    let above = match e.parent {
        Place::Root => (0, 0),
        Place::After(above) => (above.counter(), above.site()),
    };
    ((e.id.counter(), e.id.site()), above, e.ch, e.hidden)
}

fn stands<S: Sequence>(seq: &S, place: &Place) -> bool
    ensures { result ≡ stands_in (S.content seq.now) place.now }
{
    match place {
        Place::Root => true,
        Place::After(parent) => seq.has(*parent),
    }
}

/// A sequence whose calls promise nothing, so that a test rests on what it sees.
#[derive(Drop)]
pub struct Tried<S: Fresh> {
    pub seq: S,
    pub alloc: Global,
}

impl<S: Fresh> Tried<S> {
    pub fn new(alloc: Global) -> Tried<S> {
        Tried {
            seq: S::fresh(alloc, 7),
            alloc,
        }
    }

    /// Makes room, on a second try where memory is refused, which must change nothing.
    pub fn reserve(&mut self, n: usize) -> bool {
        let (placed, room) = (self.seq.placed(), self.seq.room());
        if n > 4_000_000 {
            return false;
        }
        if self.seq.reserve(n).is_ok() {
            return n <= self.seq.room();
        }
        self.seq.placed() == placed && self.seq.room() == room && self.seq.reserve(n).is_ok()
    }

    /// Places the element of a row, if it may be placed.
    pub fn put(&mut self, row: Row) -> bool {
        let Some(e) = element(row) else {
            return false;
        };
        if !self.reserve(1) {
            return false;
        }
        if self.seq.has(e.id) || !stands(&self.seq, &e.parent) || !e.parent.is_before(e.id) {
            return false;
        }
        if self.seq.room() == 0 {
            return false;
        }
        self.seq.place(e.id, e.parent, e.ch, e.hidden);
        true
    }

    pub fn put_all(&mut self, rows: &[Row]) -> bool {
        let mut right = true;
        for row in rows {
            right = self.put(*row) && right;
        }
        right
    }

    /// Hides an element, if it is there.
    pub fn erase(&mut self, name: Name) -> bool {
        match id(name) {
            Some(id) if self.seq.has(id) => {
                self.seq.hide(id);
                true
            }
            _ => false,
        }
    }

    pub fn nth(&self, j: usize) -> Option<Row> {
        if j < self.seq.placed() {
            Some(row_of(&self.seq.nth(j)))
        } else {
            None
        }
    }

    fn told(&self, name: Name) -> Option<Row> {
        let e = self.seq.element(id(name)?)?;
        Some(row_of(&e))
    }

    fn has(&self, name: Name) -> bool {
        match id(name) {
            Some(id) => self.seq.has(id),
            None => false,
        }
    }

    /// The counter of the element at place j, or 0.
    pub fn counter_at(&self, j: usize) -> u32 {
        match self.nth(j) {
            Some(row) => row.0.0,
            None => 0,
        }
    }

    /// Visible element k, if there is one.
    pub fn at(&mut self, k: usize) -> Option<(Id, char)> {
        if k >= self.seq.len() {
            return None;
        }
        let id = self.seq.id_at(k);
        Some((id, self.seq.char_at(k)))
    }

    /// The text, on a second try where memory for it is refused.
    pub fn text(&self) -> Result<String, Memory> {
        match text_of(self.alloc, &self.seq) {
            Err(Memory) => text_of(self.alloc, &self.seq),
            read => read,
        }
    }

    fn reads(&self, text: &str) -> bool {
        self.text().is_ok_and(|read| read.as_str() == text)
    }

    /// Whether an element stands at place j, by every call that shows it.
    pub fn stands_at(&self, j: usize, row: Row) -> bool {
        self.nth(j) == Some(row) && self.has(row.0) && self.told(row.0) == Some(row)
    }

    /// Whether the element at place j is told by every call that shows it.
    pub fn is_told_at(&self, j: usize) -> bool {
        match self.nth(j) {
            Some(row) => self.stands_at(j, row),
            None => false,
        }
    }

    fn shows_all(&self, rows: &[Row]) -> bool {
        let mut right = self.seq.placed() == rows.len();
        for (j, row) in rows.iter().enumerate() {
            right = self.stands_at(j, *row) && right;
        }
        right
    }

    fn shows_visible(&mut self, rows: &[Row]) -> bool {
        let mut right = true;
        for (k, row) in rows.iter().filter(|row| !row.3).enumerate() {
            right = self.at(k) == id(row.0).map(|id| (id, row.2)) && right;
        }
        right
    }

    /// Whether the sequence has these elements and this text, by every call that shows them.
    fn shows(&mut self, rows: &[Row], text: &str) -> bool {
        let many = self.seq.len() == text.chars().count();
        many && self.reads(text) && self.shows_all(rows) && self.shows_visible(rows)
    }
}

const A: Row = ((1, 1), (0, 0), 'a', false);

const X: Row = ((2, 2), (1, 1), 'x', false);

const Y: Row = ((3, 2), (2, 2), 'y', false);

const B: Row = ((2, 1), (1, 1), 'b', false);

const A_HIDDEN: Row = ((1, 1), (0, 0), 'a', true);

const X_HIDDEN: Row = ((2, 2), (1, 1), 'x', true);

const B_HIDDEN: Row = ((2, 1), (1, 1), 'b', true);

const B_AT_ROOT: Row = ((1, 2), (0, 0), 'b', false);

const ORPHAN: Row = ((9, 1), (8, 1), 'z', false);

/// What is tried on an empty sequence.
pub trait Trial<S: Fresh> {
    /// Whether it comes out.
    fn comes_out(&self, seq: &mut Tried<S>) -> bool;
}

/// Whether a trial comes out. Sequences are made and dropped here alone, which is dear to prove.
fn is_right<S: Fresh, T: Trial<S>>(alloc: Global, trial: &T) -> bool {
    let mut seq = Tried::new(alloc);
    trial.comes_out(&mut seq)
}

/// The first trial that does not come out.
pub fn first_wrong<S: Fresh, T: Trial<S>>(alloc: Global, trials: &[T]) -> Option<usize> {
    for (n, trial) in trials.iter().enumerate() {
        if !is_right::<S, T>(alloc, trial) {
            return Some(n);
        }
    }
    None
}

/// The elements as they are placed, the identifiers hidden after that, the elements as they
/// stand afterwards, and the text. An element may be hidden as it is placed.
pub struct Line(
    &'static [Row],
    &'static [Name],
    &'static [Row],
    &'static str,
);

pub const LINES: &[Line] = &[
    Line(&[A, B], &[], &[A, B], "ab"),
    Line(&[A, B_AT_ROOT], &[], &[B_AT_ROOT, A], "ba"),
    Line(&[B_AT_ROOT, A], &[], &[B_AT_ROOT, A], "ba"),
    Line(&[A, X, Y, B], &[], &[A, X, Y, B], "axyb"),
    Line(&[A, X, B, Y], &[], &[A, X, Y, B], "axyb"),
    Line(&[A, B, X, Y], &[], &[A, X, Y, B], "axyb"),
    Line(&[A, X_HIDDEN, Y, B], &[], &[A, X_HIDDEN, Y, B], "ayb"),
    Line(&[A, B, X, Y], &[(2, 2)], &[A, X_HIDDEN, Y, B], "ayb"),
    Line(
        &[A, B, X, Y],
        &[(1, 1), (2, 1)],
        &[A_HIDDEN, X, Y, B_HIDDEN],
        "xy",
    ),
    Line(&[A, B], &[(2, 1), (2, 1)], &[A, B_HIDDEN], "a"),
    Line(&[A_HIDDEN, B], &[(2, 1), (1, 1)], &[A_HIDDEN, B_HIDDEN], ""),
];

/// The elements end up as a line says. One that is there already and one whose parent is missing
/// change nothing.
impl<S: Fresh> Trial<S> for Line {
    fn comes_out(&self, seq: &mut Tried<S>) -> bool {
        let Line(placed, erased, standing, text) = self;
        let mut right = seq.put_all(placed);
        for name in *erased {
            right = seq.erase(*name) && right;
        }
        right = seq.shows(standing, text) && right;
        let refused = !seq.put(A) && !seq.put(ORPHAN) && !seq.erase(ORPHAN.1);
        right && refused && seq.shows(standing, text)
    }
}

/// The counters from 1 to 1,000, rising or falling.
fn counter_of(k: u32, rising: bool) -> u32 {
    if rising {
        k.saturating_add(1)
    } else {
        1000u32.saturating_sub(k)
    }
}

/// 1,000 elements that are placed in this order of counters stand in the order of the walk. In a
/// chain each is after the one before, otherwise all are after the root.
pub struct Thousand {
    chain: bool,
    rising: bool,
}

pub const THOUSANDS: &[Thousand] = &[
    Thousand {
        chain: true,
        rising: true,
    },
    Thousand {
        chain: false,
        rising: true,
    },
    Thousand {
        chain: false,
        rising: false,
    },
];

impl<S: Fresh> Trial<S> for Thousand {
    fn comes_out(&self, seq: &mut Tried<S>) -> bool {
        let mut right = true;
        for k in 0..1000 {
            let counter = counter_of(k, self.rising);
            let above = if self.chain {
                counter.saturating_sub(1)
            } else {
                0
            };
            let parent = if above == 0 { (0, 0) } else { (above, 1) };
            right = seq.put(((counter, 1), parent, '\u{5D0}', false)) && right;
        }
        for k in 0..1000 {
            let counter = counter_of(k, self.chain);
            right = seq.counter_at(k as usize) == counter && right;
        }
        right
    }
}

/// With ample memory there is room for so many, one after the other. Where a growth is refused,
/// everything is as it was.
pub struct Rooms(&'static [usize]);

pub const ROOMS: &[Rooms] = &[Rooms(&[0, 1, 300, 100_000, 100_001])];

impl<S: Fresh> Trial<S> for Rooms {
    fn comes_out(&self, seq: &mut Tried<S>) -> bool {
        let mut right = seq.put_all(&[A, B]);
        for n in self.0 {
            right = seq.reserve(*n) && seq.shows(&[A, B], "ab") && right;
        }
        right
    }
}

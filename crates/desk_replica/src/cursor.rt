//! Where the next element of another desk is awaited among a desk's own.

ghost use Rattle.std.specs.Prelude.{◌+◌, ◌≤◌, All, Contains};
ghost use Rattle.rga_tree.specs.Elements.{elements};

use bg_types::Id;
use rga_tree::{Element, Sequence, Unpacked};

/// How many own elements may be read for each of the other desk.
const READ_FOR_ONE: usize = 8;

/// How many more than for the one before are read in search of one that may not be there.
const FURTHER: usize = 64;

/// Where the next element of another desk is awaited: a part of the own sequence, and a place there. Two desks have the
/// elements that both know in one order, so it moves on, and back only over what it read in vain. It may stand at a
/// part's end, since what is placed next may stand there. Still it is a guess: what is ahead is compared.
///
/// For each of the other desk's elements it may read a number of own ones in search: so a merge takes no longer
/// because a desk has many own ones. Where it may not read on it stays behind, and what is awaited is looked up.
#[derive(Clone, Copy)]
pub struct Cursor {
    part: usize,
    at: usize,
    allowed: usize,
    /// How many are read before it is looked up whether one is there: as many as for the one before, and some more.
    near: usize,
}

impl Cursor {
    /// Before all elements, and it may read none.
    pub fn front() -> Cursor {
        Cursor {
            part: 0,
            at: 0,
            allowed: 0,
            near: FURTHER,
        }
    }

    /// Lets it read own elements for so many of the other desk.
    pub fn allow(&mut self, count: usize) {
        self.allowed = self
            .allowed
            .saturating_add(count.saturating_mul(READ_FOR_ONE));
    }

    /// The elements ahead: the rest of the part, or at its end the next part.
    pub fn ahead<'a, S: Sequence>(&self, seq: &'a S, unpacked: &'a mut Unpacked) -> &'a [Element]
        ensures { All (Contains (elements (S.content seq.now))) result.now }
    {
        if is_behind(seq, self.part, self.at) {
            rest_of(seq, self.part.saturating_add(1), 0, unpacked)
        } else {
            rest_of(seq, self.part, self.at, unpacked)
        }
    }

    /// Moves behind this many of the elements ahead.
    pub fn skip<S: Sequence>(&mut self, seq: &S, count: usize) {
        if count > 0 && is_behind(seq, self.part, self.at) {
            self.go_on();
        }
        self.at = self.at.saturating_add(count);
    }

    /// Moves behind the element with this identifier, and answers whether `find` finds it.
    pub fn pass<S: Sequence>(&mut self, seq: &S, id: Id) -> bool {
        let found = self.find(seq, id);
        self.at = self.at.saturating_add(usize::from(found));
        found
    }

    /// Moves to the element with this identifier, if that is here or later and not too far to be read, and answers
    /// whether it is. Else it moves as far as it may read.
    pub fn find<S: Sequence>(&mut self, seq: &S, id: Id) -> bool {
        let mut unpacked = Unpacked::new();
        for _ in self.part..seq.part_count() {
            let rest = rest_of(seq, self.part, self.at, &mut unpacked);
            if self.find_in(rest, id) {
                return true;
            }
            if self.allowed == 0 {
                return false;
            }
            self.go_on();
        }
        false
    }

    /// Moves to the element with this identifier as `find` does, if there is one. Where there is none it stays.
    pub fn seek<S: Sequence>(&mut self, seq: &S, id: Id) {
        let stood = *self;
        if self.find_near(seq, id) {
            return;
        }
        if !seq.has(id) {
            // What was read stays counted.
            self.part = stood.part;
            self.at = stood.at;
            return;
        }
        let allowed = self.allowed;
        self.find(seq, id);
        let read = allowed.saturating_sub(self.allowed);
        self.near = self.near.saturating_add(read).saturating_add(FURTHER);
    }

    /// Moves to the element with this identifier, if that is near. Else it moves on over what is.
    fn find_near<S: Sequence>(&mut self, seq: &S, id: Id) -> bool {
        let most = self.allowed.min(self.near);
        let rest = self.allowed.saturating_sub(most);
        self.allowed = most;
        let found = self.find(seq, id);
        if found {
            self.near = most.saturating_sub(self.allowed).saturating_add(FURTHER);
        }
        self.allowed = self.allowed.saturating_add(rest);
        found
    }

    /// Moves to the element with this identifier among those that are left of a part, or as far as it may read.
    fn find_in(&mut self, rest: &[Element], id: Id) -> bool
        ensures allowed { self.new.at + self.new.allowed ≤ self.old.at + self.old.allowed }
    {
        let most = rest.len().min(self.allowed);
        let found = rest[..most].iter().position(|e| e.id == id);
        let passed = found.unwrap_or(most);
        self.at = self.at.saturating_add(passed);
        self.allowed = self.allowed.saturating_sub(passed);
        found.is_some()
    }

    /// Moves to the next part, which counts as an element that was read.
    fn go_on(&mut self) {
        self.part = self.part.saturating_add(1);
        self.at = 0;
        self.allowed = self.allowed.saturating_sub(1);
    }
}

/// Whether a part has no elements from a place on.
fn is_behind<S: Sequence>(seq: &S, part: usize, at: usize) -> bool {
    part >= seq.part_count() || at >= seq.part_len(part)
}

/// The elements of a part from a place on, if there are any.
fn rest_of<'a, S: Sequence>(
    seq: &'a S,
    part: usize,
    at: usize,
    unpacked: &'a mut Unpacked,
) -> &'a [Element]
    ensures { All (Contains (elements (S.content seq.now))) result.now }
{
    if part >= seq.part_count() {
        return &[];
    }
    match seq.part(part, unpacked).get(at..) {
        Some(rest) => rest,
        None => &[],
    }
}

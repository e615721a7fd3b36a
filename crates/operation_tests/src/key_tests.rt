//! That a world's desks are made with its key, which no clause says: a sequence of the tests' own sees it.

use bg_types::{Id, Memory, Place};
use desk_replica::{Step, run_world};
use rga_tree::{Element, Fresh, Plain, Sequence, Unpacked};
use std::alloc::Global;

/// The one key with which a sequence of these tests gets memory.
const KEY: u128 = 0x5eed;

/// A sequence that keeps the key that it was made with, and is refused memory under another than `KEY`.
#[derive(Drop)]
struct UnderKey<S: Fresh> {
    seq: S,
    key: u128,
}

impl<S: Fresh> Fresh for UnderKey<S> {
    fn fresh(alloc: Global, key: u128) -> UnderKey<S> {
        UnderKey {
            seq: S::fresh(alloc, key),
            key,
        }
    }
}

impl<S: Fresh> Sequence for UnderKey<S> {
    ghost content = { λ s. S.content s.seq };

    ghost free = { λ s. S.free s.seq };

    ghost parts = { λ s. S.parts s.seq };

    fn reserve(&mut self, n: usize) -> Result<(), Memory> {
        if self.key != KEY && n > self.seq.room() {
            return Err(Memory);
        }
        self.seq.reserve(n)
    }

    fn room(&self) -> usize {
        self.seq.room()
    }

    fn place(&mut self, id: Id, parent: Place, ch: char, hidden: bool) {
        self.seq.place(id, parent, ch, hidden);
    }

    fn hide(&mut self, id: Id) {
        self.seq.hide(id);
    }

    fn len(&self) -> usize {
        self.seq.len()
    }

    fn id_at(&mut self, k: usize) -> Id {
        self.seq.id_at(k)
    }

    fn char_at(&mut self, k: usize) -> char {
        self.seq.char_at(k)
    }

    fn spot_at(&mut self, k: usize) -> (usize, usize) {
        self.seq.spot_at(k)
    }

    fn visible_before(&self, id: Id) -> usize {
        self.seq.visible_before(id)
    }

    fn placed(&self) -> usize {
        self.seq.placed()
    }

    fn nth(&self, j: usize) -> Element {
        self.seq.nth(j)
    }

    fn part_count(&self) -> usize {
        self.seq.part_count()
    }

    fn part_len(&self, p: usize) -> usize {
        self.seq.part_len(p)
    }

    fn part<'a>(&'a self, p: usize, unpacked: &'a mut Unpacked) -> &'a [Element] {
        self.seq.part(p, unpacked)
    }

    fn has(&self, id: Id) -> bool {
        self.seq.has(id)
    }

    fn element(&self, id: Id) -> Option<Element> {
        self.seq.element(id)
    }

    ghost whole = { λ s. S.whole s.seq };

    ghost is_tree = { λ s. S.is_tree s.seq };

    ghost only_placed = { λ s. S.only_placed s.seq };

    ghost well_formed = { λ s. S.well_formed s.seq };
}

/// Whether a world with this key gets the memory to type a character.
fn types_under(alloc: Global, key: u128) -> bool {
    let step = Step::Typed {
        desk: 0,
        place: 0,
        ch: 'a',
    };
    run_world::<UnderKey<Plain>>(alloc, key, &[1], &[step]).is_ok()
}

#[test]
fn a_worlds_desks_are_made_with_its_key(rt: HostRuntime) {
    // On a second try where memory is refused.
    assert!(rt; types_under(rt.alloc(), KEY) || types_under(rt.alloc(), KEY));
    assert!(rt; !types_under(rt.alloc(), 0));
}

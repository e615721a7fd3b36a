//! Operations.

ghost use Rattle.std.specs.Prelude.{◌≡◌, ◌↔◌, IsTrue, IsSome, IfSome};

use crate::id::Id;
use std::marker::Model;

/// What an insertion follows in the tree: its parent.
#[derive(Clone, Copy, Debug, PartialEq, Eq)]
pub enum Place {
    Root,
    After(Id),
}

impl Place {
    ghost use Rattle.bg_types.specs.WellFormed.{MayFollow};

    /// Whether an insertion with this identifier may have this parent: the root, or an identifier
    /// with a smaller counter.
    pub fn is_before(&self, id: Id) -> bool
        ensures { IsTrue result ↔ MayFollow self.now id }
    {
        match self {
            Place::Root => true,
            Place::After(parent) => parent.counter() < id.counter(),
        }
    }
}

/// The parts of an operation.
#[derive(Clone, Copy, Debug, PartialEq, Eq)]
pub enum OpView {
    Insert { id: Id, parent: Place, ch: char },
    Erase { target: Id },
}

/// A well-formed operation: an insertion after a parent with a smaller counter, or the deletion
/// of what an insertion made.
#[derive(Clone, Copy, Debug, PartialEq, Eq)]
pub struct Op {
    parts: OpView,
}

const _: () = prove!(size_of::<Op>() == 20);

impl Model for Op {
    ghost use Rattle.bg_types.specs.declared.op.OpView.{OpView};
    ghost use Rattle.bg_types.specs.WellFormed.{IsWellFormed};

    ghost Value = { OpView };

    ghost view = { λ a. a.parts };

    ghost invariant = { λ a. IsWellFormed a.parts };

    ghost inverse = { λ v. record { parts = v } };
}

impl Op {
    ghost use Rattle.bg_types.specs.WellFormed.{IsWellFormed, MayFollow};

    /// The insertion of a character, or `None` where the parent's counter is not below the
    /// identifier's.
    pub fn insert(id: Id, parent: Place, ch: char) -> Option<Op>
        ensures valid { IsSome result ↔ MayFollow parent id }
        ensures value { IfSome result (λ op. op ≡ OpView.Insert id parent ch) }
        ensures well_formed { IfSome result IsWellFormed }
    {
        if !parent.is_before(id) {
            return None;
        }
        let _known = id.counter();
        Some(Op {
            parts: OpView::Insert { id, parent, ch },
        })
    }

    /// The deletion of what the insertion with this identifier made.
    pub fn erase(target: Id) -> Op
        ensures value { result ≡ OpView.Erase target }
        ensures well_formed { IsWellFormed result }
    {
        let _known = target.counter();
        Op {
            parts: OpView::Erase { target },
        }
    }

    /// What it does, to match on.
    pub fn view(self) -> OpView
        ensures value { result ≡ self }
        // What is true of every operation, for the caller's proof.
        ensures well_formed { IsWellFormed self }
    {
        self.parts
    }
}

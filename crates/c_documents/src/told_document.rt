//! A document and what its last edit, take or merge told.

ghost use Rattle.std.specs.Prelude.{◌≡◌, ◌≤◌, ◌+◌, ◌-◌, false, [], length, IfOk};
ghost use Rattle.std.specs.Str.{chars};
ghost use Rattle.rga_tree.specs.TextOf.{visible};
ghost use Rattle.c_documents.specs.Changes.{edit_changes};

use crate::edit_changes::list_edit;
use bg_types::{Change, Memory};
use live_document::Document;
use std::alloc::Global;

/// A document in the hands of C, and how its last edit, take or merge changed the text.
pub struct ToldDocument {
    pub document: Document,
    pub told: Vec<Change>,
    /// There was no memory to tell all of it.
    pub lost: bool,
}

// Written out: a crate above then proves the call, and nothing of the parts.
impl Drop for ToldDocument {
    fn drop(self) {
        let ToldDocument {
            document: _,
            told: _,
            lost: _,
        } = self;
    }
}

impl ToldDocument {
    /// A document that tells nothing yet. It has room to tell of a keystroke, so that none asks for it.
    pub(crate) fn of(alloc: Global, document: Document) -> Result<ToldDocument, Memory>
        ensures document { IfOk result (λ it. it.document ≡ document) }
        ensures told { IfOk result (λ it. it.told.items ≡ []) }
        ensures lost { IfOk result (λ it. it.lost ≡ false) }
    {
        Ok(ToldDocument {
            document,
            told: Vec::with_capacity(alloc, 1)?,
            lost: false,
        })
    }

    /// Nothing is told any more.
    pub fn forget(&mut self)
        ensures document { self.new.document ≡ self.old.document }
        ensures told { self.new.told.items ≡ [] }
        ensures lost { self.new.lost ≡ false }
    {
        self.told.clear();
        self.lost = false;
    }

    /// Tells what an edit changed that is made, where there is memory for it: the characters from one place up to another
    /// are gone, and a text stands where they began.
    pub(crate) fn tell_edit(&mut self, from: usize, to: usize, text: &str)
        requires order { from ≤ to }
        requires few { (to - from) + length (chars text.now) ≤ 1_000_000 }
        requires end { from + length (chars text.now) ≤ length (visible self.old.document.desk.set) }
        ensures document { self.new.document ≡ self.old.document }
        ensures told { self.new.lost ≡ false → self.new.told.items ≡ edit_changes from to (chars text.now) }
    {
        // What was typed ends at a place of the text.
        let _end = self.document.len();
        self.lost = !list_edit(&mut self.told, from, to, text);
    }
}

//! A handle to a document.

ghost use Rattle.std.specs.Prelude.{◌≡◌, Some, None, Option};
ghost use Rattle.std.specs.Option.{MatchOption};
ghost use Rattle.std.specs.Coded.{coded_option};
ghost use Rattle.c_documents.specs.declared.told_document.ToldDocument.{ToldDocument as ToldValue};
ghost use Rattle.c_documents.specs.contracts.told_document.ToldDocument.{the_row as told_row};

use crate::told_document::ToldDocument;
use c_handles::{NullableBox, Opaque};
use std::alloc::Global;
use std::marker::Model;
use std::mem;

/// A document in the hands of C, or none: `bidigrid_document` of the header.
#[repr(C)]
pub struct DocumentHandle {
    at: *mut Opaque,
    pub ghost held: { Option ToldValue } by { coded_option told_row.coded },
}

impl Model for DocumentHandle {
    ghost use Rattle.c_handles.specs.Owned.{owned_at};
    ghost use Rattle.c_documents.specs.Rows.{document_row};

    ghost also_owns = { λ h. owned_at document_row h.at h.held };
}

impl DocumentHandle {
    /// A handle of what is at a pointer.
    fn of(owned: NullableBox<ToldDocument>) -> DocumentHandle
        ensures { result.held ≡ owned.held }
    {
        let NullableBox { at } = owned;
        DocumentHandle {
            at: at as *mut Opaque,
        }
    }

    /// The pointer again.
    fn into_owned(self) -> NullableBox<ToldDocument>
        ensures { result.held ≡ self.held }
    {
        let DocumentHandle { at } = self;
        NullableBox {
            at: at as *mut ToldDocument,
        }
    }

    /// Takes out what it holds.
    pub fn take(&mut self, alloc: Global) -> Option<Box<ToldDocument>>
        ensures taken { MatchOption result (self.old.held ≡ None) (λ b. self.old.held ≡ Some b.value) }
        ensures empty { self.new.held ≡ None }
    {
        mem::replace(self, DocumentHandle::of(NullableBox::none()))
            .into_owned()
            .into_box(alloc)
    }

    /// Puts this in. What it held is freed.
    pub fn put(&mut self, alloc: Global, boxed: Box<ToldDocument>)
        ensures { self.new.held ≡ Some boxed.value }
    {
        let old = mem::replace(self, DocumentHandle::of(NullableBox::of(boxed)));
        if let Some(old) = old.into_owned().into_box(alloc) {
            drop(old);
        }
    }
}

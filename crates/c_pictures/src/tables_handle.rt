//! A handle to tables.

ghost use Rattle.std.specs.Prelude.{◌≡◌, Some, None, Option};
ghost use Rattle.std.specs.Option.{MatchOption};
ghost use Rattle.unicode_tables.specs.Tables.{TableValues};

use c_handles::{NullableBox, Opaque};
use pictures::SharedTables;
use std::alloc::Global;
use std::marker::Model;
use std::mem;

/// Tables in the hands of C, or none: `bidigrid_tables` of the header.
#[repr(C)]
pub struct TablesHandle {
    at: *mut Opaque,
    pub ghost held: { Option TableValues },
}

impl Model for TablesHandle {
    ghost use Rattle.c_handles.specs.Owned.{owned_at};
    ghost use Rattle.c_pictures.specs.Rows.{tables_row};

    ghost also_owns = { λ h. owned_at tables_row h.at h.held };
}

impl TablesHandle {
    /// A handle of what is at a pointer.
    fn of(owned: NullableBox<SharedTables>) -> TablesHandle
        ensures { result.held ≡ owned.held }
    {
        let NullableBox { at } = owned;
        TablesHandle {
            at: at as *mut Opaque,
        }
    }

    /// The pointer again.
    fn into_owned(self) -> NullableBox<SharedTables>
        ensures { result.held ≡ self.held }
    {
        let TablesHandle { at } = self;
        NullableBox {
            at: at as *mut SharedTables,
        }
    }

    /// Takes out what it holds.
    pub fn take(&mut self, alloc: Global) -> Option<Box<SharedTables>>
        ensures taken { MatchOption result (self.old.held ≡ None) (λ b. self.old.held ≡ Some b.value) }
        ensures empty { self.new.held ≡ None }
    {
        mem::replace(self, TablesHandle::of(NullableBox::none()))
            .into_owned()
            .into_box(alloc)
    }

    /// Puts this in. What it held is freed.
    pub fn put(&mut self, alloc: Global, boxed: Box<SharedTables>)
        ensures { self.new.held ≡ Some boxed.value }
    {
        let old = mem::replace(self, TablesHandle::of(NullableBox::of(boxed)));
        if let Some(old) = old.into_owned().into_box(alloc) {
            drop(old);
        }
    }
}

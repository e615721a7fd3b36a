//! A handle to a desk.

ghost use Rattle.std.specs.Prelude.{◌≡◌, Some, None, Option};
ghost use Rattle.std.specs.Option.{MatchOption};
ghost use Rattle.std.specs.Coded.{coded_option};
ghost use Rattle.desk_replica.specs.Desk.{Desk as DeskValue, coded_desk};

use crate::desk::Desk;
use c_handles::{NullableBox, Opaque};
use std::alloc::Global;
use std::marker::Model;
use std::mem;

/// A desk in the hands of C, or none: `bidigrid_desk` of the header.
#[repr(C)]
pub struct DeskHandle {
    at: *mut Opaque,
    pub ghost held: { Option DeskValue } by { coded_option coded_desk },
}

impl Model for DeskHandle {
    ghost use Rattle.c_handles.specs.Owned.{owned_at};
    ghost use Rattle.c_desks.specs.Rows.{desk_row};

    ghost also_owns = { λ h. owned_at desk_row h.at h.held };
}

impl DeskHandle {
    /// A handle of what is at a pointer.
    fn of(owned: NullableBox<Desk>) -> DeskHandle
        ensures { result.held ≡ owned.held }
    {
        let NullableBox { at } = owned;
        DeskHandle {
            at: at as *mut Opaque,
        }
    }

    /// The pointer again.
    fn into_owned(self) -> NullableBox<Desk>
        ensures { result.held ≡ self.held }
    {
        let DeskHandle { at } = self;
        NullableBox {
            at: at as *mut Desk,
        }
    }

    /// Takes out what it holds.
    pub fn take(&mut self, alloc: Global) -> Option<Box<Desk>>
        ensures taken { MatchOption result (self.old.held ≡ None) (λ b. self.old.held ≡ Some b.value) }
        ensures empty { self.new.held ≡ None }
    {
        mem::replace(self, DeskHandle::of(NullableBox::none()))
            .into_owned()
            .into_box(alloc)
    }

    /// Puts this in. What it held is freed.
    pub fn put(&mut self, alloc: Global, boxed: Box<Desk>)
        ensures { self.new.held ≡ Some boxed.value }
    {
        let old = mem::replace(self, DeskHandle::of(NullableBox::of(boxed)));
        if let Some(old) = old.into_owned().into_box(alloc) {
            drop(old);
        }
    }
}

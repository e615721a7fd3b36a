//! A handle to a picture.

ghost use Rattle.std.specs.Prelude.{◌≡◌, Some, None, Option};
ghost use Rattle.std.specs.Option.{MatchOption};
ghost use Rattle.cell_grid.specs.Grids.{DrawnGrid};

use c_handles::{NullableBox, Opaque};
use pictures::Picture;
use std::alloc::Global;
use std::marker::Model;
use std::mem;

/// A picture in the hands of C, or none: `bidigrid_picture` of the header.
#[repr(C)]
pub struct PictureHandle {
    at: *mut Opaque,
    pub ghost held: { Option DrawnGrid },
}

impl Model for PictureHandle {
    ghost use Rattle.c_handles.specs.Owned.{owned_at};
    ghost use Rattle.c_pictures.specs.Rows.{picture_row};

    ghost also_owns = { λ h. owned_at picture_row h.at h.held };
}

impl PictureHandle {
    /// A handle of what is at a pointer.
    fn of(owned: NullableBox<Picture>) -> PictureHandle
        ensures { result.held ≡ owned.held }
    {
        let NullableBox { at } = owned;
        PictureHandle {
            at: at as *mut Opaque,
        }
    }

    /// The pointer again.
    fn into_owned(self) -> NullableBox<Picture>
        ensures { result.held ≡ self.held }
    {
        let PictureHandle { at } = self;
        NullableBox {
            at: at as *mut Picture,
        }
    }

    /// Takes out what it holds.
    pub fn take(&mut self, alloc: Global) -> Option<Box<Picture>>
        ensures taken { MatchOption result (self.old.held ≡ None) (λ b. self.old.held ≡ Some b.value) }
        ensures empty { self.new.held ≡ None }
    {
        mem::replace(self, PictureHandle::of(NullableBox::none()))
            .into_owned()
            .into_box(alloc)
    }

    /// Puts this in. What it held is freed.
    pub fn put(&mut self, alloc: Global, boxed: Box<Picture>)
        ensures { self.new.held ≡ Some boxed.value }
    {
        let old = mem::replace(self, PictureHandle::of(NullableBox::of(boxed)));
        if let Some(old) = old.into_owned().into_box(alloc) {
            drop(old);
        }
    }
}

//! A box, or none, as a pointer.

ghost use Rattle.std.specs.Prelude.{◌≡◌, Some, None, Option};
ghost use Rattle.std.specs.Option.{MatchOption};
ghost use Rattle.std.specs.Coded.{coded_option};

use std::alloc::Global;
use std::marker::Model;
use std::ptr;

/// A box as the pointer to its value, or null. It owns what the box owned, so it is made into a box again, or into a handle.
pub struct NullableBox<T> {
    pub at: *mut T,
    pub ghost held: { Option T } by { coded_option T.code },
}

impl<T> Model for NullableBox<T> {
    ghost use Rattle.c_handles.specs.Owned.{owned_at};

    ghost also_owns = { λ b. owned_at T.row b.at b.held };
}

impl<T: Drop> NullableBox<T> {
    /// No box.
    pub fn none() -> NullableBox<T>
        ensures { result.held ≡ None }
    {
        NullableBox {
            at: ptr::null_mut(),
        }
    }

    /// This box.
    pub fn of(boxed: Box<T>) -> NullableBox<T>
        ensures { result.held ≡ Some boxed.value }
    {
        NullableBox {
            at: Box::into_raw(boxed),
        }
    }

    /// The box again, or none.
    pub fn into_box(self, alloc: Global) -> Option<Box<T>>
        ensures { MatchOption result (self.held ≡ None) (λ boxed. self.held ≡ Some boxed.value) }
    {
        let NullableBox { at } = self;
        if at.is_null() {
            return None;
        }
        let boxed = unsafe { Box::from_raw(alloc, at) };
        Some(boxed)
    }
}

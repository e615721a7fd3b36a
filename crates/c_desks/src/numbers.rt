//! The structs of numbers that C reads of a desk.

ghost use Rattle.std.specs.Prelude.{◌≡◌};
ghost use Rattle.c_desks.specs.Numbers.{none_taken};

use bg_types::Id;

/// An identifier: `bidigrid_id` of the header.
#[derive(Clone, Copy)]
#[repr(C)]
pub struct IdentifierNumbers {
    pub counter: u32,
    pub site: u32,
}

impl IdentifierNumbers {
    /// The numbers where there is no identifier.
    pub const NONE: IdentifierNumbers = IdentifierNumbers {
        counter: 0,
        site: 0,
    };
}

/// What became of a message: `bidigrid_taken` of the header.
#[derive(Clone, Copy)]
#[repr(C)]
pub struct Taken {
    pub operations: usize,
    pub taken: usize,
    pub frame: usize,
}

/// The numbers of an identifier.
pub fn identifier_numbers(id: Id) -> IdentifierNumbers
    ensures counter { result.counter ≡ id.counter }
    ensures site { result.site ≡ id.site }
{
    IdentifierNumbers {
        counter: id.counter(),
        site: u32::from(id.site()),
    }
}

/// What became of a message that was not read, or whose fault is in this frame.
pub fn none_taken(frame: usize) -> Taken
    ensures { result ≡ none_taken frame }
{
    Taken {
        operations: 0,
        taken: 0,
        frame,
    }
}

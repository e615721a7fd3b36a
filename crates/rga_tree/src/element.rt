//! Elements.

ghost use Rattle.std.specs.Prelude.{◌≡◌, ◌≤◌, length};
ghost use Rattle.std.specs.Ordering.{is_lt};
ghost use Rattle.std.specs.List.{prefix_len};
ghost use Rattle.bg_types.specs.Identifier.{id_cmp};

use bg_types::{Id, Place};

/// A placed insertion. An erased one stays where it stands, hidden.
#[derive(Clone, Copy)]
pub struct Element {
    // Before the identifiers, which need not begin at a multiple of 4 bytes.
    pub ch: char,
    pub id: Id,
    pub parent: Place,
    pub hidden: bool,
}

const _: () = prove!(size_of::<Element>() == 20);

/// How many elements a part has at most that is unpacked.
pub const UNPACKED: usize = 32;

/// Room for the elements of a part that are not stored as elements.
#[derive(Drop)]
pub struct Unpacked {
    pub elements: [Element; UNPACKED],
    ghost long: { length elements ≡ 32 },
}

impl Unpacked {
    /// Room in which nothing is unpacked yet.
    pub fn new() -> Unpacked {
        let nothing = Element {
            ch: ' ',
            id: Id::new(1, 1).unwrap(),
            parent: Place::Root,
            hidden: true,
        };
        Unpacked {
            elements: [nothing; UNPACKED],
        }
    }
}

/// How many elements at the front of a list are greater than the identifier.
/// Cost: O(n).
pub fn greater_in_front(row: &[Element], id: Id) -> usize
    ensures count { result ≡ prefix_len (λ e. is_lt (id_cmp id e.id)) row.now }
    ensures within { result ≤ length row.now }
{
    row.iter().take_while(|e| id < e.id).count()
}

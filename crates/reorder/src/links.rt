//! Lists of cluster numbers, stored as links.

ghost use Rattle.std.specs.Prelude.{◌≡◌, ◌==◌, ◌<◌, ◌≤◌, ◌%◌, length, All, OnOk, slice_set, if◌then◌else◌};
ghost use Rattle.reorder.specs.Links.{walk};
ghost use Rattle.reorder.specs.VisualList.{is_odd};

use bg_types::Memory;

/// A list of numbers that is not empty: the link at each of them but the last is the number right of it.
#[derive(Clone, Copy)]
pub(crate) struct Piece {
    pub(crate) first: u32,
    pub(crate) last: u32,
}

impl Piece {
    /// One number alone.
    #[inline]
    pub(crate) fn of(number: u32) -> Piece
        ensures first { result.first ≡ number }
        ensures last { result.last ≡ number }
    {
        Piece {
            first: number,
            last: number,
        }
    }

    /// Both pieces as one, with `right` on the right.
    #[inline]
    fn before(self, right: Piece, links: &mut [u32]) -> Piece
        requires { self.last < length links.old }
        ensures links { links.new ≡ slice_set links.old self.last right.first }
        ensures first { result.first ≡ self.first }
        ensures last { result.last ≡ right.last }
    {
        links[self.last as usize] = right.first;
        Piece {
            first: self.first,
            last: right.last,
        }
    }

    /// This piece and a later one of the line as one piece of a level: the later one goes to its right, at an odd level to its left.
    #[inline]
    pub(crate) fn then(self, later: Piece, level: u8, links: &mut [u32]) -> Piece
        requires own { self.last < length links.old }
        requires later { later.last < length links.old }
        ensures links { links.new ≡ (if is_odd level then slice_set links.old later.last self.first else slice_set links.old self.last later.first) }
        ensures first { result.first ≡ (if is_odd level then later.first else self.first) }
        ensures last { result.last ≡ (if is_odd level then self.last else later.last) }
    {
        if level % 2 == 1 {
            later.before(self, links)
        } else {
            self.before(later, links)
        }
    }
}

/// Puts the numbers that the links lead along from `first`, as many as there are links, into a list, in place of what it has.
pub(crate) fn walk_into(order: &mut Vec<u32>, links: &[u32], first: u32) -> Result<(), Memory>
    requires { All (λ at. at < length links.now) (walk (length links.now) links.now first) }
    ensures { OnOk result (order.new.items ≡ walk (length links.now) links.now first) }
{
    order.clear();
    let mut at = first;
    for _ in 0..links.len() {
        order.push(at)?;
        at = links[at as usize];
    }
    Ok(())
}

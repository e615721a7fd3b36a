//! Whether two desks disagree, and what of the other's elements is known without a look-up.

ghost use Rattle.std.specs.Prelude.{◌≡◌, ◌≤◌, All, length, take};
ghost use Rattle.std.specs.Bool.{OnTrue, OnFalse};
ghost use Rattle.bg_types.specs.OperationSet.{Holds, Agree, MayJoin, ReusesIdentifier};
ghost use Rattle.bg_types.specs.WellFormed.{MayFollow};
ghost use Rattle.desk_replica.specs.Desk.{insertion_of as made_by};
ghost use Rattle.desk_replica.specs.Listed.{insertions_in};
ghost use Rattle.desk_replica.specs.Standing.{IsStanding};
ghost use Rattle.desk_replica.specs.Merging.{Disagree, ReusesIn};

use super::Replica;
use crate::cursor::Cursor;
use crate::placing::{Standing, count_waiting, look_up};
use crate::reading::insertion_of;
use bg_types::{Id, Op};
use pending_ops::Held;
use rga_tree::{Element, Sequence, Unpacked};

impl<S: Sequence> Replica<S> {
    /// Whether there is an identifier that both have, with another parent or character.
    pub(super) fn disagrees(&self, other: &Replica<S>) -> bool
        ensures yes { OnTrue result (Disagree self.now.set other.now.set) }
        ensures no { OnFalse result (Agree self.now.set other.now.set) }
    {
        self.disagrees_placed(&other.seq) || self.disagrees_waiting(&other.held)
    }

    fn disagrees_placed(&self, seq: &S) -> bool
        ensures yes { OnTrue result (Disagree self.now.set (S.content seq.now)) }
        ensures no { OnFalse result (Agree self.now.set (S.content seq.now)) }
    {
        let mut cursor = Cursor::front();
        let mut unpacked = Unpacked::new();
        for p in 0..seq.part_count() {
            if self.disagrees_row(seq.part(p, &mut unpacked), &mut cursor) {
                return true;
            }
        }
        false
    }

    /// Whether an element of a list reuses an identifier. The first is awaited at the cursor, and so is what follows one that
    /// is known; what follows a new one is looked up.
    fn disagrees_row(&self, row: &[Element], cursor: &mut Cursor) -> bool
        requires { All (λ e. MayFollow e.parent e.id) row.now }
        ensures yes { OnTrue result (ReusesIn self.now.set row.now) }
        ensures no { OnFalse result (All (λ e. MayJoin self.now.set (made_by e)) row.now) }
    {
        cursor.allow(row.len());
        let mut at = self.known_in_front(row, cursor);
        while at < row.len() {
            let e = &row[at];
            at += 1;
            match self.standing(e) {
                Standing::Reused => return true,
                Standing::Known => at += self.known_behind(e.id, &row[at..], cursor),
                Standing::New => {}
            }
        }
        false
    }

    /// Whether the insertion of an element is known. One with a counter above all that are named is new: no look-up is
    /// needed.
    #[inline(always)]
    fn standing(&self, e: &Element) -> Standing
        requires { MayFollow e.now.parent e.now.id }
        ensures { IsStanding self.now.set (made_by e.now) result }
    {
        if e.id.counter() > self.greatest {
            return Standing::New;
        }
        look_up(&self.seq, &self.held, self.greatest, &insertion_of(e))
    }

    /// How many elements in front of a list are known without a look-up, where it comes behind an element that is known.
    #[inline(never)]
    pub(super) fn known_behind(&self, id: Id, row: &[Element], cursor: &mut Cursor) -> usize
        ensures within { result ≤ length row.now }
        ensures known { All (Holds self.now.set) (insertions_in (take result row.now)) }
    {
        // Where none waits, what is known is placed.
        let placed = self.held.insertion_count() == 0 || self.seq.has(id);
        if !placed || !cursor.pass(&self.seq, id) {
            return 0;
        }
        self.known_in_front(row, cursor)
    }

    /// How many elements in front of a list are at the cursor, one behind the other: what made them is known without a
    /// look-up. The cursor moves behind them.
    pub(super) fn known_in_front(&self, row: &[Element], cursor: &mut Cursor) -> usize
        ensures within { result ≤ length row.now }
        ensures known { All (Holds self.now.set) (insertions_in (take result row.now)) }
    {
        let mut unpacked = Unpacked::new();
        let known = alike_in_front(cursor.ahead(&self.seq, &mut unpacked), row);
        cursor.skip(&self.seq, known);
        known
    }

    fn disagrees_waiting(&self, held: &Held) -> bool
        ensures yes { OnTrue result (Disagree self.now.set held.now.held) }
        ensures no { OnFalse result (Agree self.now.set held.now.held) }
    {
        for j in 0..count_waiting(held) {
            if self.reuses(&held.nth(j)) {
                return true;
            }
        }
        false
    }

    /// Whether an operation's identifier is known with another parent or character.
    fn reuses(&self, op: &Op) -> bool
        ensures yes { OnTrue result (ReusesIdentifier self.now.set op.now) }
        ensures no { OnFalse result (MayJoin self.now.set op.now) }
    {
        matches!(
            look_up(&self.seq, &self.held, self.greatest, op),
            Standing::Reused
        )
    }
}

/// How many elements in front of both lists were made by the same insertions.
fn alike_in_front(one: &[Element], other: &[Element]) -> usize
    ensures within { result ≤ length other.now }
    ensures alike { insertions_in (take result one.now) ≡ insertions_in (take result other.now) }
{
    let most = one.len().min(other.len());
    for at in 0..most {
        if !is_made_alike(&one[at], &other[at]) {
            return at;
        }
    }
    most
}

/// Whether one insertion made both elements.
fn is_made_alike(one: &Element, other: &Element) -> bool
    ensures { OnTrue result (made_by one.now ≡ made_by other.now) }
{
    if one.id != other.id {
        return false;
    }
    if one.parent != other.parent {
        return false;
    }
    one.ch == other.ch
}

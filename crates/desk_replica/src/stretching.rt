//! What characters that are erased or typed at once change in a sequence.

ghost use Rattle.std.specs.Prelude.{◌≡◌, ◌≤◌, ◌<◌, ◌+◌, ◌-◌, ◌^◌, ◌++◌, take, length, All, OnOk, OnErr, IsOk, true, map as each, vec_len, vec_capacity};
ghost use Rattle.std.specs.FinMap as map;
ghost use Rattle.std.specs.Str.{chars};
ghost use Rattle.bg_types.specs.OperationSet.{next};
ghost use Rattle.bg_types.specs.WellFormed.{IsWellFormed, MayFollow};
ghost use Rattle.bg_types.specs.declared.op.OpView.TheVariants.{Erase};
ghost use Rattle.rga_tree.specs.TextOf.{visible};
ghost use Rattle.rga_tree.specs.Tree.{stands_in};
ghost use Rattle.rga_tree.specs.Row.{shown_ids};
ghost use Rattle.desk_replica.specs.Merging.{with_operations};
ghost use Rattle.desk_replica.specs.Placement.{IsPaid};
ghost use Rattle.desk_replica.specs.Replacement.{MayHide, deletions, insertions};

use bg_types::{Id, Memory, Op, OpView, Place};
use pending_ops::Held;
use rga_tree::{Element, Sequence, Unpacked};

/// Reserves memory for placing n characters that are typed, beside the spare operations that are left then. They are
/// never early, so the store of early operations needs no room for them.
pub fn pay_for_typed<S: Sequence>(
    seq: &mut S,
    held: &Held,
    spare: &mut usize,
    n: usize,
) -> Result<(), Memory>
    requires n { n ≤ 1_000_000 }
    requires few { map.len held.now.held.ins ≤ 1_000_000 }
    requires paid { IsPaid (S.free seq.old) held.now spare.old }
    ensures content { S.content seq.new ≡ S.content seq.old }
    ensures room { OnOk result (n ≤ S.free seq.new) }
    ensures rest { OnOk result (IsPaid (S.free seq.new - n) held.now spare.new) }
    ensures spare { OnOk result (spare.new ≡ spare.old - n) }
    ensures kept { S.free seq.old ≤ S.free seq.new }
    ensures err { OnErr result (spare.new ≡ spare.old) }
    ensures enough { n ≤ spare.old → IsOk result }
{
    if n > *spare {
        seq.reserve(held.insertion_count() + n)?;
    }
    *spare = spare.saturating_sub(n);
    Ok(())
}

/// Hides the visible elements from a place on, as many as are said, and lists their deletions, for which there is room. They
/// are found by one search and one walk.
pub fn erase_stretch<S: Sequence>(seq: &mut S, from: usize, count: usize, made: &mut Vec<Op>)
    requires within { from + count ≤ length (visible (S.content seq.old)) }
    requires listed { vec_len made.old + count ≤ vec_capacity made.old }
    ensures made { made.new.items ≡ made.old.items ++ deletions (S.content seq.old) from count }
    ensures content { S.content seq.new ≡ with_operations (S.content seq.old) (deletions (S.content seq.old) from count) }
    ensures room { S.free seq.new ≡ S.free seq.old }
    ensures len { vec_len made.new ≡ vec_len made.old + count }
    ensures capacity { vec_capacity made.new ≡ vec_capacity made.old }
{
    if count == 0 {
        return;
    }
    let before = made.len();
    list_stretch(seq, from, count, made);
    hide_targets(seq, &made[before..]);
}

/// Lists the deletions of the visible elements from a place on, as many as are said, which is at least one.
fn list_stretch<S: Sequence>(seq: &mut S, from: usize, count: usize, made: &mut Vec<Op>)
    requires some { 0 < count }
    requires within { from + count ≤ length (visible (S.content seq.old)) }
    requires listed { vec_len made.old + count ≤ vec_capacity made.old }
    ensures made { made.new.items ≡ made.old.items ++ deletions (S.content seq.old) from count }
    ensures content { S.content seq.new ≡ S.content seq.old }
    ensures room { S.free seq.new ≡ S.free seq.old }
    ensures capacity { vec_capacity made.new ≡ vec_capacity made.old }
{
    let (part, at) = seq.spot_at(from);
    let parts = seq.part_count();
    let mut unpacked = Unpacked::new();
    let mut left = list_row(&seq.part(part, &mut unpacked)[at..], count, made);
    for p in part + 1..parts {
        if left == 0 {
            return;
        }
        left = list_row(seq.part(p, &mut unpacked), left, made);
    }
}

/// Lists the deletions of the visible elements in front of a list, as many as are said or as there are, and returns how many
/// are left to be listed.
fn list_row(row: &[Element], count: usize, made: &mut Vec<Op>) -> usize
    requires listed { vec_len made.old + count ≤ vec_capacity made.old }
    ensures made { made.new.items ≡ made.old.items ++ each Erase (take count (shown_ids row.now)) }
    ensures left { result ≡ count - length (shown_ids row.now) }
    ensures len { vec_len made.new + result ≡ vec_len made.old + count }
    ensures capacity { vec_capacity made.new ≡ vec_capacity made.old }
{
    let mut left = count;
    for e in row {
        if left == 0 {
            return 0;
        }
        if !e.hidden {
            made.push_reserved(Op::erase(e.id));
            left -= 1;
        }
    }
    left
}

/// Hides the targets of deletions.
fn hide_targets<S: Sequence>(seq: &mut S, deletions: &[Op])
    requires { All (MayHide (S.content seq.old)) deletions.now }
    ensures content { S.content seq.new ≡ with_operations (S.content seq.old) deletions.now }
    ensures room { S.free seq.new ≡ S.free seq.old }
{
    for op in deletions {
        match op.view() {
            OpView::Erase { target } => seq.hide(target),
            OpView::Insert { .. } => unreachable!(),
        }
    }
}

/// Places characters that are typed, the first one behind a parent and each further one behind the one before, by counters
/// above one, and lists their insertions. There is room for both.
pub fn type_behind<S: Sequence>(
    seq: &mut S,
    site: u16,
    counter: u32,
    parent: Place,
    characters: &str,
    made: &mut Vec<Op>,
)
    requires site { 0 < site }
    requires new { next (S.content seq.old) ≤ counter + 1 }
    requires follows { MayFollow parent (record { counter = counter + 1; site = site }) }
    requires stands { stands_in (S.content seq.old) parent ≡ true }
    requires counters { counter + length (chars characters.now) < 2 ^ 32 }
    requires room { length (chars characters.now) ≤ S.free seq.old }
    requires listed { vec_len made.old + length (chars characters.now) ≤ vec_capacity made.old }
    ensures made { made.new.items ≡ made.old.items ++ insertions (record { counter = counter + 1; site = site }) parent (chars characters.now) }
    ensures well_formed { All IsWellFormed (insertions (record { counter = counter + 1; site = site }) parent (chars characters.now)) }
    ensures content { S.content seq.new ≡ with_operations (S.content seq.old) (insertions (record { counter = counter + 1; site = site }) parent (chars characters.now)) }
    ensures room { S.free seq.new + length (chars characters.now) ≡ S.free seq.old }
{
    if characters.is_empty() {
        return;
    }
    let first = Id::new(counter + 1, site).unwrap();
    list_run(first, &parent, characters, made);
    seq.place_run(first, parent, characters);
}

/// Lists the insertions of a run behind a parent, for which there is room.
fn list_run(first: Id, front: &Place, characters: &str, made: &mut Vec<Op>)
    requires follows { MayFollow front.now first }
    requires counters { first.counter + length (chars characters.now) ≤ 2 ^ 32 }
    requires listed { vec_len made.old + length (chars characters.now) ≤ vec_capacity made.old }
    ensures made { made.new.items ≡ made.old.items ++ insertions first front.now (chars characters.now) }
    ensures well_formed { All IsWellFormed (insertions first front.now (chars characters.now)) }
{
    let mut counter = first.counter() - 1;
    let mut parent = *front;
    let mut left = characters.chars();
    while let Some(ch) = left.next() {
        counter += 1;
        let id = Id::new(counter, first.site()).unwrap();
        made.push_reserved(Op::insert(id, parent, ch).unwrap());
        parent = Place::After(id);
    }
}

//! A row with a character more, and with one that is hidden.

ghost use Rattle.std.specs.Prelude.{◌≡◌, ◌+◌, ◌^◌, ◌<◌, ◌≤◌, ◌++◌, ◌∷◌, ℕ, List, [], All, length, take, drop, get_or, insert, slice_set, slice_index_or, not, true, IfSome, vec_len, vec_capacity};
ghost use Rattle.std.specs.Ordering.{is_lt};
ghost use Rattle.std.specs.Str.{chars, IsUtf8};
ghost use Rattle.std.specs.Str.Iter.{chars_rest};
ghost use Rattle.std.specs.List.{prefix_len};
ghost use Rattle.bg_types.specs.Identifier.{id_cmp, same_id};
ghost use Rattle.bg_types.specs.declared.op.Place.TheVariants.{After};
ghost use Rattle.rga_tree.specs.declared.element.Element.{Element};
ghost use Rattle.rga_tree.specs.Row.{place_of, start_of};
ghost use Rattle.rga_tree.specs.KeepsWalk.{KeepsWalk};
ghost use Rattle.rga_tree.specs.Spot.{joined};
ghost use Rattle.rga_runs.specs.declared.stretch.Stretch.{Stretch as Kept};
ghost use Rattle.rga_runs.specs.Typed.{later, typed};
ghost use Rattle.rga_runs.specs.Stretches.{parts_in, elements_in, are_stored, visible_in, IsOutside, IsPlaced, AreApart};
ghost use Rattle.rga_runs.specs.Blocks.{at_spot};
ghost use Rattle.rga_runs.specs.BlockRows.{items_of};
ghost use Rattle.rga_runs.specs.Indexed.{stretches_in, IsIndexed, HasRoom, TakesRoom};

use crate::row::{Row, grow, hide_character, part, put_first, put_lone, room_behind, spot};
use crate::skip::passed_from;
use bg_types::{Id, Place};
use std::str::Chars;

/// Places an element whose character is stored behind all others.
pub fn put(row: &mut Row, id: Id, parent: Place, start: usize, hidden: bool)
    requires stored { are_stored start (stretches_in row.old) ≡ true }
    requires place { start < 2 ^ 32 }
    requires parent { IsPlaced parent (stretches_in row.old) }
    requires new { All (IsOutside id) (stretches_in row.old) }
    requires apart { AreApart (stretches_in row.old) }
    requires indexed { IsIndexed row.old }
    requires room { HasRoom row.old 2 }
    ensures elements { (chars : List ℕ) (ch : ℕ) → length chars ≡ start → KeepsWalk (elements_in chars (stretches_in row.old))
        → elements_in (chars ++ ch ∷ []) (stretches_in row.new)
        ≡ insert (elements_in chars (stretches_in row.old)) (place_of parent id (elements_in chars (stretches_in row.old)))
        (record { id = id; parent = parent; ch = ch; hidden = hidden }) }
    ensures stored { are_stored (start + 1) (stretches_in row.new) ≡ true }
    ensures indexed { IsIndexed row.new }
    ensures room { TakesRoom 2 row.old row.new }
{
    if row.blocks.is_empty() {
        put_first(row, id, parent, start, hidden);
    } else {
        let (b, j) = beginning(row, id, &parent);
        let (q, at) = passed_from(&row.blocks, &row.bounds, b, j, id);
        put_at_spot(row, q, at, id, parent, start, hidden);
    }
}

/// The spot from which on greater stretches are passed: behind a greater sibling that was put in last, or behind the parent. Greater
/// elements that follow the parent in its own stretch are passed with that, and before one that isn't greater it is parted.
fn beginning(row: &mut Row, id: Id, parent: &Place) -> (usize, usize)
    requires some { 0 < vec_len row.old.blocks }
    requires parent { IsPlaced parent.now (stretches_in row.old) }
    requires apart { AreApart (stretches_in row.old) }
    requires indexed { IsIndexed row.old }
    requires room { HasRoom row.old 1 }
    ensures block { result.0 < vec_len row.new.blocks }
    ensures within { result.1 ≤ length (get_or (items_of row.new.blocks.items) result.0 []) }
    ensures place { (chars : List ℕ) → are_stored (length chars) (stretches_in row.old) ≡ true
        → KeepsWalk (elements_in chars (stretches_in row.old)) → let p = at_spot (items_of row.new.blocks.items) result.0 result.1 in
        length (joined (take p (parts_in chars (stretches_in row.new))))
        + prefix_len (λ e. is_lt (id_cmp id e.id)) (joined (drop p (parts_in chars (stretches_in row.new))))
        ≡ place_of parent.now id (elements_in chars (stretches_in row.old)) }
    ensures elements { (chars : List ℕ) → elements_in chars (stretches_in row.new) ≡ elements_in chars (stretches_in row.old) }
    ensures stored { (n : ℕ) → are_stored n (stretches_in row.old) ≡ true → are_stored n (stretches_in row.new) ≡ true }
    ensures outside { All (IsOutside id) (stretches_in row.old) → All (IsOutside id) (stretches_in row.new) }
    ensures apart { AreApart (stretches_in row.new) }
    ensures indexed { IsIndexed row.new }
    ensures room { TakesRoom 1 row.old row.new }
{
    if let Some(spot) = behind_sibling(row, id, parent) {
        return spot;
    }
    match parent {
        Place::Root => (0, 0),
        Place::After(above) => {
            let (b, j, k) = spot(row, *above).unwrap();
            if row.blocks[b].stretches[j].stops(k + 1, id) {
                part(row, b, j, k + 1)
            } else {
                (b, j + 1)
            }
        }
    }
}

/// The spot right behind the stretch in which a character was put last, if that begins with a greater child of the same parent. What
/// stands between the parent and that one is greater still, and so is what follows in the stretch.
fn behind_sibling(row: &Row, id: Id, parent: &Place) -> Option<(usize, usize)>
    ensures block { IfSome result (λ s. s.0 < vec_len row.now.blocks) }
    ensures within { IfSome result (λ s. s.1 ≤ length (get_or (items_of row.now.blocks.items) s.0 [])) }
    ensures place { IfSome result (λ s. (chars : List ℕ) → are_stored (length chars) (stretches_in row.now) ≡ true
        → KeepsWalk (elements_in chars (stretches_in row.now)) → let p = at_spot (items_of row.now.blocks.items) s.0 s.1 in
        length (joined (take p (parts_in chars (stretches_in row.now))))
        + prefix_len (λ e. is_lt (id_cmp id e.id)) (joined (drop p (parts_in chars (stretches_in row.now))))
        ≡ place_of parent.now id (elements_in chars (stretches_in row.now))) }
{
    // What is typed in one go is greater, and is not compared.
    if row.latest < id.counter() {
        return None;
    }
    let (b, j) = row.recent;
    let block = row.blocks.get(b)?;
    let stretch = block.stretches.get(j)?;
    if stretch.is_greater_sibling(id, parent) {
        Some((b, j + 1))
    } else {
        None
    }
}

/// Puts an element in at a spot: into the stretch before that, if it is the next one of that, or else as a stretch of its own.
fn put_at_spot(row: &mut Row, b: usize, j: usize, id: Id, parent: Place, start: usize, hidden: bool)
    requires block { b < vec_len row.old.blocks }
    requires within { j ≤ length (get_or (items_of row.old.blocks.items) b []) }
    requires stored { are_stored start (stretches_in row.old) ≡ true }
    requires place { start < 2 ^ 32 }
    requires new { All (IsOutside id) (stretches_in row.old) }
    requires apart { AreApart (stretches_in row.old) }
    requires indexed { IsIndexed row.old }
    requires room { HasRoom row.old 1 }
    ensures elements { (chars : List ℕ) (ch : ℕ) → length chars ≡ start → elements_in (chars ++ ch ∷ []) (stretches_in row.new)
        ≡ insert (elements_in chars (stretches_in row.old))
        (length (joined (take (at_spot (items_of row.old.blocks.items) b j) (parts_in chars (stretches_in row.old)))))
        (record { id = id; parent = parent; ch = ch; hidden = hidden }) }
    ensures stored { are_stored (start + 1) (stretches_in row.new) ≡ true }
    ensures indexed { IsIndexed row.new }
    ensures room { TakesRoom 1 row.old row.new }
{
    // Reading the identifier shows the proof that its counter fits.
    let _known = id.counter();
    if j > 0 && row.blocks[b].stretches[j - 1].goes_on(id, &parent, start, hidden) {
        grow(row, b, j - 1, 1);
    } else {
        put_lone(row, b, j, id, parent, start, hidden);
    }
}

/// Lets the stretch in which a character was put last take in those that are typed behind it, as many as it has room for, and
/// answers how many those are. There is memory for all that are left.
pub fn take_in(row: &mut Row, characters: &mut Vec<char>, last: Id, left: &mut Chars<'_>) -> usize
    requires utf8 { IsUtf8 (chars_rest left.old) }
    requires stored { are_stored (length characters.old.items) (stretches_in row.old) ≡ true }
    requires new { (k : ℕ) → k < length (chars (chars_rest left.old)) → All (IsOutside (later last (k + 1))) (stretches_in row.old) }
    requires counters { last.counter + length (chars (chars_rest left.old)) < 2 ^ 32 }
    requires places { vec_len characters.old + length (chars (chars_rest left.old)) ≤ 2 ^ 32 }
    requires memory { vec_len characters.old + length (chars (chars_rest left.old)) ≤ vec_capacity characters.old }
    requires apart { AreApart (stretches_in row.old) }
    requires indexed { IsIndexed row.old }
    ensures within { result ≤ length (chars (chars_rest left.old)) }
    ensures left { chars (chars_rest left.new) ≡ drop result (chars (chars_rest left.old)) }
    ensures utf8 { IsUtf8 (chars_rest left.new) }
    ensures characters { characters.new.items ≡ characters.old.items ++ take result (chars (chars_rest left.old)) }
    ensures len { vec_len characters.new ≡ vec_len characters.old + result }
    ensures capacity { vec_capacity characters.new ≡ vec_capacity characters.old }
    ensures elements { let es = elements_in characters.old.items (stretches_in row.old) in let at = start_of (After last) es in
        elements_in characters.new.items (stretches_in row.new)
        ≡ take at es ++ (typed (later last 1) (After last) 0 (take result (chars (chars_rest left.old))) ++ drop at es) }
    ensures stored { are_stored (length characters.new.items) (stretches_in row.new) ≡ true }
    ensures indexed { IsIndexed row.new }
    ensures room { TakesRoom 0 row.old row.new }
{
    match room_behind(row, last, characters.len()) {
        Some((b, j, most)) => {
            let more = store(characters, left, most);
            grow(row, b, j, more);
            more
        }
        None => 0,
    }
}

/// Stores characters behind the others, at most so many, and answers how many those are. There is memory for all that are left.
fn store(characters: &mut Vec<char>, left: &mut Chars<'_>, most: usize) -> usize
    requires utf8 { IsUtf8 (chars_rest left.old) }
    requires memory { vec_len characters.old + length (chars (chars_rest left.old)) ≤ vec_capacity characters.old }
    ensures most { result ≤ most }
    ensures within { result ≤ length (chars (chars_rest left.old)) }
    ensures left { chars (chars_rest left.new) ≡ drop result (chars (chars_rest left.old)) }
    ensures utf8 { IsUtf8 (chars_rest left.new) }
    ensures items { characters.new.items ≡ characters.old.items ++ take result (chars (chars_rest left.old)) }
    ensures len { vec_len characters.new ≡ vec_len characters.old + result }
    ensures capacity { vec_capacity characters.new ≡ vec_capacity characters.old }
{
    for stored in 0..most {
        match left.next() {
            Some(ch) => characters.push_reserved(ch),
            None => return stored,
        }
    }
    most
}

/// Hides an element, and returns how many fewer are visible.
pub fn hide(row: &mut Row, id: Id) -> usize
    requires placed { All (IsOutside id) (stretches_in row.old) → ⊥ }
    requires apart { AreApart (stretches_in row.old) }
    requires indexed { IsIndexed row.old }
    ensures elements { (chars : List ℕ) → are_stored (length chars) (stretches_in row.old) ≡ true → (d : Element)
        → let es = elements_in chars (stretches_in row.old) in let at = prefix_len (λ e. not (same_id id e.id)) es in
        elements_in chars (stretches_in row.new) ≡ slice_set es at (record (slice_index_or es at d) { hidden = true }) }
    ensures visible { visible_in (stretches_in row.new) + result ≡ visible_in (stretches_in row.old) }
    ensures stored { (n : ℕ) → are_stored n (stretches_in row.old) ≡ true → are_stored n (stretches_in row.new) ≡ true }
    ensures indexed { IsIndexed row.new }
    ensures room { TakesRoom 0 row.old row.new }
{
    let (b, j, k) = spot(row, id).unwrap();
    if row.blocks[b].stretches[j].hides(k) {
        return 0;
    }
    hide_character(row, b, j, k);
    1
}

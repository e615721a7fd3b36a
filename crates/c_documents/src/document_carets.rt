//! Carets in documents.

ghost use Rattle.std.specs.Prelude.{◌≡◌, ◌⊎◌, ◌<◌, OnOk, IfOk, IfErr};
ghost use Rattle.caret.specs.Moves.{right_of, left_of, up_of, down_of};
ghost use Rattle.caret.specs.Positions.{IsPositionOf};
ghost use Rattle.live_document.specs.Cost.{IsLaidOut};
ghost use Rattle.live_document.specs.Documents.{whole_rows};
ghost use Rattle.c_documents.specs.Documents.{IsAsked, IsColumnWritten, IsMoved, IsNoPlace, IsPlaceWritten, IsRowSought, IsUnmoved};
ghost use Rattle.c_documents.specs.Numbers.{no_position, position_with};

use crate::numbers::{PositionNumbers, no_position, position_numbers, position_with};
use crate::told_document::ToldDocument;
use bg_types::Memory;
use c_answers::{BAD_CARET, BAD_PLACE, MEMORY, OK};
use live_document::Position;

/// Writes where the caret stands at a place of the text.
pub fn tell_position(held: &mut ToldDocument, place: usize, out: &mut PositionNumbers) -> u32
    ensures ok { result ≡ 0 → IsPlaceWritten held.old place held.new out.new }
    ensures err { (result ≡ 0 → ⊥) → out.new ≡ no_position }
    ensures fault { (result ≡ 0 → ⊥) → IsNoPlace held.old place held.new result }
{
    *out = no_position();
    if place > held.document.len() {
        return BAD_PLACE;
    }
    match held.document.position_at(place) {
        Ok(position) => {
            *out = position_numbers(position);
            OK
        }
        Err(Memory) => MEMORY,
    }
}

/// Writes where the caret stands where a mouse points: in the row of a place, at the last gap that is not right of a column.
pub fn tell_position_under(
    held: &mut ToldDocument,
    place: usize,
    column: usize,
    out: &mut PositionNumbers,
) -> u32
    ensures ok { result ≡ 0 → IsColumnWritten held.old place column held.new out.new }
    ensures err { (result ≡ 0 → ⊥) → out.new ≡ no_position }
    ensures fault { (result ≡ 0 → ⊥) → IsNoPlace held.old place held.new result }
{
    *out = no_position();
    if place > held.document.len() {
        return BAD_PLACE;
    }
    match held.document.position_in(place, column) {
        Ok(position) => {
            *out = position_numbers(position);
            OK
        }
        Err(Memory) => MEMORY,
    }
}

/// The position with these numbers, or the number of the fault where the text's grid has none.
fn standing(held: &mut ToldDocument, numbers: &PositionNumbers) -> Result<Position, u32>
    ensures is { IfOk result (λ position. position ≡ position_with numbers.now) }
    ensures stands { IfOk result (λ position. IsPositionOf (whole_rows held.old.document) position) }
    ensures found { OnOk result (IsLaidOut held.old.document held.new.document numbers.now.row 0 0) }
    ensures fault { IfErr result (λ fault. (fault ≡ 9) ⊎ ((fault ≡ 110) × (¬ (IsPositionOf (whole_rows held.old.document) (position_with numbers.now))) × IsRowSought held.old.document held.new.document numbers.now.row)) }
    ensures rows { whole_rows held.new.document ≡ whole_rows held.old.document }
    ensures asked { IsAsked held.old held.new }
{
    let position = position_with(numbers);
    match held.document.holds(position) {
        Ok(true) => Ok(position),
        Ok(false) => Err(BAD_CARET),
        Err(Memory) => Err(MEMORY),
    }
}

/// Moves a caret one step to the right, as the eye sees it.
pub fn move_right(held: &mut ToldDocument, position: &mut PositionNumbers) -> u32
    ensures ok { result ≡ 0 → IsMoved right_of held.old position.old held.new position.new }
    ensures err { (result ≡ 0 → ⊥) → IsUnmoved held.old position.old held.new position.new result }
{
    let from = match standing(held, position) {
        Ok(from) => from,
        Err(fault) => return fault,
    };
    match held.document.right(from) {
        Ok(moved) => {
            *position = position_numbers(moved);
            OK
        }
        Err(Memory) => MEMORY,
    }
}

/// Moves a caret one step to the left, as the eye sees it.
pub fn move_left(held: &mut ToldDocument, position: &mut PositionNumbers) -> u32
    ensures ok { result ≡ 0 → IsMoved left_of held.old position.old held.new position.new }
    ensures err { (result ≡ 0 → ⊥) → IsUnmoved held.old position.old held.new position.new result }
{
    let from = match standing(held, position) {
        Ok(from) => from,
        Err(fault) => return fault,
    };
    match held.document.left(from) {
        Ok(moved) => {
            *position = position_numbers(moved);
            OK
        }
        Err(Memory) => MEMORY,
    }
}

/// Moves a caret one row up, as the eye sees it.
pub fn move_up(held: &mut ToldDocument, position: &mut PositionNumbers) -> u32
    ensures ok { result ≡ 0 → IsMoved up_of held.old position.old held.new position.new }
    ensures err { (result ≡ 0 → ⊥) → IsUnmoved held.old position.old held.new position.new result }
{
    let from = match standing(held, position) {
        Ok(from) => from,
        Err(fault) => return fault,
    };
    match held.document.up(from) {
        Ok(moved) => {
            *position = position_numbers(moved);
            OK
        }
        Err(Memory) => MEMORY,
    }
}

/// Moves a caret one row down, as the eye sees it.
pub fn move_down(held: &mut ToldDocument, position: &mut PositionNumbers) -> u32
    ensures ok { result ≡ 0 → IsMoved down_of held.old position.old held.new position.new }
    ensures err { (result ≡ 0 → ⊥) → IsUnmoved held.old position.old held.new position.new result }
{
    let from = match standing(held, position) {
        Ok(from) => from,
        Err(fault) => return fault,
    };
    match held.document.down(from) {
        Ok(moved) => {
            *position = position_numbers(moved);
            OK
        }
        Err(Memory) => MEMORY,
    }
}

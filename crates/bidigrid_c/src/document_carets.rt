//! Carets in documents.

ghost use Rattle.std.specs.Prelude.{◌≡◌, None};
ghost use Rattle.std.specs.Option.{IfSome};
ghost use Rattle.caret.specs.Moves.{right_of, left_of, up_of, down_of};
ghost use Rattle.c_documents.specs.Documents.{IsColumnWritten, IsMoved, IsNoPlace, IsPlaceWritten, IsUnmoved};
ghost use Rattle.c_documents.specs.Numbers.{no_position};

use c_answers::EMPTY_HANDLE;
use c_documents::{
    DocumentHandle, PositionNumbers, move_down, move_left, move_right, move_up, no_position,
    tell_position, tell_position_under,
};
use std::alloc::Global;

/// Writes where the caret stands at a place of the text.
#[unsafe(no_mangle)]
pub extern "C" fn bidigrid_position_at(
    alloc: Global,
    document: &mut DocumentHandle,
    place: usize,
    out: &mut PositionNumbers,
) -> u32
    ensures ok { result ≡ 0 → IfSome document.old.held (λ d. IfSome document.new.held (λ e. IsPlaceWritten d place e out.new)) }
    ensures err { (result ≡ 0 → ⊥) → out.new ≡ no_position }
    ensures fault { (result ≡ 0 → ⊥) → IfSome document.old.held (λ d. IfSome document.new.held (λ e. IsNoPlace d place e result)) }
    ensures empty { document.old.held ≡ None → (result ≡ 101) × (document.new.held ≡ None) }
    ensures held { document.new.held ≡ None → document.old.held ≡ None }
{
    let Some(mut held) = document.take(alloc) else {
        *out = no_position();
        return EMPTY_HANDLE;
    };
    let answer = tell_position(&mut held, place, out);
    document.put(alloc, held);
    answer
}

/// Writes where the caret stands where a mouse points: in the row of a place, at the last gap that is not right of a column.
#[unsafe(no_mangle)]
pub extern "C" fn bidigrid_position_under(
    alloc: Global,
    document: &mut DocumentHandle,
    place: usize,
    column: usize,
    out: &mut PositionNumbers,
) -> u32
    ensures ok { result ≡ 0 → IfSome document.old.held (λ d. IfSome document.new.held (λ e. IsColumnWritten d place column e out.new)) }
    ensures err { (result ≡ 0 → ⊥) → out.new ≡ no_position }
    ensures fault { (result ≡ 0 → ⊥) → IfSome document.old.held (λ d. IfSome document.new.held (λ e. IsNoPlace d place e result)) }
    ensures empty { document.old.held ≡ None → (result ≡ 101) × (document.new.held ≡ None) }
    ensures held { document.new.held ≡ None → document.old.held ≡ None }
{
    let Some(mut held) = document.take(alloc) else {
        *out = no_position();
        return EMPTY_HANDLE;
    };
    let answer = tell_position_under(&mut held, place, column, out);
    document.put(alloc, held);
    answer
}

/// Moves a caret one step to the right, as the eye sees it.
#[unsafe(no_mangle)]
pub extern "C" fn bidigrid_position_right(
    alloc: Global,
    document: &mut DocumentHandle,
    position: &mut PositionNumbers,
) -> u32
    ensures ok { result ≡ 0 → IfSome document.old.held (λ d. IfSome document.new.held (λ e. IsMoved right_of d position.old e position.new)) }
    ensures err { (result ≡ 0 → ⊥) → IfSome document.old.held (λ d. IfSome document.new.held (λ e. IsUnmoved d position.old e position.new result)) }
    ensures empty { document.old.held ≡ None → (result ≡ 101) × (position.new ≡ position.old) × (document.new.held ≡ None) }
    ensures held { document.new.held ≡ None → document.old.held ≡ None }
{
    let Some(mut held) = document.take(alloc) else {
        return EMPTY_HANDLE;
    };
    let answer = move_right(&mut held, position);
    document.put(alloc, held);
    answer
}

/// Moves a caret one step to the left, as the eye sees it.
#[unsafe(no_mangle)]
pub extern "C" fn bidigrid_position_left(
    alloc: Global,
    document: &mut DocumentHandle,
    position: &mut PositionNumbers,
) -> u32
    ensures ok { result ≡ 0 → IfSome document.old.held (λ d. IfSome document.new.held (λ e. IsMoved left_of d position.old e position.new)) }
    ensures err { (result ≡ 0 → ⊥) → IfSome document.old.held (λ d. IfSome document.new.held (λ e. IsUnmoved d position.old e position.new result)) }
    ensures empty { document.old.held ≡ None → (result ≡ 101) × (position.new ≡ position.old) × (document.new.held ≡ None) }
    ensures held { document.new.held ≡ None → document.old.held ≡ None }
{
    let Some(mut held) = document.take(alloc) else {
        return EMPTY_HANDLE;
    };
    let answer = move_left(&mut held, position);
    document.put(alloc, held);
    answer
}

/// Moves a caret one row up, as the eye sees it.
#[unsafe(no_mangle)]
pub extern "C" fn bidigrid_position_up(
    alloc: Global,
    document: &mut DocumentHandle,
    position: &mut PositionNumbers,
) -> u32
    ensures ok { result ≡ 0 → IfSome document.old.held (λ d. IfSome document.new.held (λ e. IsMoved up_of d position.old e position.new)) }
    ensures err { (result ≡ 0 → ⊥) → IfSome document.old.held (λ d. IfSome document.new.held (λ e. IsUnmoved d position.old e position.new result)) }
    ensures empty { document.old.held ≡ None → (result ≡ 101) × (position.new ≡ position.old) × (document.new.held ≡ None) }
    ensures held { document.new.held ≡ None → document.old.held ≡ None }
{
    let Some(mut held) = document.take(alloc) else {
        return EMPTY_HANDLE;
    };
    let answer = move_up(&mut held, position);
    document.put(alloc, held);
    answer
}

/// Moves a caret one row down, as the eye sees it.
#[unsafe(no_mangle)]
pub extern "C" fn bidigrid_position_down(
    alloc: Global,
    document: &mut DocumentHandle,
    position: &mut PositionNumbers,
) -> u32
    ensures ok { result ≡ 0 → IfSome document.old.held (λ d. IfSome document.new.held (λ e. IsMoved down_of d position.old e position.new)) }
    ensures err { (result ≡ 0 → ⊥) → IfSome document.old.held (λ d. IfSome document.new.held (λ e. IsUnmoved d position.old e position.new result)) }
    ensures empty { document.old.held ≡ None → (result ≡ 101) × (position.new ≡ position.old) × (document.new.held ≡ None) }
    ensures held { document.new.held ≡ None → document.old.held ≡ None }
{
    let Some(mut held) = document.take(alloc) else {
        return EMPTY_HANDLE;
    };
    let answer = move_down(&mut held, position);
    document.put(alloc, held);
    answer
}

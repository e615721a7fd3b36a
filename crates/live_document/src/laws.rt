//! Laws of the definitions: each function's contract is the law, and its body does nothing.

ghost use Rattle.std.specs.Prelude.{◌≡◌, ◌≤◌, ℕ, false, max, List, length, slice_range};
ghost use Rattle.bg_types.specs.declared.change.Change.{Change};
ghost use Rattle.bg_types.specs.Edit.{IsInRange};
ghost use Rattle.text_buffer.specs.Edits.{Step, IsTouchedInTurn};
ghost use Rattle.live_document.specs.Carrying.{IsCarried, KeepsItsSide};
ghost use Rattle.live_document.specs.Cost.{allowed, weight_kept, unmarked, carried, stretch_marks, IsLaidOut};
ghost use Rattle.live_document.specs.Documents.{LiveDocument, IsWindowOf};
ghost use Rattle.live_document.specs.Runs.{DocumentCall, Shows, IsCall, IsRun};
ghost use Rattle.live_document.specs.Showing.{no_window};

/// The live law. After any calls of a document that showed nothing at first, what is shown is nothing, or the rows of *Grid* of
/// the text of the operations that its desk has, round a place. Two documents that have the same operations, whatever came in
/// which order, and are drawn alike show the same rows at the same place.
pub fn live_law()
    ensures of_now { (start now : LiveDocument) (calls : List DocumentCall) → start.window ≡ no_window → IsRun start calls now
        → IsWindowOf now.desk.set now.tables now.width now.base now.window }
    ensures same_rows { (one other one_shown other_shown : LiveDocument) (place above below : ℕ) → one.desk.set ≡ other.desk.set
        → one.tables ≡ other.tables → one.width ≡ other.width → one.base ≡ other.base
        → IsCall one (Shows place above below) false one_shown → IsCall other (Shows place above below) false other_shown
        → one_shown.window ≡ other_shown.window }
{}

/// The cost law. After a window was laid out and then edits came, the next window, there or elsewhere, lays out at most those of
/// its paragraphs that an edit made anew, and those that had no row in the window before.
pub fn cost_law()
    ensures { (before shown changed after : LiveDocument) (steps : List Step) (place above below later_place later_above later_below : ℕ)
        → (one : IsLaidOut before shown place above below) → IsTouchedInTurn shown.paragraphs steps changed.paragraphs
        → (two : IsLaidOut changed after later_place later_above later_below)
        → after.laid ≤ unmarked (carried steps (stretch_marks one.first one.end (length shown.paragraphs))) two.first two.end }
{}

/// The memory law. After a window was laid out and then edits came, what is kept weighs no more than the rows of four such windows
/// would with an entry for each column, each of at least 64 rows, or than as many such rows as were asked for, or than what the
/// window's paragraphs had.
pub fn memory_law()
    ensures { (before shown changed : LiveDocument) (steps : List Step) (place above below : ℕ)
        → (one : IsLaidOut before shown place above below) → IsTouchedInTurn shown.paragraphs steps changed.paragraphs
        → weight_kept changed.paragraphs ≤ max (allowed shown.most shown.width (length shown.window.rows)) (weight_kept (slice_range shown.paragraphs one.first one.end)) }
{}

/// A gap that is carried over a change has on its other side what it had there.
pub fn gaps_are_carried()
    ensures { (text : List ℕ) (change : Change) (gap after : ℕ) → IsInRange text change → gap ≤ length text
        → IsCarried change gap after → KeepsItsSide text change gap after }
{}

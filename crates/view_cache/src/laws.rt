//! Laws of the definitions: each function's contract is the law, and its body does nothing.

ghost use Rattle.std.specs.Prelude.{◌≡◌, ℕ, ◌≤◌, List, length, Result, Ok, IfOk};
ghost use Rattle.bg_types.specs.declared.class.Base.{Base};
ghost use Rattle.bg_types.specs.declared.fault.Memory.{Memory};
ghost use Rattle.cell_grid.specs.Grids.{DrawnGrid, grid_of};
ghost use Rattle.view_cache.specs.Drawings.{KeptView, IsDrawing};
ghost use Rattle.view_cache.specs.Laws.{Edit, IsEdited, Replaces, paragraph_texts};

/// Drawing from a view after any list of edits is drawing from scratch: the grid is that of the
/// text, by the tables that the view was made with.
pub fn drawn_after_edits()
    ensures { (first view after : KeptView) (text last : List ℕ) (edits : List Edit) → IsEdited first text edits view last
        → (width : ℕ) (base : Base) (answer : Result DrawnGrid Memory) → IsDrawing view width base last answer after
        → IfOk answer (λ grid. grid ≡ grid_of first.tables width base last) }
{}

/// An edit costs what it puts in: after a text was drawn and then edited, the next draw at the same
/// width and base lays out at most as many paragraphs as the edit put in place of others, provided that
/// the view has room for all paragraphs of either text.
pub fn edits_cost_what_they_put_in()
    ensures { (first view after : KeptView) (text later : List ℕ) (width : ℕ) (base : Base) (old new : List (List ℕ))
        → (drawn again : DrawnGrid) → IsDrawing first width base text (Ok drawn) view → IsDrawing view width base later (Ok again) after
        → Replaces first.tables text old later new
        → length (paragraph_texts first.tables text) ≤ first.room → length (paragraph_texts first.tables later) ≤ first.room
        → after.laid ≤ length new }
{}

//! Laws of the definitions: each function's contract is the law, and its body is empty.

ghost use Rattle.std.specs.Prelude.{ℕ, List, length, IsPermutation};
ghost use Rattle.std.specs.List.{range_with_len};
ghost use Rattle.reorder.specs.VisualList.{visual_list};
ghost use Rattle.reorder.specs.VisualOrder.{VisualOrder};
ghost use Rattle.reorder.specs.Pieces.{PiecesMoveAsOne};

/// Of clusters i before j of one line, i stands left of j exactly if the least level from i to j is even.
pub fn visual_order()
    ensures { VisualOrder }
{}

/// The visual list has the number of each cluster of the line, once.
pub fn rearrangement()
    ensures { (levels : List ℕ) → IsPermutation (range_with_len 0 (length levels)) (visual_list levels) }
{}

/// Clusters of one level that follow each other move as one: they stand where their piece stands by the levels of all
/// pieces, at an even level in the order of the text, at an odd one in the opposite order.
pub fn pieces_move_as_one()
    ensures { PiecesMoveAsOne }
{}

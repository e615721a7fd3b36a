//! The laws of the crates below, for the proofs of this one.

ghost use Rattle.live_document.specs.LawsBelow.{LawsBelow};

use caret::laws::{moves_in_windows, places_in_windows, positions_are_carets};
use cell_grid::laws::{
    first_places_rise, rows_follow, rows_may_shift, rows_of_paragraphs, rows_print_alike,
    windows_in_stretches,
};
use paragraphs::laws::paragraphs_join;

/// What the crates below promise of paragraphs, their rows, windows and carets. Called only for its contract.
#[inline]
pub fn laws_below()
    ensures { LawsBelow }
{
    paragraphs_join();
    first_places_rise();
    rows_of_paragraphs();
    rows_may_shift();
    rows_print_alike();
    windows_in_stretches();
    rows_follow();
    positions_are_carets();
    places_in_windows();
    moves_in_windows();
}

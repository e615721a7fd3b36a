//! The laws of the crates below, for the proofs of this one.

ghost use Rattle.cell_grid.specs.LawsBelow.{LawsBelow};

use line_break::laws::{each_measured, empty_line, lines_fit, lines_follow};
use paragraphs::laws::{cluster_places, clusters_join, paragraphs_join};
use reorder::laws::{pieces_move_as_one, rearrangement};

/// What the crates below promise of clusters, paragraphs, lines and the visual order. Called only for
/// its contract.
#[inline]
pub(crate) fn laws_below()
    ensures { LawsBelow }
{
    clusters_join();
    cluster_places();
    paragraphs_join();
    each_measured();
    empty_line();
    lines_follow();
    lines_fit();
    rearrangement();
    pieces_move_as_one();
}

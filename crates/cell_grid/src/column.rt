//! The columns of a row.

ghost use Rattle.std.specs.Prelude.{◌≡◌, ℕ, ◌+◌, ◌^◌, ◌<◌, ◌≤◌, List, sum};
ghost use Rattle.cell_grid.specs.Rows.{start_column};
ghost use Rattle.cell_grid.specs.Runs.{runs_columns};

use crate::cluster_run::ClusterRun;

/// The column at which a row begins whose clusters take up so many columns: on the left in a paragraph of even level,
/// otherwise so that the row ends at the width.
#[inline]
pub(crate) fn start_column(width: u16, para_level: u8, taken: u16) -> u16
    requires { taken ≤ width }
    ensures { (columns : List ℕ) → sum columns ≡ taken → result ≡ start_column width para_level columns }
{
    if para_level % 2 == 1 {
        width - taken
    } else {
        0
    }
}

/// The column where runs side by side from column `start` on end.
pub(crate) fn end_column(runs: &[ClusterRun], start: u16) -> u16
    requires { start + runs_columns runs.now < 2 ^ 16 }
    ensures { result ≡ start + runs_columns runs.now }
{
    let mut end = start;
    for run in runs {
        end += run.all_columns() as u16;
    }
    end
}

//! The runs of a row.

ghost use Rattle.std.specs.Prelude.{◌≡◌, ◌+◌, ◌^◌, ◌<◌, map, slice_get};
ghost use Rattle.std.specs.List.{All};
ghost use Rattle.cell_grid.specs.Runs.{runs_columns, runs_entries, shifted_run, IsInReach, MayShiftRun};

use crate::cluster_run::ClusterRun;
use crate::entry::Entry;

/// The entry with this number, from the left, of runs that begin at this column.
pub(crate) fn entry_in(runs: &[ClusterRun], start: u16, number: usize) -> Option<Entry>
    requires reach { All IsInReach runs.now }
    requires fits { start + runs_columns runs.now < 2 ^ 16 }
    ensures { result ≡ slice_get (runs_entries start runs.now) number }
{
    let mut column = start;
    let mut left = number;
    for run in runs {
        let further = usize::from(run.span.further);
        if left <= further {
            return Some(run.entry(column, left as u8));
        }
        left -= further + 1;
        column += run.all_columns() as u16;
    }
    None
}

/// Moves runs this many bytes and places later.
pub(crate) fn shift_runs(runs: &mut [ClusterRun], bytes: u32, places: u32)
    requires { All (MayShiftRun bytes places) runs.old }
    ensures { runs.new ≡ map (shifted_run bytes places) runs.old }
{
    for run in runs.iter_mut() {
        let span = run.span;
        run.span = span.later(bytes, places);
    }
}

//! How many runs the entries of a row make.

ghost use Rattle.std.specs.Prelude.{◌≡◌, ℕ, ◌+◌, ◌==◌};
ghost use Rattle.std.specs.List.{All};
ghost use Rattle.cell_grid.specs.RunCounts.{span_behind, same_span, goes_on, run_count};
ghost use Rattle.cell_grid.specs.Runs.{run_entry, runs_entries, IsInReach};

use crate::cluster_run::ClusterRun;
use paragraphs::Span;

/// How many runs the entries of these make, each as long as it can be: as many as these are, without those that go on where
/// the one on their left ends.
pub(crate) fn run_count(runs: &[ClusterRun]) -> usize
    requires { All IsInReach runs.now }
    ensures { (start : ℕ) → result ≡ run_count (runs_entries start runs.now) }
{
    if runs.is_empty() {
        return 0;
    }
    let mut count = 1;
    for number in 1..runs.len() {
        if !goes_on(&runs[number - 1], &runs[number]) {
            count += 1;
        }
    }
    count
}

/// Whether the entries of the right one of two runs go on where those of the left one end.
fn goes_on(left: &ClusterRun, right: &ClusterRun) -> bool
    requires left { IsInReach left.now }
    requires right { IsInReach right.now }
    ensures { (column next : ℕ) → result ≡ goes_on (run_entry column left.now left.now.span.further) (run_entry next right.now 0) }
{
    if left.level != right.level {
        return false;
    }
    if left.columns != right.columns {
        return false;
    }
    if left.span.differs_in_size(right.span) {
        return false;
    }
    if left.level % 2 == 1 {
        // What stands further right stands earlier in the text.
        return is_next(right.cluster(right.span.further), left.span.read());
    }
    is_next(left.cluster(left.span.further), right.span.read())
}

/// Whether the second span is the one behind the first, and of its size.
fn is_next(span: Span, next: Span) -> bool
    ensures { result ≡ same_span (span_behind span) next }
{
    let bytes = span.end_byte.saturating_sub(span.first_byte);
    let points = span.end_place.saturating_sub(span.first_place);
    is_later(bytes, span.first_byte, next.first_byte)
        && is_later(bytes, span.end_byte, next.end_byte)
        && is_later(points, span.first_place, next.first_place)
        && is_later(points, span.end_place, next.end_place)
}

/// Whether a number is so much greater than another.
#[inline]
fn is_later(by: u32, from: u32, to: u32) -> bool
    ensures { result ≡ ((from + by) == to) }
{
    u64::from(from) + u64::from(by) == u64::from(to)
}

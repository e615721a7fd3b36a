//! A cluster as lines see it.

ghost use Rattle.std.specs.Prelude.{◌≡◌};
ghost use Rattle.paragraphs.specs.Text.{code_points};
ghost use Rattle.line_break.specs.LineClusters.{is_space, hangs};

use crate::class::is_one_of;
use crate::status::Break;
use bg_types::Lb;
use unicode_tables::Tables;

/// What lines ask of a cluster: its columns, 0 to 2, whether it has only spaces, and the status of
/// the boundary after it.
#[derive(Clone, Copy)]
pub struct Cluster {
    pub columns: u8,
    pub is_space: bool,
    pub after: Break,
}

/// Whether a cluster has only code points of break class SP: a space cluster.
pub(crate) fn is_space(tables: &Tables, cluster: &str) -> bool
    ensures { result ≡ is_space tables.now (code_points cluster.now) }
{
    cluster.chars().all(|c| is_one_of(tables.lb(c), &[Lb::Sp]))
}

/// Whether a cluster hangs where it stands at a line's end.
#[inline]
pub(crate) fn hangs(cluster: &Cluster) -> bool
    ensures { result ≡ hangs cluster.now }
{
    cluster.is_space || cluster.columns == 0
}

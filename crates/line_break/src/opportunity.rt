//! The boundaries between clusters at which a line may end.

ghost use Rattle.std.specs.Prelude.{◌≡◌, ◌+◌, ◌-◌, ◌++◌, ◌^◌, ◌<◌, nat_le, OnOk};
ghost use Rattle.line_break.specs.Opportunities.{before_all, behind, offered};

use crate::cluster::{Cluster, hangs};
use crate::status::Break;
use bg_types::Memory;

/// A boundary between the clusters of a paragraph, by what stands before it.
#[derive(Clone, Copy)]
pub struct Boundary {
    /// How many clusters.
    pub clusters: u32,
    /// How many columns these take.
    pub columns: u32,
    /// How many columns they take without the tail at their end, which would hang there.
    pub solid: u32,
}

/// A boundary at which a line may end.
#[derive(Clone, Copy)]
pub struct Opportunity {
    pub boundary: Boundary,
    /// Whether a line must end there.
    pub must: bool,
}

impl Boundary {
    /// The one before a paragraph's first cluster.
    #[inline]
    pub(crate) fn before_all() -> Boundary
        ensures { result ≡ before_all }
    {
        Boundary {
            clusters: 0,
            columns: 0,
            solid: 0,
        }
    }

    /// The one after the next cluster.
    #[inline]
    pub(crate) fn behind(self, cluster: &Cluster) -> Boundary
        requires clusters { self.clusters + 1 < 2 ^ 32 }
        requires columns { self.columns + cluster.now.columns < 2 ^ 32 }
        ensures { result ≡ behind self cluster.now }
    {
        let columns = self.columns + cluster.columns as u32;
        Boundary {
            clusters: self.clusters + 1,
            columns,
            solid: if hangs(cluster) { self.solid } else { columns },
        }
    }

    /// Whether a line that starts at that boundary and ends at this one fits.
    #[inline]
    pub(crate) fn fits(self, start: Boundary, width: u32) -> bool
        ensures { result ≡ nat_le (self.solid - start.columns) width }
    {
        self.solid.saturating_sub(start.columns) <= width
    }
}

/// Appends a boundary of this status, if a line may end there.
#[inline]
pub(crate) fn offer(
    opportunities: &mut Vec<Opportunity>,
    boundary: Boundary,
    status: Break,
) -> Result<(), Memory>
    ensures { OnOk result (opportunities.new.items ≡ opportunities.old.items ++ offered boundary status) }
{
    if matches!(status, Break::No) {
        return Ok(());
    }
    opportunities.push(Opportunity {
        boundary,
        must: matches!(status, Break::Must),
    })?;
    Ok(())
}

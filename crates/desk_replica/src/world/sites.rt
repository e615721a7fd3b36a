//! The sites of a world's desks.

ghost use Rattle.std.specs.Prelude.{◌≢◌, ◌↔◌, IfOk, IsTrue};
ghost use Rattle.std.specs.List.{AllPairs};
ghost use Rattle.desk_replica.specs.WorldRun.{AreSites};

use bg_types::Memory;
use std::alloc::Global;
use std::collections::BTreeSet;

/// Whether desks may have these sites: each is at least 1, and none comes twice.
pub fn are_sites(alloc: Global, sites: &[u16]) -> Result<bool, Memory>
    ensures { IfOk result (λ fit. IsTrue fit ↔ AreSites sites.now) }
{
    if sites.contains(&0) {
        return Ok(false);
    }
    stand_once(alloc, sites)
}

/// Whether no site comes twice.
fn stand_once(alloc: Global, sites: &[u16]) -> Result<bool, Memory>
    ensures { IfOk result (λ once. IsTrue once ↔ AllPairs (λ a b. a ≢ b) sites.now) }
{
    let distinct: BTreeSet<u16> = sites.iter().copied().collect(alloc)?;
    Ok(distinct.len() == sites.len())
}

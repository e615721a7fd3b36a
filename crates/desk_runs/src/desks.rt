//! The desks of a run of several.

ghost use Rattle.std.specs.Prelude.{◌≡◌, ◌≤◌, IfOk};
ghost use Rattle.desk_runs.specs.Desks.{fresh_desks};

use bg_types::Memory;
use desk_files::{Desk, new_desk};
use std::alloc::Global;

/// This many desks without operations; desk k, from 1, has site k. The key is that of the run's hash
/// tables.
pub fn new_desks(alloc: Global, key: u128, count: usize) -> Result<Vec<Desk>, Memory>
    requires { count ≤ 64 }
    ensures { IfOk result (λ desks. desks.items ≡ fresh_desks count) }
{
    let mut desks = Vec::with_capacity(alloc, count)?;
    for site in 1..count as u16 + 1 {
        desks.push(new_desk(alloc, site, key))?;
    }
    Ok(desks)
}

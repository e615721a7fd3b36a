//! A world of desks: steps done one after the other, from fresh desks with distinct sites.

ghost use Rattle.std.specs.Prelude.{◌≡◌, ◌⊎◌, IfOk, IfErr, OnOk, All, ◌<◌, map, length};
ghost use Rattle.desk_replica.specs.declared.world.WorldFault.TheVariants.{Memory as world_memory};
ghost use Rattle.desk_replica.specs.Codes.{world_code};
ghost use Rattle.desk_replica.specs.Desk.{fresh};
ghost use Rattle.desk_replica.specs.DeskSets.{sites_of};
ghost use Rattle.desk_replica.specs.WorldRun.{AreSites, WorldRun, empty_world, world_of};

mod sites;
mod step;
mod steps;

use crate::replica::Replica;
use bg_types::{Memory, Op};
use rga_tree::Fresh;
use sites::are_sites;
use std::alloc::{AllocError, Global};
pub use step::{Reply, Step};
use steps::do_steps;
use thiserror::Error;

/// What steps made of a world of desks.
#[derive(Drop)]
pub struct World<S: Fresh> {
    /// The desks, in the order of their sites.
    pub desks: Vec<Replica<S>>,
    /// All operations made, in the order in which they were made.
    pub made: Vec<Op>,
    /// What became of each step.
    pub replies: Vec<Reply>,
}

/// Why there is no world. Each prints its bare name.
#[derive(Clone, Copy, Debug, PartialEq, Eq, Error)]
pub enum WorldFault {
    /// A site is 0, or comes twice.
    #[error("BadSites")]
    BadSites,
    /// A growth was refused.
    #[error("Memory")]
    Memory,
}

impl WorldFault {
    /// The number of this fault: 1 or 9.
    pub fn code(self) -> u8
        ensures { result ≡ world_code self }
    {
        match self {
            WorldFault::BadSites => 1,
            WorldFault::Memory => 9,
        }
    }
}

impl From<Memory> for WorldFault {
    ghost from_gives = { λ _ e. e ≡ world_memory };

    fn from(_error: Memory) -> WorldFault {
        WorldFault::Memory
    }
}

impl From<AllocError> for WorldFault {
    ghost from_gives = { λ _ e. e ≡ world_memory };

    fn from(_error: AllocError) -> WorldFault {
        WorldFault::Memory
    }
}

/// Does steps in order at fresh desks with these sites, each step at one desk. The caller names the desks'
/// sequence. Without the key, only one who measures the times of many runs can choose identifiers that make the steps slow.
///
/// `BadSites` where a site is 0 or comes twice, which is tested before the first step; `Memory` where
/// a growth is refused, which ends the run. What a desk refuses is a reply, and the run goes on.
/// Cost: that of each step's call; memory for as many operations and replies as there are steps, asked for once.
pub fn run_world<S: Fresh>(
    alloc: Global,
    key: u128,
    sites: &[u16],
    steps: &[Step],
) -> Result<World<S>, WorldFault>
    ensures world { IfOk result (λ w. WorldRun sites.now (empty_world (length sites.now)) steps.now w.replies.items (world_of w.desks.items w.made.items)) }
    ensures sites { IfOk result (λ w. sites_of w.desks.items ≡ sites.now) }
    ensures are_sites { OnOk result (AreSites sites.now) }
    ensures fault { IfErr result (λ fault. (fault ≡ WorldFault.Memory) ⊎ ((fault ≡ WorldFault.BadSites) × (¬ (AreSites sites.now)))) }
{
    if !are_sites(alloc, sites)? {
        return Err(WorldFault::BadSites);
    }
    let mut desks = fresh_desks(alloc, key, sites)?;
    let mut made = Vec::with_capacity(alloc, steps.len())?;
    let replies = do_steps(alloc, &mut desks, &mut made, steps)?;
    Ok(World {
        desks,
        made,
        replies,
    })
}

/// Desks of these sites without operations.
fn fresh_desks<S: Fresh>(alloc: Global, key: u128, sites: &[u16]) -> Result<Vec<Replica<S>>, Memory>
    requires { All (λ site. 0 < site) sites.now }
    ensures { IfOk result (λ desks. desks.items ≡ map fresh sites.now) }
{
    let mut desks = Vec::with_capacity(alloc, sites.len())?;
    for site in sites {
        let desk = Replica::new(alloc, *site, S::fresh(alloc, key), key);
        desks.push(desk)?;
    }
    Ok(desks)
}

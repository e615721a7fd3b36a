//! Desks: made, opened from a file, given memory in advance, freed.

ghost use Rattle.std.specs.Prelude.{◌≡◌, ◌⊎◌, ◌<◌, ◌+◌, ◌*◌, max, IfOk, IfErr};
ghost use Rattle.desk_replica.specs.Desk.{fresh};
ghost use Rattle.c_desks.specs.Numbers.{IsSite};
ghost use Rattle.c_desks.specs.Desks.{IsMessageTaken, IsRefusedOpening};

use crate::numbers::{Taken, none_taken};
use crate::taking::take_in;
use bg_types::Memory;
use c_answers::{BAD_SITE, MEMORY, OK, TOO_MANY};
use desk_replica::{MOST_OPERATIONS, Replica};
use rga_runs::Runs;
use rga_tree::Fresh;
use std::alloc::Global;

/// A desk over the sequence in stretches.
pub type Desk = Replica<Runs>;

/// How many operations a desk has at most.
pub const MOST_KEPT: usize = MOST_OPERATIONS as usize;

/// The greatest site.
pub(crate) const MOST_SITE: u32 = 65_535;

/// A desk of a site without operations, for a handle, or the number of the fault.
pub fn new_desk(alloc: Global, site: u32, key_high: u64, key_low: u64) -> Result<Box<Desk>, u32>
    ensures ok { IfOk result (λ boxed. (boxed.value ≡ fresh site) × IsSite site) }
    ensures fault { IfErr result (λ fault. ((fault ≡ 112) × (¬ (IsSite site))) ⊎ ((fault ≡ 9) × IsSite site)) }
{
    let desk = fresh_desk(alloc, site, key_high, key_low)?;
    match Box::new(alloc, desk) {
        Ok(boxed) => Ok(boxed),
        Err(_) => Err(MEMORY),
    }
}

/// A desk of a site without operations, or the number of the fault.
pub fn fresh_desk(alloc: Global, site: u32, key_high: u64, key_low: u64) -> Result<Desk, u32>
    ensures ok { IfOk result (λ desk. (desk ≡ fresh site) × IsSite site) }
    ensures fault { IfErr result (λ fault. (fault ≡ 112) × (¬ (IsSite site))) }
{
    if site == 0 || site > MOST_SITE {
        return Err(BAD_SITE);
    }
    let site = site as u16;
    let key = key_of(key_high, key_low);
    Ok(Replica::new(alloc, site, Runs::fresh(alloc, key), key))
}

/// The key of 16 bytes, of which C hands in the halves.
fn key_of(high: u64, low: u64) -> u128
    ensures { result ≡ 18_446_744_073_709_551_616 * high + low }
{
    u128::from(high) * 18_446_744_073_709_551_616 + u128::from(low)
}

/// A desk of a site that has taken a file, for a handle, or the number of the fault.
pub fn opened(
    alloc: Global,
    site: u32,
    key_high: u64,
    key_low: u64,
    file: &[u8],
    taken: &mut Taken,
) -> Result<Box<Desk>, u32>
    ensures ok { IfOk result (λ boxed. IsMessageTaken (fresh site) file.now boxed.value taken.new 0 × IsSite site) }
    ensures fault { IfErr result (IsRefusedOpening site file.now taken.new) }
    ensures some { IfErr result (λ fault. 0 < fault) }
{
    *taken = none_taken(0);
    let mut boxed = new_desk(alloc, site, key_high, key_low)?;
    let answer = take_in(alloc, &mut boxed, file, taken);
    if answer == OK { Ok(boxed) } else { Err(answer) }
}

/// Reserves memory for so many new operations, at most 1,000,000.
pub fn reserve_in(desk: &mut Desk, operations: usize) -> u32
    ensures ok { result ≡ 0 → (desk.new.set ≡ desk.old.set) × (desk.new.site ≡ desk.old.site) × (desk.new.waiting ≡ desk.old.waiting) × (desk.new.spare ≡ max desk.old.spare operations) }
    ensures err { (result ≡ 0 → ⊥) → desk.new ≡ desk.old }
    ensures fault { (result ≡ 0 → ⊥) → ((result ≡ 9) × (desk.old.spare < operations)) ⊎ ((result ≡ 115) × (1_000_000 < operations)) }
{
    if operations > MOST_KEPT {
        return TOO_MANY;
    }
    match desk.reserve(operations) {
        Ok(()) => OK,
        Err(Memory) => MEMORY,
    }
}

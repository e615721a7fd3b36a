//! Desks: made, opened from a file, given memory in advance, freed.

ghost use Rattle.std.specs.Prelude.{◌≡◌, ◌⊎◌, ◌<◌, max, Some, None};
ghost use Rattle.std.specs.Option.{IfSome};
ghost use Rattle.desk_replica.specs.Desk.{fresh};
ghost use Rattle.c_desks.specs.Numbers.{IsSite};
ghost use Rattle.c_desks.specs.Desks.{IsMessageTaken, IsRefusedOpening};

use c_answers::{EMPTY_HANDLE, OK};
use c_desks::{DeskHandle, Taken, new_desk, opened, reserve_in};
use std::alloc::Global;

/// Makes a desk of a site without operations. What the handle held is freed.
#[unsafe(no_mangle)]
pub extern "C" fn bidigrid_desk_new(
    alloc: Global,
    out: &mut DeskHandle,
    site: u32,
    key_high: u64,
    key_low: u64,
) -> u32
    ensures ok { result ≡ 0 → out.new.held ≡ Some (fresh site) }
    ensures sound { result ≡ 0 → IsSite site }
    ensures err { (result ≡ 0 → ⊥) → out.new.held ≡ out.old.held }
    ensures fault { (result ≡ 0 → ⊥) → ((result ≡ 112) × (¬ (IsSite site))) ⊎ ((result ≡ 9) × IsSite site) }
{
    match new_desk(alloc, site, key_high, key_low) {
        Ok(boxed) => {
            out.put(alloc, boxed);
            OK
        }
        Err(fault) => fault,
    }
}

/// Makes a desk of a site that has taken a file. What the handle held is freed.
#[unsafe(no_mangle)]
pub extern "C" fn bidigrid_desk_open(
    alloc: Global,
    out: &mut DeskHandle,
    site: u32,
    key_high: u64,
    key_low: u64,
    file: &[u8],
    taken: &mut Taken,
) -> u32
    ensures ok { result ≡ 0 → IfSome out.new.held (λ d. IsMessageTaken (fresh site) file.now d taken.new 0) }
    ensures held { result ≡ 0 → out.new.held ≡ None → ⊥ }
    ensures sound { result ≡ 0 → IsSite site }
    ensures err { (result ≡ 0 → ⊥) → out.new.held ≡ out.old.held }
    ensures fault { (result ≡ 0 → ⊥) → IsRefusedOpening site file.now taken.new result }
{
    match opened(alloc, site, key_high, key_low, file, taken) {
        Ok(boxed) => {
            out.put(alloc, boxed);
            OK
        }
        Err(fault) => fault,
    }
}

/// Frees what a handle holds.
#[unsafe(no_mangle)]
pub extern "C" fn bidigrid_desk_free(alloc: Global, desk: &mut DeskHandle)
    ensures { desk.new.held ≡ None }
{
    if let Some(held) = desk.take(alloc) {
        drop(held);
    }
}

/// Reserves memory for new operations.
#[unsafe(no_mangle)]
pub extern "C" fn bidigrid_desk_reserve(
    alloc: Global,
    desk: &mut DeskHandle,
    operations: usize,
) -> u32
    ensures ok { result ≡ 0 → IfSome desk.old.held (λ d. IfSome desk.new.held (λ e. (e.set ≡ d.set) × (e.site ≡ d.site) × (e.waiting ≡ d.waiting) × (e.spare ≡ max d.spare operations))) }
    ensures err { (result ≡ 0 → ⊥) → desk.new.held ≡ desk.old.held }
    ensures fault { (result ≡ 0 → ⊥) → IfSome desk.old.held (λ d. ((result ≡ 9) × (d.spare < operations)) ⊎ ((result ≡ 115) × (1_000_000 < operations))) }
    ensures empty { desk.old.held ≡ None → (result ≡ 101) × (desk.new.held ≡ None) }
    ensures held { desk.new.held ≡ None → desk.old.held ≡ None }
{
    let Some(mut held) = desk.take(alloc) else {
        return EMPTY_HANDLE;
    };
    let answer = reserve_in(&mut held, operations);
    desk.put(alloc, held);
    answer
}

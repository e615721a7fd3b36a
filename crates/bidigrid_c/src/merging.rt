//! Merging desks: one takes all that another one has.

ghost use Rattle.std.specs.Prelude.{◌≡◌, None};
ghost use Rattle.std.specs.Option.{IfSome};
ghost use Rattle.c_desks.specs.Desks.{IsMergedWith};

use c_answers::{EMPTY_HANDLE, OK};
use c_desks::{DeskHandle, merge_from};
use std::alloc::Global;

/// Lets a desk take all that another one has.
#[unsafe(no_mangle)]
pub extern "C" fn bidigrid_desk_merge(
    alloc: Global,
    desk: &mut DeskHandle,
    other: &mut DeskHandle,
) -> u32
    ensures merged { IfSome other.old.held (λ o. IfSome desk.old.held (λ d. IfSome desk.new.held (λ e. IsMergedWith d o e result))) }
    ensures other { other.new.held ≡ other.old.held }
    ensures empty { desk.old.held ≡ None → (result ≡ 101) × (desk.new.held ≡ None) }
    ensures empty_other { other.old.held ≡ None → (result ≡ 101) × (desk.new.held ≡ desk.old.held) }
    ensures held { desk.new.held ≡ None → desk.old.held ≡ None }
{
    let Some(from) = other.take(alloc) else {
        return EMPTY_HANDLE;
    };
    let answer = merge_from(alloc, desk, &from);
    other.put(alloc, from);
    answer
}

/// Lets a desk take all that it has itself: it stays as it is.
#[unsafe(no_mangle)]
pub extern "C" fn bidigrid_desk_merge_itself(alloc: Global, desk: &mut DeskHandle) -> u32
    ensures merged { IfSome desk.old.held (λ _. result ≡ 0) }
    ensures same { desk.new.held ≡ desk.old.held }
    ensures empty { desk.old.held ≡ None → result ≡ 101 }
{
    let Some(held) = desk.take(alloc) else {
        return EMPTY_HANDLE;
    };
    desk.put(alloc, held);
    OK
}

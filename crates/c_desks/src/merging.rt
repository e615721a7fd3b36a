//! Merging desks: one takes all that another one has.

ghost use Rattle.std.specs.Prelude.{◌≡◌, None};
ghost use Rattle.std.specs.Option.{IfSome};
ghost use Rattle.c_desks.specs.Desks.{IsMergedWith, merge_number};

use crate::desk::Desk;
use crate::desk_handle::DeskHandle;
use crate::fault::take_number;
use c_answers::{EMPTY_HANDLE, OK};
use desk_replica::TakeFault;
use std::alloc::Global;

/// Lets the desk of a handle take all that another one has.
pub fn merge_from(alloc: Global, desk: &mut DeskHandle, other: &Desk) -> u32
    ensures merged { IfSome desk.old.held (λ d. IfSome desk.new.held (λ e. IsMergedWith d other.now e result)) }
    ensures empty { desk.old.held ≡ None → (result ≡ 101) × (desk.new.held ≡ None) }
    ensures held { desk.new.held ≡ None → desk.old.held ≡ None }
{
    let Some(mut held) = desk.take(alloc) else {
        return EMPTY_HANDLE;
    };
    let answer = merge_in(&mut held, other);
    desk.put(alloc, held);
    answer
}

fn merge_in(desk: &mut Desk, other: &Desk) -> u32
    ensures { IsMergedWith desk.old other.now desk.new result }
{
    merge_number(desk.merge(other))
}

/// The number of what a merge answers.
pub fn merge_number(answer: Result<u32, TakeFault>) -> u32
    ensures { result ≡ merge_number answer }
{
    match answer {
        Ok(_) => OK,
        Err(fault) => take_number(fault),
    }
}

//! Documents take all that another one has, and tell what that changed.

ghost use Rattle.std.specs.Prelude.{◌≡◌, false, [], None};
ghost use Rattle.std.specs.Option.{IfSome};
ghost use Rattle.bg_types.specs.Edit.{IsEdit};
ghost use Rattle.rga_tree.specs.TextOf.{text};
ghost use Rattle.desk_replica.specs.Merging.{IsMerge};
ghost use Rattle.desk_replica.specs.Telling.{IsTold};
ghost use Rattle.live_document.specs.Cost.{KeepsUntouched};
ghost use Rattle.live_document.specs.Documents.{IsDrawnAlike};
ghost use Rattle.live_document.specs.Showing.{no_window};
ghost use Rattle.c_documents.specs.Documents.{IsMetWith};

use crate::document_handle::DocumentHandle;
use crate::told_document::ToldDocument;
use c_answers::EMPTY_HANDLE;
use c_desks::{Desk, merge_number};
use desk_replica::TakeFault;
use desk_replica::laws::told_changes;
use std::alloc::Global;

/// Lets the document of a handle take all that a desk has.
pub fn merge_from(alloc: Global, document: &mut DocumentHandle, other: &Desk) -> u32
    ensures merged { IfSome document.old.held (λ d. IfSome document.new.held (λ e. IsMetWith d other.now e result)) }
    ensures empty { document.old.held ≡ None → (result ≡ 101) × (document.new.held ≡ None) }
    ensures held { document.new.held ≡ None → document.old.held ≡ None }
{
    let Some(mut held) = document.take(alloc) else {
        return EMPTY_HANDLE;
    };
    let answer = merge_in(&mut held, other);
    document.put(alloc, held);
    answer
}

fn merge_in(held: &mut ToldDocument, other: &Desk) -> u32
    ensures { IsMetWith held.old other.now held.new result }
{
    let met = meet(held, other);
    merge_number(met)
}

/// Lets a document take all that a desk has, and lists what it changes where there is memory to tell it.
#[tactic(auto, using(crate::proofs::FromNone::told_once, crate::proofs::FromNone::all_edits, crate::proofs::FromNone::untouched_once))]
fn meet(held: &mut ToldDocument, other: &Desk) -> Result<u32, TakeFault>
    ensures desk { IsMerge held.old.document.desk other.now held.new.document.desk result }
    ensures drawn { IsDrawnAlike held.old.document held.new.document }
    ensures hidden { held.new.document.window ≡ no_window }
    ensures told { held.new.lost ≡ false → IsTold held.old.document.desk.set held.new.document.desk.set [] held.new.told.items }
    ensures edit { held.new.lost ≡ false → IsEdit (text held.old.document.desk.set) held.new.told.items (text held.new.document.desk.set) }
    ensures kept { KeepsUntouched held.old.document held.new.document }
{
    told_changes();
    held.forget();
    // Paid for first, so that no operation is refused memory for what is told.
    let most = held.document.desk().op_count() + other.op_count();
    if held.told.reserve(most).is_err() {
        held.lost = true;
        return held.document.merge(other);
    }
    held.document.merge_telling(other, &mut held.told)
}

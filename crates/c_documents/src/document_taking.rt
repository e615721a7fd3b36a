//! Documents take messages, and tell what these changed.

ghost use Rattle.std.specs.Prelude.{◌≡◌, None};
ghost use Rattle.c_desks.specs.Desks.{IsTooLong};
ghost use Rattle.c_documents.specs.Documents.{IsHeard, IsSilent, IsTakenInTurn};

use crate::told_document::ToldDocument;
use bg_types::Op;
use c_answers::OK;
use c_desks::{Taken, read_message, take_number};
use std::alloc::Global;

/// Lets a document take a message, as its desk would, and list what that changed.
pub fn take_in(alloc: Global, held: &mut ToldDocument, bytes: &[u8], taken: &mut Taken) -> u32
    ensures taken { IsHeard held.old bytes.now held.new taken.new result }
    ensures too_long { IsTooLong bytes.now → result ≡ 116 }
{
    held.forget();
    match read_message(alloc, bytes, taken) {
        Ok(ops) => take_all(held, &ops, &mut taken.taken),
        Err(fault) => fault,
    }
}

/// Lets a document take operations in order, up to the first that it refuses, writes how many it took, and lists what they
/// changed.
#[tactic(auto, using(crate::proofs::FromNone::all_told, crate::proofs::FromNone::all_edits, crate::proofs::FromNone::all_kept))]
fn take_all(held: &mut ToldDocument, ops: &[Op], taken: &mut usize) -> u32
    requires { IsSilent held.old }
    ensures { IsTakenInTurn held.old ops.now held.new taken.new result }
{
    let outcome = held.document.take_all(ops, &mut held.told);
    held.lost = !outcome.told;
    *taken = outcome.taken;
    match outcome.fault {
        Some(fault) => take_number(fault),
        None => OK,
    }
}

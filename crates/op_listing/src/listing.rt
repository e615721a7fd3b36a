//! Whole listings, written and read.

ghost use Rattle.std.specs.Prelude.{◌≡◌, IfOk, IfErr};
ghost use Rattle.op_listing.specs.Listing.{listing_of};
ghost use Rattle.op_listing.specs.Listed.{Lists};
ghost use Rattle.op_listing.specs.Outcome.{TellsLine};

use crate::line::read_line;
use crate::lines::split_line;
use crate::listing_fault::ListingFault;
use crate::plain::read_plain;
use crate::written::{LONGEST_LINE, push_line};
use bg_types::{Memory, Op};
use std::alloc::Global;

/// How many bytes the shortest line of an insertion has: `i 1.1 root 0061` and its LF.
const INSERTION_LINE: usize = 16;

/// Behind a line that is not plain most others are not: each sixteenth is tried, until one is plain again.
const TRIED_AGAIN: usize = 16;

/// The listing of the operations. Memory is taken once.
pub fn write_listing(alloc: Global, ops: &[Op]) -> Result<Vec<u8>, Memory>
    ensures { IfOk result (λ text. text.items ≡ listing_of ops.now) }
{
    let mut text = Vec::with_capacity(alloc, ops.len().saturating_mul(LONGEST_LINE))?;
    for op in ops {
        push_line(op, &mut text)?;
    }
    Ok(text)
}

/// The operations of a listing, or its first fault.
pub fn read_listing(alloc: Global, listing: &[u8]) -> Result<Vec<Op>, ListingFault>
    ensures ok { IfOk result (λ ops. Lists listing.now ops.items) }
    ensures fault { IfErr result (TellsLine listing.now) }
{
    // One growth if all are insertions, and at most two more if many are deletions.
    let mut ops = Vec::with_capacity(alloc, listing.len() / INSERTION_LINE)?;
    let mut number = 0;
    let mut plain = true;
    let mut rest = listing;
    while !rest.is_empty() {
        number += 1;
        if plain || number % TRIED_AGAIN == 0 {
            if let Some((op, after)) = &read_plain(rest) {
                ops.push(*op)?;
                rest = *after;
                plain = true;
                continue;
            }
            plain = false;
        }
        let (line, after) = split_line(rest);
        match read_line(line) {
            Ok(Some(op)) => ops.push(op)?,
            Ok(None) => {}
            Err(fault) => {
                return Err(ListingFault::Malformed {
                    line: number,
                    fault,
                });
            }
        }
        rest = after;
    }
    Ok(ops)
}

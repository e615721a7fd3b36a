//! The engine `pack`: a listing becomes an operation file.

ghost use Rattle.std.specs.Prelude.{◌≡◌, false};
ghost use Rattle.op_listing.specs.Outcome.{IsPackOutcome};

use crate::listing::read_listing;
use crate::listing_fault::ListingFault;
use bg_types::{Sink, put_all};
use op_codec::encode_file;
use std::alloc::Global;

/// Writes the operation file of a listing. Nothing is written before the whole listing is read.
/// Cost: O(n), memory for the operations and the file.
pub fn pack<S: Sink>(alloc: Global, listing: &[u8], out: &mut S) -> Result<(), ListingFault>
    requires { S.has_failed out.old ≡ false }
    ensures outcome { IsPackOutcome listing.now (S.written out.old) (S.written out.new) (S.has_failed out.new) result }
{
    let ops = read_listing(alloc, listing)?;
    let file = encode_file(alloc, &ops)?;
    put_all(out, &file)?;
    Ok(())
}

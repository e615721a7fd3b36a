//! Tables.

ghost use Rattle.std.specs.Prelude.{◌≡◌, ◌≢◌, Some, None, IfOk, IfErr, OnOk};
ghost use Rattle.ucd_files.specs.Ucd.{tables_of_ucd, fault_of_ucd};

use pictures::SharedTables;
use std::alloc::Global;
use ucd_files::{Ucd, UcdFault};

/// The tables of files, for a handle.
pub fn load(alloc: Global, ucd: &Ucd) -> Result<Box<SharedTables>, UcdFault>
    ensures ok { IfOk result (λ boxed. boxed.value ≡ tables_of_ucd ucd.now) }
    ensures sound { OnOk result (fault_of_ucd ucd.now ≡ None) }
    ensures fault { IfErr result (λ fault. fault ≢ UcdFault.Memory → fault_of_ucd ucd.now ≡ Some fault) }
{
    let tables = ucd.load(alloc)?;
    let Ok(shared) = SharedTables::new(alloc, tables) else {
        return Err(UcdFault::Memory);
    };
    match Box::new(alloc, shared) {
        Ok(boxed) => Ok(boxed),
        Err(_) => Err(UcdFault::Memory),
    }
}

//! The folder of the five data files.

use crate::stop::Stop;
use std::alloc::Global;
use std::env::{self, VarError};
use std::rt::Env;

/// The environment variable that names the folder where the command line does not.
const VARIABLE: &str = "BIDIGRID_UCD";

const NO_FOLDER: &str = "error: --ucd <DIR> is left out, and BIDIGRID_UCD names no folder\n";

/// The folder that the command line names, or else the one that the environment names.
/// Cost: O(n), memory for the path.
pub fn folder_of<R: Env + Alloc<A = Global>>(rt: &R, folder: Option<&str>) -> Result<String, Stop> {
    if let Some(folder) = folder {
        return Ok(String::from_str(rt.alloc(), folder)?);
    }
    match env::var(rt, VARIABLE) {
        Ok(folder) => Ok(folder),
        Err(VarError::OutOfMemory) => Err(Stop::Memory),
        Err(_) => Err(Stop::Usage(String::from_str(rt.alloc(), NO_FOLDER)?)),
    }
}

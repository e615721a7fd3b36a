//! The operation files of a run, opened to be read piece by piece.

ghost use Rattle.std.specs.Prelude.{◌≡◌, ◌+◌, ◌<◌, ℕ, Some, IfOk, length, map, slice_get, vec_len};
ghost use Rattle.std.specs.List.{AllZip};
ghost use Rattle.desk_files.specs.Readers.{AreWorking};

use crate::opener::Opener;
use crate::unread::Unread;
use desk_files::RunFault;
use op_codec::{In, Source};

/// The files in order, each open, or the first that can't be opened.
/// Cost: O(n), memory for the open files.
pub fn open_all<O: Opener + AllocGlobal>(rt: &O, paths: &[&str]) -> Result<Vec<In<O::File>>, Unread>
    ensures each { IfOk result (λ files. vec_len files ≡ length paths.now) }
    ensures opened { IfOk result (λ files. AllZip (λ path file. O.gives rt.now path.now (⟦<In<O::File> as Source>⟧.remaining file)) paths.now files.items) }
    ensures working { IfOk result (λ files. AreWorking (map ⟦<In<O::File> as Source>⟧.has_failed files.items)) }
{
    let mut files = Vec::new(rt.alloc());
    for path in paths {
        files.push(In::new(rt.open(path)?))?;
    }
    Ok(files)
}

/// The path of the file that a read failed on, or nothing after another fault.
pub fn path_of<'a>(fault: &RunFault, paths: &[&'a str]) -> &'a str
    ensures { (k : ℕ) → k < length paths.now → fault.now ≡ RunFault.ReadFailed (k + 1) → slice_get paths.now k ≡ Some result }
{
    match fault {
        RunFault::ReadFailed(file) if *file > 0 && *file <= paths.len() => paths[*file - 1],
        _ => "",
    }
}

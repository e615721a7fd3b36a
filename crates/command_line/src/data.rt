//! The five data files of a folder.

ghost use Rattle.std.specs.Prelude.{◌≤◌, IfOk, vec_len};
ghost use Rattle.command_line.specs.Data.{IsUcdOf, IsWithin, IsReadFrom, path_in};
ghost use Rattle.command_line.specs.Given.{AreGiven};

use crate::opener::Opener;
use crate::reading::read;
use crate::unread::Unread;
use op_codec::LONGEST_FILE;
use ucd_files::Ucd;

/// The five data files in their folder, in the order in which they are read.
pub const DATA_FILES: [&str; 5] = [
    "DerivedBidiClass.txt",
    "BidiBrackets.txt",
    "BidiMirroring.txt",
    "LineBreak.txt",
    "EastAsianWidth.txt",
];

/// The bytes of the five data files.
#[derive(Drop)]
pub struct Data {
    pub bidi: Vec<u8>,
    pub brackets: Vec<u8>,
    pub mirror: Vec<u8>,
    pub lb: Vec<u8>,
    pub ea: Vec<u8>,
}

impl Data {
    /// The files as one value, to be read with ambiguous characters wide or not.
    pub fn ucd(&self, wide_ambiguous: bool) -> Ucd<'_>
        ensures { IsUcdOf self.now wide_ambiguous result }
    {
        Ucd {
            bidi: self.bidi.as_slice(),
            brackets: self.brackets.as_slice(),
            mirror: self.mirror.as_slice(),
            lb: self.lb.as_slice(),
            ea: self.ea.as_slice(),
            wide_ambiguous,
        }
    }
}

/// The bytes of the data files of a folder, or the first that can't be opened or read, or is too
/// long.
/// Cost: O(n), memory for the files.
pub fn read_data<O: Opener + AllocGlobal>(rt: &O, folder: &str) -> Result<Data, Unread>
    ensures each { IfOk result (IsReadFrom (O.gives rt.now) folder.now) }
    ensures within { IfOk result (IsWithin LONGEST_FILE) }
{
    let [bidi, brackets, mirror, lb, ea] = DATA_FILES;
    Ok(Data {
        bidi: read_in(rt, folder, bidi)?,
        brackets: read_in(rt, folder, brackets)?,
        mirror: read_in(rt, folder, mirror)?,
        lb: read_in(rt, folder, lb)?,
        ea: read_in(rt, folder, ea)?,
    })
}

fn read_in<O: Opener + AllocGlobal>(rt: &O, folder: &str, name: &str) -> Result<Vec<u8>, Unread>
    ensures given { IfOk result (λ bytes. AreGiven (O.gives rt.now (path_in folder.now name.now)) bytes.items) }
    ensures within { IfOk result (λ bytes. vec_len bytes ≤ LONGEST_FILE) }
{
    let path = format!(in rt.alloc(); "{folder}/{name}")?;
    read(rt, path.as_str())
}

//! The five data files and the choice of width as one value.

ghost use Rattle.std.specs.Prelude.{◌≡◌, ◌≢◌, None, Some, IfOk, IfErr, OnOk};
ghost use Rattle.ucd_files.specs.Ucd.{tables_of_ucd, fault_of_ucd};

use crate::fault::{UcdFault, UcdFile};
use crate::read::read;
use bg_types::{Bidi, Ea, Lb};
use std::alloc::Global;
use unicode_tables::{Bracket, Tables};

/// The bytes of the five data files, and how wide ambiguous characters are.
#[derive(Clone, Copy)]
pub struct Ucd<'a> {
    /// DerivedBidiClass.txt.
    pub bidi: &'a [u8],
    /// BidiBrackets.txt.
    pub brackets: &'a [u8],
    /// BidiMirroring.txt.
    pub mirror: &'a [u8],
    /// LineBreak.txt.
    pub lb: &'a [u8],
    /// EastAsianWidth.txt.
    pub ea: &'a [u8],
    /// Whether characters of East_Asian_Width A are wide (UAX #11, 5).
    pub wide_ambiguous: bool,
}

impl Ucd<'_> {
    /// Reads the files, and sets the choice of width. The fault is the first of the first faulty
    /// file, in the order of the fields.
    /// Cost: O(n), a step for each block of 256 code points that a line covers; memory for the words of each block.
    #[tactic(auto, unfolding(crate::specs::Files::bidi_file, crate::specs::Files::brackets_file, crate::specs::Files::mirror_file, crate::specs::Files::lb_file, crate::specs::Files::ea_file))]
    pub fn load(&self, alloc: Global) -> Result<Tables, UcdFault>
        ensures ok { IfOk result (λ tables. tables ≡ tables_of_ucd self.now) }

        // So the call answers Ok exactly where no file is faulty, unless a growth was refused.
        ensures sound { OnOk result (fault_of_ucd self.now ≡ None) }
        ensures fault { IfErr result (λ e. e ≢ UcdFault.Memory → fault_of_ucd self.now ≡ Some e) }
    {
        let bidi = read(alloc, UcdFile::Bidi, Bidi::L, self.bidi)?;
        let brackets = read(alloc, UcdFile::Brackets, Bracket::None, self.brackets)?;
        let mirror = read(alloc, UcdFile::Mirror, None, self.mirror)?;
        let lb = read(alloc, UcdFile::Lb, Lb::Xx, self.lb)?;
        let ea = read(alloc, UcdFile::Ea, Ea::N, self.ea)?;
        let tables = Tables::new(alloc, bidi, brackets, mirror, lb, ea)?;
        Ok(tables.with_wide_ambiguous(self.wide_ambiguous))
    }
}

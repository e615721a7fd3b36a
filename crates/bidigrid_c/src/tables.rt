//! Tables.

ghost use Rattle.std.specs.Prelude.{◌≡◌, Some, None};
ghost use Rattle.unicode_tables.specs.Tables.{with_width};
ghost use Rattle.ucd_files.specs.Ucd.{tables_of};
ghost use Rattle.c_pictures.specs.Files.{IsRefusedData, no_data_fault};
ghost use Rattle.c_pictures.specs.Files.{tables_of_files, fault_of_files};

use c_answers::{MEMORY, OK};
use c_pictures::{DataFault, DataFiles, TablesHandle, data_fault, data_number, load};
use std::alloc::Global;
use ucd_files::Ucd;
use unicode_data::{
    BIDI_BRACKETS, BIDI_CLASS, BIDI_MIRRORING, EAST_ASIAN_WIDTH, LINE_BREAK, unicode_15_0,
};

/// Makes tables of the five data files. What the handle held is freed.
#[unsafe(no_mangle)]
pub extern "C" fn bidigrid_tables_new(
    alloc: Global,
    out: &mut TablesHandle,
    files: &DataFiles,
    wide_ambiguous: bool,
    told: &mut DataFault,
) -> u32
    ensures ok { result ≡ 0 → out.new.held ≡ Some (with_width (tables_of_files files.now) wide_ambiguous) }
    ensures sound { result ≡ 0 → (fault_of_files files.now ≡ None) × (told.new ≡ no_data_fault) }
    ensures err { (result ≡ 0 → ⊥) → out.new.held ≡ out.old.held }
    ensures fault { (result ≡ 0 → ⊥) → IsRefusedData (fault_of_files files.now) result told.new }
{
    let ucd = Ucd {
        bidi: files.bidi,
        brackets: files.brackets,
        mirror: files.mirror,
        lb: files.lb,
        ea: files.ea,
        wide_ambiguous,
    };
    match load(alloc, &ucd) {
        Ok(tables) => {
            out.put(alloc, tables);
            *told = DataFault::NONE;
            OK
        }
        Err(fault) => {
            *told = data_fault(fault);
            data_number(fault)
        }
    }
}

/// Makes the tables of Unicode 15.0. What the handle held is freed.
#[unsafe(no_mangle)]
pub extern "C" fn bidigrid_tables_unicode(
    alloc: Global,
    out: &mut TablesHandle,
    wide_ambiguous: bool,
) -> u32
    ensures ok { result ≡ 0 → out.new.held ≡ Some (with_width (tables_of BIDI_CLASS.now BIDI_BRACKETS.now BIDI_MIRRORING.now LINE_BREAK.now EAST_ASIAN_WIDTH.now) wide_ambiguous) }
    ensures err { (result ≡ 0 → ⊥) → (out.new.held ≡ out.old.held) × (result ≡ 9) }
{
    match load(alloc, &unicode_15_0(wide_ambiguous)) {
        Ok(tables) => {
            out.put(alloc, tables);
            OK
        }
        // The files inside are sound, as the tests see, so only memory can be wanting.
        Err(_) => MEMORY,
    }
}

/// Frees what a handle holds. Pictures that were drawn by the tables have a share in them.
#[unsafe(no_mangle)]
pub extern "C" fn bidigrid_tables_free(alloc: Global, tables: &mut TablesHandle)
    ensures { tables.new.held ≡ None }
{
    if let Some(held) = tables.take(alloc) {
        drop(held);
    }
}

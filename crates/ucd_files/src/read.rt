//! The values of one file.

ghost use Rattle.std.specs.Prelude.{◌≡◌, ◌≢◌, ◌<◌, ℕ, Some, None, IfOk, IfErr, OnOk, slice_index_or};
ghost use Rattle.ucd_files.specs.Line.{lines_of};
ghost use Rattle.ucd_files.specs.Reading.{Reading, value_at, line_of, first_faulty};
ghost use Rattle.ucd_files.specs.Faults.{fault_at, fault_in};
ghost use Rattle.ucd_files.specs.Passes.{data_said, overlaid};

use crate::entry::Entry;
use crate::fault::{Cause, UcdFault, UcdFile};
use crate::line::{number_of, text_of};
use crate::lines::Lines;
use bg_types::Memory;
use std::alloc::Global;
use unicode_tables::Property;

/// A value that one of the files gives to code points.
pub(crate) trait FileValue: Copy {
    /// How the file's lines are read.
    ghost reading: { Reading Self };

    /// What the text of a line says, by its fields.
    fn fields(text: &[u8]) -> Result<Entry<Self>, Cause>
        ensures { result ≡ reading.fields text.now };

    /// The default that a line's comment gives.
    fn missing(line: &[u8]) -> Option<Entry<Self>>
        ensures { result ≡ reading.missing line.now };
}

/// Sets the defaults that the lines' comments give, the later ones over the earlier ones.
fn set_defaults<V: FileValue>(values: &mut Property<V>, bytes: &[u8]) -> Result<(), Memory>
    ensures { OnOk result ((c : ℕ) (d : V) → c < 0x110000 → slice_index_or values.new c d
        ≡ overlaid V.reading.missing (lines_of bytes.now) c (slice_index_or values.old c d)) }
{
    for line in Lines::of(bytes) {
        if let Some(entry) = V::missing(line) {
            values.set(entry.first, entry.last, entry.value)?;
        }
    }
    Ok(())
}

/// What a line says: nothing, where it has no text.
fn line_of<V: FileValue>(line: &[u8]) -> Result<Option<Entry<V>>, Cause>
    ensures { result ≡ line_of V.reading line.now }
{
    let text = text_of(line);
    if text.is_empty() {
        return Ok(None);
    }
    Ok(Some(V::fields(text)?))
}

/// Sets what the data lines say, the later ones over the earlier ones, up to the first faulty line.
fn set_data<V: FileValue>(
    file: UcdFile,
    values: &mut Property<V>,
    bytes: &[u8],
) -> Result<(), UcdFault>
    ensures sound { OnOk result (first_faulty (line_of V.reading) (lines_of bytes.now) 1 ≡ None) }
    ensures values { OnOk result ((c : ℕ) (d : V) → c < 0x110000 → slice_index_or values.new c d
        ≡ overlaid (data_said V.reading) (lines_of bytes.now) c (slice_index_or values.old c d)) }
    ensures fault { IfErr result (λ e. e ≢ UcdFault.Memory
        → fault_at file (first_faulty (line_of V.reading) (lines_of bytes.now) 1) ≡ Some e) }
{
    let mut number = 0;
    for line in Lines::of(bytes) {
        number += 1;
        let said = match line_of::<V>(line) {
            Ok(said) => said,
            Err(cause) => {
                return Err(UcdFault::At {
                    file,
                    line: number,
                    cause,
                });
            }
        };
        if let Some(entry) = said {
            values.set(entry.first, entry.last, entry.value)?;
        }
    }
    Ok(())
}

/// The values that a file gives to all code points, where those that no line names have a value of their own.
pub(crate) fn read<V: FileValue>(
    alloc: Global,
    file: UcdFile,
    absent: V,
    bytes: &[u8],
) -> Result<Property<V>, UcdFault>
    requires { absent ≡ V.reading.absent }
    ensures sound { OnOk result (fault_in file V.reading bytes.now ≡ None) }
    ensures values { IfOk result (λ values. (c : ℕ) → c < 0x110000
        → slice_index_or values c V.reading.absent ≡ value_at V.reading bytes.now c) }
    ensures fault { IfErr result (λ e. e ≢ UcdFault.Memory
        → fault_in file V.reading bytes.now ≡ Some e) }
{
    if let Err(error) = std::str::from_utf8(bytes) {
        return Err(UcdFault::At {
            file,
            line: number_of(&bytes[..error.valid_up_to()], b'\n') + 1,
            cause: Cause::BadUtf8,
        });
    }
    let mut values = Property::of(alloc, absent)?;
    set_defaults(&mut values, bytes)?;
    set_data(file, &mut values, bytes)?;
    Ok(values)
}

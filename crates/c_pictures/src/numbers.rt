//! The structs of numbers that C reads of a picture.

ghost use Rattle.std.specs.Prelude.{◌≡◌};
ghost use Rattle.caret.specs.Gaps.{gap_column};
ghost use Rattle.c_pictures.specs.Numbers.{row_numbers, entry_numbers, caret_numbers, caret_of};

use caret::{Caret, gap_column};
use cell_grid::{Entry, Row};

/// A row: `bidigrid_row` of the header.
#[derive(Clone, Copy)]
#[repr(C)]
pub struct RowNumbers {
    pub first_place: usize,
    pub last_place: usize,
    pub entries: usize,
    pub column: usize,
    pub level: u32,
}

impl RowNumbers {
    /// The numbers where there is no row.
    pub const NONE: RowNumbers = RowNumbers {
        first_place: 0,
        last_place: 0,
        entries: 0,
        column: 0,
        level: 0,
    };
}

/// An entry of a row: `bidigrid_entry` of the header.
#[derive(Clone, Copy)]
#[repr(C)]
pub struct EntryNumbers {
    pub first_byte: u32,
    pub end_byte: u32,
    pub first_place: u32,
    pub end_place: u32,
    pub column: u32,
    pub level: u32,
    pub columns: u32,
}

impl EntryNumbers {
    /// The numbers where there is no entry.
    pub const NONE: EntryNumbers = EntryNumbers {
        first_byte: 0,
        end_byte: 0,
        first_place: 0,
        end_place: 0,
        column: 0,
        level: 0,
        columns: 0,
    };
}

/// A caret: `bidigrid_caret` of the header.
#[derive(Clone, Copy)]
#[repr(C)]
pub struct CaretNumbers {
    pub row: usize,
    pub gap: usize,
    pub place: usize,
}

impl CaretNumbers {
    /// The numbers where there is no caret.
    pub const NONE: CaretNumbers = CaretNumbers {
        row: 0,
        gap: 0,
        place: 0,
    };
}

/// The numbers of a row.
pub fn row_numbers(row: &Row) -> RowNumbers
    ensures { result ≡ row_numbers row.now }
{
    RowNumbers {
        first_place: row.first_place(),
        last_place: row.last_place(),
        entries: row.entry_count(),
        column: gap_column(row, 0),
        level: u32::from(row.para_level()),
    }
}

/// The numbers of an entry.
pub fn entry_numbers(entry: &Entry) -> EntryNumbers
    ensures { result ≡ entry_numbers entry.now }
{
    let span = entry.span;
    EntryNumbers {
        first_byte: span.first_byte,
        end_byte: span.end_byte,
        first_place: span.first_place,
        end_place: span.end_place,
        column: u32::from(entry.column),
        level: u32::from(entry.level),
        columns: u32::from(entry.columns),
    }
}

/// The numbers of a caret.
pub fn caret_numbers(caret: Caret) -> CaretNumbers
    ensures { result ≡ caret_numbers caret }
{
    CaretNumbers {
        row: caret.row,
        gap: caret.gap,
        place: caret.place,
    }
}

/// The caret with these numbers.
pub fn caret_of(numbers: &CaretNumbers) -> Caret
    ensures { result ≡ caret_of numbers.now }
{
    Caret {
        row: numbers.row,
        gap: numbers.gap,
        place: numbers.place,
    }
}

//! The structs of numbers that C reads of a document.

ghost use Rattle.std.specs.Prelude.{◌≡◌};
ghost use Rattle.caret.specs.Gaps.{gap_column};
ghost use Rattle.c_pictures.specs.Numbers.{row_numbers};
ghost use Rattle.c_documents.specs.Numbers.{position_numbers, no_position, position_with, change_numbers, window_numbers, nothing_shown};

use bg_types::Change;
use c_pictures::{RowNumbers, row_numbers};
use caret::gap_column;
use live_document::{Position, Window, WindowRow};

/// A position: `bidigrid_position` of the header.
#[derive(Clone, Copy)]
#[repr(C)]
pub struct PositionNumbers {
    pub row: usize,
    pub gap: usize,
    pub place: usize,
}

/// A change of a text: `bidigrid_change` of the header.
#[derive(Clone, Copy)]
#[repr(C)]
pub struct ChangeNumbers {
    pub place: usize,
    pub character: u32,
    pub put: u32,
}

/// What is shown of a document: `bidigrid_window` of the header.
#[derive(Clone, Copy)]
#[repr(C)]
pub struct WindowNumbers {
    pub rows: usize,
    pub number: usize,
}

/// The numbers of a position.
pub(crate) fn position_numbers(position: Position) -> PositionNumbers
    ensures { result ≡ position_numbers position }
{
    PositionNumbers {
        row: position.row,
        gap: position.gap,
        place: position.place,
    }
}

/// The numbers where there is no position.
pub fn no_position() -> PositionNumbers
    ensures { result ≡ no_position }
{
    PositionNumbers {
        row: 0,
        gap: 0,
        place: 0,
    }
}

/// The position with these numbers.
pub(crate) fn position_with(numbers: &PositionNumbers) -> Position
    ensures { result ≡ position_with numbers.now }
{
    Position {
        row: numbers.row,
        gap: numbers.gap,
        place: numbers.place,
    }
}

/// The numbers of a change.
pub(crate) fn change_numbers(change: &Change) -> ChangeNumbers
    ensures { result ≡ change_numbers change.now }
{
    match *change {
        Change::Put { place, ch } => ChangeNumbers {
            place,
            character: u32::from(ch),
            put: 1,
        },
        Change::Cut { place } => ChangeNumbers {
            place,
            character: 0,
            put: 0,
        },
    }
}

/// The numbers of a window.
pub(crate) fn window_numbers(window: &Window) -> WindowNumbers
    ensures { result ≡ window_numbers window.now }
{
    WindowNumbers {
        rows: window.len(),
        number: window.number(),
    }
}

/// The numbers where nothing is shown.
pub fn nothing_shown() -> WindowNumbers
    ensures { result ≡ nothing_shown }
{
    WindowNumbers { rows: 0, number: 0 }
}

/// The numbers of a row of a window.
pub(crate) fn window_row_numbers(row: &WindowRow) -> RowNumbers
    ensures { result ≡ row_numbers row.now }
{
    RowNumbers {
        first_place: row.first_place(),
        last_place: row.last_place(),
        entries: row.entry_count(),
        column: first_column(row),
        level: u32::from(row.para_level()),
    }
}

/// The column where the entries of a row begin; for an empty row, where it starts.
fn first_column(row: &WindowRow) -> usize
    ensures { result ≡ gap_column row.now 0 }
{
    if row.entry_count() > 0 {
        return usize::from(row.entry(0).column);
    }
    if row.para_level() % 2 == 1 {
        return usize::from(row.width());
    }
    0
}

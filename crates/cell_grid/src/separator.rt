//! A paragraph that is its separator alone.

ghost use Rattle.std.specs.Prelude.{◌≡◌, ◌≤◌, true, [], ◌∷◌, length, IfOk};
ghost use Rattle.cell_grid.specs.Separators.{IsSeparatorAlone, separator_row};

use crate::row::Row;
use bg_types::Memory;
use std::alloc::Global;
use unicode_tables::{Tables, is_separator};

/// Whether a text is one character, which ends paragraphs.
#[inline]
pub(crate) fn is_separator_alone(tables: &Tables, text: &str) -> bool
    ensures { result ≡ true → IsSeparatorAlone tables.now text.now }
{
    let mut chars = text.chars();
    match chars.next() {
        Some(c) => chars.as_str().is_empty() && is_separator(tables.bidi(c)),
        None => false,
    }
}

/// The rows of a separator alone: one. Takes no memory but what the row keeps.
pub(crate) fn separator_rows(
    alloc: Global,
    width: u16,
    para_level: u8,
    text: &str,
) -> Result<Vec<Row>, Memory>
    requires width { width ≤ 500 }
    requires size { length text.now ≤ 4_000_000 }
    ensures { IfOk result (λ rows. rows.items ≡ separator_row width para_level (length text.now) ∷ []) }
{
    let row = Row::of_separator(alloc, width, para_level, text.len() as u32)?;
    let mut rows = Vec::with_capacity(alloc, 1)?;
    rows.push(row)?;
    Ok(rows)
}

//! Break opportunities.

ghost use Rattle.std.specs.Prelude.{◌≡◌, ◌++◌, IfOk, OnOk};
ghost use Rattle.line_break.specs.Lines.{is_break};
ghost use Rattle.conformance.specs.Came.{paragraph_breaks, breaks_of};

use crate::fault::RunFault;
use bg_types::Memory;
use line_break::{Break, opportunities};
use paragraphs::{Para, split};
use std::alloc::Global;
use ucd_files::Tables;

/// Whether a line may or must end at a boundary of this status.
fn may_end(status: Break) -> bool
    ensures { result ≡ is_break status }
{
    !matches!(status, Break::No)
}

/// Appends the breaks of a paragraph to others.
fn push_breaks(
    alloc: Global,
    tables: &Tables,
    para: &Para,
    breaks: &mut Vec<bool>,
) -> Result<(), Memory>
    ensures { OnOk result (breaks.new.items ≡ breaks.old.items ++ paragraph_breaks tables.now para.now) }
{
    for status in opportunities(alloc, tables, para)? {
        breaks.push(may_end(status))?;
    }
    Ok(())
}

/// Whether a line may end after each code point of a text.
pub fn breaks_of(alloc: Global, tables: &Tables, text: &str) -> Result<Vec<bool>, RunFault>
    ensures { IfOk result (λ breaks. breaks.items ≡ breaks_of tables.now text.now) }
{
    let mut breaks = Vec::new(alloc);
    for para in &split(alloc, tables, text)? {
        push_breaks(alloc, tables, para, &mut breaks)?;
    }
    Ok(breaks)
}

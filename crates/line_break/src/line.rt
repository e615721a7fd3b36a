//! The lines of a paragraph.

ghost use Rattle.std.specs.Prelude.{◌≡◌, ◌≤◌, IfOk, OnOk, length, slice_range};
ghost use Rattle.std.specs.List.{flat_map};
ghost use Rattle.paragraphs.specs.Clusters.{clusters};
ghost use Rattle.line_break.specs.Cursors.{AreRunsOf};
ghost use Rattle.line_break.specs.LineClusters.{line_clusters};
ghost use Rattle.line_break.specs.Lines.{lines};
ghost use Rattle.line_break.specs.Opportunities.{opportunities_of};

use crate::cursor::Cursor;
use crate::open::Open;
use crate::opportunity::Boundary;
use crate::outline::{Outline, outline_into};
use bg_types::Memory;
use paragraphs::{Para, code_points_into, laws};
use std::alloc::Global;
use unicode_tables::Tables;

/// A line: the numbers of its first cluster and of the one after its last, counted in the
/// paragraph from 0.
#[derive(Clone, Copy, Debug, PartialEq, Eq)]
pub struct Line {
    pub start: usize,
    pub end: usize,
}

/// The lines of a paragraph of at most 4,000,000 bytes at a width in columns, in order. Each ends at
/// the last break opportunity up to which it fits, not counting spaces at its end, or else at the
/// last such cluster boundary. An empty paragraph has one empty line.
/// Cost: O(n), memory for the lines and the clusters.
pub fn lines(alloc: Global, tables: &Tables, para: &Para, width: u16) -> Result<Vec<Line>, Memory>
    requires at_least { 2 ≤ width }
    requires at_most { width ≤ 500 }
    requires size { length para.now.text ≤ 4_000_000 }
    ensures lines { IfOk result (λ v. v.items ≡ lines tables.now para.now.text width) }
    ensures joined { IfOk result (λ v. flat_map (λ line. slice_range (clusters para.now.text) line.start line.end) v.items
        ≡ clusters para.now.text) }
{
    let mut points = Vec::new(alloc);
    code_points_into(&mut points, para.text())?;
    let mut words = Vec::new(alloc);
    tables.words_into(&mut words, &points)?;
    let mut outline = Outline::new(alloc);
    let mut statuses = Vec::new(alloc);
    outline_into(&mut outline, &mut statuses, tables, para, &points, &words)?;
    let mut found = Vec::new(alloc);
    lines_into(&mut found, tables, para.text(), &outline, width)?;
    Ok(found)
}

/// Puts the lines of a paragraph of at most 4,000,000 bytes, as `lines` gives them, from its outline into a list, in place
/// of what it has.
/// Cost: O(n) of the runs and the opportunities, and of the clusters that are cut where no opportunity fits; memory for
/// the lines.
pub fn lines_into(
    found: &mut Vec<Line>,
    tables: &Tables,
    text: &str,
    outline: &Outline,
    width: u16,
) -> Result<(), Memory>
    requires size { length text.now ≤ 4_000_000 }
    requires runs { AreRunsOf tables.now text.now outline.now.runs.items }
    requires opportunities { outline.now.opportunities.items ≡ opportunities_of (line_clusters tables.now text.now) }
    requires width { 2 ≤ width }
    ensures { OnOk result (found.new.items ≡ lines tables.now text.now width) }
{
    laws::clusters_join();
    found.clear();
    if text.is_empty() {
        found.push(Line { start: 0, end: 0 })?;
        return Ok(());
    }
    let start = Boundary::before_all();
    let mut open = Open {
        start,
        reached: start,
        next: 0,
    };
    let mut cursor = Cursor { run: 0, first: 0 };
    while let Some(line) = open.next_line(&mut cursor, tables, text, outline, width as u32) {
        found.push(line)?;
    }
    Ok(())
}

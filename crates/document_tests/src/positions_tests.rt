//! Positions of a document beside the carets of its grid.

use crate::documents::{document_of, small_tables};
use bg_types::{Base, Memory};
use caret::Move;
use cell_grid::{Row, draw};
use live_document::{Document, Position};
use std::alloc::Global;

/// Paragraphs that begin from the left: the first of two rows at six columns, one of a separator alone, and the last one empty.
const TEXT: &str = "ab \u{5D0}\u{5D1} cd ef\nij \u{5D0}\u{5D1}\n\nkl\n";

/// The position one step further, or the same one where the document does not hold it.
fn moved(document: &mut Document, here: Position, step: Move) -> Result<Position, Memory> {
    if !document.holds(here)? {
        return Ok(here);
    }
    match step {
        Move::Right => document.right(here),
        Move::Left => document.left(here),
        Move::Up => document.up(here),
        Move::Down => document.down(here),
    }
}

/// Goes over the gaps of a row to the right and out of it, or tells none where it meets another one.
fn crossed(document: &mut Document, here: Position, row: &Row) -> Result<Option<Position>, Memory> {
    let mut here = here;
    for gap in 0..=row.entry_count() {
        if here.row != row.first_place() || here.gap != gap {
            return Ok(None);
        }
        here = moved(document, here, Move::Right)?;
    }
    Ok(Some(here))
}

/// How many rows of the whole grid are crossed by `right` alone, from the first gap on.
fn crossed_rows(alloc: Global) -> Result<(usize, usize), Memory> {
    let tables = small_tables(alloc)?;
    let grid = draw(alloc, &tables, 6, Base::Auto, TEXT)?;
    let mut document = document_of(alloc, tables.clone()?, 6, TEXT)?;
    let mut here = document.position_at(0)?;
    let mut rows: usize = 0;
    for row in grid.rows() {
        match crossed(&mut document, here, row)? {
            Some(next) => here = next,
            None => break,
        }
        rows = rows.saturating_add(1);
    }
    Ok((rows, grid.rows().len()))
}

/// Where a step leads from the second row's second gap.
fn stepped(alloc: Global, step: Move) -> Result<(usize, usize, usize), Memory> {
    let mut document = document_of(alloc, small_tables(alloc)?, 6, TEXT)?;
    let here = document.position_at(7.min(document.len()))?;
    let there = moved(&mut document, here, step)?;
    Ok((there.row, there.gap, there.place))
}

/// Where a mouse points in the second row's second column.
fn pointed(alloc: Global) -> Result<(usize, usize, usize), Memory> {
    let mut document = document_of(alloc, small_tables(alloc)?, 6, TEXT)?;
    let there = document.position_in(7.min(document.len()), 1)?;
    Ok((there.row, there.gap, there.place))
}

#[test]
fn right_alone_comes_to_every_gap(rt: HostRuntime) -> Result<(), Memory> {
    assert_eq!(rt; crossed_rows(rt.alloc())?, (6, 6));
    Ok(())
}

#[test]
fn steps_and_a_mouse_lead_where_carets_go(rt: HostRuntime) -> Result<(), Memory> {
    assert_eq!(rt; stepped(rt.alloc(), Move::Right)?, (6, 2, 8));
    assert_eq!(rt; stepped(rt.alloc(), Move::Left)?, (6, 0, 6));
    assert_eq!(rt; stepped(rt.alloc(), Move::Up)?, (0, 1, 1));
    assert_eq!(rt; stepped(rt.alloc(), Move::Down)?, (12, 1, 13));
    assert_eq!(rt; pointed(rt.alloc())?, (6, 1, 7));
    Ok(())
}

//! Rows are kept in the memory of some windows, or of as many as were asked for, and no longer.

ghost use Rattle.std.specs.Prelude.{◌≤◌};

use crate::documents::{document_of, small_tables};
use bg_types::Memory;
use live_document::Document;
use std::alloc::Global;

/// How many lines the text has, each of which is a row.
const LINES: usize = 400;

/// So wide a row with an entry for each column weighs 88 bytes, and each of these, of a run of letters and one of the line feed, 76.
const WIDTH: u16 = 2;

/// As many rows with an entry for each column weigh as much as these lines, or little more.
const AS_HEAVY: usize = 346;

/// A window has so many of them.
const ROWS: usize = 10;

fn lines(alloc: Global) -> Result<String, Memory> {
    let mut text = String::new(alloc);
    for _ in 0..LINES {
        text.push_str("ab\n")?;
    }
    Ok(text)
}

/// Shows the window that begins with this line, and answers how many lines were laid out.
fn shown_from(document: &mut Document, line: usize) -> Result<usize, Memory> {
    let place = line.saturating_mul(3).min(document.len());
    document.show(place, 0, ROWS - 1)?;
    Ok(document.laid())
}

/// How many lines are laid out again at this width after they were shown in so many windows, one below the other, where so many
/// rows may be kept.
fn laid_again(alloc: Global, width: u16, rows: usize, windows: usize) -> Result<usize, Memory>
    requires at_least { 2 ≤ width }
    requires at_most { width ≤ 500 }
    requires rows { rows ≤ 1_000_000 }
{
    let mut document = document_of(alloc, small_tables(alloc)?, width, &lines(alloc)?)?;
    document.keep_rows(rows);
    for number in 0..windows {
        shown_from(&mut document, number.saturating_mul(ROWS))?;
    }
    laid_of_first(&mut document, windows.saturating_mul(ROWS).min(LINES))
}

/// How many of the first lines, at least one, were not kept. A window of so many rows forgets none.
fn laid_of_first(document: &mut Document, lines: usize) -> Result<usize, Memory>
    requires { lines ≤ 400 }
{
    document.show(0, 0, lines.saturating_sub(1))?;
    Ok(document.laid())
}

#[test]
fn rows_of_some_windows_are_kept_and_of_many_forgotten(rt: HostRuntime) -> Result<(), Memory> {
    assert_eq!(rt; laid_again(rt.alloc(), WIDTH, 0, 20)?, 0);
    // Of 400 lines no more than 296 stay, and where more are kept no more than each second one goes.
    let laid = laid_again(rt.alloc(), WIDTH, 0, 40)?;
    assert!(rt; 104 <= laid && laid <= 200);
    Ok(())
}

#[test]
fn more_rows_are_kept_where_each_has_fewer_runs_than_columns(
    rt: HostRuntime,
) -> Result<(), Memory> {
    // 256 rows with an entry for each of 4 columns weigh 32,768 bytes, and 400 lines 30,400.
    assert_eq!(rt; laid_again(rt.alloc(), 4, 0, 40)?, 0);
    let laid = laid_again(rt.alloc(), 3, 0, 40)?;
    assert!(rt; 37 <= laid && laid <= 100);
    Ok(())
}

#[test]
fn as_many_rows_are_kept_as_were_asked_for(rt: HostRuntime) -> Result<(), Memory> {
    assert_eq!(rt; laid_again(rt.alloc(), WIDTH, AS_HEAVY, 40)?, 0);
    let laid = laid_again(rt.alloc(), WIDTH, AS_HEAVY - 1, 40)?;
    assert!(rt; 1 <= laid && laid <= 50);
    // Those of four windows are more.
    assert_eq!(rt; laid_again(rt.alloc(), WIDTH, 100, 20)?, 0);
    Ok(())
}

#[test]
fn the_next_window_forgets_what_is_too_much(rt: HostRuntime) -> Result<(), Memory> {
    let mut document = document_of(
        rt.alloc(),
        small_tables(rt.alloc())?,
        WIDTH,
        &lines(rt.alloc())?,
    )?;
    document.keep_rows(AS_HEAVY);
    for number in 0..40 {
        shown_from(&mut document, ROWS * number)?;
    }
    document.keep_rows(0);
    assert_eq!(rt; shown_from(&mut document, 0)?, 0);
    assert_eq!(rt; shown_from(&mut document, 0)?, 0);
    let laid = laid_of_first(&mut document, LINES)?;
    assert!(rt; 104 <= laid && laid <= 200);
    Ok(())
}

#[test]
fn rows_that_edits_dropped_are_not_counted(rt: HostRuntime) -> Result<(), Memory> {
    let mut document = document_of(
        rt.alloc(),
        small_tables(rt.alloc())?,
        WIDTH,
        &lines(rt.alloc())?,
    )?;
    // In the end the first line has four rows, which weigh 262 bytes.
    document.keep_rows(AS_HEAVY + 2);
    for number in 0..40 {
        shown_from(&mut document, ROWS * number)?;
    }
    for _ in 0..5 {
        let mut made = Vec::new(rt.alloc());
        document.type_text(0, "b", &mut made).map_err(|_| Memory)?;
        assert_eq!(rt; shown_from(&mut document, 0)?, 1);
    }
    assert_eq!(rt; shown_from(&mut document, 10 * ROWS)?, 0);
    Ok(())
}

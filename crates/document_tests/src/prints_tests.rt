//! What a document prints of what it shows.

use crate::documents::{document_of, small_tables};
use bg_types::{Memory, Out};
use live_document::Document;
use std::alloc::Global;

/// A paragraph of three scripts behind another one.
const TEXT: &str =
    "ab\nThe word \u{5E9}\u{5DC}\u{5D5}\u{5DD} (peace) and \u{627}\u{644}\u{639}\u{62F}\u{62F} 120 (a number) in one paragraph.";

/// Its second and third row as they are shown at width 24.
const SHOWN: &str =
    "The word \u{5DD}\u{5D5}\u{5DC}\u{5E9} (peace)   \nand 120 \u{62F}\u{62F}\u{639}\u{644}\u{627} (a number)\n";

/// The third one.
const THIRD: &str = "and 120 \u{62F}\u{62F}\u{639}\u{644}\u{627} (a number)\n";

/// Whether all that is shown prints these bytes, and is told to.
fn prints(document: &Document, rows: &str) -> bool {
    let mut room = [0; 256];
    let mut sink = Out::new(room.as_mut_slice());
    document.print(&mut sink).is_ok()
        && room.starts_with(rows.as_bytes())
        && room.get(rows.len()) == Some(&0)
        && document.print_size() == Ok(rows.len())
}

/// Whether the row that is shown with this number does.
fn prints_row(document: &Document, number: usize, row: &str) -> bool {
    let mut room = [0; 256];
    let mut sink = Out::new(room.as_mut_slice());
    number < document.window().len()
        && document.print_row(number, &mut sink).is_ok()
        && room.starts_with(row.as_bytes())
        && room.get(row.len()) == Some(&0)
        && document.row_print_size(number) == Ok(row.len())
}

/// Whether nothing is printed before the second and third row are shown, and then these.
fn prints_the_window(alloc: Global) -> Result<bool, Memory> {
    let mut document = document_of(alloc, small_tables(alloc)?, 24, TEXT)?;
    let nothing = prints(&document, "");
    document.show(15.min(document.len()), 0, 1)?;
    let sized = document.text_size() == Some(TEXT.len());
    Ok(nothing && sized && prints(&document, SHOWN) && prints_row(&document, 1, THIRD))
}

#[test]
fn a_window_prints_as_its_rows_of_the_whole_text(rt: HostRuntime) -> Result<(), Memory> {
    assert_eq!(rt; prints_the_window(rt.alloc())?, true);
    Ok(())
}

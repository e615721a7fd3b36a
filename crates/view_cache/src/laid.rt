//! What is kept of a paragraph.

ghost use Rattle.std.specs.Prelude.{◌≡◌, ◌≤◌, None, length, IfOk};
ghost use Rattle.std.specs.List.{All, flat_map};
ghost use Rattle.std.specs.Rc.{rc_slice_items};
ghost use Rattle.cell_grid.specs.Print.{row_text};
ghost use Rattle.cell_grid.specs.Printable.{AreSlices};
ghost use Rattle.cell_grid.specs.Rows.{rows_of};
ghost use Rattle.view_cache.specs.Kept.{laid_said};

use bg_types::{Base, Memory};
use cell_grid::{InMemory, Lists, Row, print_rows, rows_with};
use paragraphs::Para;
use std::alloc::Global;
use std::rc::RcSlice;
use unicode_tables::Tables;

/// The rows of a paragraph, counted from its start, and what they print, if that was asked for. A print shares it, so that it
/// outlasts the paragraph here.
#[derive(Drop)]
pub struct Laid {
    pub rows: RcSlice<Row>,
    pub print: Option<RcSlice<u8>>,
}

impl Laid {
    /// Lays a paragraph out in these lists, whatever they have.
    pub fn of(
        alloc: Global,
        tables: &Tables,
        width: u16,
        base: Base,
        para: &Para,
        lists: &mut Lists,
    ) -> Result<Laid, Memory>
        requires at_least { 2 ≤ width }
        requires at_most { width ≤ 500 }
        requires size { length para.now.text ≤ 4_000_000 }
        ensures { IfOk result (λ laid. laid_said laid ≡ record { rows = rows_of tables.now width base para.now.text; print = None }) }
    {
        let made = rows_with(alloc, tables, width, base, para, lists)?;
        let rows = RcSlice::from_vec(made)?;
        Ok(Laid { rows, print: None })
    }
}

/// What rows of a text print, one after the other. Never inlined: what is kept is not printed again.
#[inline(never)]
pub fn print_of(
    alloc: Global,
    tables: &Tables,
    text: &str,
    rows: &[Row],
) -> Result<RcSlice<u8>, Memory>
    requires { All (AreSlices text.now) rows.now }
    ensures { IfOk result (λ print. rc_slice_items print ≡ flat_map (row_text tables.now text.now) rows.now) }
{
    let mut sink = InMemory::new(alloc);
    match print_rows(tables, text, rows, &mut sink) {
        Ok(()) => {
            sink.bytes.shrink_to_fit();
            Ok(RcSlice::from_vec(sink.bytes)?)
        }
        Err(_) => Err(Memory),
    }
}

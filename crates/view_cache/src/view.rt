//! A view that keeps the rows of paragraphs, and what they print.

ghost use Rattle.std.specs.Prelude.{◌≡◌, ◌++◌, ◌≤◌, ◌⊎◌, ℕ, not, length, map, take, IfOk, OnOk, OnErr};
ghost use Rattle.std.specs.List.{All, flat_map};
ghost use Rattle.cell_grid.specs.Rows.{shifted};
ghost use Rattle.std.specs.Rc.{rc_slice_items};
ghost use Rattle.cell_grid.specs.Grids.{IsDrawable, paragraph_rows};
ghost use Rattle.cell_grid.specs.Print.{printed_paragraph};
ghost use Rattle.cell_grid.specs.Shifting.{MayShiftRow};
ghost use Rattle.view_cache.specs.Keys.{paragraph_key};
ghost use Rattle.view_cache.specs.Uses.{is_kept, used, all_used, laid_anew};
ghost use Rattle.view_cache.specs.Drawings.{empty_view, paragraph_keys, IsDrawing, IsPrinting};

use crate::kept_rows::KeptRows;
use crate::print::Print;
use bg_types::{Base, Memory};
use cell_grid::laws::{paragraphs_print_alike, rows_may_shift};
use cell_grid::{Grid, Lists, Row};
use paragraphs::{Para, split};
use std::alloc::Global;
use std::marker::Model;
use std::rc::RcSlice;
use unicode_tables::Tables;

/// How many paragraphs `View::new` has room for.
const ROOM: usize = 1_024;

/// Draws texts as `cell_grid::draw` does, and keeps the rows of the paragraphs drawn last,
/// by the paragraph's text, the width and the base. A kept paragraph is not laid out again:
/// its rows are copied to where it stands now. Where texts are printed, it keeps what a paragraph prints, too.
#[derive(Drop)]
pub struct View<'a> {
    alloc: Global,
    tables: &'a Tables,
    kept: KeptRows,
    laid: usize,
}

impl<'a> Model for View<'a> {
    ghost use Rattle.view_cache.specs.Drawings.{KeptView};
    ghost use Rattle.view_cache.specs.KeptParagraphs.{kept_keys, AreLaid};

    ghost Value = { KeptView };

    ghost view = { λ v. record {
      tables = v.tables.now;
      room = v.kept.room;
      hash_key = v.kept.hash_key;
      keys = kept_keys v.kept;
      laid = v.laid;
    } };

    ghost invariant = { λ v. AreLaid v.tables.now v.kept };
}

impl<'a> View<'a> {
    /// A view with room for 1,024 paragraphs. Its table is hashed with the key 0: for texts from
    /// strangers make the view by `keyed`.
    /// Cost: O(1), memory for an empty table.
    pub fn new(alloc: Global, tables: &'a Tables) -> Result<View<'a>, Memory>
        ensures { IfOk result (λ view. view ≡ empty_view tables.now 1024 0) }
    {
        View::with_room(alloc, tables, ROOM)
    }

    /// A view with room for this many paragraphs, 1 to 1,000,000. A text of more different ones than that
    /// finds none of its paragraphs kept when it is drawn again: each was dropped before its turn.
    /// Cost: O(1), memory for an empty table.
    pub fn with_room(alloc: Global, tables: &'a Tables, room: usize) -> Result<View<'a>, Memory>
        requires some { 1 ≤ room }
        requires most { room ≤ 1_000_000 }
        ensures { IfOk result (λ view. view ≡ empty_view tables.now room 0) }
    {
        View::keyed(alloc, 0, tables, room)
    }

    /// A view with room for this many paragraphs, its table hashed with this key. Without knowing the key, it is
    /// hard to choose paragraphs that make the draws slow; no bound is proved.
    /// Cost: O(1), memory for an empty table.
    pub fn keyed(
        alloc: Global,
        key: u128,
        tables: &'a Tables,
        room: usize,
    ) -> Result<View<'a>, Memory>
        requires some { 1 ≤ room }
        requires most { room ≤ 1_000_000 }
        ensures { IfOk result (λ view. view ≡ empty_view tables.now room key) }
    {
        let kept = KeptRows::keyed(alloc, key, room)?;
        Ok(View {
            alloc,
            tables,
            kept,
            laid: 0,
        })
    }

    /// How many paragraphs the last draw or print that answered Ok laid out anew, or 0 before the first.
    #[inline]
    pub fn laid(&self) -> usize
        ensures { result ≡ self.now.laid }
    {
        self.laid
    }

    /// Draws a text on a grid of a width in columns, as `cell_grid::draw` does. After `Memory`, what
    /// is kept is still right, and the next draw goes on from there.
    /// Cost: O(n), one pass to split the text, and a copy of the rows of each paragraph that is kept; memory for what
    /// is laid out anew.
    pub fn draw<'t>(&mut self, width: u16, base: Base, text: &'t str) -> Result<Grid<'t>, Memory>
    where
        'a: 't,
        requires at_least { 2 ≤ width }
        requires at_most { width ≤ 500 }
        requires size { length text.now ≤ 4_000_000 }
        ensures { IsDrawing self.old width base text.now result self.new }
    {
        let paragraphs = split(self.alloc, self.tables, text)?;
        let mut rows = Vec::new(self.alloc);
        let mut lists = Lists::new(self.alloc);
        let laid = self.push_each(width, base, &paragraphs, &mut lists, &mut rows)?;
        self.laid = laid;
        Ok(Grid::of(self.tables, text, rows))
    }

    /// Uses the keys of paragraphs in order, and appends the rows of each. Returns how many were laid out
    /// anew. After `Memory` a beginning of the keys was used.
    fn push_each(
        &mut self,
        width: u16,
        base: Base,
        paragraphs: &[Para],
        lists: &mut Lists,
        drawn: &mut Vec<Row>,
    ) -> Result<usize, Memory>
        requires at_least { 2 ≤ width }
        requires at_most { width ≤ 500 }
        requires paragraphs { All IsDrawable paragraphs.now }
        ensures rows { OnOk result (drawn.new.items ≡ drawn.old.items ++ flat_map (paragraph_rows self.old.tables width base) paragraphs.now) }
        ensures laid { IfOk result (λ laid. laid ≡ laid_anew self.old.room (paragraph_keys width base paragraphs.now) self.old.keys) }
        ensures view { OnOk result (self.new ≡ record self.old { keys = all_used self.old.room (paragraph_keys width base paragraphs.now) self.old.keys }) }
        ensures begun { OnErr result ((n : ℕ)
            × (self.new ≡ record self.old { keys = all_used self.old.room (take n (paragraph_keys width base paragraphs.now)) self.old.keys })) }
    {
        // Each paragraph has at least one row.
        drawn.reserve(paragraphs.len())?;
        let mut laid = 0;
        for para in paragraphs {
            if self.push_rows(width, base, para, lists, drawn)? {
                laid += 1;
            }
        }
        Ok(laid)
    }

    /// Uses the key of a paragraph, and appends its rows, moved to where they stand in the text. Returns
    /// whether they were laid out anew. After `Memory` the key was used or not.
    fn push_rows(
        &mut self,
        width: u16,
        base: Base,
        para: &Para,
        lists: &mut Lists,
        drawn: &mut Vec<Row>,
    ) -> Result<bool, Memory>
        requires at_least { 2 ≤ width }
        requires at_most { width ≤ 500 }
        requires para { IsDrawable para.now }
        ensures rows { OnOk result (drawn.new.items ≡ drawn.old.items ++ paragraph_rows self.old.tables width base para.now) }
        ensures laid { IfOk result (λ laid. laid ≡ not (is_kept (paragraph_key para.now.text width base) self.old.keys)) }
        ensures view { OnOk result (self.new ≡ record self.old { keys = used self.old.room (paragraph_key para.now.text width base) self.old.keys }) }
        ensures err { OnErr result ((self.new ≡ self.old)
            ⊎ (self.new ≡ record self.old { keys = used self.old.room (paragraph_key para.now.text width base) self.old.keys })) }
    {
        rows_may_shift();
        let laid = self
            .kept
            .keep(self.alloc, self.tables, width, base, para, lists)?;
        push_shifted(self.alloc, self.kept.newest(), para, drawn)?;
        Ok(laid)
    }

    // Never inlined, so that a profile names it.
    /// What `cell_grid::print` writes of the grid that `draw` draws of a text. It does to the view what that draw does, and
    /// what a kept paragraph prints is not gathered again.
    /// Cost: O(n), one pass to split the text, and O(1) for each paragraph whose print is kept; memory for what is laid out
    /// or printed anew.
    #[inline(never)]
    pub fn printed(&mut self, width: u16, base: Base, text: &str) -> Result<Print, Memory>
        requires at_least { 2 ≤ width }
        requires at_most { width ≤ 500 }
        requires size { length text.now ≤ 4_000_000 }
        ensures { IsPrinting self.old width base text.now result self.new }
    {
        paragraphs_print_alike();
        let paragraphs = split(self.alloc, self.tables, text)?;
        let mut parts = Vec::new(self.alloc);
        let mut lists = Lists::new(self.alloc);
        let laid = self.push_prints(width, base, &paragraphs, &mut lists, &mut parts)?;
        self.laid = laid;
        Ok(Print::of(parts))
    }

    /// Uses the keys of paragraphs in order, and appends the print of each. Returns how many were laid out
    /// anew. After `Memory` a beginning of the keys was used.
    fn push_prints(
        &mut self,
        width: u16,
        base: Base,
        paragraphs: &[Para],
        lists: &mut Lists,
        parts: &mut Vec<RcSlice<u8>>,
    ) -> Result<usize, Memory>
        requires at_least { 2 ≤ width }
        requires at_most { width ≤ 500 }
        requires paragraphs { All IsDrawable paragraphs.now }
        ensures print { OnOk result (flat_map rc_slice_items parts.new.items
            ≡ flat_map rc_slice_items parts.old.items ++ flat_map (λ p. printed_paragraph self.old.tables width base p.text) paragraphs.now) }
        ensures laid { IfOk result (λ laid. laid ≡ laid_anew self.old.room (paragraph_keys width base paragraphs.now) self.old.keys) }
        ensures view { OnOk result (self.new ≡ record self.old { keys = all_used self.old.room (paragraph_keys width base paragraphs.now) self.old.keys }) }
        ensures begun { OnErr result ((n : ℕ)
            × (self.new ≡ record self.old { keys = all_used self.old.room (take n (paragraph_keys width base paragraphs.now)) self.old.keys })) }
    {
        parts.reserve(paragraphs.len())?;
        let mut anew = 0;
        for para in paragraphs {
            if self.push_print(width, base, para, lists, parts)? {
                anew += 1;
            }
        }
        Ok(anew)
    }

    /// Uses the key of a paragraph, and appends its print. Returns whether it was laid out anew. After `Memory`
    /// the key was used or not.
    fn push_print(
        &mut self,
        width: u16,
        base: Base,
        para: &Para,
        lists: &mut Lists,
        parts: &mut Vec<RcSlice<u8>>,
    ) -> Result<bool, Memory>
        requires at_least { 2 ≤ width }
        requires at_most { width ≤ 500 }
        requires para { IsDrawable para.now }
        ensures print { OnOk result (flat_map rc_slice_items parts.new.items
            ≡ flat_map rc_slice_items parts.old.items ++ printed_paragraph self.old.tables width base para.now.text) }
        ensures laid { IfOk result (λ laid. laid ≡ not (is_kept (paragraph_key para.now.text width base) self.old.keys)) }
        ensures view { OnOk result (self.new ≡ record self.old { keys = used self.old.room (paragraph_key para.now.text width base) self.old.keys }) }
        ensures err { OnErr result ((self.new ≡ self.old)
            ⊎ (self.new ≡ record self.old { keys = used self.old.room (paragraph_key para.now.text width base) self.old.keys })) }
    {
        let laid = self
            .kept
            .keep(self.alloc, self.tables, width, base, para, lists)?;
        let print = self
            .kept
            .newest_print(self.alloc, self.tables, width, base, para)?;
        parts.push(print)?;
        Ok(laid)
    }
}

/// Appends copies of a paragraph's rows, moved to where the paragraph stands in its text.
fn push_shifted(
    alloc: Global,
    rows: &[Row],
    para: &Para,
    drawn: &mut Vec<Row>,
) -> Result<(), Memory>
    requires bytes { para.now.first_byte ≤ 4_000_000 }
    requires places { para.now.first_place ≤ 4_000_000 }
    requires may { All (MayShiftRow para.now.first_byte para.now.first_place) rows.now }
    ensures { OnOk result (drawn.new.items ≡ drawn.old.items ++ map (shifted para.now.first_byte para.now.first_place) rows.now) }
{
    drawn.reserve(rows.len())?;
    for row in rows {
        let copy = row.shifted(alloc, para.first_byte() as u32, para.first_place() as u32)?;
        drawn.push(copy)?;
    }
    Ok(())
}

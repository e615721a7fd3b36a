//! Prints of what a document shows.

ghost use Rattle.std.specs.Prelude.{◌≡◌, ◌++◌, ◌<◌, ◌≤◌, false, drop, length, is_err, IfOk, OnOk, OnErr};
ghost use Rattle.std.specs.Io.KnownBytes.{Appends};
ghost use Rattle.bg_types.specs.Sink.{AppendsBeginning};
ghost use Rattle.cell_grid.specs.Print.{printed, printed_row, printed_sizes, IsSizeOf};
ghost use Rattle.live_document.specs.Documents.{shown_grid};

use crate::document::Document;
use crate::printing::{text_shown, text_under};
use crate::reading::go_to_row;
use bg_types::{Device, Memory, Sink};
use cell_grid::{print_row, row_entry_sizes, row_print_size};

impl Document {
    /// Writes all rows that are shown, as `cell_grid::print` writes these rows of the whole text's grid: the text of each cell,
    /// and one LF after each row. Takes no memory. Nothing is shown before the first `show` and after a change.
    ///
    /// After `Device` a beginning of it is written.
    /// Cost: that of `Window::rows` and `print_row` for each row.
    pub fn print<W: Sink>(&self, sink: &mut W) -> Result<(), Device>
        requires working { W.has_failed sink.old ≡ false }
        ensures ok { OnOk result (Appends (W.written sink.old) (W.written sink.new) (printed (shown_grid self.now))) }
        ensures err { OnErr result (AppendsBeginning (W.written sink.old) (W.written sink.new) (printed (shown_grid self.now))) }
        ensures failed { W.has_failed sink.new ≡ is_err result }
    {
        // The text has no more bytes than it may.
        let _bytes = self.buffer.bytes();
        let mut cursor = self.buffer.cursor(self.shown.first);
        let mut row = self.shown.skip;
        for _ in 0..self.shown.count {
            let number = go_to_row(&mut cursor, row);
            let own = text_under(&cursor, number);
            print_row(&self.tables, own.text, own.row, sink)?;
            row = number + 1;
        }
        Ok(())
    }

    /// How many bytes `print` writes. Takes no memory. `Memory` where they are 2^64 or more.
    /// Cost: that of `Window::rows` and `row_print_size` for each row.
    pub fn print_size(&self) -> Result<usize, Memory>
        ensures { IsSizeOf (printed (shown_grid self.now)) result }
    {
        // The text has no more bytes than it may.
        let _bytes = self.buffer.bytes();
        let mut cursor = self.buffer.cursor(self.shown.first);
        let mut row = self.shown.skip;
        let mut size = 0usize;
        for _ in 0..self.shown.count {
            let number = go_to_row(&mut cursor, row);
            let own = text_under(&cursor, number);
            let more = row_print_size(&self.tables, own.text, own.row)?;
            size = size.checked_add(more).ok_or(Memory)?;
            row = number + 1;
        }
        Ok(size)
    }

    /// Writes a row that is shown, by its number from 0, as `print` does. Takes no memory.
    ///
    /// After `Device` a beginning of it is written.
    /// Cost: that of `Window::row` and `print_row`.
    pub fn print_row<W: Sink>(&self, number: usize, sink: &mut W) -> Result<(), Device>
        requires row { number < length self.now.window.rows }
        requires working { W.has_failed sink.old ≡ false }
        ensures ok { OnOk result (Appends (W.written sink.old) (W.written sink.new) (printed_row (shown_grid self.now) number)) }
        ensures err { OnErr result (AppendsBeginning (W.written sink.old) (W.written sink.new) (printed_row (shown_grid self.now) number)) }
        ensures failed { W.has_failed sink.new ≡ is_err result }
    {
        let own = text_shown(&self.buffer, self.shown, number);
        print_row(&self.tables, own.text, own.row, sink)
    }

    /// How many bytes `print_row` writes. Takes no memory. `Memory` where they are 2^64 or more.
    /// Cost: that of `Window::row` and `row_print_size`.
    pub fn row_print_size(&self, number: usize) -> Result<usize, Memory>
        requires { number < length self.now.window.rows }
        ensures { IsSizeOf (printed_row (shown_grid self.now) number) result }
    {
        let own = text_shown(&self.buffer, self.shown, number);
        row_print_size(&self.tables, own.text, own.row)
    }

    /// Answers how many bytes the cells of each entry of a row that is shown have in what `print_row` writes, as
    /// `cell_grid::row_entry_sizes` does, at the front of a list with room for them.
    /// Cost: that of `Window::row` and `row_entry_sizes`.
    pub fn row_entry_sizes(&self, number: usize, sizes: &mut [usize])
        requires row { number < length self.now.window.rows }
        requires room { length (printed_sizes (shown_grid self.now) number) ≤ length sizes.old }
        ensures { sizes.new ≡ printed_sizes (shown_grid self.now) number ++ drop (length (printed_sizes (shown_grid self.now) number)) sizes.old }
    {
        let own = text_shown(&self.buffer, self.shown, number);
        row_entry_sizes(&self.tables, own.text, own.row, sizes);
    }
}

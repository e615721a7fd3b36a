//! How a document is drawn: at which width and base direction, and with how many rows kept.

ghost use Rattle.std.specs.Prelude.{◌≡◌, ◌≤◌, false};
ghost use Rattle.live_document.specs.Cost.{AreForgotten};
ghost use Rattle.live_document.specs.Runs.{Resizes, Turns, Keeps, IsCall};
ghost use Rattle.live_document.specs.Showing.{no_window};

use super::Document;
use crate::keeping::{Most, forget_rows};
use crate::shown::Shown;
use bg_types::Base;

impl Document {
    /// Draws at another width in columns from now on. Then nothing is shown.
    /// Cost: O(n / 32) of the paragraphs, and O(64) for each block of at most 64 of which something is kept.
    pub fn resize(&mut self, width: u16)
        requires at_least { 2 ≤ width }
        requires at_most { width ≤ 500 }
        ensures width { self.new.width ≡ width }
        ensures base { self.new.base ≡ self.old.base }
        ensures tables { self.new.tables ≡ self.old.tables }
        ensures desk { self.new.desk ≡ self.old.desk }
        ensures most { self.new.most ≡ self.old.most }
        ensures window { self.new.window ≡ no_window }
        ensures forgotten { AreForgotten self.old.paragraphs self.new.paragraphs }
        ensures behind { self.new.behind ≡ self.old.behind }
        ensures laid { self.new.laid ≡ self.old.laid }
        ensures call { IsCall self.old (Resizes width) false self.new }
    {
        forget_rows(&mut self.buffer);
        self.held = 0;
        self.width = width;
        self.shown = Shown::NOTHING;
    }

    /// Draws at another base direction from now on. Then nothing is shown.
    /// Cost: that of `Document::resize`.
    pub fn set_base(&mut self, base: Base)
        ensures base { self.new.base ≡ base }
        ensures width { self.new.width ≡ self.old.width }
        ensures tables { self.new.tables ≡ self.old.tables }
        ensures desk { self.new.desk ≡ self.old.desk }
        ensures most { self.new.most ≡ self.old.most }
        ensures window { self.new.window ≡ no_window }
        ensures forgotten { AreForgotten self.old.paragraphs self.new.paragraphs }
        ensures behind { self.new.behind ≡ self.old.behind }
        ensures laid { self.new.laid ≡ self.old.laid }
        ensures call { IsCall self.old (Turns base) false self.new }
    {
        forget_rows(&mut self.buffer);
        self.held = 0;
        self.base = base;
        self.shown = Shown::NOTHING;
    }

    /// Keeps rows from now on in the memory that this many take (at most 1,000,000), or those of four windows where that is more,
    /// as if each column had an entry of its own; a document is made with 0. A row has 48 bytes, and 14 for each run of like
    /// clusters, so that most texts have many more rows in it. Where the rows of a whole text may be kept, a paragraph is laid out
    /// once and after its own edits alone. What is shown stays, and the next `show` forgets what is too much.
    /// Cost: O(1); `show` then keeps up to 14 bytes for each run of a row.
    pub fn keep_rows(&mut self, rows: usize)
        requires { rows ≤ 1_000_000 }
        ensures most { self.new ≡ record self.old { most = rows } }
        ensures call { IsCall self.old (Keeps rows) false self.new }
    {
        self.most = Most { rows };
    }
}

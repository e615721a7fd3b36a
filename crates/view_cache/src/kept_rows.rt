//! The rows of paragraphs, kept.

ghost use Rattle.std.specs.Prelude.{◌≡◌, ◌≤◌, [], length, IfOk, OnOk, OnErr};
ghost use Rattle.lru.specs.LruCache.{lru_cache};
ghost use Rattle.unicode_tables.specs.Tables.{TableValues};
ghost use Rattle.std.specs.Rc.{rc_slice_items};
ghost use Rattle.cell_grid.specs.Grids.{IsDrawable};
ghost use Rattle.cell_grid.specs.Print.{printed_paragraph};
ghost use Rattle.cell_grid.specs.Rows.{rows_of};
ghost use Rattle.view_cache.specs.Keys.{ParagraphKey, paragraph_key};
ghost use Rattle.view_cache.specs.KeptParagraphs.{AreLaid, kept_keys, nothing_kept, IsNewest, IsUse};

use crate::key::Key;
use crate::laid::{Laid, print_of};
use bg_types::{Base, Memory};
use cell_grid::laws::rows_print_alike;
use cell_grid::{Lists, Row};
use lru::LruCache;
use paragraphs::Para;
use std::alloc::Global;
use std::marker::Model;
use std::num::NonZeroUsize;
use std::rc::RcSlice;
use unicode_tables::Tables;

/// The rows of the paragraphs that were used last, counted from each paragraph's start, and what they print where that was asked
/// for, by the paragraph's text, the width and the base. They stay right as long as the tables are always the same.
pub(crate) struct KeptRows {
    hash_key: u128,
    kept: LruCache<Key, Laid>,
}

impl Model for KeptRows {
    ghost use Rattle.std.specs.Prelude.{map};
    ghost use Rattle.view_cache.specs.KeptParagraphs.{KeptParagraphs};

    ghost Value = { KeptParagraphs };

    ghost use Rattle.view_cache.specs.Kept.{entry_said, IsKept};

    ghost view = { λ k. record { room = k.kept.cap; hash_key = k.hash_key; entries = map entry_said k.kept.entries } };

    ghost invariant = { λ k. IsKept k.hash_key k.kept };
}

// Written out: a crate above then proves the call, and nothing of the parts.
impl Drop for KeptRows {
    fn drop(self) {
        let KeptRows {
            hash_key: _,
            kept: _,
        } = self;
    }
}

impl KeptRows {
    /// Room for the rows of this many paragraphs, found by hashes that begin with this key.
    pub(crate) fn keyed(alloc: Global, key: u128, room: usize) -> Result<KeptRows, Memory>
        requires some { 1 ≤ room }
        requires most { room ≤ 1_000_000 }
        ensures { IfOk result (λ kept. kept ≡ nothing_kept room key) }
    {
        let mut kept = LruCache::unbounded(alloc)?;
        if let Some(room) = NonZeroUsize::new(room) {
            kept.resize(room);
        }
        Ok(KeptRows {
            hash_key: key,
            kept,
        })
    }

    /// Uses the key of a paragraph: where no rows are kept under it, the paragraph is laid out in these lists, whatever they have,
    /// and its rows are kept, in place of those used longest ago where there is no more room. Returns whether it was laid out.
    /// After `Memory` nothing has changed.
    pub(crate) fn keep(
        &mut self,
        alloc: Global,
        tables: &Tables,
        width: u16,
        base: Base,
        para: &Para,
        lists: &mut Lists,
    ) -> Result<bool, Memory>
        requires at_least { 2 ≤ width }
        requires at_most { width ≤ 500 }
        requires size { length para.now.text ≤ 4_000_000 }
        ensures use_ok { IfOk result (λ anew. IsUse (paragraph_key para.now.text width base) self.old anew self.new) }
        ensures newest { OnOk result (IsNewest (paragraph_key para.now.text width base) self.new) }
        // Rows that are all by these tables stay so.
        ensures laid { AreLaid tables.now self.old → AreLaid tables.now self.new }
        ensures err { OnErr result (self.new ≡ self.old) }
    {
        let key = Key::of(alloc, self.hash_key, para.text(), width, base)?;
        if self.kept.promote(&key) {
            return Ok(false);
        }
        let laid = Laid::of(alloc, tables, width, base, para, lists)?;
        self.kept.put(key, laid)?;
        Ok(true)
    }

    /// The rows under the key that was used last, counted from the paragraph's start; none before the
    /// first use.
    pub(crate) fn newest(&self) -> &[Row]
        ensures { (tables : TableValues) (key : ParagraphKey) → AreLaid tables self.now → IsNewest key self.now
            → result.now ≡ rows_of tables key.width key.base key.text }
    {
        match self.kept.peek_mru() {
            Some((_, laid)) => laid.rows.as_slice(),
            None => &[],
        }
    }

    /// What the rows under the key that was used last print, which is that of this paragraph. It is kept beside them from its
    /// first call on. After `Memory` nothing has changed.
    pub(crate) fn newest_print(
        &mut self,
        alloc: Global,
        tables: &Tables,
        width: u16,
        base: Base,
        para: &Para,
    ) -> Result<RcSlice<u8>, Memory>
        requires at_least { 2 ≤ width }
        requires para { IsDrawable para.now }
        requires newest { IsNewest (paragraph_key para.now.text width base) self.old }
        requires laid { AreLaid tables.now self.old }
        ensures print { IfOk result (λ print. rc_slice_items print ≡ printed_paragraph tables.now width base para.now.text) }
        ensures room { self.new.room ≡ self.old.room }
        ensures hash_key { self.new.hash_key ≡ self.old.hash_key }
        ensures keys { kept_keys self.new ≡ kept_keys self.old }
        ensures laid { AreLaid tables.now self.new }
    {
        rows_print_alike();
        let (_, laid) = self.kept.peek_mru().unwrap();
        if let Some(print) = &laid.print {
            return Ok(print.clone()?);
        }
        let rows = laid.rows.clone()?;
        let print = print_of(alloc, tables, para.text(), rows.as_slice())?;
        let shared = print.clone()?;
        let key = Key::of(alloc, self.hash_key, para.text(), width, base)?;
        let printed = Laid {
            rows,
            print: Some(shared),
        };
        self.kept.put(key, printed)?;
        Ok(print)
    }
}

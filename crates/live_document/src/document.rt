//! A text that a desk edits and that is shown by windows.

ghost use Rattle.std.specs.Prelude.{◌≡◌, ◌≤◌, ◌<◌, ◌+◌, ◌-◌, ◌++◌, true, false, Some, max, take, drop, length, slice_get, All, OnOk, OnErr, IfOk, IfErr, IsOk, is_err, string_bytes, encode_utf8_all, vec_len, vec_capacity};
ghost use Rattle.std.specs.Option.{IfSome, MatchOption};
ghost use Rattle.std.specs.Str.{chars};
ghost use Rattle.bg_types.specs.OperationSet.{size, next};
ghost use Rattle.bg_types.specs.WellFormed.{IsWellFormed};
ghost use Rattle.rga_tree.specs.TextOf.{text, visible, visible_ids};
ghost use Rattle.desk_replica.specs.Desk.{fresh};
ghost use Rattle.desk_replica.specs.Merging.{with_operations};
ghost use Rattle.desk_replica.specs.Replacement.{typed_text, deletions, replacement, IsTextRefusal, IsTextRefused, IsRangeRefused, IsReplaceRefusal, IsReplaceRefused};
ghost use Rattle.desk_replica.specs.declared.answer.TypeFault.{TypeFault as Untyped};
ghost use Rattle.live_document.specs.Cost.{weight_kept, IsLaidOut, IsWindowKept, KeepsOthers};
ghost use Rattle.live_document.specs.Documents.{window_round, IsDrawnAlike, IsWindowOf};
ghost use Rattle.live_document.specs.Runs.{Types, Erases, Replaces, Shows, IsCall};
ghost use Rattle.live_document.specs.Showing.{no_window};

mod drawing;
mod positions;
mod prints;
mod taking;
mod taking_all;
mod typing;

use crate::following::{buffer_of, catch_up, follow};
use crate::keeping::{Most, forget_rows};
use crate::paragraph_rows::ParagraphRows;
use crate::showing::lay_window_out;
use crate::shown::Shown;
use crate::window::Window;
use bg_types::{Base, Id, Memory, Op};
use desk_replica::{Replica, TypeFault};
use rga_runs::Runs;
use rga_tree::Fresh;
use std::alloc::Global;
use std::marker::Model;
use std::rc::Rc;
pub use taking_all::TakenAll;
use text_buffer::Buffer;
use unicode_tables::Tables;

/// The desk of a document.
pub type Desk = Replica<Runs>;

/// A desk, its text in paragraphs, and the rows that are shown of it. An edit needs the memory of the desk alone: where the
/// paragraphs could not be changed with it, the next `show` makes them anew.
///
/// Places count visible characters, from 0.
pub struct Document {
    alloc: Global,
    desk: Desk,
    tables: Rc<Tables>,
    width: u16,
    base: Base,
    buffer: Buffer<ParagraphRows>,
    /// The paragraphs are not those of the desk's text.
    behind: bool,
    shown: Shown,
    laid: usize,
    /// What is kept weighs so much at most.
    held: usize,
    /// So many rows may be kept.
    most: Most,
}

impl Model for Document {
    ghost use Rattle.live_document.specs.Documents.{LiveDocument, live_code};

    ghost Value = { LiveDocument };

    ghost coded = { live_code };

    ghost use Rattle.live_document.specs.Documents.{paragraphs_of, IsLive};
    ghost use Rattle.live_document.specs.Showing.{window_in};

    ghost view = { λ d. record {
      desk = d.desk;
      tables = d.tables.value;
      width = d.width;
      base = d.base;
      paragraphs = paragraphs_of d.behind d.tables.value d.desk.set d.buffer;
      behind = d.behind;
      most = d.most.rows;
      window = window_in d.buffer d.shown;
      laid = d.laid;
    } };

    ghost invariant = { λ d. IsLive d.desk d.tables.value d.width d.base d.behind d.buffer d.shown d.held };
}

// Written out: a crate above then proves the call, and nothing of the parts.
impl Drop for Document {
    fn drop(self) {
        let Document {
            alloc: _,
            desk: _,
            tables: _,
            width: _,
            base: _,
            buffer: _,
            behind: _,
            shown: _,
            laid: _,
            held: _,
            most: _,
        } = self;
    }
}

impl Document {
    /// A document of a site (at least 1) without operations, drawn by these tables at a width in columns and a base
    /// direction. The key is that of the desk's tables: where it is secret, only one who measures the times of many calls
    /// can choose identifiers that make them slow.
    /// Cost: O(1), memory for one paragraph.
    pub fn new(
        alloc: Global,
        site: u16,
        tables: Rc<Tables>,
        width: u16,
        base: Base,
        key: u128,
    ) -> Result<Document, Memory>
        requires site { 0 < site }
        requires at_least { 2 ≤ width }
        requires at_most { width ≤ 500 }
        ensures desk { IfOk result (λ document. document.desk ≡ fresh site) }
        ensures tables { IfOk result (λ document. document.tables ≡ tables.value) }
        ensures width { IfOk result (λ document. document.width ≡ width) }
        ensures base { IfOk result (λ document. document.base ≡ base) }
        ensures window { IfOk result (λ document. document.window ≡ no_window) }
        ensures most { IfOk result (λ document. document.most ≡ 0) }
        ensures laid { IfOk result (λ document. document.laid ≡ 0) }
        ensures behind { IfOk result (λ document. document.behind ≡ true) }
    {
        let desk = Replica::new(alloc, site, Runs::fresh(alloc, key), key);
        Document::of(alloc, desk, tables, width, base)
    }

    /// A document over a desk, which may have operations already, drawn by these tables at a width in columns and a base
    /// direction. The first `show` makes its paragraphs. After `Memory` the desk is dropped.
    /// Cost: O(1), memory for one paragraph.
    pub fn of(
        alloc: Global,
        desk: Desk,
        tables: Rc<Tables>,
        width: u16,
        base: Base,
    ) -> Result<Document, Memory>
        requires at_least { 2 ≤ width }
        requires at_most { width ≤ 500 }
        ensures desk { IfOk result (λ document. document.desk ≡ desk) }
        ensures tables { IfOk result (λ document. document.tables ≡ tables.value) }
        ensures width { IfOk result (λ document. document.width ≡ width) }
        ensures base { IfOk result (λ document. document.base ≡ base) }
        ensures window { IfOk result (λ document. document.window ≡ no_window) }
        ensures most { IfOk result (λ document. document.most ≡ 0) }
        ensures laid { IfOk result (λ document. document.laid ≡ 0) }
        ensures behind { IfOk result (λ document. document.behind ≡ true) }
    {
        let buffer = buffer_of(alloc, &tables, "")?;
        Ok(Document {
            alloc,
            desk,
            tables,
            width,
            base,
            buffer,
            behind: true,
            shown: Shown::NOTHING,
            laid: 0,
            held: 0,
            most: Most { rows: 0 },
        })
    }

    /// Reserves memory for n new operations (at most 1,000,000), as the desk's `reserve` does. What is shown stays.
    /// Cost: that of `Replica::reserve`, memory too.
    pub fn reserve(&mut self, n: usize) -> Result<(), Memory>
        requires { n ≤ 1_000_000 }
        ensures ok { OnOk result (self.new.desk.spare ≡ max self.old.desk.spare n) }
        ensures set { self.new.desk.set ≡ self.old.desk.set }
        ensures site { self.new.desk.site ≡ self.old.desk.site }
        ensures waiting { self.new.desk.waiting ≡ self.old.desk.waiting }
        ensures err { OnErr result (self.new ≡ self.old) }
        ensures enough { n ≤ self.old.desk.spare → IsOk result }
        ensures drawn { IsDrawnAlike self.old self.new }
        ensures window { self.new.window ≡ self.old.window }
        ensures paragraphs { self.new.paragraphs ≡ self.old.paragraphs }
        ensures behind { self.new.behind ≡ self.old.behind }
        ensures laid { self.new.laid ≡ self.old.laid }
    {
        self.desk.reserve(n)
    }

    /// Its desk, whose operations another desk may merge. Of it are asked `spare`, `place_of`, `op_count` and `op_at` too.
    #[inline]
    pub fn desk(&self) -> &Desk
        ensures { result.now ≡ self.now.desk }
    {
        &self.desk
    }

    /// Its tables.
    #[inline]
    pub fn tables(&self) -> &Tables
        ensures { result.now ≡ self.now.tables }
    {
        &self.tables
    }

    /// The width that it is drawn at, in columns.
    #[inline]
    pub fn width(&self) -> u16
        ensures { result ≡ self.now.width }
    {
        self.width
    }

    /// The base direction that it is drawn at.
    #[inline]
    pub fn base(&self) -> Base
        ensures { result ≡ self.now.base }
    {
        self.base
    }

    /// How many characters are visible.
    pub fn len(&self) -> usize
        ensures { result ≡ length (visible self.now.desk.set) }
    {
        self.desk.len()
    }

    /// The identifier of the visible character at a place.
    /// Cost: that of `Replica::id_at`.
    pub fn id_at(&mut self, place: usize) -> Id
        requires { place < length (visible self.old.desk.set) }
        ensures value { slice_get (visible_ids self.old.desk.set) place ≡ Some result }
        ensures unchanged { self.new ≡ self.old }
    {
        self.desk.id_at(place)
    }

    /// The visible characters in order, at most 1,000,000.
    /// Cost: that of `Replica::text`, memory too.
    pub fn text(&self) -> Result<String, Memory>
        ensures ok { IfOk result (λ t. string_bytes t ≡ encode_utf8_all (text self.now.desk.set)) }
        ensures limited { length (text self.now.desk.set) ≤ 1_000_000 }
    {
        self.desk.text()
    }

    /// How many bytes its text has, where that is known without reading it: after `show`, until an edit has no memory for the
    /// paragraphs. Takes no memory.
    pub fn text_size(&self) -> Option<usize>
        ensures size { IfSome result (λ size. size ≡ length (encode_utf8_all (text self.now.desk.set))) }
        ensures known { MatchOption result (self.now.behind ≡ true) (λ _. self.now.behind ≡ false) }
    {
        if self.behind {
            return None;
        }
        Some(self.buffer.bytes())
    }

    /// Types characters at a place, as the desk's `type_text` does. Then nothing is shown.
    /// Cost: that of `Replica::type_text`, and of `Buffer::edit`; memory that must be there as `Replica::type_text`
    /// asks for it.
    pub fn type_text(
        &mut self,
        place: usize,
        characters: &str,
        made: &mut Vec<Op>,
    ) -> Result<(), TypeFault>
        requires { place ≤ length (visible self.old.desk.set) }
        ensures made { OnOk result (made.new.items ≡ made.old.items ++ typed_text self.old.desk.set self.old.desk.site place (chars characters.now)) }
        ensures well_formed { OnOk result (All IsWellFormed (typed_text self.old.desk.set self.old.desk.site place (chars characters.now))) }
        ensures ok { OnOk result (self.new.desk.set ≡ with_operations self.old.desk.set (typed_text self.old.desk.set self.old.desk.site place (chars characters.now))) }
        ensures typed { OnOk result (text self.new.desk.set ≡ take place (text self.old.desk.set) ++ (chars characters.now ++ drop place (text self.old.desk.set))) }
        ensures accepted { OnOk result ((fault : Untyped) → ¬ (IsTextRefusal self.old.desk.set (length (chars characters.now)) fault)) }
        ensures fault { IfErr result (IsTextRefused self.old.desk.set (length (chars characters.now))) }
        ensures err { OnErr result (self.new ≡ self.old) }
        ensures unmade { OnErr result (made.new.items ≡ made.old.items) }
        ensures site { self.new.desk.site ≡ self.old.desk.site }
        ensures spare { size self.old.desk.set + self.old.desk.spare ≤ size self.new.desk.set + self.new.desk.spare }
        ensures unpaid { vec_len made.old + length (chars characters.now) ≤ vec_capacity made.old
            → IfErr result (λ fault. fault ≡ TypeFault.Memory → self.old.desk.spare < length (chars characters.now)) }
        ensures drawn { IsDrawnAlike self.old self.new }
        ensures window { OnOk result (self.new.window ≡ no_window) }
        ensures kept { OnOk result (KeepsOthers self.old self.new place place) }
        ensures laid { self.new.laid ≡ self.old.laid }
        ensures call { IsCall self.old (Types place (chars characters.now)) (is_err result) self.new }
    {
        self.desk.type_text(place, characters, made)?;
        self.behind = follow(
            &self.tables,
            &mut self.buffer,
            self.behind,
            place,
            place,
            characters,
        );
        self.shown = Shown::NOTHING;
        Ok(())
    }

    /// Erases the visible characters from one place up to another, as the desk's `erase_range` does. Then nothing is shown.
    /// Cost: that of `Replica::erase_range`, and of `Buffer::edit`; memory that must be there as `Replica::erase_range`
    /// asks for it.
    pub fn erase_range(
        &mut self,
        from: usize,
        to: usize,
        made: &mut Vec<Op>,
    ) -> Result<(), TypeFault>
        requires order { from ≤ to }
        requires within { to ≤ length (visible self.old.desk.set) }
        ensures made { OnOk result (made.new.items ≡ made.old.items ++ deletions self.old.desk.set from (to - from)) }
        ensures ok { OnOk result (self.new.desk.set ≡ with_operations self.old.desk.set (deletions self.old.desk.set from (to - from))) }
        ensures erased { OnOk result (text self.new.desk.set ≡ take from (text self.old.desk.set) ++ drop to (text self.old.desk.set)) }
        ensures visible { OnOk result (visible self.new.desk.set ≡ take from (visible self.old.desk.set) ++ drop to (visible self.old.desk.set)) }
        ensures counter { OnOk result (next self.new.desk.set ≡ next self.old.desk.set) }
        ensures size { OnOk result (size self.new.desk.set ≡ size self.old.desk.set + (to - from)) }
        ensures accepted { OnOk result (size self.old.desk.set + (to - from) ≤ 1_000_000) }
        ensures fault { IfErr result (IsRangeRefused self.old.desk.set (to - from)) }
        ensures err { OnErr result (self.new ≡ self.old) }
        ensures unmade { OnErr result (made.new.items ≡ made.old.items) }
        ensures site { self.new.desk.site ≡ self.old.desk.site }
        ensures spare { size self.old.desk.set + self.old.desk.spare ≤ size self.new.desk.set + self.new.desk.spare }
        ensures unpaid { vec_len made.old + (to - from) ≤ vec_capacity made.old → IfErr result (λ fault. fault ≡ TypeFault.Full) }
        ensures drawn { IsDrawnAlike self.old self.new }
        ensures window { OnOk result (self.new.window ≡ no_window) }
        ensures kept { OnOk result (KeepsOthers self.old self.new from to) }
        ensures laid { self.new.laid ≡ self.old.laid }
        ensures call { IsCall self.old (Erases from to) (is_err result) self.new }
    {
        self.desk.erase_range(from, to, made)?;
        self.behind = follow(&self.tables, &mut self.buffer, self.behind, from, to, "");
        self.shown = Shown::NOTHING;
        Ok(())
    }

    /// Erases the visible characters from one place up to another and types others where they began, as the desk's
    /// `replace` does, in one step. Then nothing is shown.
    /// Cost: that of `Replica::replace`, and of `Buffer::edit`; memory that must be there as `Replica::replace` asks
    /// for it.
    pub fn replace(
        &mut self,
        from: usize,
        to: usize,
        characters: &str,
        made: &mut Vec<Op>,
    ) -> Result<(), TypeFault>
        requires order { from ≤ to }
        requires within { to ≤ length (visible self.old.desk.set) }
        ensures made { OnOk result (made.new.items ≡ made.old.items ++ replacement self.old.desk.set self.old.desk.site from (to - from) (chars characters.now)) }
        ensures well_formed { OnOk result (All IsWellFormed (replacement self.old.desk.set self.old.desk.site from (to - from) (chars characters.now))) }
        ensures ok { OnOk result (self.new.desk.set ≡ with_operations self.old.desk.set (replacement self.old.desk.set self.old.desk.site from (to - from) (chars characters.now))) }
        ensures replaced { OnOk result (text self.new.desk.set ≡ take from (text self.old.desk.set) ++ (chars characters.now ++ drop to (text self.old.desk.set))) }
        ensures counter { OnOk result (next self.new.desk.set ≡ next self.old.desk.set + length (chars characters.now)) }
        ensures size { OnOk result (size self.new.desk.set ≡ size self.old.desk.set + ((to - from) + length (chars characters.now))) }
        ensures accepted { OnOk result ((fault : Untyped) → ¬ (IsReplaceRefusal self.old.desk.set (to - from) (length (chars characters.now)) fault)) }
        ensures fault { IfErr result (IsReplaceRefused self.old.desk.set (to - from) (length (chars characters.now))) }
        ensures err { OnErr result (self.new ≡ self.old) }
        ensures unmade { OnErr result (made.new.items ≡ made.old.items) }
        ensures site { self.new.desk.site ≡ self.old.desk.site }
        ensures spare { size self.old.desk.set + self.old.desk.spare ≤ size self.new.desk.set + self.new.desk.spare }
        ensures unpaid { vec_len made.old + ((to - from) + length (chars characters.now)) ≤ vec_capacity made.old
            → IfErr result (λ fault. fault ≡ TypeFault.Memory → self.old.desk.spare < length (chars characters.now)) }
        ensures drawn { IsDrawnAlike self.old self.new }
        ensures window { OnOk result (self.new.window ≡ no_window) }
        ensures kept { OnOk result (KeepsOthers self.old self.new from to) }
        ensures laid { self.new.laid ≡ self.old.laid }
        ensures call { IsCall self.old (Replaces from to (chars characters.now)) (is_err result) self.new }
    {
        self.desk.replace(from, to, characters, made)?;
        self.behind = follow(
            &self.tables,
            &mut self.buffer,
            self.behind,
            from,
            to,
            characters,
        );
        self.shown = Shown::NOTHING;
        Ok(())
    }

    /// Lays out what is not kept of a window: the row of a place, and so many rows above and below it, at most 1,000 each.
    /// `window` shows it then. What was kept stays, unless its rows have more bytes than those of four such windows with
    /// an entry for each column, each of at least 64 rows, and than as many such rows as `keep_rows` was asked for: then no more
    /// than these have, or the rows of the window's paragraphs alone. After `Memory` nothing is shown and no row kept.
    /// Cost: O(d / 32) of the d paragraphs between the place and where the last edit or `show` was, O(64) for each that has a
    /// row in the window, and that of `rows` for each of them of which nothing is kept; memory for their rows. Once more
    /// was made than may be kept, it is counted: O(n / 32) of all paragraphs, and O(64) for each block of at most 64 of
    /// which something is kept. Where an edit was refused memory before, that of `text` and `Buffer::of` too.
    pub fn show(&mut self, place: usize, above: usize, below: usize) -> Result<(), Memory>
        requires place { place ≤ length (visible self.old.desk.set) }
        requires above { above ≤ 1_000 }
        requires below { below ≤ 1_000 }
        ensures window { OnOk result (self.new.window ≡ window_round self.old place above below) }
        // What has a row of it is laid out, unless it is kept.
        ensures laid { OnOk result (IsLaidOut self.old self.new place above below) }
        ensures uncounted { OnErr result (self.new.laid ≡ self.old.laid) }
        // What is kept takes no memory to show again.
        ensures enough { IsWindowKept self.old place above below → IsOk result }
        ensures nothing { OnErr result (self.new.window ≡ no_window) }
        ensures forgotten { OnErr result (weight_kept self.new.paragraphs ≡ 0) }
        ensures desk { self.new.desk ≡ self.old.desk }
        ensures drawn { IsDrawnAlike self.old self.new }
        ensures call { IsCall self.old (Shows place above below) (is_err result) self.new }
    {
        self.shown = Shown::NOTHING;
        catch_up(
            self.alloc,
            &self.tables,
            &self.desk,
            &mut self.buffer,
            self.behind,
        )?;
        self.behind = false;
        match lay_window_out(
            self.alloc,
            &self.tables,
            self.width,
            self.base,
            &mut self.buffer,
            place,
            above,
            below,
            self.held,
            self.most.rows,
        ) {
            Ok(outcome) => {
                self.shown = outcome.shown;
                self.laid = outcome.laid;
                self.held = outcome.held;
                Ok(())
            }
            Err(Memory) => {
                // How many rows were made is not asked for.
                forget_rows(&mut self.buffer);
                self.held = 0;
                Err(Memory)
            }
        }
    }

    /// What is shown: the window of the last `show`, and none before the first and after a change.
    #[inline]
    pub fn window(&self) -> Window<'_>
        ensures window { result ≡ self.now.window }
        // Whatever came before, it is none of an older text, nor of another width or base.
        ensures of_now { IsWindowOf self.now.desk.set self.now.tables self.now.width self.now.base self.now.window }
    {
        Window {
            buffer: &self.buffer,
            shown: self.shown,
        }
    }

    /// How many paragraphs the window that was shown last took to lay out, a caret's too, or 0 before the first.
    #[inline]
    pub fn laid(&self) -> usize
        ensures { result ≡ self.now.laid }
    {
        self.laid
    }
}

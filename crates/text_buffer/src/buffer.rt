//! A text in paragraphs.

ghost use Rattle.std.specs.Prelude.{◌≡◌, ◌+◌, ◌<◌, ◌≤◌, ◌↔◌, ℕ, Some, Err, insert, remove, length, map, take, drop, slice_get, slice_set, option_copied, encode_utf8_all, IfOk, IfErr, IsTrue, OnOk, OnErr};
ghost use Rattle.unicode_tables.specs.Tables.{TableValues};
ghost use Rattle.std.specs.Str.{IsUtf8};
ghost use Rattle.paragraphs.specs.Text.{code_points};
ghost use Rattle.paragraphs.specs.Paragraphs.{paragraphs};
ghost use Rattle.bg_types.specs.Edit.{IsInRange, changed};
ghost use Rattle.text_buffer.specs.Buffers.{bytes_in, paragraphs_in, kept_in, kept_but, kept_weight, text_in, IsSplit};
ghost use Rattle.text_buffer.specs.Edits.{replaced, place_of, end_of, anew, all_changed, AreInRange, IsParagraphOf, IsTouched, AreTouched};
ghost use Rattle.text_buffer.specs.Forgetting.{left_of};
ghost use Rattle.text_buffer.specs.Runs.{IsStepOf};
ghost use Rattle.text_buffer.specs.declared.fault.BufferFault.TheVariants.{TooLong};

use crate::block::{Block, sum_up};
use crate::change::{change, pieces_of};
use crate::cursor::Cursor;
use crate::fault::{BufferFault, Stopped};
use crate::find::{Before, at_or_in_front, back_to_place, block_at, block_near};
use crate::forget::forget_but;
use crate::found::{find, find_at};
use crate::replace::blocks_of;
use crate::run::{are_in_range, first_run};
use crate::spared::Spared;
use crate::stretch::{LIMIT, plan_edit};
use crate::touched::Touched;
use crate::weighed::{Weighed, of_blocks};
use bg_types::Change;
use paragraphs::Para;
use std::alloc::Global;
use std::marker::Model;
use unicode_tables::Tables;

/// A text of at most 4,000,000 bytes in its paragraphs (P1), and beside each what its owner keeps of it. An edit makes
/// those anew that it touches, and finds them by blocks of some hundred. Places count code points. All its calls ask for the
/// tables that it was made with.
pub struct Buffer<K> {
    alloc: Global,
    blocks: Vec<Block<K>>,
    bytes: usize,
    places: usize,
    paragraphs: usize,
    /// Where look-ups begin: a block near the last edit, or that of the last `go_to`.
    near: Before,
}

impl<K> Model for Buffer<K> {
    ghost use Rattle.std.specs.Prelude.{List};
    ghost use Rattle.text_buffer.specs.Buffers.{KeptParagraph};

    ghost Value = { List (KeptParagraph K) };

    ghost use Rattle.text_buffer.specs.Blocks.{seen_in};
    ghost use Rattle.text_buffer.specs.Counted.{IsCounted};

    ghost view = { λ b. seen_in b.blocks.items };

    ghost invariant = { λ b. IsCounted b.blocks.items b.bytes b.places b.paragraphs b.near };
}

// Written out: a crate above then proves the call, and nothing of the parts.
impl<K: Drop> Drop for Buffer<K> {
    fn drop(self) {
        let Buffer {
            alloc: _,
            blocks: _,
            bytes: _,
            places: _,
            paragraphs: _,
            near: _,
        } = self;
    }
}

impl<K: Drop> Buffer<K> {
    /// A buffer of a text, of which nothing is kept. `TooLong` where it has more than 4,000,000 bytes.
    /// Cost: O(n), memory for a copy of the text and an entry for each paragraph: 32 bytes and the size of what is kept
    /// beside it.
    pub fn of(alloc: Global, tables: &Tables, text: &str) -> Result<Buffer<K>, BufferFault>
        ensures text { IfOk result (λ buffer. text_in buffer ≡ code_points text.now) }
        ensures split { IfOk result (λ buffer. IsSplit tables.now (paragraphs_in buffer)) }
        ensures nothing { IfOk result (λ buffer. buffer ≡ map anew (paragraphs_in buffer)) }
        ensures too_long { (result ≡ Err TooLong) ↔ (4_000_000 < length text.now) }
    {
        if text.len() > LIMIT {
            return Err(BufferFault::TooLong);
        }
        let pieces = pieces_of(alloc, tables, text)?;
        let paragraphs = pieces.len();
        let sums = sum_up(&pieces);
        let blocks = blocks_of(alloc, pieces)?;
        Ok(Buffer {
            alloc,
            blocks,
            bytes: sums.bytes,
            places: sums.places,
            paragraphs,
            near: Before {
                block: 0,
                paragraphs: 0,
                bytes: 0,
                places: 0,
            },
        })
    }

    /// How many code points the text has.
    #[inline]
    pub fn len(&self) -> usize
        ensures { result ≡ length (text_in self.now) }
    {
        self.places
    }

    /// How many bytes it has.
    #[inline]
    pub fn bytes(&self) -> usize
        ensures bytes { result ≡ bytes_in (text_in self.now) }
        ensures few { result ≤ 4_000_000 }
        // What is true of every buffer, for the caller's proof.
        ensures utf8 { IsUtf8 (encode_utf8_all (text_in self.now)) }
    {
        self.bytes
    }

    /// Goes to a place: what is asked for next is found from there. The text and what is kept of it stay. An edit goes to
    /// where it is made.
    /// Cost: O(d / 32) of the d paragraphs between it and where the buffer is.
    pub fn go_to(&mut self, place: usize)
        requires { place ≤ length (text_in self.old) }
        ensures { self.new ≡ self.old }
    {
        let start = back_to_place(&self.blocks, self.near, place);
        self.near = block_at(&self.blocks, start, place);
    }

    /// How many paragraphs it has: at least one, and more than separators at most by one.
    #[inline]
    pub fn paragraph_count(&self) -> usize
        ensures { result ≡ length self.now }
    {
        self.paragraphs
    }

    /// A paragraph by its number, from 0.
    /// Cost: O(d / 32 + 64) of the d paragraphs between it and where the buffer is.
    pub fn paragraph(&self, number: usize) -> Para<'_>
        requires { number < length self.now }
        ensures paragraph { (tables : TableValues) → IsSplit tables (paragraphs_in self.now) → slice_get (paragraphs tables (encode_utf8_all (text_in self.now))) number ≡ Some result }
    {
        self.cursor(number).paragraph()
    }

    /// A cursor at a paragraph.
    /// Cost: O(d / 32 + 64) of the d paragraphs between it and where the buffer is.
    pub fn cursor(&self, number: usize) -> Cursor<'_, K>
        requires { number < length self.now }
        ensures paragraphs { result.paragraphs ≡ self.now }
        ensures number { result.number ≡ number }
    {
        Cursor::at(&self.blocks, find(&self.blocks, self.near, number))
    }

    /// A cursor at the paragraph in which a place stands.
    /// Cost: O(d / 32 + 64) of the d paragraphs between it and where the buffer is.
    pub fn cursor_at(&self, place: usize) -> Cursor<'_, K>
        requires { place ≤ length (text_in self.now) }
        ensures paragraphs { result.paragraphs ≡ self.now }
        ensures number { IsParagraphOf (paragraphs_in self.now) place result.number }
    {
        Cursor::at(&self.blocks, find_at(&self.blocks, self.near, place))
    }

    /// The number of the paragraph in which a place stands: of the last one that begins at it or before.
    /// Cost: O(d / 32 + 64) of the d paragraphs between it and where the buffer is.
    pub fn paragraph_of(&self, place: usize) -> usize
        requires { place ≤ length (text_in self.now) }
        ensures { IsParagraphOf (paragraphs_in self.now) place result }
    {
        find_at(&self.blocks, self.near, place).number
    }

    /// What is kept of a paragraph, or nothing.
    /// Cost: O(d / 32 + 64) of the d paragraphs between it and where the buffer is.
    pub fn kept(&self, number: usize) -> Option<&K>
        requires { number < length self.now }
        ensures { slice_get (kept_in self.now) number ≡ Some (option_copied result) }
    {
        let before = block_near(&self.blocks, self.near, number);
        self.blocks[before.block].pieces[number - before.paragraphs]
            .kept
            .as_ref()
    }

    /// Keeps a value beside a paragraph, until an edit makes it anew or another takes its place.
    /// Cost: O(d / 32 + 64) of the d paragraphs between it and where the buffer is.
    pub fn keep(&mut self, number: usize, value: K)
        requires { number < length self.old }
        ensures paragraphs { paragraphs_in self.new ≡ paragraphs_in self.old }
        ensures kept { kept_in self.new ≡ slice_set (kept_in self.old) number (Some value) }
    {
        let before = block_near(&self.blocks, self.near, number);
        self.blocks[before.block].keep(number - before.paragraphs, value);
    }

    /// Drops what is kept of all paragraphs but those from one number up to another.
    /// Cost: O(n / 32) of the paragraphs, and O(64) for each block of at most 64 of which something is kept.
    pub fn forget_but(&mut self, from: usize, to: usize)
        requires { from ≤ to }
        ensures paragraphs { paragraphs_in self.new ≡ paragraphs_in self.old }
        ensures kept { kept_in self.new ≡ kept_but from to (kept_in self.old) }
    {
        self.forget_in_turn(from, to, 1, 0);
    }

    /// Drops what is kept of each paragraph whose number leaves `turn` when it is divided by `step`, but of none from one number
    /// up to another.
    /// Cost: that of `forget_but`.
    pub fn forget_in_turn(&mut self, from: usize, to: usize, step: usize, turn: usize)
        requires { 0 < step }
        ensures paragraphs { paragraphs_in self.new ≡ paragraphs_in self.old }
        ensures kept { kept_in self.new ≡ left_of (record { from = from; to = to; step = step; turn = turn }) 0 (kept_in self.old) }
    {
        let spared = Spared {
            from,
            to,
            step,
            turn,
        };
        forget_but(&mut self.blocks, spared);
    }

    /// Puts a text in the place of the code points from one place up to another, and answers which paragraphs it made anew; of
    /// these nothing is kept, and of the others what was. After a fault all is as it was: `TooLong` where the text would have
    /// more than 4,000,000 bytes.
    /// Cost: O(d / 32 + 64) of the d paragraphs between it and where the buffer is, and O(m) of those that it
    /// touches and of the text put in; memory for their text.
    pub fn edit(
        &mut self,
        tables: &Tables,
        from: usize,
        to: usize,
        text: &str,
    ) -> Result<Touched, BufferFault>
        requires split { IsSplit tables.now (paragraphs_in self.old) }
        requires order { from ≤ to }
        requires within { to ≤ length (text_in self.old) }
        ensures text { OnOk result (text_in self.new ≡ replaced (text_in self.old) from to (code_points text.now)) }
        ensures split { OnOk result (IsSplit tables.now (paragraphs_in self.new)) }
        ensures touched { IfOk result (λ touched. IsTouched self.old from to touched self.new) }
        ensures unchanged { OnErr result (self.new ≡ self.old) }
        ensures too_long { (result ≡ Err TooLong) ↔ (4_000_000 < bytes_in (replaced (text_in self.old) from to (code_points text.now))) }
    {
        let plan = plan_edit(
            self.alloc,
            tables,
            &self.blocks,
            self.near,
            self.bytes,
            from,
            to,
            text,
        )?;
        // The blocks before this one stay, whether the change is made or not.
        self.near = at_or_in_front(&self.blocks, plan.stretch.block);
        let touched = change(
            self.alloc,
            tables,
            &mut self.blocks,
            self.paragraphs,
            plan.stretch,
            plan.one,
        )?;
        let more = text.chars().count();
        self.bytes = plan.bytes;
        self.places = self.places - (to - from) + more;
        self.paragraphs = self.paragraphs - touched.old + touched.new;
        Ok(touched)
    }

    /// Puts a character at a place, as `edit` does.
    /// Cost: O(d / 32 + 64) of the d paragraphs between it and where the buffer is, and O(m) of the one at the
    /// place and those it joins; memory for their text.
    pub fn put(&mut self, tables: &Tables, place: usize, ch: char) -> Result<Touched, BufferFault>
        requires split { IsSplit tables.now (paragraphs_in self.old) }
        requires place { place ≤ length (text_in self.old) }
        ensures text { OnOk result (text_in self.new ≡ insert (text_in self.old) place ch) }
        ensures split { OnOk result (IsSplit tables.now (paragraphs_in self.new)) }
        ensures touched { IfOk result (λ touched. IsTouched self.old place place touched self.new) }
        ensures unchanged { OnErr result (self.new ≡ self.old) }
        ensures too_long { (result ≡ Err TooLong) ↔ (4_000_000 < bytes_in (insert (text_in self.old) place ch)) }
    {
        let mut bytes = [0; 4];
        self.edit(tables, place, place, ch.encode_utf8(&mut bytes))
    }

    /// Erases the character at a place, as `edit` does. The fault is `Memory`.
    /// Cost: O(d / 32 + 64) of the d paragraphs between it and where the buffer is, and O(m) of the one at the
    /// place and those it joins; memory for their text.
    pub fn cut(&mut self, tables: &Tables, place: usize) -> Result<Touched, BufferFault>
        requires split { IsSplit tables.now (paragraphs_in self.old) }
        requires place { place < length (text_in self.old) }
        ensures text { OnOk result (text_in self.new ≡ remove (text_in self.old) place) }
        ensures split { OnOk result (IsSplit tables.now (paragraphs_in self.new)) }
        ensures touched { IfOk result (λ touched. IsTouched self.old place (place + 1) touched self.new) }
        ensures unchanged { OnErr result (self.new ≡ self.old) }
        ensures fits { result ≡ Err TooLong → ⊥ }
    {
        // The text that is there has no more bytes than it may.
        let _bytes = self.bytes;
        self.edit(tables, place, place + 1, "")
    }

    /// Makes a change, as `edit` does.
    /// Cost: that of `put` or `cut`, memory as they take it.
    pub fn apply(&mut self, tables: &Tables, change: &Change) -> Result<Touched, BufferFault>
        requires split { IsSplit tables.now (paragraphs_in self.old) }
        requires place { IsInRange (text_in self.old) change.now }
        ensures text { OnOk result (text_in self.new ≡ changed (text_in self.old) change.now) }
        ensures split { OnOk result (IsSplit tables.now (paragraphs_in self.new)) }
        ensures touched { IfOk result (λ touched. IsTouched self.old (place_of change.now) (end_of change.now) touched self.new) }
        ensures unchanged { OnErr result (self.new ≡ self.old) }
        ensures too_long { (result ≡ Err TooLong) ↔ (4_000_000 < bytes_in (changed (text_in self.old) change.now)) }
    {
        // The text that is there has no more bytes than it may.
        let _bytes = self.bytes;
        match *change {
            Change::Put { place, ch } => self.put(tables, place, ch),
            Change::Cut { place } => self.cut(tables, place),
        }
    }

    /// Whether each of these changes is in range when its turn comes.
    /// Cost: O(k) of the changes.
    pub fn may_apply(&self, changes: &[Change]) -> bool
        ensures { IsTrue result ↔ AreInRange (text_in self.now) changes.now }
    {
        are_in_range(self.places, changes)
    }

    /// Makes changes in turn, as `apply` does. Characters that are cut at one place, and others that are put there behind one
    /// another, are one edit together, which splits the paragraphs that they meet once. After a fault those before that edit
    /// stand, so many as it tells.
    /// Cost: that of `edit` for each run of characters that are cut at one place and of others that are put there;
    /// memory as it takes it.
    pub fn apply_all(&mut self, tables: &Tables, changes: &[Change]) -> Result<(), Stopped>
        requires split { IsSplit tables.now (paragraphs_in self.old) }
        requires places { AreInRange (text_in self.old) changes.now }
        ensures text { OnOk result (text_in self.new ≡ all_changed (text_in self.old) changes.now) }
        ensures split { IsSplit tables.now (paragraphs_in self.new) }
        ensures touched { OnOk result (AreTouched self.old changes.now self.new) }
        ensures stopped { IfErr result (λ s. s.made < length changes.now) }
        ensures made { IfErr result (λ s. text_in self.new ≡ all_changed (text_in self.old) (take s.made changes.now)) }
        ensures made_touched { IfErr result (λ s. AreTouched self.old (take s.made changes.now) self.new) }
        ensures too_long { IfErr result (λ s. s.fault ≡ TooLong → (count : ℕ) × (s.made < count) × (count ≤ length changes.now)
            × (4_000_000 < bytes_in (all_changed (text_in self.old) (take count changes.now)))) }
    {
        let mut made = 0;
        while made < changes.len() {
            match self.apply_run(tables, &changes[made..]) {
                Ok(count) => made += count,
                Err(fault) => return Err(Stopped { made, fault }),
            }
        }
        Ok(())
    }

    /// Makes the first run of some changes, and answers how many these are.
    fn apply_run(&mut self, tables: &Tables, changes: &[Change]) -> Result<usize, BufferFault>
        requires some { 0 < length changes.now }
        requires split { IsSplit tables.now (paragraphs_in self.old) }
        requires places { AreInRange (text_in self.old) changes.now }
        ensures some { IfOk result (λ count. 0 < count) }
        ensures within { IfOk result (λ count. count ≤ length changes.now) }
        ensures text { IfOk result (λ count. text_in self.new ≡ all_changed (text_in self.old) (take count changes.now)) }
        ensures places { IfOk result (λ count. AreInRange (text_in self.new) (drop count changes.now)) }
        ensures split { OnOk result (IsSplit tables.now (paragraphs_in self.new)) }
        ensures touched { IfOk result (λ count. IsStepOf self.old (take count changes.now) (drop count changes.now) self.new) }
        ensures unchanged { OnErr result (self.new ≡ self.old) }
        ensures too_long { result ≡ Err TooLong → (count : ℕ) × (0 < count) × (count ≤ length changes.now)
            × (4_000_000 < bytes_in (all_changed (text_in self.old) (take count changes.now))) }
    {
        let first = first_run(self.alloc, changes)?;
        self.edit(tables, first.from, first.to, &first.text)?;
        Ok(first.count)
    }
}

impl<K: Weighed + Drop> Buffer<K> {
    /// How much all that is kept weighs.
    /// Cost: O(n / 32) of the paragraphs, and O(64) for each block of at most 64 of which something is kept.
    pub fn kept_weight(&self) -> usize
        requires { kept_weight K.weight self.now ≤ 2_000_000_000_000_000 }
        ensures { result ≡ kept_weight K.weight self.now }
    {
        of_blocks(&self.blocks)
    }
}

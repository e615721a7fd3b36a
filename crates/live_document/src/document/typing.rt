//! Keystrokes: one character is typed, or erased.

ghost use Rattle.std.specs.Prelude.{◌≡◌, ◌≤◌, ◌<◌, ◌+◌, length, OnOk, OnErr, IfOk, IfErr};
ghost use Rattle.bg_types.specs.OperationSet.{size, with_operation};
ghost use Rattle.bg_types.specs.WellFormed.{IsWellFormed};
ghost use Rattle.rga_tree.specs.TextOf.{visible};
ghost use Rattle.desk_replica.specs.Typing.{typed, insertion, IsTypedAt, IsErasedAt, IsTypeRefusal, IsTypeRefused};
ghost use Rattle.desk_replica.specs.declared.answer.TypeFault.{TypeFault as Untyped};
ghost use Rattle.live_document.specs.Cost.{KeepsOthers};
ghost use Rattle.live_document.specs.Documents.{IsDrawnAlike};
ghost use Rattle.live_document.specs.Showing.{no_window};

use super::Document;
use crate::following::{follow, follow_typed};
use crate::shown::Shown;
use bg_types::Op;
use desk_replica::TypeFault;

impl Document {
    /// Types a character at a place, as the desk's `type_char` does. Then nothing is shown.
    /// Cost: that of `Replica::type_char`, and of `Buffer::put`; memory that must be there as `Replica::type_char` asks
    /// for it.
    pub fn type_char(&mut self, place: usize, ch: char) -> Result<Op, TypeFault>
        requires { place ≤ length (visible self.old.desk.set) }
        ensures op { IfOk result (λ op. op ≡ insertion (typed self.old.desk.set self.old.desk.site place ch)) }
        ensures well_formed { IfOk result IsWellFormed }
        ensures accepted { OnOk result ((fault : Untyped) → ¬ (IsTypeRefusal self.old.desk.set fault)) }
        ensures ok { OnOk result (self.new.desk.set ≡ with_operation self.old.desk.set (insertion (typed self.old.desk.set self.old.desk.site place ch))) }
        ensures typed { OnOk result (IsTypedAt self.old.desk.set self.new.desk.set place (typed self.old.desk.set self.old.desk.site place ch)) }
        ensures fault { IfErr result (IsTypeRefused self.old.desk.set) }
        ensures err { OnErr result (self.new ≡ self.old) }
        ensures site { self.new.desk.site ≡ self.old.desk.site }
        ensures spare { size self.old.desk.set + self.old.desk.spare ≤ size self.new.desk.set + self.new.desk.spare }
        ensures unpaid { IfErr result (λ fault. fault ≡ TypeFault.Memory → self.old.desk.spare ≡ 0) }
        ensures drawn { IsDrawnAlike self.old self.new }
        ensures window { OnOk result (self.new.window ≡ no_window) }
        ensures kept { OnOk result (KeepsOthers self.old self.new place place) }
        ensures laid { self.new.laid ≡ self.old.laid }
    {
        let op = self.desk.type_char(place, ch)?;
        self.behind = follow_typed(&self.tables, &mut self.buffer, self.behind, place, ch);
        self.shown = Shown::NOTHING;
        Ok(op)
    }

    /// Erases the visible character at a place, as the desk's `erase_at` does; the only fault is `Full`. Then nothing is
    /// shown.
    /// Cost: that of `Replica::erase_at`, and of `Buffer::edit`.
    pub fn erase_at(&mut self, place: usize) -> Result<Op, TypeFault>
        requires { place < length (visible self.old.desk.set) }
        ensures op { IfOk result (λ op. IsErasedAt self.old.desk.set self.new.desk.set place op) }
        ensures accepted { OnOk result (size self.old.desk.set < 1_000_000) }
        ensures fault { IfErr result (λ fault. (fault ≡ TypeFault.Full) × (size self.old.desk.set ≡ 1_000_000)) }
        ensures err { OnErr result (self.new ≡ self.old) }
        ensures site { self.new.desk.site ≡ self.old.desk.site }
        ensures spare { size self.old.desk.set + self.old.desk.spare ≤ size self.new.desk.set + self.new.desk.spare }
        ensures drawn { IsDrawnAlike self.old self.new }
        ensures window { OnOk result (self.new.window ≡ no_window) }
        ensures kept { OnOk result (KeepsOthers self.old self.new place (place + 1)) }
        ensures laid { self.new.laid ≡ self.old.laid }
    {
        // A place before the text's end has one behind it.
        let _end = self.desk.len();
        let op = self.desk.erase_at(place)?;
        self.behind = follow(
            &self.tables,
            &mut self.buffer,
            self.behind,
            place,
            place + 1,
            "",
        );
        self.shown = Shown::NOTHING;
        Ok(op)
    }
}

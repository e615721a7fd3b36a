//! Typing, erasing and replacing a number of characters at once.

ghost use Rattle.std.specs.Prelude.{◌≡◌, ◌≤◌, ◌<◌, ◌+◌, ◌-◌, ◌^◌, ◌++◌, take, drop, length, All, OnOk, OnErr, IfErr, IsOk, vec_len, vec_capacity};
ghost use Rattle.std.specs.Str.{chars};
ghost use Rattle.bg_types.specs.OperationSet.{size, next};
ghost use Rattle.bg_types.specs.WellFormed.{IsWellFormed};
ghost use Rattle.rga_tree.specs.TextOf.{text, visible};
ghost use Rattle.desk_replica.specs.Merging.{with_operations};
ghost use Rattle.desk_replica.specs.Replacement.{typed_text, deletions, replacement, IsTextRefusal, IsTextRefused, IsRangeRefused, IsReplaceRefusal, IsReplaceRefused};
ghost use Rattle.desk_replica.specs.declared.answer.TypeFault.{TypeFault as Untyped};

use super::{MOST_OPERATIONS, Replica};
use crate::answer::TypeFault;
use crate::stretching::{erase_stretch, pay_for_typed, type_behind};
use bg_types::{Memory, Op};
use rga_tree::Sequence;

impl<S: Sequence> Replica<S> {
    /// Types characters at a place, each behind the one before, as that many `type_char` do, and appends the
    /// operations that this makes to `made`. A fault changes nothing, `made` included. While as many are spare as
    /// there are characters, and `made` has room for them, the fault is not `Memory`.
    /// Cost: `id_at` once, then a `Sequence::place_run`; memory for the characters and for their operations, none where
    /// both are there.
    pub fn type_text(
        &mut self,
        place: usize,
        characters: &str,
        made: &mut Vec<Op>,
    ) -> Result<(), TypeFault>
        requires { place ≤ length (visible self.old.set) }
        ensures made { OnOk result (made.new.items ≡ made.old.items ++ typed_text self.old.set self.old.site place (chars characters.now)) }
        ensures well_formed { OnOk result (All IsWellFormed (typed_text self.old.set self.old.site place (chars characters.now))) }
        ensures ok { OnOk result (self.new.set ≡ with_operations self.old.set (typed_text self.old.set self.old.site place (chars characters.now))) }
        ensures typed { OnOk result (text self.new.set ≡ take place (text self.old.set) ++ (chars characters.now ++ drop place (text self.old.set))) }
        ensures accepted { OnOk result ((fault : Untyped) → ¬ (IsTextRefusal self.old.set (length (chars characters.now)) fault)) }
        ensures fault { IfErr result (IsTextRefused self.old.set (length (chars characters.now))) }
        ensures err { OnErr result (self.new ≡ self.old) }
        ensures unmade { OnErr result (made.new.items ≡ made.old.items) }
        ensures site { self.new.site ≡ self.old.site }
        ensures spare { size self.old.set + self.old.spare ≤ size self.new.set + self.new.spare }
        ensures unpaid { vec_len made.old + length (chars characters.now) ≤ vec_capacity made.old
            → IfErr result (λ fault. fault ≡ TypeFault.Memory → self.old.spare < length (chars characters.now)) }
    {
        self.replace(place, place, characters, made)
    }

    /// Erases the visible characters from one place up to another, as that many `erase_at` do, and appends the
    /// deletions to `made`. A fault changes nothing, `made` included. While `made` has room for them, the fault is not
    /// `Memory`.
    /// Cost: `Sequence::spot_at` once, a walk over the elements between, then a `Sequence::hide` for each
    /// character; memory for the operations alone, none where it is there.
    pub fn erase_range(
        &mut self,
        from: usize,
        to: usize,
        made: &mut Vec<Op>,
    ) -> Result<(), TypeFault>
        requires order { from ≤ to }
        requires within { to ≤ length (visible self.old.set) }
        ensures made { OnOk result (made.new.items ≡ made.old.items ++ deletions self.old.set from (to - from)) }
        ensures ok { OnOk result (self.new.set ≡ with_operations self.old.set (deletions self.old.set from (to - from))) }
        ensures erased { OnOk result (text self.new.set ≡ take from (text self.old.set) ++ drop to (text self.old.set)) }
        ensures visible { OnOk result (visible self.new.set ≡ take from (visible self.old.set) ++ drop to (visible self.old.set)) }
        ensures counter { OnOk result (next self.new.set ≡ next self.old.set) }
        ensures size { OnOk result (size self.new.set ≡ size self.old.set + (to - from)) }
        ensures accepted { OnOk result (size self.old.set + (to - from) ≤ 1_000_000) }
        ensures fault { IfErr result (IsRangeRefused self.old.set (to - from)) }
        ensures err { OnErr result (self.new ≡ self.old) }
        ensures unmade { OnErr result (made.new.items ≡ made.old.items) }
        ensures site { self.new.site ≡ self.old.site }
        ensures spare { size self.old.set + self.old.spare ≤ size self.new.set + self.new.spare }
        ensures unpaid { vec_len made.old + (to - from) ≤ vec_capacity made.old → IfErr result (λ fault. fault ≡ TypeFault.Full) }
    {
        // Reading the count shows the proof that the set is well formed.
        let _count = self.op_count();
        self.replace(from, to, "", made)
    }

    /// Erases the visible characters from one place up to another and types others where they began, as `erase_range` and
    /// then `type_text` do, and appends the deletions and then the insertions to `made`. It is one step: a fault changes
    /// nothing, `made` included. While as many are spare as characters are typed, and `made` has room for all operations,
    /// the fault is not `Memory`.
    /// Cost: an `erase_range`, then a `type_text`; memory as theirs together.
    pub fn replace(
        &mut self,
        from: usize,
        to: usize,
        characters: &str,
        made: &mut Vec<Op>,
    ) -> Result<(), TypeFault>
        requires order { from ≤ to }
        requires within { to ≤ length (visible self.old.set) }
        ensures made { OnOk result (made.new.items ≡ made.old.items ++ replacement self.old.set self.old.site from (to - from) (chars characters.now)) }
        ensures well_formed { OnOk result (All IsWellFormed (replacement self.old.set self.old.site from (to - from) (chars characters.now))) }
        ensures ok { OnOk result (self.new.set ≡ with_operations self.old.set (replacement self.old.set self.old.site from (to - from) (chars characters.now))) }
        ensures replaced { OnOk result (text self.new.set ≡ take from (text self.old.set) ++ (chars characters.now ++ drop to (text self.old.set))) }
        ensures counter { OnOk result (next self.new.set ≡ next self.old.set + length (chars characters.now)) }
        ensures size { OnOk result (size self.new.set ≡ size self.old.set + ((to - from) + length (chars characters.now))) }
        ensures accepted { OnOk result ((fault : Untyped) → ¬ (IsReplaceRefusal self.old.set (to - from) (length (chars characters.now)) fault)) }
        ensures fault { IfErr result (IsReplaceRefused self.old.set (to - from) (length (chars characters.now))) }
        ensures err { OnErr result (self.new ≡ self.old) }
        ensures unmade { OnErr result (made.new.items ≡ made.old.items) }
        ensures site { self.new.site ≡ self.old.site }
        ensures spare { size self.old.set + self.old.spare ≤ size self.new.set + self.new.spare }
        ensures unpaid { vec_len made.old + ((to - from) + length (chars characters.now)) ≤ vec_capacity made.old
            → IfErr result (λ fault. fault ≡ TypeFault.Memory → self.old.spare < length (chars characters.now)) }
    {
        let erased = to - from;
        let typed = code_points(characters);
        if typed > (u32::MAX - self.greatest) as usize {
            return Err(TypeFault::CounterSpent);
        }
        let room = (MOST_OPERATIONS - self.kept) as usize;
        if erased > room || typed > room - erased {
            return Err(TypeFault::Full);
        }
        match self.exchange(from, erased, characters, typed, made) {
            Ok(()) => Ok(()),
            Err(Memory) => Err(TypeFault::Memory),
        }
    }

    /// Erases a number of visible characters from a place on, and types that many others there: all is paid for before the
    /// first change. After `Memory` all is as it was.
    fn exchange(
        &mut self,
        from: usize,
        erased: usize,
        characters: &str,
        typed: usize,
        made: &mut Vec<Op>,
    ) -> Result<(), Memory>
        requires within { from + erased ≤ length (visible self.old.set) }
        requires typed { typed ≡ length (chars characters.now) }
        requires counters { next self.old.set + typed ≤ 2 ^ 32 }
        requires room { size self.old.set + (erased + typed) ≤ 1_000_000 }
        ensures made { OnOk result (made.new.items ≡ made.old.items ++ replacement self.old.set self.old.site from erased (chars characters.now)) }
        ensures well_formed { OnOk result (All IsWellFormed (replacement self.old.set self.old.site from erased (chars characters.now))) }
        ensures set { OnOk result (self.new.set ≡ with_operations self.old.set (replacement self.old.set self.old.site from erased (chars characters.now))) }
        ensures err { OnErr result (self.new ≡ self.old) }
        ensures unmade { OnErr result (made.new.items ≡ made.old.items) }
        ensures site { self.new.site ≡ self.old.site }
        ensures spare { self.old.spare ≤ self.new.spare + typed }
        ensures enough { vec_len made.old + (erased + typed) ≤ vec_capacity made.old → typed ≤ self.old.spare → IsOk result }
    {
        let parent = self.parent_for(from);
        made.reserve(erased + typed)?;
        pay_for_typed(&mut self.seq, &self.held, &mut self.spare, typed)?;
        erase_stretch(&mut self.seq, from, erased, made);
        type_behind(
            &mut self.seq,
            self.site,
            self.greatest,
            parent,
            characters,
            made,
        );
        self.kept += (erased + typed) as u32;
        self.greatest += typed as u32;
        Ok(())
    }
}

/// How many code points a text has.
fn code_points(text: &str) -> usize
    ensures { result ≡ length (chars text.now) }
{
    text.chars().count()
}

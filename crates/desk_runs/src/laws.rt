//! Laws of the definitions: each function's contract is the law, and its body is empty or calls the laws
//! that the proof rests on.

ghost use Rattle.std.specs.Prelude.{◌≡◌, ◌<◌, ◌+◌, ℕ, Bool, List, [], ◌∷◌, ◌++◌, Option, Some, Result, All, Contains, length, map as each, slice_get};
ghost use Rattle.std.specs.Str.{chars};
ghost use Rattle.bg_types.specs.Identifier.{Identifier};
ghost use Rattle.bg_types.specs.OperationSet.{OperationSet, Holds, named_counters};
ghost use Rattle.bg_types.specs.declared.op.Place.{Place};
ghost use Rattle.bg_types.specs.declared.op.OpView.{OpView};
ghost use Rattle.bg_types.specs.declared.op.OpView.TheVariants.{Insert};
ghost use Rattle.op_codec.specs.declared.position.Version.{Version};
ghost use Rattle.rga_tree.specs.TextOf.{text};
ghost use Rattle.desk_replica.specs.Desk.{fresh};
ghost use Rattle.desk_replica.specs.DeskSets.{sets_of, empty_desks};
ghost use Rattle.desk_files.specs.declared.run_fault.RunFault.{RunFault};
ghost use Rattle.desk_files.specs.Files.{IsSetOfFiles};
ghost use Rattle.desk_files.specs.Readers.{IsFileOutcome};
ghost use Rattle.desk_runs.specs.Desks.{fresh_desks};
ghost use Rattle.desk_runs.specs.ReplayOutcome.{Given, IsCut, IsReplayOutcome, IsReplayOutcomeOver, IsReplayDecided};
ghost use Rattle.desk_runs.specs.CaretsOutcome.{Asked, IsCut as IsWalkCut, IsCaretsOutcome, IsCaretsOutcomeOver, IsCaretsDecided};
ghost use Rattle.desk_runs.specs.declared.change.Change.{Change};
ghost use Rattle.desk_runs.specs.Changing.{replaced, place_in, operations_of};
ghost use Rattle.desk_runs.specs.TypedOutcome.{IsTypedFile};
ghost use Rattle.desk_runs.specs.SameFiles.{HaveSameFiles, ReadAs};

use desk_files::laws as files;
use desk_replica::laws as desks;
use op_codec::laws as codec;

/// In a run, desk k, from 1, has site k, and all desks begin with nothing.
pub fn desks_of_a_run()
    ensures count { (count : ℕ) → length (fresh_desks count) ≡ count }
    ensures desk { (count k : ℕ) → k < count → slice_get (fresh_desks count) k ≡ Some (fresh (k + 1)) }
    ensures empty { (count : ℕ) → sets_of (fresh_desks count) ≡ empty_desks count }
{}

/// Where readers give their bytes, a run of `replay` over them has an outcome of one over files of these bytes,
/// or a reader has failed: number n, from 1, and no other, while the data files were right.
pub fn readers_tell_files()
    ensures { (files : List (List ℕ)) (left : List (Option (List ℕ))) (lost : List Bool) (gives : List (List ℕ) → Given) (old new : Option (List ℕ)) (failed : Bool) (result : Result (Unit {0}) RunFault)
        → IsReplayOutcomeOver (each Some files) left lost gives old new failed result → IsFileOutcome lost (IsCut gives old new failed) (IsReplayOutcome (gives files) old new failed) result }
{}

/// A run of `replay` has the answer of its data, unless memory runs out or a write fails.
pub fn replay_is_decided()
    ensures { (g : Given) (old new : Option (List ℕ)) (failed : Bool) (result : Result (Unit {0}) RunFault)
        → IsReplayOutcome g old new failed result → IsReplayDecided g old new failed result }
{
    files::one_outcome();
    files::scheduled_or_faulty();
    desks::one_refusal();
}

/// Where readers give their bytes, a run of `carets` over them has an outcome of one over files of these bytes,
/// or a reader has failed: number n, from 1, and no other, while the data files were right.
pub fn readers_tell_walked_files()
    ensures { (files : List (List ℕ)) (left : List (Option (List ℕ))) (lost : List Bool) (asks : List (List ℕ) → Asked) (old new : Option (List ℕ)) (failed : Bool) (result : Result (Unit {0}) RunFault)
        → IsCaretsOutcomeOver (each Some files) left lost asks old new failed result → IsFileOutcome lost (IsWalkCut asks old new failed) (IsCaretsOutcome (asks files) old new failed) result }
{}

/// A run of `carets` has the answer of its data, unless memory runs out or a write fails.
pub fn carets_are_decided()
    ensures { (a : Asked) (old new : Option (List ℕ)) (failed : Bool) (result : Result (Unit {0}) RunFault)
        → IsCaretsOutcome a old new failed result → IsCaretsDecided a old new failed result }
{
    files::one_outcome();
}

/// The files and the file of a change together read as the text of the files with the erased
/// characters replaced by the typed ones, in whichever version it is written, in whatever order and
/// however often the files are given.
pub fn typed_text()
    ensures { (version : Version) (files more : List (List ℕ)) (change : Change) (words file : List ℕ) (s : OperationSet)
        → IsTypedFile version files change words file → IsSetOfFiles files s → HaveSameFiles more (files ++ file ∷ [])
        → ReadAs more (replaced (text s) (place_in s change) change.erased (chars words)) }
{
    desks::typed_and_erased();
    codec::one_spelling();
    files::one_outcome();
}

/// What is typed has counters above each one that the files name, as an identifier, a parent or a target,
/// and the site of the change; no two of its insertions share an identifier. So if no insertion of
/// that site is known elsewhere that the files lack, no insertion anywhere has one of their identifiers.
pub fn new_identifiers()
    ensures above { (s : OperationSet) (change : Change) (typed : List ℕ) (id : Identifier) (p : Place) (ch : ℕ)
        → Contains (operations_of s change typed) (Insert id p ch) → (op : OpView) → Holds s op → All (λ c. c < id.counter) (named_counters op) }
    ensures site { (s : OperationSet) (change : Change) (typed : List ℕ) (id : Identifier) (p : Place) (ch : ℕ)
        → Contains (operations_of s change typed) (Insert id p ch) → id.site ≡ change.site }
    ensures once { (s : OperationSet) (change : Change) (typed : List ℕ) (i j : ℕ) (id : Identifier) (p q : Place) (a b : ℕ)
        → slice_get (operations_of s change typed) i ≡ Some (Insert id p a)
        → slice_get (operations_of s change typed) j ≡ Some (Insert id q b) → i ≡ j }
    ensures apart { (s : OperationSet) (change : Change) (typed : List ℕ) (all : OperationSet)
        → ((id : Identifier) (p : Place) (ch : ℕ) → Holds all (Insert id p ch) → id.site ≡ change.site → Holds s (Insert id p ch))
        → (id : Identifier) (p q : Place) (a b : ℕ)
        → Contains (operations_of s change typed) (Insert id p a) → Holds all (Insert id q b) → ⊥ }
{}

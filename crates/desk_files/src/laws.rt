//! Laws of the definitions: each function's contract is the law, and its body is empty or calls the laws
//! that the proof stands on.

ghost use Rattle.std.specs.Prelude.{◌≡◌, ◌⊎◌, Bool, ℕ, List, Option, Some, Result, map as each};
ghost use Rattle.bg_types.specs.declared.op.OpView.{OpView};
ghost use Rattle.desk_files.specs.declared.run_fault.RunFault.{RunFault};
ghost use Rattle.desk_files.specs.declared.schedule.step.Numbered.{Numbered};
ghost use Rattle.desk_files.specs.declared.schedule_fault.ScheduleFault.{ScheduleFault};
ghost use Rattle.desk_files.specs.Schedule.{Schedules, IsFaultyStep};
ghost use Rattle.desk_files.specs.OneOutcome.{HaveOneOutcome};
ghost use Rattle.desk_files.specs.Readers.{IsFileOutcome};
ghost use Rattle.desk_files.specs.Written.{IsSilent};
ghost use Rattle.desk_files.specs.TextOutcome.{IsTextOutcome, IsTextOutcomeOver, IsTextDecided};

use crate::schedule_fault::ScheduleFault;
use desk_replica::laws as desks;
use op_codec::laws as codec;
use op_listing::laws as lines;

/// Operation files have one outcome: the set of their operations, the first faulty one, or the first
/// refusal of a desk that takes their operations in order.
pub fn one_outcome()
    ensures { (files : List (List ℕ)) → HaveOneOutcome files }
{
    desks::one_set();
    desks::one_refusal();
    desks::none_refused();
    codec::one_spelling();
    codec::spelled_or_faulty();
}

/// Where readers give their bytes, a run over them has an outcome of a run over files of these bytes,
/// or a reader has failed: number n, from 1, and no other.
pub fn readers_tell_files()
    ensures { (files : List (List ℕ)) (left : List (Option (List ℕ))) (lost : List Bool) (old new : Option (List ℕ)) (failed : Bool) (result : Result (Unit {0}) RunFault)
        → IsTextOutcomeOver (each Some files) left lost old new failed result → IsFileOutcome lost (IsSilent old new failed) (IsTextOutcome files old new failed) result }
{}

/// A run of `text` has the answer of its files, unless memory runs out or a write fails.
pub fn text_is_decided()
    ensures { (files : List (List ℕ)) (old new : Option (List ℕ)) (failed : Bool) (result : Result (Unit {0}) RunFault)
        → IsTextOutcome files old new failed result → IsTextDecided files old new failed result }
{
    one_outcome();
}

/// In a run over files of these operations, a schedule says one list of steps or has one first faulty
/// line, never both.
pub fn scheduled_or_faulty()
    ensures either { (files : List (List OpView)) (bytes : List ℕ)
        → ((steps : List Numbered) × Schedules files bytes steps) ⊎ ((n : ℕ) × (fault : ScheduleFault) × IsFaultyStep files bytes n fault) }
    ensures one_list { (files : List (List OpView)) (bytes : List ℕ) (a b : List Numbered)
        → Schedules files bytes a → Schedules files bytes b → a ≡ b }
    ensures never_both { (files : List (List OpView)) (bytes : List ℕ) (steps : List Numbered) (n : ℕ) (fault : ScheduleFault)
        → Schedules files bytes steps → IsFaultyStep files bytes n fault → ⊥ }
    ensures one_fault { (files : List (List OpView)) (bytes : List ℕ) (m n : ℕ) (f g : ScheduleFault)
        → IsFaultyStep files bytes m f → IsFaultyStep files bytes n g → (m ≡ n) × (f ≡ g) }
{
    lines::first_fault::<ScheduleFault>();
}

//! Laws of the definitions: each function's contract is the law, and its body is empty.

ghost use Rattle.std.specs.Prelude.{◌≡◌, ◌≢◌, ◌<◌, ◌≤◌, ◌⊎◌, ◌↔◌, ◌++◌, ℕ, List, [], length, All, None, Ok, Err};
ghost use Rattle.std.specs.List.{AllByRecursion};
ghost use Rattle.bg_types.specs.WellFormed.{IsWellFormed};
ghost use Rattle.bg_types.specs.declared.op.OpView.{OpView};
ghost use Rattle.op_codec.specs.declared.fault.Cause.{Cause};
ghost use Rattle.op_codec.specs.declared.fault.Cause.TheVariants.{Truncated};
ghost use Rattle.op_codec.specs.declared.fault.CodecFault.TheVariants.{Malformed, Memory};
ghost use Rattle.op_codec.specs.declared.position.Version.{Version};
ghost use Rattle.op_codec.specs.declared.position.Version.TheVariants.{One, Two};
ghost use Rattle.op_codec.specs.Spelling.{spelling_in, Spells, SpellsIn};
ghost use Rattle.op_codec.specs.Fault.{IsFault};
ghost use Rattle.op_codec.specs.Feed.{IsWhole, IsSound, IsLasting, IsFed, IsFeedOutcome};
ghost use Rattle.op_codec.specs.Migration.{IsMigration, AreApart};

/// Bytes spell at most one list of operations, and a list of well-formed operations has exactly
/// one spelling in each version.
pub fn one_spelling()
    ensures one_list { (file : List ℕ) (a b : List OpView) → Spells file a → Spells file b → a ≡ b }
    ensures one_file { (version : Version) (a b : List ℕ) (ops : List OpView) → SpellsIn version a ops → SpellsIn version b ops → a ≡ b }
    ensures some_file { (version : Version) (ops : List OpView) → AllByRecursion IsWellFormed ops → (file : List ℕ) × SpellsIn version file ops }
{}

/// Bytes spell a list of operations or have a first fault, never both, and never two faults.
pub fn spelled_or_faulty()
    ensures either { (bytes : List ℕ) → All (λ byte. byte < 256) bytes
        → ((ops : List OpView) × Spells bytes ops) ⊎ ((frame : ℕ) × (cause : Cause) × IsFault bytes frame cause) }
    ensures never_both { (bytes : List ℕ) (ops : List OpView) (frame : ℕ) (cause : Cause)
        → Spells bytes ops → IsFault bytes frame cause → ⊥ }
    ensures one_fault { (bytes : List ℕ) (m n : ℕ) (c d : Cause)
        → IsFault bytes m c → IsFault bytes n d → (m ≡ n) × (c ≡ d) }
{}

/// What a beginning of the bytes shows, all its continuations show, except a missing byte.
pub fn stable_faults()
    ensures { (bytes more : List ℕ) (frame : ℕ) (cause : Cause)
        → IsFault bytes frame cause → cause ≢ Truncated → IsFault (bytes ++ more) frame cause }
{}

/// What a feed has is what all bytes that it was fed come to, for every list of pieces: `begin` and one
/// of `taken`, `faulty` and `refused` for each piece say so, with the answer by the first fault of all
/// bytes so far; `ops`, `spelled` and `told` say what its operations and its end say of them.
pub fn fed_in_pieces()
    ensures begin { IsFed [] [] }
    ensures taken { (all old piece new : List ℕ) → IsFed all old → IsFeedOutcome old piece new (Ok tt)
        → IsFed (all ++ piece) new × IsSound (all ++ piece) }
    ensures faulty { (all old piece new : List ℕ) (frame : ℕ) (cause : Cause)
        → IsFed all old → IsFeedOutcome old piece new (Err (Malformed frame cause))
        → IsFed (all ++ piece) new × IsLasting (all ++ piece) frame cause }
    ensures refused { (all old piece new : List ℕ) → IsFed all old → IsFeedOutcome old piece new (Err Memory)
        → IsFed all new × IsSound all }
    ensures ops { (all kept : List ℕ) (ops : List OpView) → IsFed all kept → IsWhole kept ops → IsWhole all ops }
    ensures spelled { (all kept : List ℕ) (ops : List OpView) → IsFed all kept → Spells kept ops → Spells all ops }
    ensures shown { (all kept : List ℕ) (frame : ℕ) (cause : Cause) → IsFed all kept → IsFault kept frame cause → IsFault all frame cause }
{}

/// A file and its migration spell the same operations, so nothing that reads operations can
/// distinguish the versions. A file that spells operations has one migration, which is never longer
/// and migrates to itself, as every file of version 2 does.
pub fn migrated_file()
    ensures same { (file migrated : List ℕ) (ops : List OpView) → IsMigration file migrated → Spells file ops ↔ Spells migrated ops }
    ensures one_file { (file a b : List ℕ) → IsMigration file a → IsMigration file b → a ≡ b }
    ensures some_file { (file : List ℕ) (ops : List OpView) → Spells file ops → (migrated : List ℕ) × IsMigration file migrated }
    ensures again { (file migrated : List ℕ) → IsMigration file migrated → IsMigration migrated migrated }
    ensures itself { (file : List ℕ) (ops : List OpView) → SpellsIn Two file ops → IsMigration file file }
    ensures no_longer { (file migrated : List ℕ) → IsMigration file migrated → length migrated ≤ length file }
{}

/// Version 2 is never longer than version 1, and as long exactly where no operation joins the one
/// before it.
pub fn version_two_length()
    ensures no_longer { (ops : List OpView) → length (spelling_in Two ops) ≤ length (spelling_in One ops) }
    ensures as_long { (ops : List OpView) → (length (spelling_in Two ops) ≡ length (spelling_in One ops)) ↔ AreApart None ops }
{}

//! Laws of the definitions: each function's contract is the law, and its body is empty or calls the
//! laws of lower crates that the proof rests on.

ghost use Rattle.std.specs.Prelude.{◌≡◌, ◌+◌, ◌⊎◌, ◌↔◌, ℕ, List, [], ◌∷◌, ◌++◌, true, Bool, Option, Some, None, Result, Err, length, MatchResult};
ghost use Rattle.std.specs.List.{AllByRecursion};
ghost use Rattle.std.specs.Str.Lines.{lines};
ghost use Rattle.std.specs.Io.KnownBytes.{Appends, Keeps};
ghost use Rattle.bg_types.specs.Sink.{AppendsBeginning};
ghost use Rattle.bg_types.specs.WellFormed.{IsWellFormed};
ghost use Rattle.bg_types.specs.declared.op.OpView.{OpView};
ghost use Rattle.op_codec.specs.declared.fault.Cause.{Cause};
ghost use Rattle.op_codec.specs.declared.position.Version.TheVariants.{Two};
ghost use Rattle.op_codec.specs.Spelling.{spelling, spelling_in, Spells};
ghost use Rattle.op_codec.specs.Fault.{IsFault};
ghost use Rattle.op_listing.specs.declared.line_fault.LineFault.{LineFault};
ghost use Rattle.op_listing.specs.declared.file_fault.FileFault.{FileFault as FaultOfFile};
ghost use Rattle.op_listing.specs.declared.file_fault.FileFault.TheVariants as file;
ghost use Rattle.op_listing.specs.declared.listing_fault.ListingFault.{ListingFault as FaultOfListing};
ghost use Rattle.op_listing.specs.declared.listing_fault.ListingFault.TheVariants as listing;
ghost use Rattle.op_listing.specs.FirstFault.{AreFaultless, IsFirstFault, AreRead};
ghost use Rattle.op_listing.specs.Listing.{listing_of};
ghost use Rattle.op_listing.specs.Listed.{Lists, IsFaultyLine};
ghost use Rattle.op_listing.specs.Outcome.{IsDumpOutcome, IsMigrateOutcome, IsPackOutcome};

use op_codec::laws as codec;

/// Of lines, either none has a fault or one is the first with a fault, never both, and never two.
pub fn first_fault<F>()
    ensures either { (fault_of : List ℕ → Option F) (all : List (List ℕ))
        → AreFaultless fault_of all ⊎ ((n : ℕ) × (fault : F) × IsFirstFault fault_of all n fault) }
    ensures never_both { (fault_of : List ℕ → Option F) (all : List (List ℕ)) (n : ℕ) (fault : F)
        → AreFaultless fault_of all → IsFirstFault fault_of all n fault → ⊥ }
    ensures one_fault { (fault_of : List ℕ → Option F) (all : List (List ℕ)) (m n : ℕ) (f g : F)
        → IsFirstFault fault_of all m f → IsFirstFault fault_of all n g → (m ≡ n) × (f ≡ g) }
{}

/// Lines read one after the other, up to the first with a fault or to the end.
pub fn lines_read<F>()
    ensures begin { (fault_of : List ℕ → Option F) (text : List ℕ) → AreRead fault_of text text 0 [] }
    ensures more { (fault_of : List ℕ → Option F) (text rest after line : List ℕ) (number : ℕ) (done : List (List ℕ))
        → AreRead fault_of text rest number done → lines rest ≡ line ∷ lines after → fault_of line ≡ None
        → AreRead fault_of text after (number + 1) (done ++ line ∷ []) }
    ensures faulty { (fault_of : List ℕ → Option F) (text rest after line : List ℕ) (number : ℕ) (done : List (List ℕ)) (fault : F)
        → AreRead fault_of text rest number done → lines rest ≡ line ∷ lines after → fault_of line ≡ Some fault
        → IsFirstFault fault_of (lines text) (number + 1) fault }
    ensures end { (fault_of : List ℕ → Option F) (text rest : List ℕ) (number : ℕ) (done : List (List ℕ))
        → AreRead fault_of text rest number done → length rest ≡ 0 → done ≡ lines text }
{}

/// The listing of well-formed operations lists them. So of what `dump` writes of a file, `pack`
/// reads back the operations that the file spells, and no others.
pub fn listed_again()
    ensures lists { (ops : List OpView) → AllByRecursion IsWellFormed ops → Lists (listing_of ops) ops }
    ensures reads_back { (file : List ℕ) (ops again : List OpView) → Spells file ops → Lists (listing_of ops) again → again ≡ ops }
{}

/// The bytes of a file decide the answer of `dump`, memory aside: a spelled one is written whole, or a
/// beginning of it up to a failed write; of a faulty one the fault is reported. `Device` is answered exactly
/// where the sink has failed.
pub fn dump_outcomes()
    ensures spelled { (bytes : List ℕ) (old new : Option (List ℕ)) (failed : Bool) (result : Result (Unit {0}) FaultOfFile) (ops : List OpView)
        → IsDumpOutcome bytes old new failed result → Spells bytes ops
        → MatchResult result (λ _. Appends old new (listing_of ops))
        (λ fault. ((fault ≡ file.Device) × AppendsBeginning old new (listing_of ops)) ⊎ ((fault ≡ file.Memory) × Keeps old new)) }
    ensures faulty { (bytes : List ℕ) (old new : Option (List ℕ)) (failed : Bool) (result : Result (Unit {0}) FaultOfFile) (frame : ℕ) (cause : Cause)
        → IsDumpOutcome bytes old new failed result → IsFault bytes frame cause
        → ((result ≡ Err (file.Malformed frame cause)) ⊎ (result ≡ Err file.Memory)) × Keeps old new }
    ensures device { (bytes : List ℕ) (old new : Option (List ℕ)) (failed : Bool) (result : Result (Unit {0}) FaultOfFile)
        → IsDumpOutcome bytes old new failed result → (failed ≡ true) ↔ (result ≡ Err file.Device) }
{
    codec::one_spelling();
    codec::spelled_or_faulty();
}

/// The bytes of a file decide the answer of `migrate`, memory aside: what it spells is written whole in
/// version 2, or a beginning of it up to a failed write; of a faulty one the fault is reported. `Device` is
/// answered exactly where the sink has failed.
pub fn migrate_outcomes()
    ensures spelled { (bytes : List ℕ) (old new : Option (List ℕ)) (failed : Bool) (result : Result (Unit {0}) FaultOfFile) (ops : List OpView)
        → IsMigrateOutcome bytes old new failed result → Spells bytes ops
        → MatchResult result (λ _. Appends old new (spelling_in Two ops))
        (λ fault. ((fault ≡ file.Device) × AppendsBeginning old new (spelling_in Two ops)) ⊎ ((fault ≡ file.Memory) × Keeps old new)) }
    ensures faulty { (bytes : List ℕ) (old new : Option (List ℕ)) (failed : Bool) (result : Result (Unit {0}) FaultOfFile) (frame : ℕ) (cause : Cause)
        → IsMigrateOutcome bytes old new failed result → IsFault bytes frame cause
        → ((result ≡ Err (file.Malformed frame cause)) ⊎ (result ≡ Err file.Memory)) × Keeps old new }
    ensures device { (bytes : List ℕ) (old new : Option (List ℕ)) (failed : Bool) (result : Result (Unit {0}) FaultOfFile)
        → IsMigrateOutcome bytes old new failed result → (failed ≡ true) ↔ (result ≡ Err file.Device) }
{
    codec::one_spelling();
    codec::spelled_or_faulty();
}

/// The bytes of a listing decide the answer of `pack`, memory aside: one that lists operations is written
/// whole as their file, or a beginning of it up to a failed write; of a faulty one the first faulty
/// line is reported. `Device` is answered exactly where the sink has failed.
pub fn pack_outcomes()
    ensures listed { (bytes : List ℕ) (old new : Option (List ℕ)) (failed : Bool) (result : Result (Unit {0}) FaultOfListing) (ops : List OpView)
        → IsPackOutcome bytes old new failed result → Lists bytes ops
        → MatchResult result (λ _. Appends old new (spelling ops))
        (λ fault. ((fault ≡ listing.Device) × AppendsBeginning old new (spelling ops)) ⊎ ((fault ≡ listing.Memory) × Keeps old new)) }
    ensures faulty { (bytes : List ℕ) (old new : Option (List ℕ)) (failed : Bool) (result : Result (Unit {0}) FaultOfListing) (line : ℕ) (fault : LineFault)
        → IsPackOutcome bytes old new failed result → IsFaultyLine bytes line fault
        → ((result ≡ Err (listing.Malformed line fault)) ⊎ (result ≡ Err listing.Memory)) × Keeps old new }
    ensures device { (bytes : List ℕ) (old new : Option (List ℕ)) (failed : Bool) (result : Result (Unit {0}) FaultOfListing)
        → IsPackOutcome bytes old new failed result → (failed ≡ true) ↔ (result ≡ Err listing.Device) }
{}

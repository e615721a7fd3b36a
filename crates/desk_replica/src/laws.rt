//! Laws of the definitions: each function's contract is the law, and its body is empty.

ghost use Rattle.std.specs.Prelude.{◌≡◌, ◌≤◌, ◌+◌, ◌↔◌, ◌++◌, ℕ, List, [], ◌∷◌, Some, All, Contains, drop, filter, insert, length, remove, slice_get};
ghost use Rattle.std.specs.declared.cmp.Ordering.TheVariants.{Less};
ghost use Rattle.bg_types.specs.Identifier.{Identifier, id_cmp};
ghost use Rattle.bg_types.specs.OperationSet.{OperationSet, Agree, AllWellFormed, Holds, next, no_operations, size, union, with_operation};
ghost use Rattle.bg_types.specs.WellFormed.{IsWellFormed};
ghost use Rattle.bg_types.specs.declared.change.Change.{Change};
ghost use Rattle.bg_types.specs.Edit.{IsEdit};
ghost use Rattle.bg_types.specs.declared.op.Place.{Place};
ghost use Rattle.bg_types.specs.declared.op.Place.TheVariants.{Root};
ghost use Rattle.bg_types.specs.declared.op.OpView.{OpView};
ghost use Rattle.bg_types.specs.declared.op.OpView.TheVariants.{Insert, Erase};
ghost use Rattle.rga_tree.specs.Walk.{walk};
ghost use Rattle.rga_tree.specs.Attached.{IsAttached, is_attached};
ghost use Rattle.rga_tree.specs.Parts.{IsPartOf};
ghost use Rattle.rga_tree.specs.Order.{Precedes, StandsBetween};
ghost use Rattle.rga_tree.specs.Stretch.{IsChild, IsRun, IsLeftOf};
ghost use Rattle.rga_tree.specs.TextOf.{text, visible, visible_ids};
ghost use Rattle.desk_replica.specs.declared.answer.TakeFault.{TakeFault};
ghost use Rattle.desk_replica.specs.declared.world.step.Step.{Step};
ghost use Rattle.desk_replica.specs.declared.world.step.Step.TheVariants.{Typed, Deliver, Merge};
ghost use Rattle.desk_replica.specs.declared.world.step.Reply.{Reply};
ghost use Rattle.desk_replica.specs.declared.world.step.Reply.TheVariants.{Done, Refused};
ghost use Rattle.desk_replica.specs.SetOf.{IsSetOf};
ghost use Rattle.desk_replica.specs.Typing.{typed, insertion};
ghost use Rattle.desk_replica.specs.Replacement.{typed_text, deletions, replacement};
ghost use Rattle.desk_replica.specs.Telling.{IsTold, change_count};
ghost use Rattle.desk_replica.specs.Reply.{IsRefusal};
ghost use Rattle.desk_replica.specs.Refusal.{IsFirstRefusal};
ghost use Rattle.desk_replica.specs.Merging.{IsMergeRefusal};
ghost use Rattle.desk_replica.specs.DeskSets.{set_at};
ghost use Rattle.desk_replica.specs.WorldStep.{WorldState, WorldStep, next_identifier};
ghost use Rattle.desk_replica.specs.WorldRun.{WorldRun, IsWorld, IsLater, all_made};

// The *sub-walk* and *unbroken-stretch* laws speak of walks alone, and are where the walk is.
pub use rga_tree::laws::{sub_walk, unbroken_stretch};

/// The union of sets of operations, where it is defined, is commutative, associative and
/// idempotent.
pub fn union_law()
    ensures commutative { (s t : OperationSet) → Agree s t → union s t ≡ union t s }
    ensures associative { (s t u : OperationSet) → Agree s t → Agree s u → Agree t u → union (union s t) u ≡ union s (union t u) }
    ensures idempotent { (s : OperationSet) → union s s ≡ s }
{}

/// A list of operations has one set, whatever their order and repeats.
pub fn one_set()
    ensures { (ops : List OpView) (s t : OperationSet) → IsSetOf ops s → IsSetOf ops t → s ≡ t }
{}

/// What is refused is refused for one fault: an operation, a merge, and of a list of operations the
/// first that a desk refuses.
pub fn one_refusal()
    ensures alike { (s : OperationSet) (op : OpView) (f g : TakeFault) → IsRefusal s op f → IsRefusal s op g → f ≡ g }
    ensures merges { (s t : OperationSet) (f g : TakeFault) → IsMergeRefusal s t f → IsMergeRefusal s t g → f ≡ g }
    ensures first { (ops : List OpView) (f g : TakeFault) → IsFirstRefusal ops f → IsFirstRefusal ops g → f ≡ g }
{}

/// Of the operations of a set within the limit a desk refuses none.
pub fn none_refused()
    ensures { (ops : List OpView) (s : OperationSet) (fault : TakeFault)
        → IsSetOf ops s → size s ≤ 1_000_000 → IsFirstRefusal ops fault → ⊥ }
{}

/// In every set of well-formed operations, what is typed at a place stands there among what is
/// visible, and what is erased at a place leaves it. Erasing leaves the next counter as it was.
pub fn typed_and_erased()
    ensures typed { (s : OperationSet) (site place ch : ℕ) → AllWellFormed s → place ≤ length (visible s)
        → IsWellFormed (insertion (typed s site place ch))
        → visible (with_operation s (insertion (typed s site place ch))) ≡ insert (visible s) place (typed s site place ch) }
    ensures erased { (s : OperationSet) (place : ℕ) (target : Identifier) → AllWellFormed s
        → slice_get (visible_ids s) place ≡ Some target
        → visible (with_operation s (Erase target)) ≡ remove (visible s) place }
    ensures counter { (s : OperationSet) (place : ℕ) (target : Identifier) → slice_get (visible_ids s) place ≡ Some target
        → next (with_operation s (Erase target)) ≡ next s }
{}

/// Characters that are typed at once are typed one after the other, each behind the one before, and those that are
/// erased at once are erased one after the other, each at the place of the first. Where others are erased the same
/// is typed as where nothing is.
pub fn stretches()
    ensures typed { (s : OperationSet) (site place ch : ℕ) (chs : List ℕ) → AllWellFormed s → place ≤ length (visible s)
        → All IsWellFormed (typed_text s site place (ch ∷ chs))
        → typed_text s site place (ch ∷ chs) ≡ insertion (typed s site place ch)
        ∷ typed_text (with_operation s (insertion (typed s site place ch))) site (place + 1) chs }
    ensures erased { (s : OperationSet) (place count : ℕ) (target : Identifier) → AllWellFormed s
        → slice_get (visible_ids s) place ≡ Some target
        → deletions s place (count + 1) ≡ Erase target ∷ deletions (with_operation s (Erase target)) place count }
    ensures replaced { (s : OperationSet) (site place count : ℕ) (chs : List ℕ) → AllWellFormed s → place + count ≤ length (visible s)
        → replacement s site place count chs ≡ deletions s place count ++ typed_text s site place chs }
{}

/// Told changes are the change: made one after the other on the text before, they give the text after; and behind changes
/// that gave the text before, they give the text after with those. They are as many as there are elements that only one of
/// the two texts shows. What is told of a fresh desk from its first call on makes its text of nothing, as it has none.
pub fn told_changes()
    ensures change { (s t : OperationSet) (old new : List Change) → IsTold s t old new
        → IsEdit (text s) (drop (length old) new) (text t) }
    ensures in_turn { (start : List ℕ) (s t : OperationSet) (old new : List Change) → IsEdit start old (text s)
        → IsTold s t old new → IsEdit start new (text t) }
    ensures count { (s t : OperationSet) (old new : List Change) → IsTold s t old new
        → length new ≡ length old + change_count s t }
    ensures fresh { (s : OperationSet) (told : List Change) → IsTold no_operations s [] told → IsEdit [] told (text s) }
    ensures nothing { text no_operations ≡ [] }
{}

/// No two insertions made in a world have the same identifier.
pub fn own_identifiers()
    ensures { (sites : List ℕ) (w : WorldState) → IsWorld sites w
        → (i j : ℕ) (id : Identifier) (p q : Place) (a b : ℕ)
        → slice_get w.made i ≡ Some (Insert id p a) → slice_get w.made j ≡ Some (Insert id q b) → i ≡ j }
{}

/// No desk of a world refuses what it is delivered, or what another one has, for an identifier
/// that was used before.
pub fn no_reuse()
    ensures delivered { (sites : List ℕ) (w v : WorldState) (steps : List Step) (replies : List Reply)
        → IsWorld sites w → WorldRun sites w steps replies v → (k desk op : ℕ)
        → slice_get steps k ≡ Some (Deliver desk op) → slice_get replies k ≡ Some (Refused 1) → ⊥ }
    ensures merged { (sites : List ℕ) (w v : WorldState) (steps : List Step) (replies : List Reply)
        → IsWorld sites w → WorldRun sites w steps replies v → (k desk from : ℕ)
        → slice_get steps k ≡ Some (Merge desk from) → slice_get replies k ≡ Some (Refused 1) → ⊥ }
{}

/// Each desk of a world has part of what was made before, so any two agree, even at different
/// times. A desk reads all characters, erased ones too, in the order of the walk of all operations
/// made, with some left out.
pub fn worlds_agree()
    ensures made { (sites : List ℕ) (w : WorldState) → IsWorld sites w → IsSetOf w.made (all_made w) }
    ensures well_formed { (sites : List ℕ) (w : WorldState) → IsWorld sites w → AllWellFormed (all_made w) }
    ensures part { (sites : List ℕ) (w v : WorldState) → IsWorld sites w → IsLater sites w v
        → (desk : ℕ) → IsPartOf (set_at w.sets desk) (all_made v) }
    ensures agree { (sites : List ℕ) (w v : WorldState) → IsWorld sites w → IsLater sites w v
        → (desk other : ℕ) → Agree (set_at w.sets desk) (set_at v.sets other) }
    ensures walk { (sites : List ℕ) (w v : WorldState) → IsWorld sites w → IsLater sites w v
        → (desk : ℕ) → walk (set_at w.sets desk) Root
        ≡ filter (λ e. is_attached (set_at w.sets desk) e.0) (walk (all_made v) Root) }
{}

/// Any two desks of a world, or of two worlds of which one comes from the other, agree on the order
/// of every two characters that both have attached, erased ones too. So there is one order of all
/// characters at all times.
pub fn one_order_of_worlds()
    ensures { (sites : List ℕ) (w v : WorldState) → IsWorld sites w → IsLater sites w v
        → (desk other : ℕ) (a b : Identifier)
        → IsAttached (set_at w.sets desk).ins a → IsAttached (set_at w.sets desk).ins b
        → IsAttached (set_at v.sets other).ins a → IsAttached (set_at v.sets other).ins b
        → Precedes (set_at w.sets desk) a b ↔ Precedes (set_at v.sets other) a b }
{}

/// Desks of a world that have the same operations show the same text. Where all that was made has
/// reached a desk, in whatever order, it shows the text of all.
pub fn one_text_of_worlds()
    ensures same { (sites : List ℕ) (w v : WorldState) → IsWorld sites w → IsLater sites w v
        → (desk other : ℕ) → IsPartOf (set_at w.sets desk) (set_at v.sets other)
        → IsPartOf (set_at v.sets other) (set_at w.sets desk)
        → text (set_at w.sets desk) ≡ text (set_at v.sets other) }
    ensures delivered { (sites : List ℕ) (w : WorldState) → IsWorld sites w → (desk : ℕ)
        → ((op : OpView) → Contains w.made op → Holds (set_at w.sets desk) op)
        → set_at w.sets desk ≡ all_made w }
{}

/// A character that was typed stands at its place in the text of the desk that types. It stays
/// between the neighbours that it was typed between, the visible characters before and after its
/// place, wherever the three are attached and however much is typed there later.
pub fn typed_stays()
    ensures stands { (sites : List ℕ) (w v : WorldState) (desk place ch : ℕ) → IsWorld sites w
        → WorldStep sites w (Typed desk place ch) Done v
        → text (set_at v.sets desk) ≡ insert (text (set_at w.sets desk)) place ch }
    ensures between { (sites : List ℕ) (w v u : WorldState) (desk place ch : ℕ) → IsWorld sites w
        → WorldStep sites w (Typed desk (place + 1) ch) Done v → IsLater sites v u
        → (a b : Identifier) → slice_get (visible_ids (set_at w.sets desk)) place ≡ Some a
        → slice_get (visible_ids (set_at w.sets desk)) (place + 1) ≡ Some b
        → (other : ℕ) → IsAttached (set_at u.sets other).ins a
        → IsAttached (set_at u.sets other).ins (next_identifier sites w desk)
        → IsAttached (set_at u.sets other).ins b
        → StandsBetween (set_at u.sets other) a (next_identifier sites w desk) b }
    ensures first { (sites : List ℕ) (w v u : WorldState) (desk ch : ℕ) → IsWorld sites w
        → WorldStep sites w (Typed desk 0 ch) Done v → IsLater sites v u
        → (b : Identifier) → slice_get (visible_ids (set_at w.sets desk)) 0 ≡ Some b
        → (other : ℕ) → IsAttached (set_at u.sets other).ins (next_identifier sites w desk)
        → IsAttached (set_at u.sets other).ins b
        → Precedes (set_at u.sets other) (next_identifier sites w desk) b }
    ensures last { (sites : List ℕ) (w v u : WorldState) (desk place ch : ℕ) → IsWorld sites w
        → WorldStep sites w (Typed desk (place + 1) ch) Done v → IsLater sites v u
        → (a : Identifier) → slice_get (visible_ids (set_at w.sets desk)) place ≡ Some a
        → (other : ℕ) → IsAttached (set_at u.sets other).ins a
        → IsAttached (set_at u.sets other).ins (next_identifier sites w desk)
        → Precedes (set_at u.sets other) a (next_identifier sites w desk) }
{}

/// Two runs of characters after one parent, each character after the one before, never mix: the run
/// whose first identifier is greater is wholly left of the other in every desk that has both
/// attached.
pub fn runs_of_worlds()
    ensures { (sites : List ℕ) (w : WorldState) → IsWorld sites w → (desk : ℕ) (place : Place)
        → (a b : Identifier) (xs ys : List Identifier)
        → IsChild (all_made w).ins place a → IsChild (all_made w).ins place b
        → IsRun (all_made w).ins (a ∷ xs) → IsRun (all_made w).ins (b ∷ ys)
        → ((id : Identifier) → Contains (a ∷ xs) id → IsAttached (set_at w.sets desk).ins id)
        → ((id : Identifier) → Contains (b ∷ ys) id → IsAttached (set_at w.sets desk).ins id)
        → id_cmp b a ≡ Less → IsLeftOf (set_at w.sets desk) (a ∷ xs) (b ∷ ys) }
{}

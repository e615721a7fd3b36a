//! Laws of the definitions: each function's contract is the law, and its body is empty.

ghost use Rattle.std.specs.Prelude.{◌≡◌, ◌++◌, ℕ, List, take, drop, fold};
ghost use Rattle.bg_types.specs.Identifier.{Identifier};
ghost use Rattle.bg_types.specs.OperationSet.{OperationSet};
ghost use Rattle.bg_types.specs.declared.op.Place.{Place};
ghost use Rattle.rga_tree.specs.Elements.{with_element};
ghost use Rattle.rga_tree.specs.Run.{insertions, with_operations};
ghost use Rattle.rga_runs.specs.Typed.{later, parent_at, typed, bits_from};

/// A stretch that is parted has the same elements, wherever it is parted.
pub fn parting()
    ensures { (id : Identifier) (parent : Place) (hidden : ℕ) (chs : List ℕ) (k : ℕ)
        → typed id parent hidden (take k chs) ++ typed (later id k) (parent_at id parent k) (bits_from k hidden) (drop k chs)
        ≡ typed id parent hidden chs }
{}

/// A stretch of which nothing is hidden is a run: its elements are placed by the run's insertions.
pub fn runs()
    ensures { (s : OperationSet) (id : Identifier) (parent : Place) (chs : List ℕ)
        → fold with_element s (typed id parent 0 chs) ≡ with_operations s (insertions id parent chs) }
{}

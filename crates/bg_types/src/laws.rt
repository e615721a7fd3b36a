//! Laws of the definitions: each function's contract is the law, and its body is empty.

ghost use Rattle.std.specs.Prelude.{◌≡◌, ◌<◌, ◌≤◌, ◌↔◌, ◌⊎◌, ◌+◌, ◌++◌, ℕ, List, All};
ghost use Rattle.std.specs.declared.cmp.Ordering.TheVariants.{Equal};
ghost use Rattle.std.specs.Cmp.{IsTotalOrder};
ghost use Rattle.bg_types.specs.Identifier.{Identifier, id_cmp};
ghost use Rattle.bg_types.specs.OperationSet.{OperationSet, Holds, MayJoin, Agree, with_operation, union, no_operations, size, named_counters, next};
ghost use Rattle.bg_types.specs.declared.op.OpView.{OpView};
ghost use Rattle.bg_types.specs.declared.change.Change.{Change};
ghost use Rattle.bg_types.specs.Edit.{IsEdit};

/// The order of identifiers is total, and only equal identifiers tie.
pub fn identifier_order()
    ensures total { IsTotalOrder id_cmp }
    ensures exact { (a b : Identifier) → id_cmp a b ≡ Equal → a ≡ b }
{}

/// Sets that have the same operations are equal.
pub fn same_operations()
    ensures { (s t : OperationSet) → ((op : OpView) → Holds s op ↔ Holds t op) → s ≡ t }
{}

/// The empty set has none.
pub fn nothing_held()
    ensures { (op : OpView) → Holds no_operations op → ⊥ }
{}

/// S + op has op and what S has, and is greater by one where op is new.
pub fn one_more_operation()
    ensures holds { (s : OperationSet) (op x : OpView) → MayJoin s op → Holds (with_operation s op) x ↔ ((x ≡ op) ⊎ Holds s x) }
    ensures grows { (s : OperationSet) (op : OpView) → MayJoin s op → ¬ (Holds s op) → size (with_operation s op) ≡ size s + 1 }
    ensures known { (s : OperationSet) (op : OpView) → Holds s op → with_operation s op ≡ s }
{}

/// Where it is defined, the union has what either set has.
pub fn united_operations()
    ensures { (s t : OperationSet) → Agree s t → (op : OpView) → Holds (union s t) op ↔ (Holds s op ⊎ Holds t op) }
{}

/// The next counter is the least above 0 and above each counter that an operation names.
pub fn next_counter()
    ensures above { (s : OperationSet) (op : OpView) → Holds s op → All (λ c. c < next s) (named_counters op) }
    ensures least { (s : OperationSet) (n : ℕ) → 0 < n → ((op : OpView) → Holds s op → All (λ c. c < n) (named_counters op)) → next s ≤ n }
{}

/// Changes lead to one text, and those of two lists, one after the other, lead where the second leads from where the
/// first leads.
pub fn edits()
    ensures one { (old a b : List ℕ) (changes : List Change) → IsEdit old changes a → IsEdit old changes b → a ≡ b }
    ensures both { (old new : List ℕ) (one more : List Change) → IsEdit old (one ++ more) new
        ↔ ((between : List ℕ) × (IsEdit old one between × IsEdit between more new)) }
{}

//! Laws of the definitions: each function's contract is the law, and its body is empty.

ghost use Rattle.std.specs.Prelude.{◌≡◌, ◌≢◌, ◌↔◌, ◌⊎◌, ◌∷◌, ◌++◌, List, Some, true, Contains, filter, insert, false};
ghost use Rattle.std.specs.declared.cmp.Ordering.TheVariants.{Less};
ghost use Rattle.std.specs.List.{flat_map, IsDistinct};
ghost use Rattle.std.specs.FinMap as map;
ghost use Rattle.bg_types.specs.Identifier.{Identifier, id_cmp, same_id};
ghost use Rattle.bg_types.specs.OperationSet.{Node, OperationSet, Agree, AllWellFormed, with_operation};
ghost use Rattle.bg_types.specs.WellFormed.{IsWellFormed};
ghost use Rattle.bg_types.specs.declared.op.OpView.TheVariants.{Insert};
ghost use Rattle.bg_types.specs.declared.op.Place.{Place};
ghost use Rattle.bg_types.specs.declared.op.Place.TheVariants.{Root, After};
ghost use Rattle.rga_tree.specs.Walk.{walk, children, walked_ids, IsListedParent};
ghost use Rattle.rga_tree.specs.Attached.{IsAttached, is_attached};
ghost use Rattle.rga_tree.specs.Parts.{IsPartOf};
ghost use Rattle.rga_tree.specs.Order.{Precedes, StandsBetween};
ghost use Rattle.rga_tree.specs.Stretch.{IsChild, StandsBelow, IsUnbroken, IsRun, IsLeftOf};
ghost use Rattle.rga_tree.specs.Tree.{stands_in, IsTree};
ghost use Rattle.rga_tree.specs.Elements.{elements};
ghost use Rattle.rga_tree.specs.Row.{place_of};

/// The walk from a parent is, for each child in falling order, the child and then the walk from it.
pub fn preorder()
    ensures { (s : OperationSet) → AllWellFormed s → (p : Place)
        → walk s p ≡ flat_map (λ e. e ∷ walk s (After e.0)) (children s.ins p) }
{}

/// The walk from the root lists each attached identifier once and nothing else, with what its
/// insertion says.
pub fn attached_once()
    ensures once { (s : OperationSet) → AllWellFormed s → IsDistinct same_id (walked_ids s) }
    ensures attached { (s : OperationSet) → AllWellFormed s → (id : Identifier)
        → IsAttached s.ins id ↔ Contains (walked_ids s) id }
    ensures insertions { (s : OperationSet) → AllWellFormed s → (e : Identifier × Node)
        → Contains (walk s Root) e → map.get s.ins e.0 ≡ Some e.1 }
{}

/// A parent stands before its children.
pub fn parents_first()
    ensures { (s : OperationSet) → AllWellFormed s
        → (before after : List (Identifier × Node)) (e : Identifier × Node)
        → walk s Root ≡ before ++ e ∷ after → IsListedParent e.1.parent before }
{}

/// The walk of a tree with one more insertion is the old walk with it put in: after its parent,
/// and after all greater identifiers that directly follow it.
pub fn one_more_leaf()
    ensures { (s : OperationSet) → AllWellFormed s → IsTree s → (id : Identifier) (node : Node)
        → IsWellFormed (Insert id node.parent node.ch) → stands_in s node.parent ≡ true
        → map.contains_key s.ins id ≡ false
        → walk (with_operation s (Insert id node.parent node.ch)) Root
        ≡ insert (walk s Root) (place_of node.parent id (elements s)) (id, node) }
{}

/// The sub-walk law: the walk of a part of a set is the walk of the set without what is not
/// attached in the part.
pub fn sub_walk()
    ensures walk { (s t : OperationSet) → AllWellFormed t → IsPartOf s t
        → walk s Root ≡ filter (λ e. is_attached s e.0) (walk t Root) }
    ensures test { (s : OperationSet) → AllWellFormed s → (id : Identifier)
        → (is_attached s id ≡ true) ↔ IsAttached s.ins id }
    ensures stays { (s t : OperationSet) → IsPartOf s t → (id : Identifier)
        → IsAttached s.ins id → IsAttached t.ins id }
{}

/// The walk puts the attached identifiers, and no others, in one line: of two different ones,
/// exactly one precedes the other.
pub fn walk_order()
    ensures attached { (s : OperationSet) → AllWellFormed s → (a b : Identifier)
        → Precedes s a b → IsAttached s.ins a × IsAttached s.ins b }
    ensures either { (s : OperationSet) → AllWellFormed s → (a b : Identifier)
        → IsAttached s.ins a → IsAttached s.ins b → a ≢ b → Precedes s a b ⊎ Precedes s b a }
    ensures never_both { (s : OperationSet) → AllWellFormed s → (a b : Identifier)
        → Precedes s a b → Precedes s b a → ⊥ }
    ensures in_turn { (s : OperationSet) → AllWellFormed s → (a b c : Identifier)
        → Precedes s a b → Precedes s b c → Precedes s a c }
{}

/// Sets that agree read all characters attached in both, erased ones too, in the same order. So a
/// character that stands between two others stands between them wherever all three are.
pub fn one_order()
    ensures agree { (s t : OperationSet) → AllWellFormed s → AllWellFormed t → Agree s t
        → (a b : Identifier) → IsAttached s.ins a → IsAttached s.ins b
        → IsAttached t.ins a → IsAttached t.ins b → Precedes s a b ↔ Precedes t a b }
    ensures between { (s t : OperationSet) → AllWellFormed s → AllWellFormed t → Agree s t
        → (a x b : Identifier) → StandsBetween s a x b
        → IsAttached t.ins a → IsAttached t.ins x → IsAttached t.ins b → StandsBetween t a x b }
    ensures more { (s t : OperationSet) → AllWellFormed t → IsPartOf s t → (a b : Identifier)
        → Precedes s a b → Precedes t a b }
{}

/// The unbroken-stretch law: an attached identifier and all below it form one unbroken stretch of
/// the walk. So two runs, neither of them below the first of the other, never mix; of two runs after
/// one parent, the one whose first identifier is greater is wholly left of the other. A run of a
/// part is a run of the set, so all this holds of it wherever it arrives.
pub fn unbroken_stretch()
    ensures stretch { (s : OperationSet) → AllWellFormed s → (top : Identifier)
        → IsAttached s.ins top → IsUnbroken s top }
    ensures runs { (s : OperationSet) → AllWellFormed s → (a b : Identifier) (xs ys : List Identifier)
        → IsAttached s.ins a → IsAttached s.ins b → IsRun s.ins (a ∷ xs) → IsRun s.ins (b ∷ ys)
        → a ≢ b → (StandsBelow s.ins a b → ⊥) → (StandsBelow s.ins b a → ⊥)
        → IsLeftOf s (a ∷ xs) (b ∷ ys) ⊎ IsLeftOf s (b ∷ ys) (a ∷ xs) }
    ensures one_place { (s : OperationSet) → AllWellFormed s → (place : Place)
        → (a b : Identifier) (xs ys : List Identifier) → IsAttached s.ins a → IsAttached s.ins b
        → IsChild s.ins place a → IsChild s.ins place b
        → IsRun s.ins (a ∷ xs) → IsRun s.ins (b ∷ ys)
        → id_cmp b a ≡ Less → IsLeftOf s (a ∷ xs) (b ∷ ys) }
    ensures stays { (s t : OperationSet) → IsPartOf s t → (ids : List Identifier)
        → IsRun s.ins ids → IsRun t.ins ids }
{}

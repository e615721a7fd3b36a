//! Laws of the definitions: each function's contract is the law, and its body is empty.

ghost use Rattle.std.specs.Prelude.{◌≡◌, insert, false};
ghost use Rattle.std.specs.FinMap as map;
ghost use Rattle.bg_types.specs.Identifier.{Identifier};
ghost use Rattle.bg_types.specs.OperationSet.{Node, OperationSet, AllWellFormed, with_operation};
ghost use Rattle.bg_types.specs.WellFormed.{IsWellFormed};
ghost use Rattle.bg_types.specs.declared.op.OpView.TheVariants.{Insert};
ghost use Rattle.bg_types.specs.declared.op.Place.TheVariants.{Root};
ghost use Rattle.rga_tree.specs.Walk.{walk};
ghost use Rattle.rga_tree.specs.Elements.{elements};
ghost use Rattle.rga_tree.specs.Row.{place_of};
ghost use Rattle.rga_tree.specs.Leaf.{IsParent, IsAttachedParent};

/// The skipping law. A new insertion that is no parent yet, below the root or an attached parent, is
/// put into the old walk after its parent (the root: at the front), and after all greater
/// identifiers that directly follow it.
pub fn skipping()
    ensures { (s : OperationSet) → AllWellFormed s → (id : Identifier) (node : Node)
        → IsWellFormed (Insert id node.parent node.ch) → map.contains_key s.ins id ≡ false
        → (IsParent s id → ⊥) → IsAttachedParent s node.parent
        → walk (with_operation s (Insert id node.parent node.ch)) Root
        ≡ insert (walk s Root) (place_of node.parent id (elements s)) (id, node) }
{}

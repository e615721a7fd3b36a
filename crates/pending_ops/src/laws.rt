//! Laws of the definitions: each function's contract is the law, and its body is empty.

ghost use Rattle.bg_types.specs.Identifier.{Identifier};
ghost use Rattle.bg_types.specs.declared.op.OpView.{OpView};
ghost use Rattle.std.specs.Prelude.{List};
ghost use Rattle.pending_ops.specs.Waiting.{Waiting, NoneReady, Releases};
ghost use Rattle.pending_ops.specs.Releasing.{PlacesEach, PlacesBelow};

/// Where nothing was ready, releasing what stands right after an identifier that is now placed, and
/// then placing each ready insertion and releasing what stands right after it, until none is ready,
/// places exactly the held insertions below that identifier, and leaves only insertions that wait
/// for others.
pub fn release_loop()
    ensures { (old start new : Waiting) (id : Identifier) (ops : List OpView) → NoneReady old → Releases old id start
        → PlacesEach start ops new → NoneReady new → PlacesBelow old id ops new }
{}

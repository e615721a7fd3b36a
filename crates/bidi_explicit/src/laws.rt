//! Laws of the definitions: the contract is the law, and the body is empty.

ghost use Rattle.bidi_explicit.specs.Laws.{KeepsTheFrame, KeepsAllOverOverflow, MatchesWhereBalanced};

/// The nesting law. Run over whole nodes at the front of a list that the nesting gives, with each isolate
/// among them closed, the flat rules leave the stack up to the list's own entry and both counts of
/// isolates as they were; run over an overflowed isolate and its PDI, they leave everything as it was.
pub fn nesting_law()
    ensures frame { KeepsTheFrame }
    ensures overflow { KeepsAllOverOverflow }
{}

/// The nesting gives an initiator the PDI that BD9 gives it: the first one after it at which the
/// initiators and PDIs between them balance.
pub fn matching_law()
    ensures { MatchesWhereBalanced }
{}

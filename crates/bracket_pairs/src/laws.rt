//! What the definitions give for some texts: each function's contract says it, and the body is empty.

ghost use Rattle.std.specs.Prelude.{◌≡◌, [], ◌∷◌, ◌++◌, codes, replicate};
ghost use Rattle.bracket_pairs.specs.declared.role.Role.TheVariants.{Opening, Closing};
ghost use Rattle.bracket_pairs.specs.Pairs.{pair_of, pairs_in_order, search_end};
ghost use Rattle.bracket_pairs.specs.Examples.{ascii_pairs};

/// Modelled on the examples of UAX #9, BD16, with places from 0.
pub fn pairs()
    ensures unopened { ascii_pairs (codes "a)b(c") ≡ [] }
    ensures unlike { ascii_pairs (codes "a(b]c") ≡ [] }
    ensures one { ascii_pairs (codes "a(b)c") ≡ pair_of 1 3 ∷ [] }
    ensures crossed { ascii_pairs (codes "a(b[c)d]") ≡ pair_of 1 5 ∷ [] }
    ensures unlike_inside { ascii_pairs (codes "a(b]c)d") ≡ pair_of 1 5 ∷ [] }
    ensures closed_once { ascii_pairs (codes "a(b)c)d") ≡ pair_of 1 3 ∷ [] }
    ensures nearest { ascii_pairs (codes "a(b(c)d") ≡ pair_of 3 5 ∷ [] }
    ensures nested { ascii_pairs (codes "a(b(c)d)") ≡ pair_of 1 7 ∷ pair_of 3 5 ∷ [] }
    ensures nested_unlike { ascii_pairs (codes "a(b{c}d)") ≡ pair_of 1 7 ∷ pair_of 3 5 ∷ [] }
{}

/// 63 opening brackets may wait. At the 64th the search ends, and what was paired before stays paired.
pub fn room()
    ensures enough { search_end (replicate 63 (Opening 41) ++ replicate 63 (Closing 41)) ≡ 126 }
    ensures full { search_end (replicate 64 (Opening 41) ++ replicate 64 (Closing 41)) ≡ 63 }
    ensures kept { pairs_in_order (Opening 41 ∷ Closing 41 ∷ replicate 64 (Opening 41) ++ Closing 41 ∷ []) ≡ pair_of 0 1 ∷ [] }
{}

//! What random problems have.

ghost use Rattle.std.specs.Prelude.{ℕ};
ghost use Rattle.dcsp_gen.specs.Chosen.{PairsAreMany, SelectionIsExact};

/// Selection in order chooses exactly as many things as are wanted, if there are so many, whatever the words are; those
/// that it chooses and those that it leaves are the things, each in their order: pairs of variables or of values,
/// and numbers of people, hours or sensors. There are n(n-1)/2 pairs of n variables and d² pairs of d values.
pub fn selections_are_exact()
    ensures exact { SelectionIsExact (ℕ × ℕ) }
    ensures numbers { SelectionIsExact ℕ }
    ensures pairs { PairsAreMany }
{}

//! The search for a solution with the best value of what a problem aims at.
//!
//! A search has rounds. The first is to solve the whole problem. After a round that was solved comes one on the
//! problem narrowed to better values than some bound: those below it where the least is wanted, above it where the
//! greatest is. The bound is the best value found, and a round that was refuted, spent or capped is the last; so is the
//! first where the aim is at a constant. A last round that was refuted shows that no solution has a better value than
//! the last one found.
//!
//! By halves the bound lies further on, so that the round asks for the better half of the values that may still be
//! better. Where such a round is refuted, that half is excluded, and the search goes on; only a refuted round that was
//! to better the best value itself is the last. There is one search: without halves its bound is no step away from
//! the best value, and no refuted round is followed by another.
//!
//! Nothing here says how a round is made: a search is told how each one ended.
#![tactic(auto)]

ghost use Rattle.std.specs.Prelude.{◌≡◌, ◌<◌, ◌≤◌, ℤ, Bool, List, length, true, false};
ghost use Rattle.dcsp_domain.specs.Sets.{IsRising};
ghost use Rattle.dcsp_rule.specs.Problems.{Contents};
ghost use Rattle.abt_optimum.specs.declared.round.Round.{Round};
ghost use Rattle.abt_optimum.specs.Best.{assigned, aim_value, IsBest, NarrowingKeepsBetter, NarrowingDecides};
ghost use Rattle.abt_optimum.specs.Rounds.{aim_values, is_done, most_rounds, AreFewByHalves, AreImproving, AreRounds};

mod best;
mod halves;
mod round;
mod search;

pub use abt_defs::End;
pub use best::{Best, BestEnd};
pub use dcsp_domain::{IntList, Memory};
pub use round::{Known, Round};
pub use search::Search;

/// The solutions of a narrowed problem are those of the whole one that have a better value at the aim. So the
/// narrowed problem has none exactly where no solution has a better value.
pub fn narrowing_is_right()
    ensures keeps_better { (p : Contents) → NarrowingKeepsBetter p }
    ensures decides { (p : Contents) → NarrowingDecides p }
{}

/// The rounds of a search are at most one more than what is aimed at has values, and fewer where another follows. By
/// halves, where the values rise, they are few: at most two more than the binary logarithm of how many values there
/// are, rounded up.
pub fn rounds_are_few()
    ensures few { (halves : Bool) (p : Contents) (rounds : List Round) → (halves ≡ true → IsRising (aim_values p)) → AreRounds halves p rounds → length rounds ≤ most_rounds p }
    ensures room { (halves : Bool) (p : Contents) (rounds : List Round) → (halves ≡ true → IsRising (aim_values p)) → AreRounds halves p rounds
        → is_done p.aim rounds ≡ false → length rounds < most_rounds p }
    ensures halved { (p : Contents) (rounds : List Round) → IsRising (aim_values p) → AreRounds true p rounds → AreFewByHalves p (length rounds) }
{}

/// Of two rounds that were solved the later one has the better value, by halves too.
pub fn rounds_improve()
    ensures { (halves : Bool) (p : Contents) (rounds : List Round) → (halves ≡ true → IsRising (aim_values p)) → AreRounds halves p rounds → AreImproving p.aim rounds }
{}

/// Best values of one problem have the same value at the aim. So a search by halves comes to the value that one
/// without comes to.
pub fn best_is_one_value()
    ensures { (p : Contents) (xs ys : List ℤ) → IsBest p xs → IsBest p ys → aim_value p.aim (assigned xs) ≡ aim_value p.aim (assigned ys) }
{}

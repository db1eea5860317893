//! Clauses as others see them.
ghost use Rattle.std.specs.Prelude.{◌≡◌, ◌<◌, ◌^◌, ℕ, ℤ, [], ◌∷◌, ◌++◌, List, length, OnOk, OnErr};
ghost use Rattle.std.specs.List.{All};
ghost use Rattle.rup_check.specs.Literals.{IsLiteral};

use crate::places::PlaceList;
use dcsp_common::Memory;
use std::alloc::Global;
use std::marker::Model;

/// Clauses in their order, each a list of literals in its order.
///
/// A literal is a number from -4,096 to 4,096, and not 0: N says that variable N is true, and -N that it is false. All
/// literals stand in one array, two bytes for each, and a second array says where each clause ends. A list has at most
/// 2^32 clauses.
#[derive(Drop)]
pub struct ClauseList {
    pub(crate) places: PlaceList,
}

impl Model for ClauseList {
    ghost use Rattle.std.specs.Prelude.{List, ℤ, map};
    ghost use Rattle.rup_check.specs.Stored.{number_at, AreStored};

    ghost Value = { List (List ℤ) };

    ghost view = { λ list. map (map number_at) list.places };

    ghost invariant = { λ list. AreStored list.places };
}

impl ClauseList {
    /// No clause.
    #[tactic(auto, using(crate::proofs::NumberLaws::stored_none))]
    pub fn new(alloc: Global) -> ClauseList
        ensures { result ≡ [] }
    {
        ClauseList {
            places: PlaceList::new(alloc),
        }
    }

    /// The number of clauses.
    #[tactic(auto, using(crate::proofs::NumberLaws::length_numbered))]
    pub fn len(&self) -> usize
        ensures { result ≡ length self.now }
    {
        self.places.len()
    }

    /// Adds a clause at the end. A refusal changes nothing.
    #[tactic(auto, using(crate::proofs::NumberLaws::pushed_numbers))]
    pub fn push(&mut self, literals: &[i32]) -> Result<(), Memory>
        requires literals { All IsLiteral literals.now }
        requires room { length self.old < 2 ^ 32 }
        ensures ok { OnOk result (self.new ≡ self.old ++ literals.now ∷ []) }
        ensures err { OnErr result (self.new ≡ self.old) }
    {
        self.places.push(literals)
    }
}

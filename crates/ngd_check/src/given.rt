//! The values that a step has at hand.

ghost use Rattle.std.specs.Prelude.{◌≡◌, None, All};
ghost use Rattle.dcsp_defs.specs.Pairs.{value_at};
ghost use Rattle.dcsp_defs.specs.Csp.{with_value, agrees};
ghost use Rattle.dcsp_rule.specs.Problems.{csp_of};
ghost use Rattle.ngd_check.specs.Places.{IsPlaced, pairs_of};

use crate::places::pair_at;
use dcsp_defs::{Nogood, Pair};
use dcsp_problem::{Lookup, Problem};
use ngd_store::Placed;

/// Values that are known, with a value of a further variable.
#[derive(Drop)]
pub struct Given<'l, L> {
    pub known: &'l L,
    pub var: u32,
    pub value: i64,
}

impl<L: Lookup> Lookup for Given<'_, L> {
    ghost values = { λ given. with_value given.var given.value (L.values given.known.now) };

    fn value_of(&self, var: u32) -> Option<i64> {
        if var == self.var {
            Some(self.value)
        } else {
            self.known.value_of(var)
        }
    }
}

impl<L: Lookup> Given<'_, L> {
    /// Whether these values have each of the pairs.
    pub fn agrees_with(&self, pairs: &[Pair]) -> bool
        ensures { result ≡ agrees (with_value self.now.var self.now.value (L.values self.now.known.now)) pairs.now }
    {
        for pair in pairs {
            if self.value_of(pair.var) != Some(pair.value) {
                return false;
            }
        }
        true
    }

    /// Whether these values have each of the pairs that are given by places.
    pub fn agrees_at(&self, problem: &Problem, pairs: &[Placed]) -> bool
        requires { All (IsPlaced (csp_of problem.now)) pairs.now }
        ensures { result ≡ agrees (with_value self.now.var self.now.value (L.values self.now.known.now)) (pairs_of (csp_of problem.now) pairs.now) }
    {
        for placed in pairs {
            let pair = pair_at(problem, *placed);
            if self.value_of(pair.var) != Some(pair.value) {
                return false;
            }
        }
        true
    }
}

/// The values of a nogood's pairs, found by searches.
#[derive(Clone, Copy)]
pub struct Searched<'n> {
    pub nogood: &'n Nogood,
}

impl Lookup for Searched<'_> {
    ghost values = { λ searched. value_at searched.nogood.now };

    fn value_of(&self, var: u32) -> Option<i64> {
        self.nogood.value_of(var)
    }
}

/// No values.
#[derive(Clone, Copy)]
pub struct Nothing;

impl Lookup for Nothing {
    ghost values = { λ _ _. None };

    fn value_of(&self, _var: u32) -> Option<i64> {
        None
    }
}

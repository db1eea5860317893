//! Rules over one or two variables, made ready to be tested.

ghost use Rattle.std.specs.Prelude.{◌≡◌, IfSome, IsTrue};
ghost use Rattle.dcsp_meaning.specs.Sums.{stands};
ghost use Rattle.dcsp_rule.specs.Pairs.{is_missed, pair_sum, widened, IsSmall};

use crate::lookup::Lookup;
use dcsp_meaning::{Rel, product};

/// A rule over one or two variables: the products of each coefficient and its variable, added up, stand so to the
/// total. A rule over one variable has it twice.
#[derive(Clone, Copy, Debug)]
pub struct BinaryRule {
    pub rel: Rel,
    pub first: u32,
    pub second: u32,
    pub first_coef: i64,
    pub second_coef: i64,
    pub total: i128,
}

impl BinaryRule {
    /// Whether the rule is true where its variables have these values.
    #[inline(always)]
    pub fn holds(self, first: i64, second: i64) -> bool
        requires { IsSmall self }
        ensures { result ≡ stands self.rel (pair_sum self first second) self.total }
    {
        let sum = product(self.first_coef, first) + product(self.second_coef, second);
        self.rel.holds(sum, self.total)
    }

    /// Whether its numbers are so small that its sum fits for any values.
    pub fn is_small(self) -> bool
        ensures small { IsTrue result → IsSmall self }
        ensures told { IsSmall self → IsTrue result }
    {
        self.first_coef.unsigned_abs() < 1 << 62
            && self.second_coef.unsigned_abs() < 1 << 62
            && self.total.unsigned_abs() <= 1 << 65
    }

    /// Whether the look-up gives both variables a value, and the rule is false under these.
    #[inline(always)]
    pub fn is_missed<L: Lookup>(self, lookup: &L) -> bool
        requires { IsSmall self }
        ensures { result ≡ is_missed self (L.values lookup.now) }
    {
        match lookup.value_of(self.first) {
            None => false,
            Some(first) => match lookup.value_of(self.second) {
                None => false,
                Some(second) => !self.holds(first, second),
            },
        }
    }
}

/// The same in less room, where its coefficients and its total have 32 bits at most.
#[derive(Clone, Copy, Debug)]
pub struct NarrowPair {
    pub rel: Rel,
    pub first: u32,
    pub second: u32,
    pub first_coef: i32,
    pub second_coef: i32,
    pub total: i32,
}

impl NarrowPair {
    /// The pair in less room, if it fits.
    pub fn of(pair: BinaryRule) -> Option<NarrowPair>
        ensures { IfSome result (λ narrow. widened narrow ≡ pair) }
    {
        Some(NarrowPair {
            rel: pair.rel,
            first: pair.first,
            second: pair.second,
            first_coef: i32::try_from(pair.first_coef).ok()?,
            second_coef: i32::try_from(pair.second_coef).ok()?,
            total: i32::try_from(pair.total).ok()?,
        })
    }

    /// The pair.
    #[inline(always)]
    pub fn widened(self) -> BinaryRule
        ensures { result ≡ widened self }
    {
        BinaryRule {
            rel: self.rel,
            first: self.first,
            second: self.second,
            first_coef: i64::from(self.first_coef),
            second_coef: i64::from(self.second_coef),
            total: i128::from(self.total),
        }
    }

    /// Whether the look-up gives both variables a value, and the rule is false under these. Its numbers are small.
    #[inline(always)]
    pub fn is_missed<L: Lookup>(self, lookup: &L) -> bool
        ensures { result ≡ is_missed (widened self) (L.values lookup.now) }
    {
        self.widened().is_missed(lookup)
    }
}

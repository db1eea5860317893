//! Rules and their terms.

use dcsp_common::ItemList;
use dcsp_domain::IntList;
use dcsp_meaning::{ConstraintKind, Rel};

/// A constant, or a variable by its number.
#[derive(Clone, Copy, Debug, PartialEq, Eq)]
pub enum Term {
    Const(i64),
    Var(u32),
}

/// Terms in a given order.
pub type TermList = ItemList<Term>;

/// Variables or rules, by their numbers.
pub type NumberList = ItemList<u32>;

/// The numbers that a membership constraint asks about.
#[derive(Debug, Drop)]
pub enum Members {
    /// Those from `low` to `high`, both included; none where `low` is above `high`.
    Between { low: i64, high: i64 },
    /// These, in any order, repeats allowed.
    Listed(IntList),
}

/// A constraint of the problem.
#[derive(Debug, Drop)]
pub enum Rule {
    /// A constraint that needs no sum. A list that its kind does not use is empty, and members that it does not
    /// use are `Listed`, of none.
    Plain {
        kind: ConstraintKind,
        scalars: TermList,
        first: TermList,
        second: TermList,
        members: Members,
    },
    /// A linear constraint: the sum of each coefficient times its term is equal to, is at most, differs from the
    /// total. With a truth term it is reified: it holds exactly where that term, which is true exactly at 1,
    /// equals the truth of the rest.
    Sum {
        rel: Rel,
        coefs: IntList,
        terms: TermList,
        total: Term,
        truth: Option<Term>,
    },
}

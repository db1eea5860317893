//! Rules whose lists are another's.

ghost use Rattle.std.specs.Prelude.{◌≡◌};
ghost use Rattle.dcsp_rule.specs.Lent.{lent_members, lent_rule};

use crate::rule::{Members, Rule, Term};
use dcsp_meaning::{ConstraintKind, Rel};

/// The numbers that a membership constraint asks about, whose list is another's.
#[derive(Clone, Copy, Debug)]
pub enum MembersRef<'r> {
    /// Those from `low` to `high`, both included.
    Between { low: i64, high: i64 },
    /// These.
    Listed(&'r [i64]),
}

/// A rule whose lists are another's: of a table of rules, or of a rule that has its own.
#[derive(Clone, Copy, Debug)]
pub enum RuleRef<'r> {
    /// A constraint that needs no sum.
    Plain {
        kind: ConstraintKind,
        scalars: &'r [Term],
        first: &'r [Term],
        second: &'r [Term],
        members: MembersRef<'r>,
    },
    /// A linear constraint.
    Sum {
        rel: Rel,
        coefs: &'r [i64],
        terms: &'r [Term],
        total: Term,
        truth: Option<Term>,
    },
}

impl Members {
    /// The same members, lent.
    pub fn lent(&self) -> MembersRef<'_>
        ensures { lent_members result ≡ self.now }
    {
        match self {
            Members::Between { low, high } => MembersRef::Between {
                low: *low,
                high: *high,
            },
            Members::Listed(values) => MembersRef::Listed(values.items()),
        }
    }
}

impl Rule {
    /// The same rule, lent.
    pub fn lent(&self) -> RuleRef<'_>
        ensures { lent_rule result ≡ self.now }
    {
        match self {
            Rule::Plain {
                kind,
                scalars,
                first,
                second,
                members,
            } => RuleRef::Plain {
                kind: *kind,
                scalars: scalars.items(),
                first: first.items(),
                second: second.items(),
                members: members.lent(),
            },
            Rule::Sum {
                rel,
                coefs,
                terms,
                total,
                truth,
            } => RuleRef::Sum {
                rel: *rel,
                coefs: coefs.items(),
                terms: terms.items(),
                total: *total,
                truth: *truth,
            },
        }
    }
}

//! What is wanted of a solution.

ghost use Rattle.std.specs.Prelude.{◌≡◌};
ghost use Rattle.dcsp_rule.specs.Aims.{aimed_at};

use crate::rule::Term;

/// What is wanted of a solution.
#[derive(Clone, Copy, Debug, PartialEq, Eq)]
pub enum Aim {
    /// Any solution.
    Satisfy,
    /// One with the least value of this term.
    Least(Term),
    /// One with the greatest value of this term.
    Greatest(Term),
}

impl Aim {
    /// The variable that is aimed at; `None` where any solution is wanted, or the aim is at a constant.
    pub fn variable(self) -> Option<u32>
        ensures { result ≡ aimed_at self }
    {
        match self {
            Aim::Least(Term::Var(var)) | Aim::Greatest(Term::Var(var)) => Some(var),
            _ => None,
        }
    }
}

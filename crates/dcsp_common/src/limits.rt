//! Limits on the size of a problem.

ghost use Rattle.std.specs.Prelude.{◌≡◌};
ghost use Rattle.dcsp_common.specs.Limits.{most};

/// What is counted.
#[derive(Clone, Copy, Debug, PartialEq, Eq)]
pub enum Which {
    /// The values of one domain.
    DomainSize,
    /// The variables.
    Variables,
    /// The values over all domains.
    DomainValues,
    /// The rules.
    Rules,
    /// The terms over all rules.
    Terms,
    /// The elements of one list.
    Elements,
}

impl Which {
    /// The greatest number that is allowed.
    pub fn most(self) -> usize
        ensures { result ≡ most self }
    {
        match self {
            Which::DomainSize => 65_536,
            Which::Variables => 4_096,
            Which::DomainValues => 1_048_576,
            Which::Rules => 262_144,
            Which::Terms => 1_048_576,
            Which::Elements => 65_536,
        }
    }
}

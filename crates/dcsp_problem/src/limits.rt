//! Limits on the size of a problem.

ghost use Rattle.std.specs.Prelude.{◌≡◌, ◌<◌, ◌≤◌, OnOk, IfErr};
ghost use Rattle.dcsp_common.specs.Limits.{most};

use dcsp_common::Which;
use std::alloc::{AllocError, AllocFailed};

/// Why something was not added to a problem.
#[derive(Clone, Copy, Debug, PartialEq, Eq)]
pub enum BuildError {
    /// There would be `count` of these, which is more than their greatest number.
    Limit { which: Which, count: u128 },
    /// The width of a sum is above 2^126: each absolute coefficient times the greatest absolute value of its
    /// term, and the greatest absolute value of the total, added up. No rule without a sum is refused so.
    WideSum,
    /// Memory ran out.
    Memory,
}

impl From<AllocError> for BuildError {
    ghost use Rattle.std.specs.Prelude.{◌≡◌};
    ghost use Rattle.dcsp_problem.specs.declared.limits.BuildError.TheVariants.{Memory};

    ghost from_gives = { λ _ e. e ≡ Memory };

    fn from(_: AllocError) -> BuildError {
        BuildError::Memory
    }
}

impl<T: Drop> From<AllocFailed<T>> for BuildError {
    ghost use Rattle.std.specs.Prelude.{◌≡◌};
    ghost use Rattle.dcsp_problem.specs.declared.limits.BuildError.TheVariants.{Memory};

    ghost from_gives = { λ _ e. e ≡ Memory };

    fn from(_: AllocFailed<T>) -> BuildError {
        BuildError::Memory
    }
}

/// Refuses a count above its greatest number.
pub fn within(which: Which, count: usize) -> Result<(), BuildError>
    ensures ok { OnOk result (count ≤ most which) }
    ensures err { IfErr result (λ e. (e ≡ BuildError.Limit which count) × (most which < count)) }
{
    if count > which.most() {
        return Err(BuildError::Limit {
            which,
            count: count as u128,
        });
    }
    Ok(())
}

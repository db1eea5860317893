//! How much is looked at as an agent settles.

ghost use Rattle.std.specs.Prelude.{◌≡◌, IfOk};
ghost use Rattle.abt_parts.specs.Checked.{as_checks, sum_of};

use dcsp_common::Memory;

/// How many constraints and how many recorded nogoods are looked at.
#[derive(Clone, Copy, Debug, PartialEq, Eq)]
pub struct Checks {
    pub constraints: u64,
    pub nogoods: u64,
}

impl Checks {
    /// Both. A number past its width counts as want of memory.
    pub fn plus(self, other: Checks) -> Result<Checks, Memory>
        ensures { IfOk result (λ sum. as_checks sum ≡ sum_of (as_checks self) (as_checks other)) }
    {
        let constraints = self.constraints.checked_add(other.constraints);
        let nogoods = self.nogoods.checked_add(other.nogoods);
        Ok(Checks {
            constraints: constraints.ok_or(Memory)?,
            nogoods: nogoods.ok_or(Memory)?,
        })
    }
}

//! What all agents did together.

ghost use Rattle.std.specs.Prelude.{◌≡◌, ◌∷◌, ◌++◌, [], List, IfOk};
ghost use Rattle.dcsp_defs.specs.Csp.{Csp};
ghost use Rattle.abt_defs.specs.Events.{Act};
ghost use Rattle.abt_measure.specs.declared.row.Row.{Row as TheRow};
ghost use Rattle.abt_measure.specs.Counting.{AreRows};
ghost use Rattle.abt_measure.specs.Totals.{totals_of, AreSums};

use crate::clock::plus;
use crate::row::{Kinds, Row};
use dcsp_common::Memory;

/// What all agents did: messages received by kind, and checks of constraints and of nogoods.
#[derive(Clone, Copy, Debug, PartialEq, Eq)]
pub struct Totals {
    pub got: Kinds,
    pub constraints: u64,
    pub nogoods: u64,
}

impl Totals {
    /// Nothing.
    fn none() -> Totals
        ensures { AreSums [] result }
    {
        Totals {
            got: Kinds {
                ok: 0,
                nogood: 0,
                link: 0,
            },
            constraints: 0,
            nogoods: 0,
        }
    }

    /// With one agent more.
    fn with(self, row: Row) -> Result<Totals, Memory>
        ensures { (rows : List TheRow) → AreSums rows self → IfOk result (AreSums (rows ++ row ∷ [])) }
    {
        Ok(Totals {
            got: Kinds {
                ok: plus(self.got.ok, row.got.ok)?,
                nogood: plus(self.got.nogood, row.got.nogood)?,
                link: plus(self.got.link, row.got.link)?,
            },
            constraints: plus(self.constraints, row.constraints)?,
            nogoods: plus(self.nogoods, row.nogoods)?,
        })
    }
}

/// What these agents did together. A number past its width counts as want of memory.
pub fn add_up(rows: &[Row]) -> Result<Totals, Memory>
    ensures { (p : Csp) (acts : List Act) → AreRows p acts rows.now → IfOk result (λ sum. sum ≡ totals_of p acts) }
{
    let mut sum = Totals::none();
    for row in rows {
        sum = sum.with(*row)?;
    }
    Ok(sum)
}

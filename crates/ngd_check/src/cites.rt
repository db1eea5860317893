//! The nogoods that a step's reasons may cite.

ghost use Rattle.std.specs.Prelude.{◌≡◌, ◌↔◌, ◌++◌, ◌∷◌, [], ◌<◌, ◌≤◌, ℕ, None, Some, Option, List, IsTrue, OnOk, OnErr, length, is_some, slice_get};
ghost use Rattle.dcsp_defs.specs.declared.nogood.Pair.{Pair};
ghost use Rattle.dcsp_defs.specs.Csp.{with_value};
ghost use Rattle.ngd_check.specs.Citing.{AgreesWith, nogood_at};

use crate::given::Given;
use dcsp_problem::Lookup;
use ngd_log::Step;

/// Nogoods at hand, each with its number.
pub trait Cites {
    ghost cited: { Self → ℕ → Option (List Pair) };

    /// Whether there is a nogood with this number, and these values have each of its pairs.
    fn agrees<L: Lookup>(&self, number: u64, given: &Given<L>) -> bool
        ensures { IsTrue result ↔ AgreesWith (cited self.now) (with_value given.now.var given.now.value (L.values given.now.known.now)) number };
}

/// The nogoods of these steps, numbered from 1.
#[derive(Clone, Copy)]
pub struct NogoodsOf<'s> {
    pub steps: &'s [Step],
}

impl Cites for NogoodsOf<'_> {
    ghost cited = { λ nogoods. nogood_at nogoods.steps.now };

    fn agrees<L: Lookup>(&self, number: u64, given: &Given<L>) -> bool {
        if number == 0 || number > self.steps.len() as u64 {
            return false;
        }
        given.agrees_with(self.steps[number as usize - 1].nogood.pairs())
    }
}

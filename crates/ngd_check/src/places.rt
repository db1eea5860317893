//! The places of values in their domains.

ghost use Rattle.std.specs.Prelude.{◌≡◌, ◌↔◌, ◌++◌, ◌∷◌, [], OnOk, IfOk, IfSome, IsNone, IsTrue, All};
ghost use Rattle.dcsp_defs.specs.Derivation.{IsKnownPair};
ghost use Rattle.dcsp_rule.specs.Problems.{csp_of};
ghost use Rattle.ngd_check.specs.Places.{ArePlaced, IsPlaced, IsPlacedAt, pair_of};

use dcsp_common::Memory;
use dcsp_defs::Pair;
use dcsp_problem::Problem;
use ngd_store::Placed;

/// Finds the place of each pair's value in the domain of its variable, and tells whether each pair has one.
pub fn place_each(
    problem: &Problem,
    pairs: &[Pair],
    placed: &mut Vec<Placed>,
) -> Result<bool, Memory>
    ensures known { IfOk result (λ known. IsTrue known ↔ All (IsKnownPair (csp_of problem.now)) pairs.now) }
    ensures placed { IfOk result (λ known. IsTrue known → ArePlaced (csp_of problem.now) pairs.now placed.new.items) }
{
    placed.clear();
    for pair in pairs {
        let Some(found) = place_of(problem, *pair) else {
            return Ok(false);
        };
        add(placed, found)?;
    }
    Ok(true)
}

fn add(placed: &mut Vec<Placed>, found: Placed) -> Result<(), Memory>
    ensures { OnOk result (placed.new.items ≡ placed.old.items ++ found ∷ []) }
{
    placed.push(found)?;
    Ok(())
}

/// The place of the pair's value, where its variable is one of the problem and the value one of its domain.
fn place_of(problem: &Problem, pair: Pair) -> Option<Placed>
    ensures found { IfSome result (IsPlacedAt (csp_of problem.now) pair) }
    ensures none { IsNone result → ¬ IsKnownPair (csp_of problem.now) pair }
{
    if pair.var >= problem.vars() {
        return None;
    }
    let domain = problem.domain(pair.var);
    let _values = domain.len();
    match domain.place_of(pair.value) {
        None => None,
        Some(place) => Some(Placed {
            var: pair.var as u16,
            place: place as u16,
        }),
    }
}

/// The pair that this is with the place of its value.
pub fn pair_at(problem: &Problem, placed: Placed) -> Pair
    requires { IsPlaced (csp_of problem.now) placed }
    ensures { result ≡ pair_of (csp_of problem.now) placed }
{
    let var = u32::from(placed.var);
    Pair {
        var,
        value: problem.domain(var).value(placed.place as usize),
    }
}

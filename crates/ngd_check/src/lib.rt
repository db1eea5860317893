//! Checks whether a derivation, or the entries of a log, refute a problem. It knows nothing of agents.
#![tactic(auto)]

mod checker;
mod cites;
mod given;
mod kept;
mod kept_steps;
mod logs;
mod places;
mod present;
mod small;
mod step;

ghost use Rattle.std.specs.Prelude.{◌≡◌, ◌↔◌, IsTrue, List};
ghost use Rattle.dcsp_defs.specs.declared.Step.{Step};
ghost use Rattle.dcsp_defs.specs.Derivation.{EndsEmpty};
ghost use Rattle.dcsp_defs.specs.Csp.{Csp, IsCsp, HasNoSolution};
ghost use Rattle.dcsp_rule.specs.Problems.{csp_of};
ghost use Rattle.ngd_check.specs.Findings.{IsFinding, IsFindingOf, IsFoundAlike};
ghost use Rattle.ngd_check.specs.Entries.{EntriesExclude, EntriesRefute, AreOneForm};
ghost use Rattle.dcsp_defs.specs.declared.entry.Entry.{Entry};

pub use checker::Checker;
use cites::NogoodsOf;
use dcsp_problem::Problem;
pub use kept_steps::KeptSteps;
pub use logs::derivations_have_logs;
use ngd_log::{Derivation, Step};
pub use small::problems_are_small;
use step::is_right;

/// What a check finds.
#[derive(Clone, Copy, Debug, PartialEq, Eq)]
pub enum Finding {
    /// The derivation is a refutation: the problem has no solution.
    Verified,
    /// The step with this number, counted from 1, is the first that is wrong.
    BadStep { step: u64 },
    /// The first wrong entry is a deletion, with so many steps before it. A derivation has none.
    BadDeletion { after: u64 },
    /// Each step is right, and there is no step or the last nogood is not empty.
    NotEmpty,
}

/// Whether the derivation refutes the problem. It takes no memory.
pub fn check(problem: &Problem, derivation: &Derivation) -> Finding
    ensures exact { IsFinding (csp_of problem.now) derivation.now result }
    ensures sound { result ≡ Finding.Verified → HasNoSolution (csp_of problem.now) }
{
    finding_of(problem, derivation.steps())
}

fn finding_of(problem: &Problem, steps: &[Step]) -> Finding
    ensures exact { IsFinding (csp_of problem.now) steps.now result }
    ensures well_formed { IsCsp (csp_of problem.now) }
{
    let vars = problem.vars();
    for (place, step) in steps.iter().enumerate() {
        let nogoods = NogoodsOf {
            steps: &steps[..place],
        };
        if !is_right(problem, vars, &nogoods, step) {
            return Finding::BadStep {
                step: place as u64 + 1,
            };
        }
    }
    if ends_empty(steps) {
        Finding::Verified
    } else {
        Finding::NotEmpty
    }
}

/// Whether there is a last step, and its nogood is empty.
fn ends_empty(steps: &[Step]) -> bool
    ensures { IsTrue result ↔ EndsEmpty steps.now }
{
    match steps.last() {
        Some(step) => step.nogood.pairs().is_empty(),
        None => false,
    }
}

/// A derivation has one finding, and so have entries.
pub fn one_finding()
    ensures derivation { (p : Csp) (steps : List Step) (f g : Finding) → IsFinding p steps f → IsFinding p steps g → f ≡ g }
    ensures entries { (p : Csp) (entries : List Entry) (f g : Finding) → IsFindingOf p entries f → IsFindingOf p entries g → f ≡ g }
{}

/// No solution extends the nogood of a step of right entries.
pub fn entries_exclude()
    ensures { (p : Csp) → EntriesExclude p }
{}

/// A problem that entries refute has no solution.
pub fn entries_refute()
    ensures { (p : Csp) → EntriesRefute p }
{}

/// A list of steps and its entries are right together, refute together, and have the same finding.
pub fn one_form()
    ensures right { (p : Csp) (steps : List Step) → AreOneForm p steps }
    ensures found { (p : Csp) (steps : List Step) → IsFoundAlike p steps }
{}

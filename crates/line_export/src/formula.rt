//! A derivation as a formula.

ghost use Rattle.std.specs.Prelude.{◌≡◌, ◌<◌, ◌++◌, ◌∷◌, List, map, flat_map, length, All, Some, slice_get, IfOk, OnOk};
ghost use Rattle.dcsp_defs.specs.declared.Step.{Step as A_step};
ghost use Rattle.dcsp_defs.specs.Csp.{filled};
ghost use Rattle.dcsp_rule.specs.Problems.{csp_of, constraint_at};
ghost use Rattle.line_export.specs.Atoms.{AreAtoms};
ghost use Rattle.line_export.specs.Pairs.{given_by};
ghost use Rattle.line_export.specs.Clauses.{value_clause, exclusion, nogood_clause, reason_clauses, clauses_at, step_clauses, with_clauses, value_clauses, formula, IsReasonIn, IsStepIn};

use crate::atoms::Atoms;
use crate::clauses::ClauseSet;
use dcsp_defs::{Derivation, Nogood, Pair, Reason, Step};
use std::alloc::{AllocError, Global};

/// A derivation as a formula: its steps, the clauses that it says of the problem, and the atoms that they are over.
#[derive(Drop)]
pub struct Formula<'p> {
    pub atoms: Atoms<'p>,
    pub steps: Derivation,
    pub clauses: ClauseSet,
}

/// The pairs of a nogood, and one pair more.
#[derive(Clone, Copy)]
struct WithPair<'n> {
    nogood: &'n Nogood,
    pair: Pair,
}

/// The formula of a derivation: for each variable that it has one of its values, and for each reason that is a rule,
/// that the values under which the rule is false do not stand together.
pub fn formula_of(alloc: Global, atoms: &Atoms<'_>, steps: &[Step]) -> Result<ClauseSet, AllocError>
    requires atoms { AreAtoms atoms.now }
    requires steps { All (IsStepIn atoms.now.problem.now) steps.now }
    ensures { IfOk result (λ clauses. clauses ≡ formula atoms.now.problem.now steps.now) }
{
    let mut clauses = ClauseSet::new(alloc);
    add_values(alloc, atoms, &mut clauses)?;
    for step in steps {
        add_step(alloc, atoms, step, &mut clauses)?;
    }
    Ok(clauses)
}

/// Adds the clause of each variable.
fn add_values(alloc: Global, atoms: &Atoms<'_>, clauses: &mut ClauseSet) -> Result<(), AllocError>
    requires { AreAtoms atoms.now }
    ensures { OnOk result (clauses.new ≡ with_clauses clauses.old (value_clauses atoms.now.problem.now)) }
{
    for var in 0..atoms.problem.vars() {
        let clause = value_clause(alloc, atoms, var)?;
        clauses.add(clause)?;
    }
    Ok(())
}

/// The clause that says that the variable has one of the values of its domain.
fn value_clause(alloc: Global, atoms: &Atoms<'_>, var: u32) -> Result<Vec<i32>, AllocError>
    requires atoms { AreAtoms atoms.now }
    requires var { var < length atoms.now.problem.now.domains }
    ensures { IfOk result (λ clause. clause.items ≡ value_clause (csp_of atoms.now.problem.now) var) }
{
    let domain = atoms.problem.domain(var);
    let mut clause = Vec::new(alloc);
    for place in 0..domain.len() {
        let value = domain.value(place);
        clause.push(atoms.has_value(Pair { var, value }))?;
    }
    Ok(clause)
}

/// Adds the clauses of a step.
fn add_step(
    alloc: Global,
    atoms: &Atoms<'_>,
    step: &Step,
    clauses: &mut ClauseSet,
) -> Result<(), AllocError>
    requires atoms { AreAtoms atoms.now }
    requires step { IsStepIn atoms.now.problem.now step.now }
    ensures { OnOk result (clauses.new ≡ with_clauses clauses.old (step_clauses atoms.now.problem.now step.now)) }
{
    match step.variable {
        Some(var) => add_reasons(alloc, atoms, step, var, clauses),
        None => clauses.add(Vec::new(alloc)),
    }
}

/// Adds the clauses of a step's reasons at this variable.
fn add_reasons(
    alloc: Global,
    atoms: &Atoms<'_>,
    step: &Step,
    var: u32,
    clauses: &mut ClauseSet,
) -> Result<(), AllocError>
    requires atoms { AreAtoms atoms.now }
    requires step { IsStepIn atoms.now.problem.now step.now }
    requires var { step.now.variable ≡ Some var }
    ensures { OnOk result (clauses.new ≡ with_clauses clauses.old (step_clauses atoms.now.problem.now step.now)) }
{
    let domain = atoms.problem.domain(var);
    for (place, reason) in step.reasons.items().iter().enumerate() {
        let value = domain.value(place);
        let given = WithPair {
            nogood: &step.nogood,
            pair: Pair { var, value },
        };
        add_reason(alloc, atoms, given, *reason, clauses)?;
    }
    Ok(())
}

/// Adds the clause of a reason, if it has one, where these pairs hold.
fn add_reason(
    alloc: Global,
    atoms: &Atoms<'_>,
    given: WithPair<'_>,
    reason: Reason,
    clauses: &mut ClauseSet,
) -> Result<(), AllocError>
    requires atoms { AreAtoms atoms.now }
    requires reason { IsReasonIn atoms.now.problem.now reason }
    ensures { OnOk result (clauses.new ≡ with_clauses clauses.old (reason_clauses atoms.now.problem.now (given_by given.entry) reason)) }
{
    match reason {
        Reason::Rule(rule) => {
            let clause = rule_clause(alloc, atoms, given, rule)?;
            clauses.add(clause)
        }
        Reason::Earlier(_) => Ok(()),
    }
}

/// The clause that says that the variables of the rule's scope have not all the values of these pairs.
fn rule_clause(
    alloc: Global,
    atoms: &Atoms<'_>,
    given: WithPair<'_>,
    rule: u32,
) -> Result<Vec<i32>, AllocError>
    requires atoms { AreAtoms atoms.now }
    requires rule { rule < length atoms.now.problem.now.rules }
    ensures { IfOk result (λ clause. clause.items ≡ exclusion (csp_of atoms.now.problem.now) (given_by given.entry) (constraint_at atoms.now.problem.now rule).scope) }
{
    let mut clause = Vec::new(alloc);
    for var in atoms.problem.scope(rule) {
        clause.push(atoms.lacks_value(pair_given(given, *var)))?;
    }
    Ok(clause)
}

/// The variable with the value that these pairs give it; with 0 where they give none.
fn pair_given(given: WithPair<'_>, var: u32) -> Pair
    ensures var { result.var ≡ var }
    ensures value { result.value ≡ filled (given_by given.entry) var }
{
    if var == given.pair.var {
        return given.pair;
    }
    let value = given.nogood.value_of(var).unwrap_or(0);
    Pair { var, value }
}

/// The clause of a nogood: its pairs do not hold together.
pub fn nogood_clause(
    alloc: Global,
    atoms: &Atoms<'_>,
    nogood: &Nogood,
) -> Result<Vec<i32>, AllocError>
    requires atoms { AreAtoms atoms.now }
    requires pairs { All (λ pair. pair.var < length atoms.now.problem.now.domains) nogood.now }
    ensures { IfOk result (λ clause. clause.items ≡ nogood_clause (csp_of atoms.now.problem.now) nogood.now) }
{
    let mut clause = Vec::new(alloc);
    for pair in nogood.pairs() {
        clause.push(atoms.lacks_value(*pair))?;
    }
    Ok(clause)
}

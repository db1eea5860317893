//! What clauses say, and what the promises of these lines keep.

ghost use Rattle.std.specs.Prelude.{ℕ, List};
ghost use Rattle.dcsp_script.specs.Clauses.{IsLawful};
ghost use Rattle.line_cnf.specs.Satisfying.{RulesAreClauses, SolutionsSatisfy, RefutationsAreProofs};
ghost use Rattle.line_cnf.specs.RupPromise.{rup_promise};
ghost use Rattle.line_cnf.specs.CnfPromise.{cnf_promise};

/// A rule that is a clause is true exactly where its clause has a true literal, a variable being true where its
/// value is 1. So a solution of a formula's problem satisfies the formula.
pub fn clauses_say_rules()
    ensures rules { RulesAreClauses }
    ensures solutions { SolutionsSatisfy }
{}

/// The clauses of a refutation's steps are a proof: each step has one reason for 0 and one for 1, which is a clause
/// that is false or forces the other value, so unit propagation comes to a conflict.
pub fn refutations_are_proofs()
    ensures { RefutationsAreProofs }
{}

/// Each promise keeps what every line of words keeps.
pub fn promises_are_lawful()
    ensures rup { (cnf proof : List ℕ) → IsLawful (rup_promise cnf proof) }
    ensures cnf { (cnf proof : List ℕ) (seed : ℕ) → IsLawful (cnf_promise cnf proof seed) }
{}

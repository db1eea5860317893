//! The clauses of a DIMACS text.
ghost use Rattle.std.specs.Prelude.{◌≡◌, ℕ, ◌+◌, ◌<◌, ◌≤◌, ◌^◌, ◌∷◌, ◌++◌, List, [], length, OnOk, OnErr, IfOk, IfErr, IfSome, unsigned_abs, Err, All, pos, replicate, take};
ghost use Rattle.dcsp_common.specs.Limits.{most};
ghost use Rattle.dcsp_common.specs.declared.limits.Which.TheVariants.{Variables};
ghost use Rattle.dcsp_rule.specs.Rules.{IsTermOf};
ghost use Rattle.dcsp_rule.specs.declared.aim.Aim.TheVariants.{Satisfy};
ghost use Rattle.cnf_front.specs.Clauses.{IsClauseRule};
ghost use Rattle.cnf_front.specs.Dimacs.{words};
ghost use Rattle.cnf_front.specs.declared.words.Stand.TheVariants.{Start};
ghost use Rattle.cnf_front.specs.Formulas.{with_clause, with_last, with_word, literal_in, clauses_from, problem_of, only_variables, terms_so_far, no_literals, Gives};

use crate::header::{CnfError, is_end, literal_in, read_header};
use crate::words::{Rest, Stand, next_word};
use dcsp_problem::{
    BuildError, ConstraintKind, Domain, MembersRef, Problem, ProblemBuilder, RuleRef, Term,
};
use std::alloc::Global;

/// The problem of a DIMACS text: each variable has the domain 0, 1, and each clause is a rule, `bool_clause` of its
/// positive and its negated variables in their order. There is no output.
///
/// `Syntax` comes exactly at the first word that is not as the format wants it, or at the text's end where the header
/// is incomplete; `Limit` exactly where a limit would be passed: `Variables` at the header's number, and `Elements`,
/// `Rules`, `Terms`, tried in this order, at the word that ends the clause, or at the text's end. The first of them in
/// the text decides. A word `%` ends the text. A text has at most 16,777,216 bytes.
///
/// The text is let go before the index of the problem is made, so the two never stand in memory together.
pub fn cnf_of(alloc: Global, text: Vec<u8>) -> Result<Problem, CnfError>
    requires { length text.items ≤ 16777216 }
    ensures exact { Gives (λ problem. problem) result (problem_of text.items) }
    ensures clauses { IfOk result (λ problem. All IsClauseRule problem.rules) }
{
    let built = builder_of(alloc, &text)?;
    drop(text);
    Ok(built.finish()?)
}

/// Reads the header and the clauses, and builds the problem up to its index.
#[tactic(auto, unfolding(crate::specs::Formulas::problem_of))]
fn builder_of(alloc: Global, text: &[u8]) -> Result<ProblemBuilder, CnfError>
    requires { length text.now ≤ 16777216 }
    ensures { Gives (λ problem. problem) result (problem_of text.now) }
{
    let start = Rest {
        stand: Stand::Start,
        at: 0,
        bytes: text,
    };
    let (variables, rest) = read_header(start)?;
    let mut builder = ProblemBuilder::new(alloc);
    add_variables(alloc, &mut builder, variables)?;
    read_clauses(alloc, &mut builder, variables, rest)?;
    Ok(builder)
}

/// Reads the clauses up to the text's end.
fn read_clauses(
    alloc: Global,
    builder: &mut ProblemBuilder,
    variables: u32,
    from: Rest,
) -> Result<(), CnfError>
    requires place { from.at + length from.bytes.now < 2 ^ 32 }
    requires domains { length builder.old.domains ≡ variables }
    requires few { variables ≤ most Variables }
    ensures { Gives (λ _. builder.new) result (clauses_from variables builder.old no_literals (words from.entry.stand from.entry.at from.entry.bytes.now)) }
{
    let mut clause = Open {
        positive: Vec::new(alloc),
        negative: Vec::new(alloc),
    };
    let mut here = from;
    loop {
        let (word, rest) = next_word(here);
        let at = word.at as u32;
        if is_end(word.bytes) {
            return close_last(builder, &mut clause, at);
        }
        let literal = literal_in(variables, word.bytes);
        if let Err(error) = read_word(builder, &mut clause, literal, at) {
            return Err(error);
        }
        here = rest;
    }
}

/// Closes the clause at the text's end, if it has a literal.
fn close_last(builder: &mut ProblemBuilder, clause: &mut Open, at: u32) -> Result<(), CnfError>
    requires positive { All (IsTermOf (length builder.old.domains)) clause.old.positive.items }
    requires negative { All (IsTermOf (length builder.old.domains)) clause.old.negative.items }
    ensures { Gives (λ _. builder.new) result (with_last at builder.old (terms_so_far clause.old.positive.items clause.old.negative.items)) }
{
    if clause.positive.len() == 0 && clause.negative.len() == 0 {
        return Ok(());
    }
    close_clause(builder, clause, at)
}

/// Adds so many variables with the domain 0, 1. It refuses only for want of memory.
fn add_variables(
    alloc: Global,
    builder: &mut ProblemBuilder,
    variables: u32,
) -> Result<(), CnfError>
    requires domains { builder.old.domains ≡ [] }
    requires rules { builder.old.rules ≡ [] }
    requires outputs { builder.old.outputs ≡ [] }
    requires aim { builder.old.aim ≡ Satisfy }
    ensures added { OnOk result (builder.new ≡ only_variables variables) }
    ensures refusal { OnErr result (result ≡ Err CnfError.Memory) }
{
    for _variable in 0..variables {
        let Ok(domain) = Domain::range(alloc, 0, 1) else {
            return Err(CnfError::Memory);
        };
        if builder.add_var(domain).is_err() {
            return Err(CnfError::Memory);
        }
    }
    Ok(())
}

/// The terms of a clause that is being read.
#[derive(Drop)]
struct Open {
    positive: Vec<Term>,
    negative: Vec<Term>,
}

/// Makes the clause the next rule, and begins the next one.
fn close_clause(builder: &mut ProblemBuilder, clause: &mut Open, at: u32) -> Result<(), CnfError>
    requires positive { All (IsTermOf (length builder.old.domains)) clause.old.positive.items }
    requires negative { All (IsTermOf (length builder.old.domains)) clause.old.negative.items }
    ensures given { Gives (λ _. builder.new) result (with_clause at builder.old (terms_so_far clause.old.positive.items clause.old.negative.items)) }
    ensures positive { OnOk result (clause.new.positive.items ≡ []) }
    ensures negative { OnOk result (clause.new.negative.items ≡ []) }
    ensures domains { OnOk result (builder.new.domains ≡ builder.old.domains) }
{
    let rule = RuleRef::Plain {
        kind: ConstraintKind::BoolClause,
        scalars: &[],
        first: &clause.positive,
        second: &clause.negative,
        members: MembersRef::Listed(&[]),
    };
    match builder.add_lent(rule) {
        Ok(_) => {
            clause.positive.clear();
            clause.negative.clear();
            Ok(())
        }
        Err(BuildError::Limit { which, count }) => Err(CnfError::Limit { which, count, at }),
        Err(BuildError::WideSum) => Err(CnfError::Memory),
        Err(BuildError::Memory) => Err(CnfError::Memory),
    }
}

/// Adds a literal to the clause, or closes it at 0.
fn read_word(
    builder: &mut ProblemBuilder,
    clause: &mut Open,
    literal: Option<i32>,
    at: u32,
) -> Result<(), CnfError>
    requires literal { IfSome literal (λ z. unsigned_abs z ≤ length builder.old.domains) }
    requires positive { All (IsTermOf (length builder.old.domains)) clause.old.positive.items }
    requires negative { All (IsTermOf (length builder.old.domains)) clause.old.negative.items }
    ensures given { Gives (λ _. (builder.new, terms_so_far clause.new.positive.items clause.new.negative.items)) result (with_word at builder.old (terms_so_far clause.old.positive.items clause.old.negative.items) literal) }
    ensures domains { OnOk result (builder.new.domains ≡ builder.old.domains) }
    ensures positive { OnOk result (All (IsTermOf (length builder.new.domains)) clause.new.positive.items) }
    ensures negative { OnOk result (All (IsTermOf (length builder.new.domains)) clause.new.negative.items) }
{
    let Some(literal) = literal else {
        return Err(CnfError::Syntax { at });
    };
    if literal == 0 {
        return close_clause(builder, clause, at);
    }
    let term = Term::Var(literal.unsigned_abs() - 1);
    if literal > 0 {
        add_term(&mut clause.positive, term)
    } else {
        add_term(&mut clause.negative, term)
    }
}

fn add_term(terms: &mut Vec<Term>, term: Term) -> Result<(), CnfError>
    ensures added { OnOk result (terms.new.items ≡ terms.old.items ++ term ∷ []) }
    ensures refusal { IfErr result (λ e. e ≡ CnfError.Memory) }
{
    terms.push(term)?;
    Ok(())
}

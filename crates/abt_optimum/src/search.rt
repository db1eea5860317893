//! Searches.

ghost use Rattle.std.specs.Prelude.{◌≡◌, ◌≢◌, ◌↔◌, ◌<◌, ◌≤◌, [], ◌∷◌, ◌++◌, length, true, false, IfOk, IsTrue};
ghost use Rattle.dcsp_domain.specs.Sets.{IsRising};
ghost use Rattle.dcsp_rule.specs.Rules.{value_under, IsTermOf, IsAimOf};
ghost use Rattle.abt_optimum.specs.Best.{assigned, aim_value};
ghost use Rattle.abt_optimum.specs.Rounds.{aim_values, better_than, is_done, known_of, most_rounds, round_problem};
ghost use Rattle.abt_optimum.specs.Searches.{end_at, next_better, round_after, values_after, EndsRightly, IsSearch};
ghost use Rattle.abt_optimum.specs.Outcomes.{BeginsRefuted, EndsCapped, IsBestEnd};
ghost use Rattle.abt_optimum.specs.Kept.{end_of, TellsAim};

use crate::best::{Best, BestEnd};
use crate::halves::next_value;
use crate::round::{Known, Round, is_open};
use abt_defs::End;
use dcsp_common::Memory;
use dcsp_domain::IntList;
use dcsp_problem::{Aim, Problem, Term};
use std::alloc::Global;
use std::marker::Model;

/// A search for the best value of what a problem aims at, after some of its rounds.
#[derive(Drop)]
pub struct Search<'p> {
    problem: &'p Problem,
    /// Whether the rounds go by halves.
    halves: bool,
    /// The rounds that have ended. There is room for all that there may be.
    rounds: Vec<Round>,
    /// The values of the last round that was solved.
    values: Option<IntList>,
}

impl<'p> Model for Search<'p> {
    ghost use Rattle.std.specs.Prelude.{vec_capacity};
    ghost use Rattle.abt_optimum.specs.Searches.{SearchState};
    ghost use Rattle.abt_optimum.specs.Kept.{shown, IsKept};

    ghost Value = { SearchState };

    ghost view = { λ s. shown s.problem.now s.halves s.rounds.items s.values };

    ghost invariant = { λ s. IsKept (vec_capacity s.rounds) (shown s.problem.now s.halves s.rounds.items s.values) };
}

impl<'p> Search<'p> {
    /// A search of which no round has ended, by halves or not. It takes memory for as many rounds as there may be:
    /// one more than the aim's variable has values, or one where the aim is at a constant. The other calls take none.
    pub fn new(alloc: Global, problem: &'p Problem, halves: bool) -> Result<Search<'p>, Memory>
        requires { problem.now.aim ≢ Aim.Satisfy }
        ensures problem { IfOk result (λ search. search.problem ≡ problem.now) }
        ensures halves { IfOk result (λ search. search.halves ≡ halves) }
        ensures rounds { IfOk result (λ search. search.rounds ≡ []) }
        ensures values { IfOk result (λ search. search.values ≡ None) }
    {
        let Ok(rounds) = Vec::with_capacity(alloc, most_rounds(problem)) else {
            return Err(Memory);
        };
        Ok(Search {
            problem,
            halves,
            rounds,
            values: None,
        })
    }

    /// Whether the last round that has ended is the last of all. A search that is not done has fewer rounds than
    /// there may be.
    pub fn done(&self) -> bool
        ensures done { result ≡ is_done self.now.problem.aim self.now.rounds }
        ensures search { IsSearch self.now }
        ensures few { length self.now.rounds ≤ most_rounds self.now.problem }
        ensures room { result ≡ false → length self.now.rounds < most_rounds self.now.problem }
    {
        is_done(self.problem.aim(), &self.rounds)
    }

    /// The value that the next round is to better; `None` exactly for the first.
    pub fn better(&self) -> Option<i64>
        requires { is_done self.now.problem.aim self.now.rounds ≡ false }
        ensures better { result ≡ next_better self.now }
        ensures first { (result ≡ None) ↔ (self.now.rounds ≡ []) }
    {
        better_than(self.problem, self.halves, known(&self.rounds))
    }

    /// Takes how the next round ended: the one on the whole problem, narrowed to what is better than `better()`
    /// where that is given. The values that solve it are in the order of the variables.
    pub fn ended(&mut self, end: End<IntList>)
        requires goes_on { is_done self.old.problem.aim self.old.rounds ≡ false }
        requires right { EndsRightly (round_problem self.old.problem (next_better self.old)) end }
        ensures problem { self.new.problem ≡ self.old.problem }
        ensures halves { self.new.halves ≡ self.old.halves }
        ensures rounds { self.new.rounds ≡ self.old.rounds ++ round_after self.old end ∷ [] }
        ensures values { self.new.values ≡ values_after self.old.values end }
    {
        let better = self.better();
        let known = known(&self.rounds);
        let end = keep(end, self.problem.aim(), &mut self.values);
        self.rounds.push_reserved(Round { known, better, end });
    }

    /// What the search found.
    ///
    /// `Optimal` has a solution, and no solution has a better value; where the aim is at a variable, the last round
    /// was to better its value and was refuted. `NoSolution` comes exactly where the first round was refuted, and
    /// `Open` exactly where the last one was spent or capped, with the values of the round before it, if any.
    pub fn outcome(self) -> Best
        requires { is_done self.problem.aim self.rounds ≡ true }
        ensures end { IsBestEnd self.entry result.end }
        ensures no_solution { BeginsRefuted self.entry.rounds ↔ (result.end ≡ BestEnd.NoSolution) }
        ensures capped { EndsCapped self.entry.rounds ↔ (result.end ≡ BestEnd.Open self.entry.values) }
        ensures rounds { result.rounds ≡ length self.entry.rounds }
        ensures few { result.rounds ≤ most_rounds self.entry.problem }
    {
        let rounds = self.rounds.len() as u64;
        let end = best_end(ends_capped(&self.rounds), self.values);
        Best { end, rounds }
    }
}

/// How many rounds there may be: one more than the aim's variable has values, or one where it is at none.
fn most_rounds(problem: &Problem) -> usize
    ensures most { result ≡ most_rounds problem.now }
    ensures aim { IsAimOf (length problem.now.domains) problem.now.aim }
    ensures rising { IsRising (aim_values problem.now) }
{
    match problem.aim().variable() {
        Some(var) => problem.domain(var).len() + 1,
        None => 1,
    }
}

/// Whether these rounds are the whole search.
fn is_done(aim: Aim, rounds: &[Round]) -> bool
    ensures { result ≡ is_done aim rounds.now }
{
    match rounds.last() {
        Some(round) => round.is_last(aim),
        None => false,
    }
}

/// What is known after these rounds.
fn known(rounds: &[Round]) -> Known
    ensures { result ≡ known_of rounds.now }
{
    match rounds.last() {
        Some(round) => round.known_after(),
        None => Known::at_first(),
    }
}

/// The value that the round is to better which follows where this is known.
fn better_than(problem: &Problem, halves: bool, known: Known) -> Option<i64>
    ensures { result ≡ better_than problem.now halves known }
{
    let best = known.best?;
    match problem.aim().variable() {
        Some(var) => {
            let domain = problem.domain(var);
            Some(next_value(halves, problem.aim(), domain, best, known.limit))
        }
        None => Some(best),
    }
}

/// The value of what is aimed at; 0 where any solution is wanted.
fn aim_value(aim: Aim, values: &[i64]) -> i64
    requires { IsAimOf (length values.now) aim }
    ensures { result ≡ aim_value aim (assigned values.now) }
{
    match aim {
        Aim::Satisfy => 0,
        Aim::Least(term) | Aim::Greatest(term) => value_of(term, values),
    }
}

fn value_of(term: Term, values: &[i64]) -> i64
    requires { IsTermOf (length values.now) term }
    ensures { result ≡ value_under (assigned values.now) term }
{
    match term {
        Term::Const(value) => value,
        Term::Var(var) => values[var as usize],
    }
}

/// Keeps the values of a round that was solved, and tells how it ended.
fn keep(end: End<IntList>, aim: Aim, values: &mut Option<IntList>) -> End<i64>
    requires { TellsAim aim end }
    ensures end { result ≡ end_at aim end }
    ensures values { values.new ≡ values_after values.old end }
{
    match end {
        End::Solved(solution) => {
            let value = aim_value(aim, solution.items());
            *values = Some(solution);
            End::Solved(value)
        }
        End::Refuted => End::Refuted,
        End::Spent => End::Spent,
        End::Capped => End::Capped,
    }
}

/// Whether the last of the rounds was spent or capped.
fn ends_capped(rounds: &[Round]) -> bool
    ensures { IsTrue result ↔ EndsCapped rounds.now }
{
    match rounds.last() {
        Some(round) => is_open(round.end),
        None => false,
    }
}

/// What is known when a search is over, whose last round was spent or capped, or not.
fn best_end(capped: bool, values: Option<IntList>) -> BestEnd
    ensures { result ≡ end_of capped values }
{
    if capped {
        return BestEnd::Open(values);
    }
    match values {
        Some(values) => BestEnd::Optimal(values),
        None => BestEnd::NoSolution,
    }
}

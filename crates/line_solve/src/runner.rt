//! A search on its way.

ghost use Rattle.std.specs.Prelude.{◌≡◌, ◌≢◌, ◌<◌, ◌≤◌, ◌+◌, ◌^◌, ◌&&◌, ◌==◌, false, true, length, IfOk, OnOk, OnErr, Err, is_some, if◌then◌else◌};
ghost use Rattle.dcsp_outside.specs.Outside.{Place, Stream};
ghost use Rattle.dcsp_order.specs.Told.{Fits};
ghost use Rattle.abt_session.specs.Ordering.{order_in, IsOrderedRightly};
ghost use Rattle.dcsp_script.specs.Outsides.{world};
ghost use Rattle.dcsp_script.specs.Ways.{Wrote};
ghost use Rattle.law_runs.specs.Replay.{Verdicts};
ghost use Rattle.abt_session.specs.Sessions.{run_of, run_script};
ghost use Rattle.abt_session.specs.Running.{kept, Gives};
ghost use Rattle.abt_optimum.specs.Rounds.{is_done, round_problem};
ghost use Rattle.abt_optimum.specs.Searches.{next_better, EndsRightly, IsSearch};
ghost use Rattle.line_solve.specs.Asking.{round_of, search_of};
ghost use Rattle.line_solve.specs.Searching.{next_session, round_count, with_round};
ghost use Rattle.line_solve.specs.BestAnswers.{found};
ghost use Rattle.line_solve.specs.SearchScripts.{line_script, round_script, rounds_script};

use crate::answer::{Searched, put_found, put_round};
use abt_optimum::Search;
use abt_schedule::{ChoiceList, Seeded};
use abt_session::{Ordered, Outcome, RunTask, run};
use dcsp_outside::{Folder, Sink};
use dcsp_problem::{Aim, Problem};
use dcsp_script::{Outside, Stop};
use line_replay::Solve;
use std::alloc::Global;

/// A search on its way.
#[derive(Drop)]
pub struct SearchRunner<'p> {
    pub alloc: Global,
    pub search: Search<'p>,
    /// How many rounds have ended.
    pub rounds: u64,
    /// How many deliveries they made.
    pub deliveries: u64,
    /// How many steps the last of them made.
    pub steps: u64,
    /// The numbers of the first one, where a record is asked for.
    pub taken: ChoiceList,
}

impl<'p> SearchRunner<'p> {
    ghost use Rattle.line_solve.specs.Runners.{HasMade, IsFresh, Tells};

    /// A search of which no round has ended.
    pub fn new(alloc: Global, problem: &'p Problem, halves: bool) -> Result<SearchRunner<'p>, Stop>
        requires { problem.now.aim ≢ Aim.Satisfy }
        ensures fresh { IfOk result (IsFresh problem.now halves) }
        ensures only_memory { OnErr result (result ≡ Err Stop.Memory) }
    {
        let Ok(search) = Search::new(alloc, problem, halves) else {
            return Err(Stop::Memory);
        };
        Ok(SearchRunner {
            alloc,
            search,
            rounds: 0,
            deliveries: 0,
            steps: 0,
            taken: ChoiceList::new(alloc),
        })
    }

    /// Makes all rounds.
    pub fn run<'w, F: Folder, S: Sink>(
        &mut self,
        model: Ordered<'w>,
        line: Solve<'w>,
        outside: &mut Outside<F, S>,
    ) -> Result<(), Stop>
        requires fresh { IsFresh model.problem.now line.options.halves self.old }
        requires few { line.options.choices ≤ 2 ^ 40 }
        requires model { IsOrderedRightly model }
        ensures wrote { let asked = search_of model.entry line.entry in
            Wrote (rounds_script asked (round_count asked))
            (world F.place S.stream outside.old) (world F.place S.stream outside.new) result }
        ensures made { let asked = search_of model.entry line.entry in
            OnOk result (HasMade asked (round_count asked) self.new) }
    {
        while !self.search.done() {
            self.make_round(model, line, outside)?;
        }
        Ok(())
    }

    /// Makes the round that follows: its line is put, where traces are asked for, then it is run, and then its
    /// solution is put, where each one is asked for.
    fn make_round<'w, F: Folder, S: Sink>(
        &mut self,
        model: Ordered<'w>,
        line: Solve<'w>,
        outside: &mut Outside<F, S>,
    ) -> Result<(), Stop>
        requires made { let asked = search_of model line in
            HasMade asked self.old.rounds self.old }
        requires goes_on { is_done self.old.search.problem.aim self.old.search.rounds ≡ false }
        requires few { self.old.rounds < 2 ^ 20 }
        requires choices { line.options.choices ≤ 2 ^ 40 }
        requires model { IsOrderedRightly model }
        ensures wrote { let asked = search_of model.entry line.entry in
            Wrote (round_script asked self.old.rounds)
            (world F.place S.stream outside.old) (world F.place S.stream outside.new) result }
        ensures made { let asked = search_of model.entry line.entry in
            OnOk result (HasMade asked (self.old.rounds + 1) self.new) }
    {
        put_round(
            self.alloc,
            line.options.trace,
            self.rounds + 1,
            &mut outside.out,
        )?;
        let outcome = self.run_next(model, line, outside)?;
        put_found(
            self.alloc,
            line.options.each,
            model.problem,
            &outcome.end,
            &mut outside.out,
        )?;
        self.count(outcome);
        Ok(())
    }

    /// Runs the problem of the round that follows, narrowed to better values than the one that it is to better.
    fn run_next<'w, F: Folder, S: Sink>(
        &self,
        model: Ordered<'w>,
        line: Solve<'w>,
        outside: &mut Outside<F, S>,
    ) -> Result<Outcome, Stop>
        requires goes_on { is_done self.now.search.problem.aim self.now.search.rounds ≡ false }
        requires few { self.now.rounds < 2 ^ 20 }
        requires rounds { self.now.rounds ≡ length self.now.search.rounds }
        requires problem { self.now.search.problem ≡ model.problem.now }
        requires model { IsOrderedRightly model }
        requires choices { line.options.choices ≤ 2 ^ 40 }
        ensures wrote { let s = next_session (search_of model.entry line.entry) self.now.search in
            Wrote (run_script s) (world F.place S.stream outside.old) (world F.place S.stream outside.new) result }
        ensures tells { let asked = search_of model.entry line.entry in
            IfOk result (Tells (next_session asked self.now.search)) }
        ensures numbers { let asked = search_of model.entry line.entry in
            IfOk result (λ outcome. outcome.numbers ≡ kept (is_some asked.set.record_file && self.now.rounds == 0) (run_of (next_session asked self.now.search)).numbers) }
    {
        match self.search.better() {
            None => self.run_on(model, line, outside),
            Some(better) => {
                let Ok(narrowed) = model.problem.narrowed(better) else {
                    return Err(Stop::Memory);
                };
                let next = Ordered {
                    problem: &narrowed,
                    order: model.order,
                };
                self.run_on(next, line, outside)
            }
        }
    }

    /// Runs the problem of the round that follows, under the choices of the seed anew.
    fn run_on<'w, F: Folder, S: Sink>(
        &self,
        model: Ordered<'w>,
        line: Solve<'w>,
        outside: &mut Outside<F, S>,
    ) -> Result<Outcome, Stop>
        requires choices { line.options.choices ≤ 2 ^ 40 }
        requires few { self.now.rounds < 2 ^ 20 }
        requires fits { Fits (order_in model) model.problem.now }
        ensures wrote { Wrote (run_script (round_of model.entry line.entry (self.now.rounds + 1)))
            (world F.place S.stream outside.old) (world F.place S.stream outside.new) result }
        ensures tells { IfOk result (Tells (round_of model.entry line.entry (self.now.rounds + 1))) }
        ensures numbers { let s = round_of model.entry line.entry (self.now.rounds + 1) in
            IfOk result (λ outcome. outcome.numbers ≡ kept (is_some line.entry.options.record_file && self.now.rounds == 0) (run_of s).numbers) }
    {
        let mut choices = Seeded::new(line.options.seed);
        let task = RunTask {
            model,
            log: line.log,
            most: line.options.choices,
            telling: line.options.telling(Some(self.rounds + 1)),
            keep: self.keeps(line.options.record_file),
        };
        run(self.alloc, task, &mut choices, outside)
    }

    /// Whether the numbers of the round that follows are taken down: of the first alone, where a record is asked for.
    fn keeps(&self, record_file: Option<&str>) -> bool
        ensures { result ≡ (is_some record_file.entry && self.now.rounds == 0) }
    {
        record_file.is_some() && self.rounds == 0
    }

    /// Counts a round that was made.
    fn count(&mut self, outcome: Outcome)
        requires goes_on { is_done self.old.search.problem.aim self.old.search.rounds ≡ false }
        requires right { EndsRightly (round_problem self.old.search.problem (next_better self.old.search)) outcome.end }
        requires few { (self.old.rounds < 2 ^ 62) × (self.old.deliveries + outcome.deliveries < 2 ^ 62) }
        ensures search { self.new.search ≡ with_round self.old.search outcome.end }
        ensures rounds { self.new.rounds ≡ self.old.rounds + 1 }
        ensures deliveries { self.new.deliveries ≡ self.old.deliveries + outcome.deliveries }
        ensures steps { self.new.steps ≡ outcome.steps }
        ensures taken { self.new.taken ≡ (if self.old.rounds == 0 then outcome.numbers else self.old.taken) }
    {
        let Outcome {
            end,
            deliveries,
            steps,
            numbers,
        } = outcome;
        if self.rounds == 0 {
            self.taken = numbers;
        }
        self.rounds += 1;
        self.deliveries += deliveries;
        self.steps = steps;
        self.search.ended(end);
    }

    /// What the search found, and how much work it was.
    pub fn finish(self) -> Searched
        requires over { is_done self.search.problem.aim self.search.rounds ≡ true }
        requires search { IsSearch self.search }
        ensures found { result.best.end ≡ found self.entry.search }
        ensures rounds { result.best.rounds ≡ length self.entry.search.rounds }
        ensures work { (result.deliveries ≡ self.entry.deliveries) × (result.steps ≡ self.entry.steps) }
    {
        Searched {
            best: self.search.outcome(),
            deliveries: self.deliveries,
            steps: self.steps,
        }
    }
}

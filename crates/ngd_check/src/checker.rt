//! A checker of entries that come one by one.

ghost use Rattle.std.specs.Prelude.{◌≡◌, ◌↔◌, IsTrue, IfOk, [], ◌∷◌, ◌++◌, true, false, None, Some, List, OnOk, OnErr};
ghost use Rattle.dcsp_defs.specs.Csp.{HasNoSolution};
ghost use Rattle.dcsp_rule.specs.Problems.{csp_of};
ghost use Rattle.dcsp_defs.specs.declared.entry.Entry.{Entry};
ghost use Rattle.dcsp_defs.specs.declared.entry.Entry.TheVariants.{Step as A_step, Delete};
ghost use Rattle.ngd_log.specs.Lent.{lent_entries};
ghost use Rattle.ngd_check.specs.Findings.{IsFindingOf};
ghost use Rattle.ngd_check.specs.Citing.{IsRightCiting};
ghost use Rattle.ngd_check.specs.Places.{ArePlaced};
ghost use Rattle.ngd_check.specs.Progress.{HasTaken, HasKept, AreRightSteps, kept_at};
ghost use Rattle.ngd_check.specs.Tables.{IsClear};

use crate::Finding;
use crate::kept::Kept;
use crate::kept_steps::KeptSteps;
use crate::places::place_each;
use crate::present::Present;
use crate::step::is_right_by;
use dcsp_common::Memory;
use dcsp_problem::Problem;
use ngd_log::{Lent, LentStep};
use ngd_store::Placed;
use std::alloc::Global;
use std::marker::Model;

/// Takes the entries of a log one by one, and tells what is found of those taken.
///
/// It keeps the nogoods of the steps that no deletion has named, 4 bytes a pair and 8 bytes a step, and
/// nothing else of an entry, unless steps are to be kept. It keeps the allocator that it was made with.
#[derive(Drop)]
pub struct Checker<'p> {
    /// The number of the problem's variables.
    vars: u32,
    kept: Kept<'p>,
    /// The values of the present step's pairs.
    present: Present,
    /// The present step's pairs with the places of their values.
    placed: Vec<Placed>,
    /// Whether the last step has the empty nogood.
    ends_empty: bool,
    /// What is found of the first wrong entry.
    wrong: Option<Finding>,
}

impl<'p> Model for Checker<'p> {
    ghost use Rattle.ngd_check.specs.Progress.{Progress, progress_of, IsAtRest};

    ghost Value = { Progress };

    ghost view = { λ checker. progress_of checker.kept checker.ends_empty checker.wrong };

    ghost invariant = { λ checker. IsAtRest checker.vars checker.kept.problem checker.present };
}

impl<'p> Checker<'p> {
    /// A checker that has taken no entry. It takes no memory. Where `keeps` is set, it keeps the steps that it takes,
    /// up to the first wrong entry; else none.
    pub fn new(alloc: Global, problem: &'p Problem, keeps: bool) -> Checker<'p>
        ensures problem { result.problem ≡ problem.now }
        ensures keeps { result.keeps ≡ keeps }
        ensures taken { HasTaken [] result }
        ensures kept { HasKept [] result }
    {
        Checker {
            vars: problem.vars(),
            kept: Kept::new(alloc, problem, keeps),
            present: Present::new(alloc),
            placed: Vec::new(alloc),
            ends_empty: false,
            wrong: None,
        }
    }

    /// Takes the next entry, of which it keeps what it needs. A refusal, which is for want of memory alone, leaves
    /// the checker as it was.
    pub fn take(&mut self, entry: &Lent<'_>) -> Result<(), Memory>
        ensures problem { self.new.problem ≡ self.old.problem }
        ensures keeps { self.new.keeps ≡ self.old.keeps }
        ensures taken { (entries : List Entry) → HasTaken entries self.old → OnOk result (HasTaken (entries ++ lent_entries (Some entry.now)) self.new) }
        ensures kept { (entries : List Entry) → HasKept entries self.old → OnOk result (HasKept (entries ++ lent_entries (Some entry.now)) self.new) }
        ensures err { OnErr result (self.new ≡ self.old) }
    {
        if self.wrong.is_some() {
            return Ok(());
        }
        match entry {
            Lent::Step(step) => self.take_step(step),
            Lent::Delete(numbers) => self.take_deletion(numbers),
        }
    }

    fn take_step(&mut self, step: &LentStep<'_>) -> Result<(), Memory>
        requires { self.old.wrong ≡ None }
        ensures problem { self.new.problem ≡ self.old.problem }
        ensures keeps { self.new.keeps ≡ self.old.keeps }
        ensures taken { (entries : List Entry) → HasTaken entries self.old → OnOk result (HasTaken (entries ++ A_step step.now ∷ []) self.new) }
        ensures kept { (entries : List Entry) → HasKept entries self.old → OnOk result (HasKept (entries ++ A_step step.now ∷ []) self.new) }
        ensures err { OnErr result (self.new ≡ self.old) }
    {
        let right = is_right_after(&self.kept, &mut self.present, &mut self.placed, step)?;
        if right {
            self.kept.push(&self.placed, step)?;
            self.ends_empty = step.pairs().is_empty();
        } else {
            self.wrong = Some(Finding::BadStep {
                step: self.kept.len() + 1,
            });
        }
        Ok(())
    }

    fn take_deletion(&mut self, numbers: &[u64]) -> Result<(), Memory>
        requires { self.old.wrong ≡ None }
        ensures problem { self.new.problem ≡ self.old.problem }
        ensures keeps { self.new.keeps ≡ self.old.keeps }
        ensures taken { (entries : List Entry) → HasTaken entries self.old → OnOk result (HasTaken (entries ++ Delete numbers.now ∷ []) self.new) }
        ensures kept { (entries : List Entry) → HasKept entries self.old → OnOk result (HasKept (entries ++ Delete numbers.now ∷ []) self.new) }
        ensures err { OnErr result (self.new ≡ self.old) }
    {
        if self.kept.has_each(numbers) {
            return self.kept.drop_each(numbers);
        }
        self.wrong = Some(Finding::BadDeletion {
            after: self.kept.len(),
        });
        Ok(())
    }

    /// What is found of the entries taken. It takes no memory.
    pub fn finding(&self) -> Finding
        ensures exact { (entries : List Entry) → HasTaken entries self.now → IsFindingOf (csp_of self.now.problem) entries result }
        ensures sound { (entries : List Entry) → HasTaken entries self.now → result ≡ Finding.Verified → HasNoSolution (csp_of self.now.problem) }
    {
        match self.wrong {
            Some(finding) => finding,
            None => {
                if self.ends_empty {
                    Finding::Verified
                } else {
                    Finding::NotEmpty
                }
            }
        }
    }

    /// The steps that were taken, where they were kept and each entry was right; none after a wrong entry. It takes no
    /// memory.
    pub fn into_steps(self, alloc: Global) -> KeptSteps<'p>
        ensures kept { AreRightSteps self.entry result }
        ensures none { (entries : List Entry) → HasKept entries self.entry → self.entry.keeps ≡ false → result ≡ [] }
    {
        match self.wrong {
            Some(_) => KeptSteps::none(alloc, self.kept.problem()),
            None => self.kept.into_steps(),
        }
    }
}

/// Whether the step is right, where these nogoods are kept. If it is, `placed` then has its pairs with the
/// places of their values.
fn is_right_after(
    kept: &Kept,
    present: &mut Present,
    placed: &mut Vec<Placed>,
    step: &LentStep<'_>,
) -> Result<bool, Memory>
    requires { IsClear present.old }
    ensures right { IfOk result (λ right. IsTrue right ↔ IsRightCiting (csp_of kept.now.problem) (kept_at kept.now.nogoods) step.now) }
    ensures placed { IfOk result (λ right. IsTrue right → ArePlaced (csp_of kept.now.problem) step.now.nogood placed.new.items) }
    ensures clear { IsClear present.new }
{
    let problem = kept.problem();
    if !place_each(problem, step.pairs(), placed)? {
        return Ok(false);
    }
    is_right_by(problem, kept, present, step)
}

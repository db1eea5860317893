//! A log that is checked as its pieces come.

ghost use Rattle.std.specs.Prelude.{◌≡◌, ℕ, ◌+◌, ◌++◌, [], ◌^◌, ◌≤◌, List, length, OnOk, Ok, Err};
ghost use Rattle.dcsp_defs.specs.Csp.{HasNoSolution};
ghost use Rattle.dcsp_rule.specs.Problems.{csp_of};
ghost use Rattle.abt_input.specs.Inputs.{most_log};
ghost use Rattle.abt_input.specs.Kinds.{ReadsAs};
ghost use Rattle.line_check.specs.Checks.{log_for};
ghost use Rattle.line_check.specs.LogChecks.{HasSameTask, HasGoneOn, HasCome};

use abt_input::CommandError;
use dcsp_common::Memory;
use dcsp_problem::Problem;
use ngd_check::{Checker, Finding, KeptSteps};
use ngd_log::{LogError, LogReader};
use std::alloc::Global;

/// A log of either version that is checked as its pieces come. Its text is not kept; its steps are where the checker
/// keeps them, and no other entry is.
#[derive(Drop)]
pub struct LogCheck<'p> {
    pub alloc: Global,
    pub reader: LogReader,
    pub checker: Checker<'p>,
}

/// What is found of a log, with its steps.
#[derive(Drop)]
pub struct Checked<'p> {
    /// What is found of the log's entries.
    pub finding: Finding,
    /// The log's steps in order, deletions left out, where each entry is right; else none.
    pub steps: KeptSteps<'p>,
}

impl<'p> LogCheck<'p> {
    /// A check of which nothing has come. It takes no memory. Where `keeps` is set, the log's steps are kept.
    pub fn new(alloc: Global, problem: &'p Problem, keeps: bool) -> LogCheck<'p>
        ensures problem { result.checker.problem ≡ problem.now }
        ensures keeps { result.checker.keeps ≡ keeps }
        ensures come { HasCome result [] }
    {
        LogCheck {
            alloc,
            reader: LogReader::new(alloc),
            checker: Checker::new(alloc, problem, keeps),
        }
    }

    /// Takes the entry that the reader lends, if there is one.
    fn take_lent(&mut self) -> Result<(), Memory>
        ensures { OnOk result (HasGoneOn self.old self.new self.old.reader.lent) }
    {
        let Some(entry) = self.reader.lent() else {
            return Ok(());
        };
        self.checker.take(&entry)
    }

    /// Takes the next piece of the log, and checks the entries of the lines that it completes.
    ///
    /// The refusal is for want of memory alone: a bad line stands, and is told at the end.
    pub fn take_piece(&mut self, piece: &[u8]) -> Result<(), Memory>
        requires room { self.old.reader.fed + length piece.now ≤ 2 ^ 63 }
        ensures task { OnOk result (HasSameTask self.old self.new) }
        ensures come { (text : List ℕ) → HasCome self.old text → OnOk result (HasCome self.new (text ++ piece.now)) }
    {
        let mut rest = piece;
        while let Some(others) = self.reader.take_line(rest)? {
            self.take_lent()?;
            rest = others;
        }
        Ok(())
    }

    /// What is found of the log that has come.
    pub fn finding(&self) -> Result<Finding, CommandError>
        ensures found { (log : List ℕ) → HasCome self.now log → length log ≤ most_log → ReadsAs (log_for self.now.checker.problem) log result }
        ensures sound { (log : List ℕ) → HasCome self.now log → result ≡ Ok Finding.Verified → HasNoSolution (csp_of self.now.checker.problem) }
        ensures no_fault { result ≡ Err CommandError.Fault → ⊥ }
    {
        match self.reader.finish() {
            Ok(()) => Ok(self.checker.finding()),
            Err(LogError::Line { number }) => Err(CommandError::LogLine { number }),
            Err(LogError::Memory) => Err(CommandError::Memory),
        }
    }
}

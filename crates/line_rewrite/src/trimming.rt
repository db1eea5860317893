//! The line `core MODEL LOG TRIMMED [--better N]`.

ghost use Rattle.std.specs.Prelude.{◌≡◌, ◌∷◌, ◌++◌, [], length, flat_map, IfOk, OnOk, Ok};
ghost use Rattle.dcsp_outside.specs.Outside.{Place};
ghost use Rattle.dcsp_script.specs.Outsides.{world};
ghost use Rattle.dcsp_script.specs.Scripts.{Put, outside};
ghost use Rattle.dcsp_script.specs.Ways.{Wrote};
ghost use Rattle.ngd_log.specs.Logs.{AreWritable};
ghost use Rattle.dcsp_script.specs.Runs.{CameIn};
ghost use Rattle.abt_input.specs.Errors.{way_of};
ghost use Rattle.line_check.specs.Checks.{finding_text};
ghost use Rattle.line_check.specs.Taking.{taking_of};
ghost use Rattle.line_rewrite.specs.CorePromise.{rule_line, count_line, core_text, core_script, core_promise};
ghost use Rattle.line_rewrite.specs.Trimming.{HoldsCore, CreatesNothing};

use crate::steps::write_steps;
use abt_input::CommandError;
use dcsp_common::push_number;
use dcsp_outside::{Folder, Sink};
use dcsp_problem::Problem;
use dcsp_script::{Outside, Status, Stop, put};
use line_check::{check_and_keep, finding_line, is_verified, take_problem};
use ngd_check::{Finding, KeptSteps};
use ngd_rewrite::{Core, core_of};
use std::alloc::{AllocError, Global};

/// The words of `core`.
#[derive(Clone, Copy)]
pub struct CoreLine<'w> {
    /// The name of the model.
    pub model: &'w str,
    /// The name of the log.
    pub log: &'w str,
    /// The name that the trimmed log is written under.
    pub trimmed: &'w str,
    /// The value at the model's aim than which no solution is to have a better one, where one is given.
    pub better: Option<i64>,
}

/// A problem, the steps of a log that refutes it, and those that its end needs.
#[derive(Clone, Copy)]
struct Refuted<'r, 'p> {
    problem: &'r Problem,
    steps: &'r KeptSteps<'p>,
    core: &'r Core<'r, 'p>,
}

/// Checks the log against the problem that is taken of the model. Where it refutes the problem, the steps that its end needs are written under
/// the new name, renumbered from 1, and the rules that these cite are told, with how many rules and steps are kept.
/// Else the finding is told, and nothing is written. A refusal is that of the model or else of the log, as `check`
/// has it; else an error is a fault or want of memory.
pub fn run_core<F: Folder, S: Sink>(
    alloc: Global,
    outside: &mut Outside<F, S>,
    line: CoreLine<'_>,
) -> Result<Status, CommandError>
    ensures came { CameIn (core_promise (taking_of line.entry.better) line.entry.model.now line.entry.log.now line.entry.trimmed.now)
        (world F.place S.stream outside.old) (world F.place S.stream outside.new) (way_of result) }
    ensures trims { result ≡ Ok Status.Good
        → HoldsCore (taking_of line.entry.better) line.entry.model.now line.entry.log.now line.entry.trimmed.now
        (world F.place S.stream outside.old) (world F.place S.stream outside.new) }
    ensures rejects { result ≡ Ok Status.No
        → CreatesNothing (world F.place S.stream outside.old) (world F.place S.stream outside.new) }
{
    let problem = take_problem(alloc, &mut outside.folder, line.model, line.better)?;
    let checked = check_and_keep(alloc, &mut outside.folder, &problem, line.log)?;
    if !is_verified(checked.finding) {
        reject(checked.finding, &mut outside.out)?;
        return Ok(Status::No);
    }
    let Ok(core) = core_of(alloc, &problem, &checked.steps) else {
        return Err(CommandError::Memory);
    };
    let refuted = Refuted {
        problem: &problem,
        steps: &checked.steps,
        core: &core,
    };
    write_core(alloc, outside, line.trimmed, refuted)?;
    Ok(Status::Good)
}

/// Puts the finding's line on `out`, in one piece.
fn reject<S: Sink>(finding: Finding, out: &mut S) -> Result<(), Stop>
    ensures { (folder : Place) → Wrote (Put (finding_text finding) ∷ [])
        (outside folder (S.stream out.old)) (outside folder (S.stream out.new)) result }
{
    let line = finding_line(finding);
    put(out, line.bytes())
}

/// Writes the trimmed steps under the name, and tells the core.
fn write_core<F: Folder, S: Sink>(
    alloc: Global,
    outside: &mut Outside<F, S>,
    trimmed: &str,
    refuted: Refuted<'_, '_>,
) -> Result<(), Stop>
    requires { AreWritable refuted.core.now.steps }
    ensures { Wrote (core_script trimmed.now refuted.entry.problem.now refuted.entry.steps.now refuted.entry.core.now)
        (world F.place S.stream outside.old) (world F.place S.stream outside.new) result }
{
    write_steps(alloc, &mut outside.folder, trimmed, &refuted.core.steps)?;
    let rules = refuted.problem.rules() as u64;
    tell(
        alloc,
        refuted.core,
        rules,
        refuted.steps.len() as u64,
        &mut outside.out,
    )
}

/// Puts what tells of the core on `out`, in one piece.
fn tell<S: Sink>(
    alloc: Global,
    core: &Core<'_, '_>,
    rules: u64,
    steps: u64,
    out: &mut S,
) -> Result<(), Stop>
    ensures { (folder : Place) → Wrote (Put (core_text rules steps core.now) ∷ [])
        (outside folder (S.stream out.old)) (outside folder (S.stream out.new)) result }
{
    let text = text_of(alloc, core, rules, steps)?;
    put(out, &text)
}

/// A line for each rule of the core, and then how many rules and steps are kept.
fn text_of(
    alloc: Global,
    core: &Core<'_, '_>,
    rules: u64,
    steps: u64,
) -> Result<Vec<u8>, AllocError>
    ensures { IfOk result (λ text. text.items ≡ core_text rules steps core.now) }
{
    let mut text = rule_lines(alloc, core.rules.items())?;
    add_count(&mut text, b"rules", core.rules.len() as u64, rules)?;
    add_count(&mut text, b"steps", core.steps.len() as u64, steps)?;
    Ok(text)
}

/// The lines of the rules.
fn rule_lines(alloc: Global, rules: &[u32]) -> Result<Vec<u8>, AllocError>
    ensures { IfOk result (λ text. text.items ≡ flat_map rule_line rules.now) }
{
    let mut text = Vec::new(alloc);
    for rule in rules {
        add_rule(&mut text, *rule)?;
    }
    Ok(text)
}

/// Adds the line of a rule.
fn add_rule(text: &mut Vec<u8>, rule: u32) -> Result<(), AllocError>
    ensures { OnOk result (text.new.items ≡ text.old.items ++ rule_line rule) }
{
    text.extend_from_slice(b"c")?;
    push_number(text, rule as u64 + 1)?;
    text.extend_from_slice(b"\n")
}

/// Adds the line that tells how many things of this kind are kept of all of them.
fn add_count(text: &mut Vec<u8>, kind: &[u8], kept: u64, total: u64) -> Result<(), AllocError>
    ensures { OnOk result (text.new.items ≡ text.old.items ++ count_line kind.now kept total) }
{
    text.extend_from_slice(b"% ")?;
    text.extend_from_slice(kind)?;
    text.extend_from_slice(b" ")?;
    push_number(text, kept)?;
    text.extend_from_slice(b" of ")?;
    push_number(text, total)?;
    text.extend_from_slice(b"\n")
}

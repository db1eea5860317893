//! Running a drill.

ghost use Rattle.std.specs.Prelude.{◌≡◌, ◌++◌, ◌∷◌, [], IfOk, OnOk};
ghost use Rattle.dcsp_outside.specs.Outside.{Place};
ghost use Rattle.dcsp_script.specs.Scripts.{Put, outside};
ghost use Rattle.dcsp_script.specs.Runs.{CameIn};
ghost use Rattle.abt_input.specs.Errors.{way_of};
ghost use Rattle.line_drill.specs.Drills.{Drill, drill_text, drill_status};
ghost use Rattle.line_drill.specs.DrillPromise.{drill_promise};
ghost use Rattle.line_drill.specs.Outcomes.{is_open_end, told_status, told_text};

use crate::run::{Trial, try_text};
use crate::text::push_run;
use abt_input::CommandError;
use abt_session::{End, Outcome};
use dcsp_common::push_number;
use dcsp_gen::{pigeons, queens, sparse};
use dcsp_outside::Sink;
use dcsp_script::{Status, put};
use line_check::finding_line;
use ngd_check::Finding;
use std::alloc::{AllocError, Global};

/// What a drill gave.
#[derive(Drop)]
struct Told {
    status: Status,
    /// The four lines.
    text: Vec<u8>,
}

/// Whether a run ended without a verdict.
fn is_unfinished(outcome: &Outcome) -> bool
    ensures { result ≡ is_open_end outcome.now.end }
{
    match outcome.end {
        End::Solved(_) | End::Refuted => false,
        End::Spent | End::Capped => true,
    }
}

/// The lines of three runs and of what was found of the last one's log.
fn text_of(
    alloc: Global,
    sparse: &Outcome,
    queens: &Outcome,
    pigeons: &Outcome,
    finding: Finding,
) -> Result<Vec<u8>, AllocError>
    ensures { IfOk result (λ text. text.items ≡ told_text sparse.now queens.now pigeons.now finding) }
{
    let mut text = Vec::new(alloc);
    push_run(&mut text, b"sparse 500 ", sparse)?;
    text.extend_from_slice(b"\n")?;
    push_run(&mut text, b"queens 6 ", queens)?;
    text.extend_from_slice(b"\n")?;
    push_run(&mut text, b"pigeons 5 ", pigeons)?;
    text.extend_from_slice(b" steps ")?;
    push_number(&mut text, pigeons.steps)?;
    text.extend_from_slice(b"\npigeons 5 ")?;
    text.extend_from_slice(finding_line(finding).bytes())?;
    Ok(text)
}

/// The status of three runs.
fn status_of(sparse: &Outcome, queens: &Outcome, pigeons: &Outcome) -> Status
    ensures { result ≡ told_status sparse.now queens.now pigeons.now }
{
    if is_unfinished(sparse) || is_unfinished(queens) || is_unfinished(pigeons) {
        Status::Unfinished
    } else {
        Status::Good
    }
}

/// Runs the three problems, and checks the log of the last.
fn drill(alloc: Global, seed: u64) -> Result<Told, AllocError>
    ensures { IfOk result (λ told. (d : Drill seed) × (told.status ≡ drill_status seed d) × (told.text.items ≡ drill_text seed d)) }
{
    let sparse = try_text(alloc, sparse(alloc, 500, seed), seed)?;
    let queens = try_text(alloc, queens(alloc, 6), seed)?;
    let mut pigeons = try_text(alloc, pigeons(alloc, 5), seed)?;
    let finding = pigeons.check(alloc)?;
    let text = text_of(
        alloc,
        &sparse.outcome,
        &queens.outcome,
        &pigeons.outcome,
        finding,
    )?;
    let status = status_of(&sparse.outcome, &queens.outcome, &pigeons.outcome);
    Ok(Told { status, text })
}

/// Runs a sparse graph of 500 nodes, 6 queens and 5 pigeons under the choices of the seed, checks the log of
/// the last run, and puts four lines that tell of it on `out`, in one piece. The status is `Unfinished` where
/// a run ended without a verdict.
pub fn run_drill<S: Sink>(alloc: Global, seed: u64, out: &mut S) -> Result<Status, CommandError>
    ensures { (folder : Place) → CameIn (drill_promise seed)
        (outside folder (S.stream out.old)) (outside folder (S.stream out.new)) (way_of result) }
{
    let Ok(told) = drill(alloc, seed) else {
        return Err(CommandError::Memory);
    };
    put(out, &told.text)?;
    Ok(told.status)
}

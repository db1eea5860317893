//! Checking a log against a model.

ghost use Rattle.std.specs.Prelude.{◌≡◌, ◌↔◌, true, [], ◌∷◌, Ok};
ghost use Rattle.dcsp_outside.specs.Outside.{Place};
ghost use Rattle.dcsp_script.specs.Outsides.{world};
ghost use Rattle.dcsp_script.specs.Scripts.{Put, outside};
ghost use Rattle.dcsp_script.specs.Ways.{Wrote};
ghost use Rattle.dcsp_script.specs.Runs.{CameIn};
ghost use Rattle.abt_input.specs.Errors.{way_of};
ghost use Rattle.line_check.specs.Checks.{IsRefutedBy, finding_status, finding_text};
ghost use Rattle.line_check.specs.Taking.{taking_of};
ghost use Rattle.line_check.specs.CheckReports.{check_promise};

use crate::asked::take_problem;
use crate::pieces::check_log;
use abt_input::{AnswerLine, CommandError};
use dcsp_outside::{Folder, Sink};
use dcsp_script::{Outside, Status, Stop, put};
use ngd_check::Finding;
use std::alloc::Global;

/// The words of `check`.
#[derive(Clone, Copy)]
pub struct Check<'w> {
    /// The name of the model.
    pub model: &'w str,
    /// The name of the log.
    pub log: &'w str,
    /// The value at the model's aim than which no solution is to have a better one, where one is given.
    pub better: Option<i64>,
}

/// The status of a finding.
pub fn finding_status(finding: Finding) -> Status
    ensures { result ≡ finding_status finding }
{
    match finding {
        Finding::Verified => Status::Good,
        Finding::BadStep { .. } | Finding::BadDeletion { .. } | Finding::NotEmpty => Status::No,
    }
}

/// Whether the log is a refutation.
pub fn is_verified(finding: Finding) -> bool
    ensures { (result ≡ true) ↔ (finding ≡ Finding.Verified) }
{
    match finding {
        Finding::Verified => true,
        Finding::BadStep { .. } | Finding::BadDeletion { .. } | Finding::NotEmpty => false,
    }
}

/// The line that tells a finding.
pub fn finding_line(finding: Finding) -> AnswerLine
    ensures { result ≡ finding_text finding }
{
    match finding {
        Finding::Verified => AnswerLine::of(b"verified\n"),
        Finding::BadStep { step } => AnswerLine::numbered(b"rejected step ", step),
        Finding::BadDeletion { after } => AnswerLine::numbered(
            b"rejected deletion after step ",
            after,
        ),
        Finding::NotEmpty => AnswerLine::of(b"rejected not empty\n"),
    }
}

/// Puts the finding's line on `out`, in one piece.
pub fn tell<S: Sink>(finding: Finding, out: &mut S) -> Result<(), Stop>
    ensures { (folder : Place) → Wrote (Put (finding_text finding) ∷ [])
        (outside folder (S.stream out.old)) (outside folder (S.stream out.new)) result }
{
    let line = finding_line(finding);
    put(out, line.bytes())
}

/// Checks the log against the problem that is taken of the model, and puts the finding's line on `out`.
pub fn run_check<F: Folder, S: Sink>(
    alloc: Global,
    outside: &mut Outside<F, S>,
    line: Check<'_>,
) -> Result<Status, CommandError>
    ensures came { CameIn (check_promise (taking_of line.entry.better) line.entry.model.now line.entry.log.now)
        (world F.place S.stream outside.old) (world F.place S.stream outside.new) (way_of result) }
    ensures verified { result ≡ Ok Status.Good → IsRefutedBy (taking_of line.entry.better) (F.place outside.old.folder).held line.entry.model.now }
{
    let problem = take_problem(alloc, &mut outside.folder, line.model, line.better)?;
    let finding = check_log(alloc, &mut outside.folder, &problem, line.log)?;
    tell(finding, &mut outside.out)?;
    Ok(finding_status(finding))
}

//! Checking the log under a name, piece by piece.

ghost use Rattle.std.specs.Prelude.{◌≡◌, ◌+◌, ◌^◌, ◌≤◌, [], List, OnOk, Ok, Err};
ghost use Rattle.dcsp_outside.specs.Handed.{Handed};
ghost use Rattle.dcsp_outside.specs.Outside.{Rose, SameCounts};
ghost use Rattle.dcsp_script.specs.declared.stop.Stop.{Stop as AStop};
ghost use Rattle.dcsp_defs.specs.Csp.{HasNoSolution};
ghost use Rattle.dcsp_rule.specs.Problems.{csp_of};
ghost use Rattle.abt_input.specs.Files.{HasRead};
ghost use Rattle.line_check.specs.Checks.{log_for};
ghost use Rattle.line_check.specs.LogChecks.{HasSameTask, HasCome, StandsAt, LeadsOn, LeadsToEnd, UnlessFaulted, kept_log};

use crate::log_check::{Checked, LogCheck};
use abt_input::CommandError;
use dcsp_outside::{Folder, FolderError, MOST_PIECE, Piece};
use dcsp_problem::Problem;
use dcsp_script::Stop;
use ngd_check::Finding;
use std::alloc::Global;

/// As many whole pieces have the 2^62 bytes that a log may have.
const MOST_PIECES: u64 = 1 << 46;

/// Checks the next piece of the log under the name: `most` bytes from place `from` on.
fn check_piece<F: Folder>(
    folder: &mut F,
    name: &str,
    from: u64,
    most: usize,
    check: &mut LogCheck,
) -> Result<Piece, Stop>
    requires some { 1 ≤ most }
    requires few { most ≤ MOST_PIECE }
    requires place { from ≤ 2 ^ 62 }
    requires stands { (start : List Handed) × StandsAt (F.place folder.old).held start (F.place folder.old).handed name.now from check.old }
    ensures leads { (start : List Handed) → StandsAt (F.place folder.old).held start (F.place folder.old).handed name.now from check.old
        → LeadsOn (F.place folder.old).held start (F.place folder.new).handed name.now from most check.new result }
    ensures task { OnOk result (HasSameTask check.old check.new) }
    ensures held { (F.place folder.new).held ≡ (F.place folder.old).held }
    ensures created { (F.place folder.new).created ≡ (F.place folder.old).created }
    ensures counts { UnlessFaulted result (SameCounts (F.place folder.old) (F.place folder.new)) }
    ensures fault { result ≡ Err Stop.Fault → Rose ((F.place folder.old).reads name.now) ((F.place folder.new).reads name.now) }
{
    let mut piece = Vec::new(check.alloc);
    let fetched = match folder.fetch_piece(name, from, most, &mut piece) {
        Ok(fetched) => fetched,
        Err(FolderError::Failed) => return Err(Stop::Fault),
        Err(FolderError::Memory) => return Err(Stop::Memory),
    };
    check.take_piece(&piece)?;
    Ok(fetched)
}

/// Checks the log under the name from its first byte on. `Part` comes exactly where it has more than
/// 2^62 bytes, and `End` where all of them have come.
fn check_pieces<F: Folder>(folder: &mut F, name: &str, check: &mut LogCheck) -> Result<Piece, Stop>
    requires { HasCome check.old [] }
    ensures leads { LeadsToEnd (F.place folder.old) (F.place folder.new) name.now check.new result }
    ensures task { OnOk result (HasSameTask check.old check.new) }
    ensures held { (F.place folder.new).held ≡ (F.place folder.old).held }
    ensures created { (F.place folder.new).created ≡ (F.place folder.old).created }
    ensures counts { UnlessFaulted result (SameCounts (F.place folder.old) (F.place folder.new)) }
    ensures fault { result ≡ Err Stop.Fault → Rose ((F.place folder.old).reads name.now) ((F.place folder.new).reads name.now) }
{
    for place in 0..MOST_PIECES {
        match check_piece(folder, name, place * 65536, MOST_PIECE, check)? {
            Piece::Part => {}
            Piece::End => return Ok(Piece::End),
        }
    }
    // All bytes that are allowed have come: one more is too many.
    check_piece(folder, name, 1 << 62, 1, check)
}

/// What is found of the log under the name for the problem. It is read in pieces to its end, also after a
/// bad line or a wrong entry, and neither its text nor its entries are kept. Nothing is written.
pub fn check_log<F: Folder>(
    alloc: Global,
    folder: &mut F,
    problem: &Problem,
    log: &str,
) -> Result<Finding, CommandError>
    ensures found { HasRead (log_for problem.now) log.now (F.place folder.old) (F.place folder.new) result }
    ensures sound { result ≡ Ok Finding.Verified → HasNoSolution (csp_of problem.now) }
{
    let mut check = LogCheck::new(alloc, problem, false);
    match check_pieces(folder, log, &mut check)? {
        Piece::Part => Err(CommandError::LogLong),
        Piece::End => check.finding(),
    }
}

/// The same as `check_log`, with the log's steps, which are kept as long as each entry is right. Nothing is written.
pub fn check_and_keep<'p, F: Folder>(
    alloc: Global,
    folder: &mut F,
    problem: &'p Problem,
    log: &str,
) -> Result<Checked<'p>, CommandError>
    ensures { HasRead (kept_log problem.now) log.now (F.place folder.old) (F.place folder.new) result }
{
    let mut check = LogCheck::new(alloc, problem, true);
    match check_pieces(folder, log, &mut check)? {
        Piece::Part => Err(CommandError::LogLong),
        Piece::End => match check.finding() {
            Ok(finding) => Ok(Checked {
                finding,
                steps: check.checker.into_steps(alloc),
            }),
            Err(error) => Err(error),
        },
    }
}

//! Reading a model, a log, a schedule, an order, a formula and a proof.

ghost use Rattle.std.specs.Prelude.{◌≡◌, ◌≤◌, Err, IfOk, IfSome, All, length, option_copied};
ghost use Rattle.dcsp_outside.specs.Outside.{Rose, SameCounts};
ghost use Rattle.dcsp_common.specs.declared.limits.Which.TheVariants.{Variables};
ghost use Rattle.dcsp_common.specs.Limits.{most};
ghost use Rattle.cnf_front.specs.Clauses.{IsClauseRule};
ghost use Rattle.abt_input.specs.Kinds.{a_model, a_schedule, an_order, a_formula, a_proof};
ghost use Rattle.abt_input.specs.Files.{HasOrderRead, HasRead, IsRead, UnlessUnread, any_log};

use crate::clauses_error::ClausesError;
use crate::error::{CommandError, cnf_error, model_error};
use crate::order_error::OrderRefusal;
use abt_schedule::{Listed, ScheduleError, read_schedule};
use cnf_front::cnf_of;
use dcsp_order::{Order, OrderError};
use dcsp_outside::{Fetched, Folder, FolderError};
use dcsp_problem::Problem;
use fzn_model::problem_of;
use rup_check::{ClauseList, ProofError};
use std::alloc::Global;

/// The most bytes of a model.
const MOST_MODEL: u64 = 16_777_216;

/// The most bytes of a log.
const MOST_LOG: u64 = 1 << 62;

/// The most bytes of a schedule.
const MOST_SCHEDULE: u64 = 67_108_864;

/// The most bytes of an order.
const MOST_ORDER: u64 = 65_536;

/// The most bytes of a formula.
const MOST_CNF: u64 = 16_777_216;

/// Why there are no bytes.
#[derive(Clone, Copy)]
pub enum Unread {
    /// There are more than are allowed.
    Long,
    /// The folder failed.
    Fault,
    /// Want of memory.
    Memory,
}

/// The bytes under the name, if there are at most `most`.
fn read_file<F: Folder>(
    alloc: Global,
    folder: &mut F,
    name: &str,
    most: u64,
) -> Result<Vec<u8>, Unread>
    ensures read { IsRead (F.place folder.old) (F.place folder.new) name.now most result }
    ensures held { (F.place folder.new).held ≡ (F.place folder.old).held }
    ensures created { (F.place folder.new).created ≡ (F.place folder.old).created }
    ensures counts { UnlessUnread result (SameCounts (F.place folder.old) (F.place folder.new)) }
    ensures fault { result ≡ Err Unread.Fault → Rose ((F.place folder.old).reads name.now) ((F.place folder.new).reads name.now) }
{
    let mut bytes = Vec::new(alloc);
    match folder.fetch(name, most, &mut bytes) {
        Ok(Fetched::Whole) => Ok(bytes),
        Ok(Fetched::Long) => Err(Unread::Long),
        Err(FolderError::Failed) => Err(Unread::Fault),
        Err(FolderError::Memory) => Err(Unread::Memory),
    }
}

/// The problem of the model under the name. Nothing is written.
pub fn read_model<F: Folder>(
    alloc: Global,
    folder: &mut F,
    name: &str,
) -> Result<Problem, CommandError>
    ensures { HasRead a_model name.now (F.place folder.old) (F.place folder.new) result }
{
    match read_file(alloc, folder, name, MOST_MODEL) {
        Ok(text) => match problem_of(alloc, text) {
            Ok(problem) => Ok(problem),
            Err(error) => Err(model_error(error)),
        },
        Err(Unread::Long) => Err(CommandError::ModelLong),
        Err(Unread::Fault) => Err(CommandError::Fault),
        Err(Unread::Memory) => Err(CommandError::Memory),
    }
}

/// The bytes of the log under the name, whatever they are. Nothing is written.
pub fn read_log_text<F: Folder>(
    alloc: Global,
    folder: &mut F,
    name: &str,
) -> Result<Vec<u8>, CommandError>
    ensures { HasRead any_log name.now (F.place folder.old) (F.place folder.new) result }
{
    match read_file(alloc, folder, name, MOST_LOG) {
        Ok(text) => Ok(text),
        Err(Unread::Long) => Err(CommandError::LogLong),
        Err(Unread::Fault) => Err(CommandError::Fault),
        Err(Unread::Memory) => Err(CommandError::Memory),
    }
}

/// The choices of the schedule under the name. Nothing is written.
pub fn read_choices<F: Folder>(
    alloc: Global,
    folder: &mut F,
    name: &str,
) -> Result<Listed, CommandError>
    ensures { HasRead a_schedule name.now (F.place folder.old) (F.place folder.new) result }
{
    match read_file(alloc, folder, name, MOST_SCHEDULE) {
        Ok(text) => match read_schedule(alloc, &text) {
            Ok(choices) => Ok(choices),
            Err(ScheduleError::Line { number }) => Err(CommandError::ScheduleLine { number }),
            Err(ScheduleError::Memory) => Err(CommandError::Memory),
        },
        Err(Unread::Long) => Err(CommandError::ScheduleLong),
        Err(Unread::Fault) => Err(CommandError::Fault),
        Err(Unread::Memory) => Err(CommandError::Memory),
    }
}

/// The order of so many variables under the name. Nothing is written.
fn read_order<F: Folder>(
    alloc: Global,
    folder: &mut F,
    name: &str,
    variables: u32,
) -> Result<Order, CommandError>
    requires { variables ≤ most Variables }
    ensures { HasRead (an_order variables) name.now (F.place folder.old) (F.place folder.new) result }
{
    match read_file(alloc, folder, name, MOST_ORDER) {
        Ok(text) => match dcsp_order::read_order(alloc, &text, variables) {
            Ok(order) => Ok(order),
            Err(OrderError::Line { number }) => Err(CommandError::OrderRefused {
                error: OrderRefusal::Line { number },
            }),
            Err(OrderError::Memory) => Err(CommandError::Memory),
        },
        Err(Unread::Long) => Err(CommandError::OrderRefused {
            error: OrderRefusal::Long,
        }),
        Err(Unread::Fault) => Err(CommandError::Fault),
        Err(Unread::Memory) => Err(CommandError::Memory),
    }
}

/// The order of the problem's variables under the name, where one is named. Nothing is written.
pub fn read_order_of<F: Folder>(
    alloc: Global,
    folder: &mut F,
    name: Option<&str>,
    problem: &Problem,
) -> Result<Option<Order>, CommandError>
    ensures read { HasOrderRead (option_copied name.entry) problem.now (F.place folder.old) (F.place folder.new) result }
    ensures fits { IfOk result (λ order. IfSome order (λ numbers. length numbers ≡ length problem.now.domains)) }
{
    problem.denotes_csp();
    let Some(name) = name else {
        return Ok(None);
    };
    let order = read_order(alloc, folder, name, problem.vars())?;
    Ok(Some(order))
}

/// The problem of the formula under the name: each of its rules is a clause. Nothing is written.
pub fn read_formula<F: Folder>(
    alloc: Global,
    folder: &mut F,
    name: &str,
) -> Result<Problem, CommandError>
    ensures read { HasRead a_formula name.now (F.place folder.old) (F.place folder.new) result }
    ensures clauses { IfOk result (λ problem. All IsClauseRule problem.rules) }
{
    match read_file(alloc, folder, name, MOST_CNF) {
        Ok(text) => match cnf_of(alloc, text) {
            Ok(problem) => Ok(problem),
            Err(error) => Err(cnf_error(error)),
        },
        Err(Unread::Long) => Err(CommandError::Clauses {
            error: ClausesError::CnfLong,
        }),
        Err(Unread::Fault) => Err(CommandError::Fault),
        Err(Unread::Memory) => Err(CommandError::Memory),
    }
}

/// The clauses of the proof under the name. Nothing is written.
pub fn read_proof<F: Folder>(
    alloc: Global,
    folder: &mut F,
    name: &str,
) -> Result<ClauseList, CommandError>
    ensures { HasRead a_proof name.now (F.place folder.old) (F.place folder.new) result }
{
    match read_file(alloc, folder, name, MOST_LOG) {
        Ok(text) => match rup_check::read_proof(alloc, &text) {
            Ok(clauses) => Ok(clauses),
            Err(ProofError::Line { number }) => Err(CommandError::Clauses {
                error: ClausesError::ProofLine { number },
            }),
            Err(ProofError::Memory) => Err(CommandError::Memory),
        },
        Err(Unread::Long) => Err(CommandError::Clauses {
            error: ClausesError::ProofLong,
        }),
        Err(Unread::Fault) => Err(CommandError::Fault),
        Err(Unread::Memory) => Err(CommandError::Memory),
    }
}

//! Why a command gave no answer, and what is said of it.

ghost use Rattle.std.specs.Prelude.{◌≡◌};
ghost use Rattle.abt_input.specs.Errors.{cnf_error, model_error, stop_error, error_status, error_text};

use crate::clauses_error::{ClausesError, clauses_line, clauses_status};
use crate::line::AnswerLine;
use crate::model_text::refusal_line;
use crate::order_error::{OrderRefusal, order_refusal_line};
use cnf_front::CnfError;
use dcsp_script::{Status, Stop};
use fzn_model::{ModelError, Refusal};
use std::alloc::AllocError;

/// Why a command gave no answer.
#[derive(Clone, Copy, Debug, PartialEq, Eq)]
pub enum CommandError {
    /// The model has more than 16,777,216 bytes.
    ModelLong,
    /// The model has no problem, and this is why.
    ModelRefused { refusal: Refusal },
    /// The model has a problem, and what it wants of a solution is at no variable, where a better value is asked for.
    NoAim,
    /// The log has more than 2^62 bytes.
    LogLong,
    /// The text is no log, and this is its first bad line, counted from 1.
    LogLine { number: u64 },
    /// The schedule has more than 67,108,864 bytes.
    ScheduleLong,
    /// The text is no schedule, and this is its first bad line, counted from 1.
    ScheduleLine { number: u64 },
    /// The order of a model's variables was refused.
    OrderRefused { error: OrderRefusal },
    /// The formula was refused, or the proof about it.
    Clauses { error: ClausesError },
    /// The folder or a stream failed.
    Fault,
    /// Want of memory.
    Memory,
}

impl From<AllocError> for CommandError {
    ghost use Rattle.abt_input.specs.declared.error.CommandError.TheVariants.{Memory};

    ghost from_gives = { λ _ e. e ≡ Memory };

    fn from(_refused: AllocError) -> CommandError {
        CommandError::Memory
    }
}

impl From<Stop> for CommandError {
    ghost use Rattle.abt_input.specs.Errors.{stop_error};

    ghost from_gives = { λ stop e. e ≡ stop_error stop };

    fn from(stop: Stop) -> CommandError {
        stop_error(stop)
    }
}

/// The error of a command that was stopped.
pub fn stop_error(stop: Stop) -> CommandError
    ensures { result ≡ stop_error stop }
{
    match stop {
        Stop::Fault => CommandError::Fault,
        Stop::Memory => CommandError::Memory,
    }
}

/// The error of a command whose model's reader gives this error.
pub(crate) fn model_error(error: ModelError) -> CommandError
    ensures { result ≡ model_error error }
{
    match error {
        ModelError::Memory => CommandError::Memory,
        ModelError::Refused(refusal) => CommandError::ModelRefused { refusal },
    }
}

/// The error of a command whose formula's reader gives this error.
pub(crate) fn cnf_error(error: CnfError) -> CommandError
    ensures { result ≡ cnf_error error }
{
    match error {
        CnfError::Memory => CommandError::Memory,
        refused => CommandError::Clauses {
            error: ClausesError::CnfRefused { error: refused },
        },
    }
}

/// The status of a command that gave no answer.
pub fn error_status(error: CommandError) -> Status
    ensures { result ≡ error_status error }
{
    match error {
        CommandError::ModelLong | CommandError::ModelRefused { .. } | CommandError::NoAim => {
            Status::Model
        }
        CommandError::LogLong
        | CommandError::LogLine { .. }
        | CommandError::ScheduleLong
        | CommandError::ScheduleLine { .. }
        | CommandError::OrderRefused { .. } => Status::Input,
        CommandError::Clauses { error } => clauses_status(error),
        CommandError::Fault => Status::Fault,
        CommandError::Memory => Status::Memory,
    }
}

/// The line that says why a command gave no answer.
pub fn error_line(error: CommandError) -> AnswerLine
    ensures { result ≡ error_text error }
{
    match error {
        CommandError::ModelLong => AnswerLine::of(b"abt: model: too long\n"),
        CommandError::ModelRefused { refusal } => refusal_line(refusal),
        CommandError::NoAim => AnswerLine::of(b"abt: model: no aim\n"),
        CommandError::LogLong => AnswerLine::of(b"abt: log: too long\n"),
        CommandError::LogLine { number } => AnswerLine::numbered(b"abt: log: line ", number),
        CommandError::ScheduleLong => AnswerLine::of(b"abt: schedule: too long\n"),
        CommandError::ScheduleLine { number } => AnswerLine::numbered(
            b"abt: schedule: line ",
            number,
        ),
        CommandError::OrderRefused { error } => order_refusal_line(error),
        CommandError::Clauses { error } => clauses_line(error),
        CommandError::Fault => AnswerLine::of(b"abt: fault\n"),
        CommandError::Memory => AnswerLine::of(b"abt: memory\n"),
    }
}

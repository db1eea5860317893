//! Why a formula or a proof was refused, and what is said of it.

ghost use Rattle.std.specs.Prelude.{◌≡◌};
ghost use Rattle.abt_input.specs.ClausesErrors.{clauses_status, clauses_text, cnf_error_text};

use crate::line::AnswerLine;
use crate::model_text::{limit_line, placed, reached_line};
use cnf_front::CnfError;
use dcsp_script::Status;
use fzn_model::Which;

/// Why a formula or a proof was refused.
#[derive(Clone, Copy, Debug, PartialEq, Eq)]
pub enum ClausesError {
    /// The formula has more than 16,777,216 bytes.
    CnfLong,
    /// The text is no formula, and this is why. It is never want of memory.
    CnfRefused { error: CnfError },
    /// The formula that is to be written would have `count` of these, which is more than a formula may have.
    CnfLimit { which: Which, count: u128 },
    /// The proof has more than 2^62 bytes.
    ProofLong,
    /// The text is no proof, and this is its first bad line, counted from 1.
    ProofLine { number: u64 },
}

/// The status of a command whose formula or proof was refused.
pub(crate) fn clauses_status(error: ClausesError) -> Status
    ensures { result ≡ clauses_status error }
{
    match error {
        ClausesError::CnfLong | ClausesError::CnfRefused { .. } | ClausesError::CnfLimit { .. } => {
            Status::Model
        }
        ClausesError::ProofLong | ClausesError::ProofLine { .. } => Status::Input,
    }
}

/// The line that says why a formula or a proof was refused.
pub(crate) fn clauses_line(error: ClausesError) -> AnswerLine
    ensures { result ≡ clauses_text error }
{
    match error {
        ClausesError::CnfLong => AnswerLine::of(b"abt: cnf: too long\n"),
        ClausesError::CnfRefused { error } => cnf_error_line(error),
        ClausesError::CnfLimit { which, count } => {
            reached_line(b"abt: cnf: limit ", which, count)
        }
        ClausesError::ProofLong => AnswerLine::of(b"abt: proof: too long\n"),
        ClausesError::ProofLine { number } => AnswerLine::numbered(b"abt: proof: line ", number),
    }
}

/// The line that tells why a text is no formula.
fn cnf_error_line(error: CnfError) -> AnswerLine
    ensures { result ≡ cnf_error_text error }
{
    match error {
        CnfError::Syntax { at } => placed(b"abt: cnf: syntax at ", at),
        CnfError::Limit { which, count, at } => {
            limit_line(b"abt: cnf: limit ", which, count, at)
        }
        CnfError::Memory => AnswerLine::of(b"abt: memory\n"),
    }
}

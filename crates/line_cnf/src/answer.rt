//! How a formula's run ended, as text.

ghost use Rattle.std.specs.Prelude.{◌≡◌, ◌<◌, ◌++◌, [], ◌∷◌, length, OnOk};
ghost use Rattle.std.specs.Fmt.{signed_decimal};
ghost use Rattle.dcsp_outside.specs.Outside.{Place};
ghost use Rattle.dcsp_script.specs.Scripts.{Put, outside};
ghost use Rattle.dcsp_script.specs.Ways.{Wrote};
ghost use Rattle.rup_check.specs.ProofText.{clause_line, literal_text};
ghost use Rattle.line_replay.specs.Outcomes.{outcome_status};
ghost use Rattle.line_cnf.specs.CnfRuns.{deliveries_text, value_literal, value_literals};
ghost use Rattle.line_cnf.specs.CnfOutcomes.{end_text, outcome_text};

use abt_session::{End, IntList, Outcome};
use dcsp_common::{push_number, push_signed};
use dcsp_outside::Sink;
use dcsp_script::{Status, Stop, put};
use std::alloc::{AllocError, Global};

/// The status of an end.
pub fn status_of(end: &End<IntList>) -> Status
    ensures { result ≡ outcome_status end.now }
{
    match end {
        End::Solved(_) => Status::Good,
        End::Refuted => Status::No,
        End::Spent | End::Capped => Status::Unfinished,
    }
}

/// Puts how the run ended, in one piece: whether the formula can be satisfied, by which literals, and how many
/// deliveries were made.
pub fn tell<S: Sink>(alloc: Global, outcome: &Outcome, out: &mut S) -> Result<(), Stop>
    ensures { (folder : Place) → Wrote (Put (outcome_text outcome.now) ∷ [])
        (outside folder (S.stream out.old)) (outside folder (S.stream out.new)) result }
{
    let mut text = Vec::new(alloc);
    push_outcome(outcome, &mut text)?;
    put(out, &text)
}

fn push_outcome(outcome: &Outcome, into: &mut Vec<u8>) -> Result<(), AllocError>
    ensures { OnOk result (into.new.items ≡ into.old.items ++ outcome_text outcome.now) }
{
    push_end(&outcome.end, into)?;
    into.extend_from_slice(b"c deliveries ")?;
    push_number(into, outcome.deliveries)?;
    into.extend_from_slice(b"\n")
}

/// The lines of an end.
fn push_end(end: &End<IntList>, into: &mut Vec<u8>) -> Result<(), AllocError>
    ensures { OnOk result (into.new.items ≡ into.old.items ++ end_text end.now) }
{
    match end {
        End::Solved(values) => {
            into.extend_from_slice(b"s SATISFIABLE\nv ")?;
            push_values(values.items(), into)
        }
        End::Refuted => into.extend_from_slice(b"s UNSATISFIABLE\n"),
        End::Spent | End::Capped => into.extend_from_slice(b"s UNKNOWN\n"),
    }
}

/// The literals that are true of the values, in order, and 0.
fn push_values(values: &[i64], into: &mut Vec<u8>) -> Result<(), AllocError>
    ensures { OnOk result (into.new.items ≡ into.old.items ++ clause_line (value_literals values.now)) }
{
    for variable in 0..values.len() {
        push_literal(values, variable, into)?;
    }
    into.extend_from_slice(b"0\n")
}

/// The literal that is true of the value of the variable with this number, counted from 0.
fn value_literal(values: &[i64], variable: usize) -> i64
    requires { variable < length values.now }
    ensures { result ≡ value_literal values.now variable }
{
    let number = variable as i64 + 1;
    if values[variable] == 1 {
        number
    } else {
        -number
    }
}

/// The literal that is true of the value of this variable, and a space.
fn push_literal(values: &[i64], variable: usize, into: &mut Vec<u8>) -> Result<(), AllocError>
    requires { variable < length values.now }
    ensures { OnOk result (into.new.items ≡ into.old.items ++ literal_text (value_literal values.now variable)) }
{
    push_signed(into, value_literal(values, variable))?;
    into.extend_from_slice(b" ")
}

//! Telling the message bound of a model.

ghost use Rattle.std.specs.Prelude.{◌≡◌, [], ◌∷◌, IfOk, option_copied};
ghost use Rattle.dcsp_outside.specs.Outside.{Place};
ghost use Rattle.dcsp_rule.specs.Problems.{csp_of};
ghost use Rattle.dcsp_script.specs.Outsides.{world};
ghost use Rattle.dcsp_script.specs.Scripts.{Put, outside};
ghost use Rattle.dcsp_script.specs.Ways.{Wrote};
ghost use Rattle.dcsp_script.specs.Runs.{CameIn};
ghost use Rattle.dcsp_order.specs.Told.{ordered, Fits};
ghost use Rattle.abt_defs.specs.Bound.{message_bound};
ghost use Rattle.abt_input.specs.Errors.{way_of};
ghost use Rattle.line_model.specs.BoundReports.{bound_line, bound_promise, in_128_bits};

use crate::agents_bound::message_bound;
use abt_input::{AnswerLine, CommandError, read_model, read_order_of};
use dcsp_common::Memory;
use dcsp_order::{Order, moved};
use dcsp_outside::{Folder, Sink};
use dcsp_problem::Problem;
use dcsp_script::{Outside, Status, Stop, put};
use itoa::Buffer;
use std::alloc::Global;

/// The words of `bound`.
#[derive(Clone, Copy)]
pub struct Bound<'w> {
    /// The name of the model.
    pub model: &'w str,
    /// The name of the order, where one is given.
    pub order_file: Option<&'w str>,
}

/// The line that tells a bound, `None` for one above 2^128 - 1.
fn bound_line(bound: Option<u128>) -> AnswerLine
    ensures { result ≡ bound_line bound }
{
    match bound {
        Some(bound) => {
            let mut digits = Buffer::new();
            AnswerLine::of(b"bound ")
                .with(digits.format(bound).as_bytes())
                .with(b"\n")
        }
        None => AnswerLine::of(b"bound over\n"),
    }
}

/// Puts the bound's line on `out`, in one piece.
fn tell<S: Sink>(bound: Option<u128>, out: &mut S) -> Result<(), Stop>
    ensures { (folder : Place) → Wrote (Put (bound_line bound) ∷ [])
        (outside folder (S.stream out.old)) (outside folder (S.stream out.new)) result }
{
    let line = bound_line(bound);
    put(out, line.bytes())
}

/// The message bound of the problem under the order, or of the problem as it stands where none is given.
fn bound_under(
    alloc: Global,
    order: Option<&Order>,
    problem: &Problem,
) -> Result<Option<u128>, Memory>
    requires { Fits (option_copied order) problem.now }
    ensures { IfOk result (λ bound. bound ≡ in_128_bits (message_bound (csp_of (ordered (option_copied order.entry) problem.now)))) }
{
    let moved = moved(alloc, order, problem)?;
    let run = moved.as_ref().unwrap_or(problem);
    Ok(message_bound(run))
}

/// Puts the line that tells the message bound of the model on `out`, under the order where one is named.
pub fn run_bound<F: Folder, S: Sink>(
    alloc: Global,
    outside: &mut Outside<F, S>,
    line: Bound<'_>,
) -> Result<Status, CommandError>
    ensures { CameIn (bound_promise line.entry.model.now (option_copied line.entry.order_file))
        (world F.place S.stream outside.old) (world F.place S.stream outside.new) (way_of result) }
{
    let problem = read_model(alloc, &mut outside.folder, line.model)?;
    let order = read_order_of(alloc, &mut outside.folder, line.order_file, &problem)?;
    let Ok(bound) = bound_under(alloc, order.as_ref(), &problem) else {
        return Err(CommandError::Memory);
    };
    tell(bound, &mut outside.out)?;
    Ok(Status::Good)
}

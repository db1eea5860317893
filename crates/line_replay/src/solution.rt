//! The text of a solution: a line for each output, in the order of declaration, and a last line.
//!
//! A variable's line is `x = 3;` or `b = true;`, an array's is `a = array1d(1..3, [1, 2, 3]);`, with
//! a range for each of its dimensions. The last line is `----------`.

ghost use Rattle.std.specs.Prelude.{◌≡◌, ℕ, ℤ, pos, ◌<◌, ◌≤◌, ◌++◌, length, All, map, flat_map, codes, decimal, slice_index_or, IfOk, OnOk, IsErrOf};
ghost use Rattle.dcsp_rule.specs.Rules.{IsTermOf, value_under};
ghost use Rattle.dcsp_problem.specs.Outputs.{IsOutputOf};
ghost use Rattle.dcsp_outside.specs.Outside.{AddsPartOf, Rose, Told, UnlessPutFailed};
ghost use Rattle.line_replay.specs.Solutions.{value_text, values_text, range_text, laid_out, output_line, solution_text};

use dcsp_common::{Memory, push_number, push_signed};
use dcsp_outside::{Sink, SinkError};
use dcsp_problem::{Output, Problem, Shape, Term};
use std::alloc::{AllocError, Global};

/// Puts the text of a solution, the values in the order of the variables, as one piece. It is refused as
/// `put` is; then some first bytes of the text, or none, were written.
pub fn write_solution<S: Sink>(
    alloc: Global,
    problem: &Problem,
    values: &[i64],
    out: &mut S,
) -> Result<(), SinkError>
    requires { length values.now ≡ length problem.now.domains }
    ensures ok { OnOk result (Told (S.stream out.old).written (S.stream out.new).written
        (λ old new. new ≡ old ++ solution_text problem.now (λ var. slice_index_or values.now var (pos 0)))) }
    ensures failed { IsErrOf result SinkError.Failed → Told (S.stream out.old).written (S.stream out.new).written
        (AddsPartOf (solution_text problem.now (λ var. slice_index_or values.now var (pos 0)))) }
    ensures memory { IsErrOf result SinkError.Memory → (S.stream out.new).written ≡ (S.stream out.old).written }
    ensures faults { (S.stream out.old).faults ≤ (S.stream out.new).faults }
    ensures count { UnlessPutFailed result ((S.stream out.new).faults ≡ (S.stream out.old).faults) }
    ensures cause { IsErrOf result SinkError.Failed → Rose (S.stream out.old).faults (S.stream out.new).faults }
{
    let mut text = Vec::new(alloc);
    if push_solution(problem, values, &mut text).is_err() {
        return Err(SinkError::Memory);
    }
    out.put(&text)
}

/// Appends the text of a solution, the values in the order of the variables. After a refusal some
/// first bytes of it may stand there.
pub fn push_solution(problem: &Problem, values: &[i64], into: &mut Vec<u8>) -> Result<(), Memory>
    requires { length values.now ≡ length problem.now.domains }
    ensures { OnOk result (into.new.items ≡ into.old.items ++ solution_text problem.now (λ var. slice_index_or values.now var (pos 0))) }
{
    push_outputs(problem, values, into)?;
    into.extend_from_slice(b"----------\n")?;
    Ok(())
}

/// The lines of all outputs.
fn push_outputs(problem: &Problem, values: &[i64], into: &mut Vec<u8>) -> Result<(), AllocError>
    requires { length values.now ≡ length problem.now.domains }
    ensures { OnOk result (into.new.items ≡ into.old.items ++ flat_map (output_line (λ var. slice_index_or values.now var (pos 0))) problem.now.outputs) }
{
    let _variables = problem.vars();
    for place in 0..problem.outputs() {
        push_output(problem.output(place), values, into)?;
    }
    Ok(())
}

fn push_output(output: &Output, values: &[i64], into: &mut Vec<u8>) -> Result<(), AllocError>
    requires { IsOutputOf (length values.now) output.now }
    ensures { OnOk result (into.new.items ≡ into.old.items ++ output_line (λ var. slice_index_or values.now var (pos 0)) output.now) }
{
    into.extend_from_slice(output.name.items())?;
    into.extend_from_slice(b" = ")?;
    push_laid_out(output, values, into)?;
    into.extend_from_slice(b";\n")
}

fn push_laid_out(output: &Output, values: &[i64], into: &mut Vec<u8>) -> Result<(), AllocError>
    requires { All (IsTermOf (length values.now)) output.now.terms }
    ensures { OnOk result (into.new.items ≡ into.old.items ++ laid_out output.now.shape (values_text (λ var. slice_index_or values.now var (pos 0)) output.now)) }
{
    match &output.shape {
        Shape::One => push_values(output, values, into),
        Shape::Ranges(ranges) => {
            push_ranges(ranges.items(), into)?;
            push_values(output, values, into)?;
            into.extend_from_slice(b"])")
        }
    }
}

/// What stands before the values of an array.
fn push_ranges(ranges: &[(i64, i64)], into: &mut Vec<u8>) -> Result<(), AllocError>
    ensures { OnOk result (into.new.items ≡ into.old.items ++ (codes "array" ++ decimal (length ranges.now) ++ codes "d(" ++ flat_map range_text ranges.now ++ codes "[")) }
{
    into.extend_from_slice(b"array")?;
    push_number(into, ranges.len() as u64)?;
    into.extend_from_slice(b"d(")?;
    for range in ranges {
        push_range(*range, into)?;
    }
    into.extend_from_slice(b"[")
}

fn push_range(range: (i64, i64), into: &mut Vec<u8>) -> Result<(), AllocError>
    ensures { OnOk result (into.new.items ≡ into.old.items ++ range_text range) }
{
    push_signed(into, range.0)?;
    into.extend_from_slice(b"..")?;
    push_signed(into, range.1)?;
    into.extend_from_slice(b", ")
}

fn push_values(output: &Output, values: &[i64], into: &mut Vec<u8>) -> Result<(), AllocError>
    requires { All (IsTermOf (length values.now)) output.now.terms }
    ensures { OnOk result (into.new.items ≡ into.old.items ++ values_text (λ var. slice_index_or values.now var (pos 0)) output.now) }
{
    match output.terms.items() {
        [] => Ok(()),
        [first, later @ ..] => {
            push_value(output.boolean, value_of(*first, values), into)?;
            push_later_values(output.boolean, later, values, into)
        }
    }
}

/// The values of further terms, each after a comma.
fn push_later_values(
    boolean: bool,
    terms: &[Term],
    values: &[i64],
    into: &mut Vec<u8>,
) -> Result<(), AllocError>
    requires { All (IsTermOf (length values.now)) terms.now }
    ensures { OnOk result (into.new.items ≡ into.old.items ++ flat_map (λ term. codes ", " ++ value_text boolean (value_under (λ var. slice_index_or values.now var (pos 0)) term)) terms.now) }
{
    for term in terms {
        into.extend_from_slice(b", ")?;
        push_value(boolean, value_of(*term, values), into)?;
    }
    Ok(())
}

fn value_of(term: Term, values: &[i64]) -> i64
    requires { IsTermOf (length values.now) term }
    ensures { result ≡ value_under (λ var. slice_index_or values.now var (pos 0)) term }
{
    match term {
        Term::Const(value) => value,
        Term::Var(var) => values[var as usize],
    }
}

fn push_value(boolean: bool, value: i64, into: &mut Vec<u8>) -> Result<(), AllocError>
    ensures { OnOk result (into.new.items ≡ into.old.items ++ value_text boolean value) }
{
    if !boolean {
        return push_signed(into, value);
    }
    if value == 1 {
        return into.extend_from_slice(b"true");
    }
    into.extend_from_slice(b"false")
}

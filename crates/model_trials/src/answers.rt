//! A solution with a number, a truth and arrays of both.

ghost use Rattle.std.specs.Prelude.{◌≡◌, ◌+◌, [], length};

use crate::problems::let_go;
use dcsp_domain::{Domain, RangeList};
use dcsp_outside::{MemorySink, SinkError};
use dcsp_problem::{NameText, Output, Problem, ProblemBuilder, Shape, Term, TermList};
use line_replay::{push_solution, write_solution};
use std::alloc::Global;
use std::process::Abort;

/// Adds a variable with these values.
fn add_variable(
    rt: &impl Abort,
    alloc: Global,
    builder: &mut ProblemBuilder,
    least: i64,
    greatest: i64,
)
    ensures domains { length builder.new.domains ≡ length builder.old.domains + 1 }
    ensures outputs { builder.new.outputs ≡ builder.old.outputs }
{
    let domain = Domain::range(alloc, least, greatest).expect(rt, "a range");
    builder.add_var(domain).expect(rt, "within the limits");
}

/// Three variables, without outputs.
fn variables(rt: &impl Abort, alloc: Global) -> ProblemBuilder
    ensures domains { length result.domains ≡ 3 }
    ensures outputs { result.outputs ≡ [] }
{
    let mut builder = ProblemBuilder::new(alloc);
    add_variable(rt, alloc, &mut builder, 1, 2);
    add_variable(rt, alloc, &mut builder, 0, 1);
    add_variable(rt, alloc, &mut builder, -5, -5);
    builder
}

/// An output of these terms.
fn output(
    rt: &impl Abort,
    alloc: Global,
    name: &[u8],
    boolean: bool,
    shape: Shape,
    terms: &[Term],
) -> Output
    ensures terms { result.terms ≡ terms.now }
    ensures shape { result.shape ≡ shape }
{
    let name = Vec::from_slice(alloc, name).expect(rt, "memory");
    let terms = Vec::from_slice(alloc, terms).expect(rt, "memory");
    Output {
        name: NameText::from_vec(name),
        boolean,
        shape,
        terms: TermList::from_vec(terms),
    }
}

/// Adds two outputs of one value each.
fn add_values(rt: &impl Abort, alloc: Global, builder: &mut ProblemBuilder)
    requires domains { length builder.old.domains ≡ 3 }
    requires outputs { builder.old.outputs ≡ [] }
    ensures domains { builder.new.domains ≡ builder.old.domains }
    ensures outputs { length builder.new.outputs ≡ 2 }
{
    let one = output(rt, alloc, b"b", true, Shape::One, &[Term::Var(1)]);
    builder.add_output(one).expect(rt, "memory");
    let one = output(rt, alloc, b"x_1", false, Shape::One, &[Term::Var(0)]);
    builder.add_output(one).expect(rt, "memory");
}

/// Adds an array of two dimensions.
fn add_matrix(rt: &impl Abort, alloc: Global, builder: &mut ProblemBuilder)
    requires domains { length builder.old.domains ≡ 3 }
    requires outputs { length builder.old.outputs ≡ 2 }
    ensures domains { builder.new.domains ≡ builder.old.domains }
    ensures outputs { length builder.new.outputs ≡ 3 }
{
    let ranges = vec![in alloc; (1, 2), (-1, 0)].expect(rt, "memory");
    let shape = Shape::Ranges(RangeList::from_vec(ranges));
    let terms = [Term::Var(0), Term::Const(7), Term::Var(2), Term::Var(0)];
    let matrix = output(rt, alloc, b"m", false, shape, &terms);
    builder.add_output(matrix).expect(rt, "memory");
}

/// Adds an array of truths.
fn add_truths(rt: &impl Abort, alloc: Global, builder: &mut ProblemBuilder)
    requires domains { length builder.old.domains ≡ 3 }
    requires outputs { length builder.old.outputs ≡ 3 }
    ensures { builder.new.domains ≡ builder.old.domains }
{
    let ranges = vec![in alloc; (1, 2)].expect(rt, "memory");
    let shape = Shape::Ranges(RangeList::from_vec(ranges));
    let truths = output(
        rt,
        alloc,
        b"t",
        true,
        shape,
        &[Term::Const(1), Term::Var(1)],
    );
    builder.add_output(truths).expect(rt, "memory");
}

/// The values 1, 0 and -5 of three variables, told one by one and as an array of two dimensions.
fn told(rt: &impl Abort, alloc: Global) -> Problem
    ensures { length result.domains ≡ 3 }
{
    let mut builder = variables(rt, alloc);
    add_values(rt, alloc, &mut builder);
    add_matrix(rt, alloc, &mut builder);
    add_truths(rt, alloc, &mut builder);
    builder.finish().expect(rt, "memory")
}

const TEXT: &str =
    "b = false;\nx_1 = 1;\nm = array2d(1..2, -1..0, [1, 7, -5, 1]);\nt = array1d(1..2, [true, false]);\n----------\n";

fn expect_text(rt: &impl Abort, text: &[u8]) {
    assert_eq!(rt; text, TEXT.as_bytes());
}

/// Writing the solution has this answer.
fn expect_written(
    rt: &impl Abort,
    alloc: Global,
    problem: &Problem,
    out: &mut MemorySink,
    answer: Result<(), SinkError>,
)
    requires { length problem.now.domains ≡ 3 }
{
    assert_eq!(rt; write_solution(alloc, problem, &[1, 0, -5], out), answer);
}

#[test]
fn tells_a_solution(rt: HostRuntime) {
    let problem = told(&rt, rt.alloc());
    let mut text = Vec::new(rt.alloc());
    assert!(rt; push_solution(&problem, &[1, 0, -5], &mut text).is_ok());
    let_go(problem);
    expect_text(&rt, &text);
}

/// The text was put.
fn expect_put(rt: &impl Abort, out: MemorySink) {
    expect_text(rt, out.bytes());
}

#[test]
fn puts_a_solution(rt: HostRuntime) {
    let problem = told(&rt, rt.alloc());
    let mut out = MemorySink::new(rt.alloc());
    out.fail_at(1).expect(&rt, "memory");
    let failed = Err(SinkError::Failed);
    expect_written(&rt, rt.alloc(), &problem, &mut out, failed);
    expect_written(&rt, rt.alloc(), &problem, &mut out, Ok(()));
    let_go(problem);
    expect_put(&rt, out);
}

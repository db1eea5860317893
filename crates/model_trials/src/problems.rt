//! The smallest problem, by every call once; sums, sets, limits and outputs.

ghost use Rattle.std.specs.Prelude.{◌≡◌, ◌+◌, pos, negsuc, All, IsTrue, [], ◌∷◌, length};
ghost use Rattle.dcsp_meaning.specs.Table.{is_shape};
ghost use Rattle.dcsp_rule.specs.Rules.{IsTermOf, has_shape, terms_of};

use dcsp_problem::{
    Aim, BuildError, ConstraintKind, Domain, IntList, Lookup, Members, NameText, Output, Problem,
    ProblemBuilder, RangeList, Rel, Rule, RuleRef, Shape, Term, TermList, Which,
};
use std::alloc::Global;
use std::process::Abort;

/// Lets a problem go. A value is let go in a function of its own, where nothing else is known: its proof is long
/// where much is.
pub fn let_go(_problem: Problem) {}

/// Adds a variable with the values from 0 to the last.
fn add_variable(rt: &impl Abort, builder: &mut ProblemBuilder, alloc: Global, last: i64)
    ensures count { length builder.new.domains ≡ length builder.old.domains + 1 }
    ensures outputs { builder.new.outputs ≡ builder.old.outputs }
{
    let domain = Domain::range(alloc, 0, last).expect(rt, "a range");
    builder.add_var(domain).expect(rt, "within the limits");
}

/// Two variables with the values from 0 to the last, without outputs.
fn two_variables(rt: &impl Abort, alloc: Global, last: i64) -> ProblemBuilder
    ensures domains { length result.domains ≡ 2 }
    ensures outputs { result.outputs ≡ [] }
{
    let mut builder = ProblemBuilder::new(alloc);
    add_variable(rt, &mut builder, alloc, last);
    add_variable(rt, &mut builder, alloc, last);
    builder
}

/// A list of these terms.
fn terms(rt: &impl Abort, alloc: Global, terms: &[Term]) -> TermList
    ensures { result ≡ terms.now }
{
    TermList::from_vec(Vec::from_slice(alloc, terms).expect(rt, "memory"))
}

/// A list of these numbers.
fn numbers(rt: &impl Abort, alloc: Global, numbers: &[i64]) -> IntList
    ensures { result ≡ numbers.now }
{
    IntList::from_vec(Vec::from_slice(alloc, numbers).expect(rt, "memory"))
}

/// Adds a constraint of two terms.
fn add_pair(
    rt: &impl Abort,
    builder: &mut ProblemBuilder,
    alloc: Global,
    kind: ConstraintKind,
    left: Term,
    right: Term,
)
    requires left { IsTermOf (length builder.old.domains) left }
    requires right { IsTermOf (length builder.old.domains) right }
    requires shape { IsTrue (is_shape kind 2 0 0) }
    ensures { builder.new.domains ≡ builder.old.domains }
{
    let rule = Rule::Plain {
        kind,
        scalars: terms(rt, alloc, &[left, right]),
        first: TermList::new(alloc),
        second: TermList::new(alloc),
        members: Members::Listed(IntList::new(alloc)),
    };
    builder.add_rule(rule).expect(rt, "within the limits");
}

/// Two variables with the values 0 and 1, which differ and are equal; and a false rule without variables.
fn smallest(rt: &impl Abort, alloc: Global) -> Problem {
    let mut builder = two_variables(rt, alloc, 1);
    let (first, second) = (Term::Var(0), Term::Var(1));
    let (three, two) = (Term::Const(3), Term::Const(2));
    add_pair(
        rt,
        &mut builder,
        alloc,
        ConstraintKind::IntNe,
        second,
        first,
    );
    add_pair(
        rt,
        &mut builder,
        alloc,
        ConstraintKind::IntEq,
        first,
        second,
    );
    add_pair(rt, &mut builder, alloc, ConstraintKind::IntEq, three, two);
    builder.finish().expect(rt, "memory")
}

/// A value for the first variable, and perhaps one for the second.
#[derive(Drop)]
struct Two {
    first: i64,
    second: Option<i64>,
}

impl Lookup for Two {
    ghost use Rattle.std.specs.Prelude.{◌==◌, Some, None, if◌then◌else◌};

    ghost values = { λ two var. if var == 0 then Some two.first else (if var == 1 then two.second else None) };

    fn value_of(&self, var: u32) -> Option<i64> {
        match var {
            0 => Some(self.first),
            1 => self.second,
            _ => None,
        }
    }
}

fn expect_scope(rt: &impl Abort, problem: &Problem, rule: u32, scope: &[u32]) {
    assert!(rt; rule < problem.rules());
    assert_eq!(rt; problem.scope(rule), scope);
}

fn expect_owner(rt: &impl Abort, problem: &Problem, rule: u32, owner: Option<u32>) {
    assert!(rt; rule < problem.rules());
    assert_eq!(rt; problem.owner(rule), owner);
}

fn expect_owned(rt: &impl Abort, problem: &Problem, var: u32, rules: &[u32]) {
    assert!(rt; var < problem.vars());
    assert_eq!(rt; problem.owned(var), rules);
}

fn expect_lower_owners(rt: &impl Abort, problem: &Problem, var: u32, owners: &[u32]) {
    assert!(rt; var < problem.vars());
    assert_eq!(rt; problem.lower_owners(var), owners);
}

#[test]
fn tells_scopes_and_owners(rt: HostRuntime) {
    let problem = smallest(&rt, rt.alloc());
    expect_scope(&rt, &problem, 0, &[0, 1]);
    expect_owner(&rt, &problem, 0, Some(1));
    expect_owner(&rt, &problem, 2, None);
    expect_owned(&rt, &problem, 0, &[]);
    expect_owned(&rt, &problem, 1, &[0, 1]);
    let_go(problem);
}

/// The kind of a rule that is no sum.
fn kind_of(rule: RuleRef<'_>) -> Option<ConstraintKind> {
    match rule {
        RuleRef::Plain { kind, .. } => Some(kind),
        RuleRef::Sum { .. } => None,
    }
}

#[test]
fn tells_variables_and_rules(rt: HostRuntime) {
    let problem = smallest(&rt, rt.alloc());
    assert!(rt; problem.vars() == 2);
    assert!(rt; problem.rules() == 3);
    assert_eq!(rt; problem.domain(1).len(), 2);
    assert_eq!(rt; kind_of(problem.rule(0)), Some(ConstraintKind::IntNe));
    let_go(problem);
}

/// Three variables with the values 0 and 1.
fn three_variables(rt: &impl Abort, alloc: Global) -> ProblemBuilder
    ensures { length result.domains ≡ 3 }
{
    let mut builder = two_variables(rt, alloc, 1);
    add_variable(rt, &mut builder, alloc, 1);
    builder
}

/// Three variables, and rules between each two of them in no order, one of them twice.
fn triangle(rt: &impl Abort, alloc: Global) -> Problem {
    let mut builder = three_variables(rt, alloc);
    let (first, second, third) = (Term::Var(0), Term::Var(1), Term::Var(2));
    add_pair(rt, &mut builder, alloc, ConstraintKind::IntNe, third, first);
    add_pair(
        rt,
        &mut builder,
        alloc,
        ConstraintKind::IntNe,
        first,
        second,
    );
    add_pair(rt, &mut builder, alloc, ConstraintKind::IntLe, first, third);
    add_pair(
        rt,
        &mut builder,
        alloc,
        ConstraintKind::IntNe,
        second,
        third,
    );
    builder.set_aim(Aim::Least(third));
    builder.finish().expect(rt, "memory")
}

/// Of a solution of the problem this is wanted.
fn expect_aim(rt: &impl Abort, problem: Problem, aim: Aim) {
    assert_eq!(rt; problem.aim(), aim);
}

#[test]
fn tells_lower_owners_and_aims(rt: HostRuntime) {
    let problem = triangle(&rt, rt.alloc());
    expect_lower_owners(&rt, &problem, 0, &[1, 2]);
    expect_lower_owners(&rt, &problem, 1, &[2]);
    expect_lower_owners(&rt, &problem, 2, &[]);
    expect_aim(&rt, problem, Aim::Least(Term::Var(2)));
    expect_aim(&rt, smallest(&rt, rt.alloc()), Aim::Satisfy);
}

/// A false comparison of two numbers, and a true one.
fn constants(rt: &impl Abort, alloc: Global) -> Problem
    ensures { result.domains ≡ [] }
{
    let mut builder = ProblemBuilder::new(alloc);
    let (three, two) = (Term::Const(3), Term::Const(2));
    add_pair(rt, &mut builder, alloc, ConstraintKind::IntEq, three, two);
    add_pair(rt, &mut builder, alloc, ConstraintKind::IntNe, three, two);
    builder.finish().expect(rt, "memory")
}

#[test]
fn tells_what_holds(rt: HostRuntime) {
    let problem = constants(&rt, rt.alloc());
    assert!(rt; problem.rules() == 2);
    assert!(rt; !problem.rule_holds(0, &[]));
    assert!(rt; problem.rule_holds(1, &[]));
    let_go(problem);
}

fn at(first: i64, second: Option<i64>) -> Two {
    Two { first, second }
}

fn expect_violated(rt: &impl Abort, problem: &Problem, rule: u32, two: &Two, violated: bool) {
    assert!(rt; rule < problem.rules());
    assert_eq!(rt; problem.violated_by(rule, two), violated);
}

#[test]
fn tells_violations(rt: HostRuntime) {
    let problem = smallest(&rt, rt.alloc());
    expect_violated(&rt, &problem, 0, &at(0, Some(0)), true);
    expect_violated(&rt, &problem, 0, &at(0, Some(1)), false);
    expect_violated(&rt, &problem, 0, &at(0, None), false);
    expect_violated(&rt, &problem, 1, &at(0, Some(1)), true);
    expect_violated(&rt, &problem, 1, &at(0, Some(2)), false);
    expect_violated(&rt, &problem, 2, &at(0, None), true);
    let_go(problem);
}

/// How twice the first variable without the second stands to 1.
fn sum(rt: &impl Abort, alloc: Global, rel: Rel, truth: Option<Term>) -> Rule
    ensures { result ≡ Rule.Sum rel (pos 2 ∷ negsuc 0 ∷ []) (Term.Var 0 ∷ Term.Var 1 ∷ []) (Term.Const (pos 1)) truth }
{
    Rule::Sum {
        rel,
        coefs: numbers(rt, alloc, &[2, -1]),
        terms: terms(rt, alloc, &[Term::Var(0), Term::Var(1)]),
        total: Term::Const(1),
        truth,
    }
}

/// Adds a sum of the first two variables.
fn add_sum(
    rt: &impl Abort,
    builder: &mut ProblemBuilder,
    alloc: Global,
    rel: Rel,
    number: Option<i64>,
)
    requires { length builder.old.domains ≡ 2 }
    ensures { builder.new.domains ≡ builder.old.domains }
{
    let rule = match number {
        Some(number) => sum(rt, alloc, rel, Some(Term::Const(number))),
        None => sum(rt, alloc, rel, None),
    };
    builder.add_rule(rule).expect(rt, "within the limits");
}

/// Adds that the first variable is one of these.
fn add_set(rt: &impl Abort, builder: &mut ProblemBuilder, alloc: Global, members: Members)
    requires { length builder.old.domains ≡ 2 }
    ensures { builder.new.domains ≡ builder.old.domains }
{
    let rule = Rule::Plain {
        kind: ConstraintKind::SetIn,
        scalars: terms(rt, alloc, &[Term::Var(0)]),
        first: TermList::new(alloc),
        second: TermList::new(alloc),
        members,
    };
    builder.add_rule(rule).expect(rt, "within the limits");
}

/// Two variables with the values from 0 to 5, two sums and two sets.
fn sums_and_sets(rt: &impl Abort, alloc: Global) -> Problem {
    let mut builder = two_variables(rt, alloc, 5);
    add_sum(rt, &mut builder, alloc, Rel::Equal, None);
    add_sum(rt, &mut builder, alloc, Rel::AtMost, Some(0));
    let between = Members::Between { low: 1, high: 3 };
    add_set(rt, &mut builder, alloc, between);
    let listed = Members::Listed(numbers(rt, alloc, &[5, 1, 5]));
    add_set(rt, &mut builder, alloc, listed);
    builder.finish().expect(rt, "memory")
}

/// A rule, the values of both variables, and whether they violate it.
const VIOLATIONS: [(u32, i64, i64, bool); 8] = [
    (0, 1, 1, false),
    (0, 1, 2, true),
    (1, 1, 1, true),
    (1, 2, 1, false),
    (2, 3, 0, false),
    (2, 4, 0, true),
    (3, 5, 0, false),
    (3, 2, 0, true),
];

#[test]
fn tells_sums_and_sets(rt: HostRuntime) {
    let problem = sums_and_sets(&rt, rt.alloc());
    for (rule, first, second, violated) in &VIOLATIONS {
        let two = at(*first, Some(*second));
        expect_violated(&rt, &problem, *rule, &two, *violated);
    }
    let_go(problem);
}

/// Adds the rule to the builder, and lets both go.
fn added(mut builder: ProblemBuilder, rule: Rule) -> Result<u32, BuildError>
    requires known { All (IsTermOf (length builder.domains)) (terms_of rule) }
    requires shape { IsTrue (has_shape rule) }
{
    builder.add_rule(rule)
}

/// A variable with the one value -2^63.
fn least_value(rt: &impl Abort, alloc: Global) -> ProblemBuilder
    ensures { length result.domains ≡ 1 }
{
    let mut builder = ProblemBuilder::new(alloc);
    let domain = Domain::listed(alloc, &[i64::MIN]).expect(rt, "a set");
    builder.add_var(domain).expect(rt, "within the limits");
    builder
}

/// Adds -2^63 times a variable with the one value -2^63, which is to be at most the total.
fn add_widest(rt: &impl Abort, alloc: Global, total: i64) -> Result<u32, BuildError> {
    let rule = Rule::Sum {
        rel: Rel::AtMost,
        coefs: numbers(rt, alloc, &[i64::MIN]),
        terms: terms(rt, alloc, &[Term::Var(0)]),
        total: Term::Const(total),
        truth: None,
    };
    added(least_value(rt, alloc), rule)
}

#[test]
fn takes_the_widest_sum(rt: HostRuntime) {
    assert!(rt; add_widest(&rt, rt.alloc(), 0) == Ok(0));
    assert!(rt; add_widest(&rt, rt.alloc(), 1) == Err(BuildError::WideSum));
}

/// Adds a set of one value, listed so often, that a constant is in.
fn add_listed(rt: &impl Abort, alloc: Global, often: usize) -> Result<u32, BuildError> {
    let listed = vec![in alloc; 7; often].expect(rt, "memory");
    let rule = Rule::Plain {
        kind: ConstraintKind::SetIn,
        scalars: terms(rt, alloc, &[Term::Const(7)]),
        first: TermList::new(alloc),
        second: TermList::new(alloc),
        members: Members::Listed(IntList::from_vec(listed)),
    };
    added(ProblemBuilder::new(alloc), rule)
}

#[test]
fn counts_a_value_as_often_as_it_is_listed(rt: HostRuntime) {
    assert!(rt; add_listed(&rt, rt.alloc(), 1_048_575) == Ok(0));
    let refused = BuildError::Limit {
        which: Which::Terms,
        count: 1_048_577,
    };
    assert!(rt; add_listed(&rt, rt.alloc(), 1_048_576) == Err(refused));
}

/// A problem with two variables that are told as an array.
fn told(rt: &impl Abort, alloc: Global) -> Problem
    ensures { length result.outputs ≡ 1 }
{
    let mut builder = two_variables(rt, alloc, 1);
    let name = vec![in alloc; b'q'].expect(rt, "memory");
    let ranges = vec![in alloc; (1, 2)].expect(rt, "memory");
    let output = Output {
        name: NameText::from_vec(name),
        boolean: false,
        shape: Shape::Ranges(RangeList::from_vec(ranges)),
        terms: terms(rt, alloc, &[Term::Var(1), Term::Var(0)]),
    };
    builder.add_output(output).expect(rt, "memory");
    builder.finish().expect(rt, "memory")
}

/// The array is told in this range.
fn expect_range(rt: &impl Abort, shape: &Shape, range: (i64, i64)) {
    match shape {
        Shape::Ranges(ranges) => assert!(rt; ranges.items() == [range].as_slice()),
        Shape::One => panic!(rt; "no array"),
    }
}

#[test]
fn hands_out_outputs(rt: HostRuntime) {
    let problem = told(&rt, rt.alloc());
    assert_eq!(rt; problem.outputs(), 1);
    let output = problem.output(0);
    assert!(rt; output.name.items() == b"q".as_slice());
    assert!(rt; output.terms.items() == [Term::Var(1), Term::Var(0)].as_slice());
    expect_range(&rt, &output.shape, (1, 2));
    let_go(problem);
}

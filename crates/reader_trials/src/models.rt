//! Texts and their answers.

use dcsp_problem::{Aim, ConstraintKind, Problem, Rel, RuleRef, Shape, Term, Which};
use fzn_model::{ModelError, Refusal, problem_of};
use itoa::Buffer;
use std::alloc::Global;
use std::process::Abort;

/// The answer for a text of at most 16 MiB.
fn answer(rt: &impl Abort, alloc: Global, text: &[u8]) -> Result<Problem, ModelError> {
    assert!(rt; text.len() <= 16_777_216);
    problem_of(alloc, Vec::from_slice(alloc, text)?)
}

/// Why a text of at most 16 MiB has no problem.
fn refusal(rt: &impl Abort, alloc: Global, text: &[u8]) -> Option<ModelError> {
    answer(rt, alloc, text).err()
}

/// The text has no problem, for this reason.
fn expect_refused(rt: &impl Abort, alloc: Global, text: &[u8], refused: Refusal) {
    assert_eq!(rt;
        refusal(rt, alloc, text),
        Some(ModelError::Refused(refused))
    );
}

/// A text that has no problem, and why.
type Refused = (&'static [u8], Refusal);

/// Each of these texts has no problem, for its reason.
fn expect_all_refused(rt: &impl Abort, alloc: Global, rows: &[Refused]) {
    for (text, refused) in rows {
        expect_refused(rt, alloc, text, *refused);
    }
}

/// The text has a problem.
fn expect_accepted(rt: &impl Abort, alloc: Global, text: &[u8]) {
    assert_eq!(rt; refusal(rt, alloc, text), None);
}

const TELLS_THE_FIRST_REFUSAL: &[Refused] = &[
    (
        b"var int: x;\nsolve satisfy;\n",
        Refusal::Unbounded { at: 0 },
    ),
    (
        b"var 0.0..1.0: f;\nsolve satisfy;\n",
        Refusal::Unsupported { at: 0 },
    ),
    (
        b"var 0..1: x;\nconstraint int_pow(x,x,x);\nsolve satisfy;\n",
        Refusal::UnknownConstraint { at: 24 },
    ),
    (
        b"var 0..1: x;\nconstraint int_ne(x,y);\nvar 0..1: y;\nsolve satisfy;\n",
        Refusal::Undeclared { at: 33 },
    ),
    (
        b"var 0..1: x;\narray [1..2] of var int: a :: output_array([1..3]) = [x,x];\nsolve satisfy;\n",
        Refusal::OutputShape { at: 38 },
    ),
    (
        b"var 0..1: x;\nvar 0..1: x;\nsolve satisfy;\n",
        Refusal::Duplicate { at: 23 },
    ),
    (
        b"var bool: b;\nconstraint int_ne(b,1);\nsolve satisfy;\n",
        Refusal::IllTyped { at: 31 },
    ),
];

#[test]
fn tells_the_first_refusal(rt: HostRuntime) {
    expect_all_refused(&rt, rt.alloc(), TELLS_THE_FIRST_REFUSAL);
}

const TELLS_PLACES_AND_LIMITS: &[Refused] = &[
    (
        b"int: k = 9223372036854775808;\nsolve satisfy;\n",
        Refusal::IntRange { at: 9 },
    ),
    (
        b"solve satisfy;\nvar 0..1: x;\n",
        Refusal::Misplaced { at: 15 },
    ),
    (b"", Refusal::NoSolve),
    (b"var 0..1: x;\nsolve satisfy", Refusal::Syntax { at: 13 }),
    (
        b"var 0..1: \xc3\xa9;\nsolve satisfy;\n",
        Refusal::Lex { at: 10 },
    ),
    (
        b"var 0..65536: x;\nsolve satisfy;\n",
        Refusal::Limit {
            which: Which::DomainSize,
            count: 65_537,
            at: 0,
        },
    ),
    (
        b"var -9223372036854775808..-9223372036854775808: x;\nconstraint int_lin_le([-9223372036854775808],[x],1);\nsolve satisfy;\n",
        Refusal::WideSum { at: 62 },
    ),
];

#[test]
fn tells_places_and_limits(rt: HostRuntime) {
    expect_all_refused(&rt, rt.alloc(), TELLS_PLACES_AND_LIMITS);
}

const LOOKS_AT_NAMES_AND_TYPES_FIRST: &[Refused] = &[
    // A parameter is found twice as a variable is.
    (
        b"int: k = 1;\nvar 0..1: k;\nsolve satisfy;\n",
        Refusal::Duplicate { at: 22 },
    ),
    // The name is looked at before the type.
    (
        b"var 0..1: x;\nvar int: x;\nsolve satisfy;\n",
        Refusal::Duplicate { at: 22 },
    ),
    // The type is looked at before the right side.
    (
        b"var int: x = y;\nsolve satisfy;\n",
        Refusal::Unbounded { at: 0 },
    ),
    (
        b"var 0..65536: x = y;\nsolve satisfy;\n",
        Refusal::Limit {
            which: Which::DomainSize,
            count: 65_537,
            at: 0,
        },
    ),
    (
        b"var 0..1: x = y;\nsolve satisfy;\n",
        Refusal::Undeclared { at: 14 },
    ),
    (
        b"float: f = 1.5;\nsolve satisfy;\n",
        Refusal::Unsupported { at: 0 },
    ),
    (
        b"var set of 1..3: s;\nsolve satisfy;\n",
        Refusal::Unsupported { at: 0 },
    ),
    (
        b"array [1..1] of set of int: s = [{1}];\nsolve satisfy;\n",
        Refusal::Unsupported { at: 0 },
    ),
];

#[test]
fn looks_at_names_and_types_first(rt: HostRuntime) {
    expect_all_refused(&rt, rt.alloc(), LOOKS_AT_NAMES_AND_TYPES_FIRST);
}

const LOOKS_AT_INDEXES_AND_SORTS_FIRST: &[Refused] = &[
    // The right side's form, the index, then the elements.
    (
        b"array [1..2] of int: a = 5;\nsolve satisfy;\n",
        Refusal::IllTyped { at: 25 },
    ),
    (
        b"array [1..2] of int: a = [z];\nsolve satisfy;\n",
        Refusal::IllTyped { at: 21 },
    ),
    (
        b"array [1..1] of int: a = [z];\nsolve satisfy;\n",
        Refusal::Undeclared { at: 26 },
    ),
    (
        b"array [0..-1] of int: a = [];\nsolve satisfy;\n",
        Refusal::IllTyped { at: 22 },
    ),
    // The index of a named array before its sort, and its sort before its elements.
    (
        b"array [1..0] of var int: a = [];\narray [1..1] of int: b = a;\nsolve satisfy;\n",
        Refusal::IllTyped { at: 54 },
    ),
    (
        b"array [1..0] of var int: a = [];\narray [1..0] of int: b = a;\nsolve satisfy;\n",
        Refusal::IllTyped { at: 58 },
    ),
];

#[test]
fn looks_at_indexes_and_sorts_first(rt: HostRuntime) {
    expect_all_refused(&rt, rt.alloc(), LOOKS_AT_INDEXES_AND_SORTS_FIRST);
}

const LOOKS_AT_THE_ORDER_OF_ITEMS_AND_ARGUMENTS: &[Refused] = &[
    // A parameter after a constraint, and a second solve item.
    (
        b"constraint int_le(0,0);\nint: k = 1;\nsolve satisfy;\n",
        Refusal::Misplaced { at: 24 },
    ),
    (
        b"solve satisfy;\nsolve satisfy;\n",
        Refusal::Misplaced { at: 15 },
    ),
    // The number of arguments, then the arguments, then the lengths.
    (
        b"constraint int_le(z);\nsolve satisfy;\n",
        Refusal::IllTyped { at: 11 },
    ),
    (
        b"constraint int_lin_eq([1],[z,z],0);\nsolve satisfy;\n",
        Refusal::Undeclared { at: 27 },
    ),
    (
        b"constraint int_lin_eq([1],[2,3],0);\nsolve satisfy;\n",
        Refusal::IllTyped { at: 11 },
    ),
];

#[test]
fn looks_at_the_order_of_items_and_arguments(rt: HostRuntime) {
    expect_all_refused(&rt, rt.alloc(), LOOKS_AT_THE_ORDER_OF_ITEMS_AND_ARGUMENTS);
}

#[test]
fn accepts(rt: HostRuntime) {
    let alloc = rt.alloc();
    expect_accepted(&rt, alloc, b"solve satisfy;\n");
    expect_accepted(&rt, alloc, b"var 0..1: x; % \xc3\xa9\nsolve satisfy;\n");
    expect_accepted(
        &rt,
        alloc,
        b"var 1..5: x :: weight(1.5) :: output_var;\nsolve satisfy;\n",
    );
    expect_accepted(&rt, alloc, b"var 0..65535: x;\nsolve satisfy;\n");
    expect_accepted(&rt, alloc, b"var 5..3: x;\nsolve satisfy;\n");
    expect_accepted(
        &rt,
        alloc,
        b"var -9223372036854775808..-9223372036854775808: x;\nconstraint int_lin_le([-9223372036854775808],[x],0);\nsolve satisfy;\n",
    );
    expect_accepted(
        &rt,
        alloc,
        b"var 0..1: x :: output_array([9..9]) :: output_var;\nint: k :: output_var = 3;\nsolve satisfy;\n",
    );
    expect_accepted(
        &rt,
        alloc,
        b"var bool: b;\nconstraint bool_xor(b,true);\nconstraint bool_xor(b,true,false);\nsolve satisfy;\n",
    );
    expect_accepted(
        &rt,
        alloc,
        b"predicate p(var int: a);\nconstraint array_bool_element(1,[true],false);\nsolve satisfy;\n",
    );
}

/// Appends a line for each number from 1 to `count`: the number between these parts.
fn push_numbered(rt: &impl Abort, text: &mut Vec<u8>, before: &[u8], count: u32, after: &[u8]) {
    for number in 0..count {
        text.extend_from_slice(before).expect(rt, "memory");
        let number = u64::from(number) + 1;
        text.extend_from_slice(Buffer::new().format(number).as_bytes())
            .expect(rt, "memory");
        text.extend_from_slice(after).expect(rt, "memory");
    }
}

/// Appends these bytes so many times.
fn push_repeated(rt: &impl Abort, text: &mut Vec<u8>, bytes: &[u8], count: u32) {
    for _turn in 0..count {
        text.extend_from_slice(bytes).expect(rt, "memory");
    }
}

/// A limit would be passed.
fn passed(which: Which, count: u128, at: u32) -> Option<ModelError> {
    Some(ModelError::Refused(Refusal::Limit { which, count, at }))
}

/// The refusal of so many variables with one value each.
fn refusal_of_variables(rt: &impl Abort, alloc: Global, count: u32) -> Option<ModelError> {
    let mut text = Vec::new(alloc);
    push_numbered(rt, &mut text, b"var 0..0: x", count, b";\n");
    push_repeated(rt, &mut text, b"solve satisfy;\n", 1);
    refusal(rt, alloc, &text)
}

/// The refusal of 16 variables with the most values, and of this line after them.
fn refusal_of_values(rt: &impl Abort, alloc: Global, last: &[u8]) -> Option<ModelError> {
    let mut text = Vec::new(alloc);
    push_numbered(rt, &mut text, b"var 0..65535: x", 16, b";\n");
    push_repeated(rt, &mut text, last, 1);
    push_repeated(rt, &mut text, b"solve satisfy;\n", 1);
    refusal(rt, alloc, &text)
}

#[test]
fn counts_variables_and_their_values(rt: HostRuntime) {
    let alloc = rt.alloc();
    assert_eq!(rt; refusal_of_variables(&rt, alloc, 4_096), None);
    assert_eq!(rt;
        refusal_of_variables(&rt, alloc, 4_097),
        passed(Which::Variables, 4_097, 68_535)
    );
    assert_eq!(rt; refusal_of_values(&rt, alloc, b""), None);
    assert_eq!(rt;
        refusal_of_values(&rt, alloc, b"var 0..0: x17;\n"),
        passed(Which::DomainValues, 1_048_577, 305)
    );
}

/// The refusal of so many rules.
fn refusal_of_rules(rt: &impl Abort, alloc: Global, count: u32) -> Option<ModelError> {
    let mut text = Vec::new(alloc);
    push_repeated(rt, &mut text, b"constraint int_le(0,0);\n", count);
    push_repeated(rt, &mut text, b"solve satisfy;\n", 1);
    refusal(rt, alloc, &text)
}

#[test]
fn counts_rules(rt: HostRuntime) {
    let alloc = rt.alloc();
    assert_eq!(rt; refusal_of_rules(&rt, alloc, 262_144), None);
    assert_eq!(rt;
        refusal_of_rules(&rt, alloc, 262_145),
        passed(Which::Rules, 262_145, 6_291_467)
    );
}

/// The refusal of 16 rules over an array of so many elements, one at least, and of this line after them.
fn refusal_of_elements(
    rt: &impl Abort,
    alloc: Global,
    count: u32,
    last: &[u8],
) -> Option<ModelError> {
    let mut text = Vec::new(alloc);
    push_repeated(rt, &mut text, b"array [1..", 1);
    text.extend_from_slice(Buffer::new().format(count).as_bytes())
        .expect(rt, "memory");
    push_repeated(rt, &mut text, b"] of int: a = [0", 1);
    push_repeated(rt, &mut text, b",0", count.saturating_sub(1));
    push_repeated(rt, &mut text, b"];\n", 1);
    push_repeated(rt, &mut text, b"constraint fzn_all_different_int(a);\n", 16);
    push_repeated(rt, &mut text, last, 1);
    push_repeated(rt, &mut text, b"solve satisfy;\n", 1);
    refusal(rt, alloc, &text)
}

#[test]
fn counts_elements_and_terms(rt: HostRuntime) {
    let alloc = rt.alloc();
    assert_eq!(rt; refusal_of_elements(&rt, alloc, 65_536, b""), None);
    assert_eq!(rt;
        refusal_of_elements(&rt, alloc, 65_536, b"constraint int_le(0,0);\n"),
        passed(Which::Terms, 1_048_578, 131_707)
    );
    assert_eq!(rt;
        refusal_of_elements(&rt, alloc, 65_537, b""),
        passed(Which::Elements, 65_537, 25)
    );
}

/// Parameters of each form, a right side of a variable, and constraints over them.
const PARAMETERS: &[u8] = b"predicate my_pred(var int: a, var int: b);
int: k = 0x10;
set of int: s = {3,5};
array [1..2] of int: w = [2,-1];
var {5,1,3}: x :: output_var;
var 0..9: y :: output_var = 7;
constraint set_in(x,s);
constraint int_lin_eq(w,[x,y],-1);
constraint int_le(y,k);
solve :: int_search([x,y],input_order,indomain_min,complete) satisfy;
";

/// The problem of a text that is not refused.
fn problem_in(rt: &impl Abort, alloc: Global, text: &[u8]) -> Problem {
    match answer(rt, alloc, text) {
        Ok(problem) => problem,
        Err(error) => panic!(rt; "{error:?}"),
    }
}

/// The rule with this number.
fn rule_at<'p>(rt: &impl Abort, problem: &'p Problem, number: u32) -> RuleRef<'p> {
    assert!(rt; number < problem.rules());
    problem.rule(number)
}

fn expect_terms(rt: &impl Abort, found: &[Term], terms: &[Term]) {
    assert_eq!(rt; found, terms);
}

/// The rule is no sum: it has this kind and these terms.
fn expect_plain(rt: &impl Abort, rule: RuleRef<'_>, expected: ConstraintKind, terms: &[Term]) {
    match rule {
        RuleRef::Plain { kind, scalars, .. } => {
            assert!(rt; kind == expected);
            expect_terms(rt, scalars, terms);
        }
        RuleRef::Sum { .. } => panic!(rt; "a sum"),
    }
}

/// The rule is a sum that is to equal -1: twice the first variable without the second.
fn expect_equation(rt: &impl Abort, rule: RuleRef<'_>) {
    match rule {
        RuleRef::Sum {
            rel,
            coefs,
            terms,
            total,
            truth,
        } => {
            assert!(rt; rel == Rel::Equal);
            assert!(rt; total == Term::Const(-1));
            assert!(rt; truth.is_none());
            assert_eq!(rt; coefs, [2, -1].as_slice());
            expect_terms(rt, terms, &[Term::Var(0), Term::Var(1)]);
        }
        RuleRef::Plain { .. } => panic!(rt; "no sum"),
    }
}

#[test]
fn keeps_the_order_of_rules(rt: HostRuntime) {
    let problem = problem_in(&rt, rt.alloc(), PARAMETERS);
    assert_eq!(rt; problem.rules(), 4);
    let rule = rule_at(&rt, &problem, 0);
    expect_plain(
        &rt,
        rule,
        ConstraintKind::IntEq,
        &[Term::Var(1), Term::Const(7)],
    );
    let rule = rule_at(&rt, &problem, 1);
    expect_plain(&rt, rule, ConstraintKind::SetIn, &[Term::Var(0)]);
    expect_equation(&rt, rule_at(&rt, &problem, 2));
    let rule = rule_at(&rt, &problem, 3);
    expect_plain(
        &rt,
        rule,
        ConstraintKind::IntLe,
        &[Term::Var(1), Term::Const(16)],
    );
}

#[test]
fn keeps_variables_and_outputs(rt: HostRuntime) {
    let problem = problem_in(&rt, rt.alloc(), PARAMETERS);
    assert!(rt; problem.vars() == 2);
    assert_eq!(rt; problem.domain(0).len(), 3);
    assert!(rt; problem.outputs() == 2);
    let output = problem.output(1);
    assert_eq!(rt; output.name.items(), b"y".as_slice());
    assert!(rt; matches!(output.shape, Shape::One));
}

/// The text has a problem with this aim.
fn expect_aim(rt: &impl Abort, alloc: Global, text: &[u8], aim: Aim) {
    assert_eq!(rt; problem_in(rt, alloc, text).aim(), aim);
}

#[test]
fn reads_what_is_wanted(rt: HostRuntime) {
    let alloc = rt.alloc();
    expect_aim(&rt, alloc, b"solve satisfy;\n", Aim::Satisfy);
    expect_aim(
        &rt,
        alloc,
        b"var 0..1: x;\nsolve minimize x;\n",
        Aim::Least(Term::Var(0)),
    );
    expect_aim(
        &rt,
        alloc,
        b"var 0..1: x;\nvar 0..1: y;\nsolve :: int_search([x],a,b,c) maximize y;\n",
        Aim::Greatest(Term::Var(1)),
    );
    expect_aim(
        &rt,
        alloc,
        b"int: k = -4;\nsolve maximize k;\n",
        Aim::Greatest(Term::Const(-4)),
    );
}

const REFUSES_GOALS_WITHOUT_AN_INTEGER: &[Refused] = &[
    (
        b"var 0..1: x;\nsolve minimize z;\n",
        Refusal::Undeclared { at: 28 },
    ),
    (
        b"var bool: b;\nsolve maximize b;\n",
        Refusal::IllTyped { at: 28 },
    ),
    (b"solve minimize [1];\n", Refusal::IllTyped { at: 15 }),
    // A second solve item is looked at no further.
    (
        b"solve satisfy;\nsolve minimize z;\n",
        Refusal::Misplaced { at: 15 },
    ),
];

#[test]
fn refuses_goals_without_an_integer(rt: HostRuntime) {
    expect_all_refused(&rt, rt.alloc(), REFUSES_GOALS_WITHOUT_AN_INTEGER);
}

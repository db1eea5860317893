//! Worked rows over a variable with the values from 0 to 70.

ghost use Rattle.std.specs.Prelude.{◌≡◌, None, Some, [], ◌∷◌, pos, All, IsTrue};
ghost use Rattle.dcsp_rule.specs.Rules.{IsTermOf, has_shape, terms_of};
ghost use Rattle.dcsp_row.specs.Marks.{FitsSize};

use crate::problems::let_go;
use dcsp_meaning::Rel;
use dcsp_problem::{
    ConstraintKind, Domain, IntList, Lookup, Members, Problem, ProblemBuilder, Rule, Term, TermList,
};
use dcsp_row::{Marks, OpenVariable, Row, Span, fill_row, has_span, span_of};
use std::alloc::Global;
use std::process::Abort;

/// No variable has a value.
#[derive(Drop)]
struct Nothing;

impl Lookup for Nothing {
    ghost values = { λ nothing. (λ k. None) };

    fn value_of(&self, _var: u32) -> Option<i64> {
        None
    }
}

/// A comparison of the variable with a number.
fn compared(rt: &impl Abort, alloc: Global, kind: ConstraintKind, number: i64) -> Rule
    ensures { result ≡ Rule.Plain kind (Term.Var 0 ∷ Term.Const number ∷ []) [] [] (Members.Listed []) }
{
    let terms = vec![in alloc; Term::Var(0), Term::Const(number)];
    Rule::Plain {
        kind,
        scalars: TermList::from_vec(terms.expect(rt, "memory")),
        first: TermList::new(alloc),
        second: TermList::new(alloc),
        members: Members::Listed(IntList::new(alloc)),
    }
}

/// A sum of so many times the variable and a second term.
fn summed(rt: &impl Abort, alloc: Global, rel: Rel, coef: i64, second: Term, total: i64) -> Rule
    ensures { result ≡ Rule.Sum rel (coef ∷ pos 1 ∷ []) (Term.Var 0 ∷ second ∷ []) (Term.Const total) None }
{
    let coefs = vec![in alloc; coef, 1].expect(rt, "memory");
    let terms = vec![in alloc; Term::Var(0), second].expect(rt, "memory");
    Rule::Sum {
        rel,
        coefs: IntList::from_vec(coefs),
        terms: TermList::from_vec(terms),
        total: Term::Const(total),
        truth: None,
    }
}

/// That the variable and 3 are no row of a table, in which it and 3 are two rows out of three.
fn tabled(rt: &impl Abort, alloc: Global) -> Rule
    ensures { result ≡ Rule.Plain ConstraintKind.FznTableIntReif (Term.Const (pos 0) ∷ []) (Term.Var 0 ∷ Term.Const (pos 3) ∷ [])
        (Term.Const (pos 5) ∷ Term.Const (pos 3) ∷ Term.Const (pos 7) ∷ Term.Const (pos 4) ∷ Term.Const (pos 70) ∷ Term.Const (pos 3) ∷ []) (Members.Listed []) }
{
    let told = vec![in alloc; Term::Const(0)].expect(rt, "memory");
    let row = vec![in alloc; Term::Var(0), Term::Const(3)].expect(rt, "memory");
    let table = vec![in alloc;
        Term::Const(5),
        Term::Const(3),
        Term::Const(7),
        Term::Const(4),
        Term::Const(70),
        Term::Const(3),
    ]
    .expect(rt, "memory");
    Rule::Plain {
        kind: ConstraintKind::FznTableIntReif,
        scalars: TermList::from_vec(told),
        first: TermList::from_vec(row),
        second: TermList::from_vec(table),
        members: Members::Listed(IntList::new(alloc)),
    }
}

/// The variable, and the rule.
fn problem_with(rt: &impl Abort, alloc: Global, rule: Rule) -> Problem
    requires known { All (IsTermOf 1) (terms_of rule) }
    requires shape { IsTrue (has_shape rule) }
{
    let mut builder = ProblemBuilder::new(alloc);
    let domain = Domain::range(alloc, 0, 70).expect(rt, "a range");
    builder.add_var(domain).expect(rt, "within the limits");
    builder.add_rule(rule).expect(rt, "within the limits");
    builder.finish().expect(rt, "memory")
}

/// Which values of the variable the rule rules out.
fn filled(rt: &impl Abort, alloc: Global, problem: &Problem) -> Row {
    assert!(rt; problem.vars() == 1);
    assert!(rt; problem.rules() == 1);
    let mut row = Row::new(alloc, problem.domain(0).len()).expect(rt, "memory");
    let open_var = OpenVariable {
        var: 0,
        lookup: &Nothing,
    };
    fill_row(problem, 0, &open_var, &mut row);
    row
}

/// The row has these values of the variable, and no other.
fn expect_has(rt: &impl Abort, problem: &Problem, row: &Row, values: &[i64]) {
    assert!(rt; problem.vars() == 1);
    let domain = problem.domain(0);
    assert!(rt; row.len() == domain.len());
    for place in 0..domain.len() {
        assert!(rt; row.has(place) == values.contains(&domain.value(place)));
    }
}

/// The rule has a span where it must, and a span has the places that the row marks.
fn expect_span(rt: &impl Abort, problem: &Problem, row: &Row) {
    assert!(rt; problem.vars() == 1);
    assert!(rt; problem.rules() == 1);
    let open_var = OpenVariable {
        var: 0,
        lookup: &Nothing,
    };
    let span = span_of(problem, 0, &open_var);
    assert!(rt; span.is_some() || !has_span(problem, 0, 0));
    if let Some(span) = span {
        for place in 0..row.len() {
            assert!(rt; row.has(place) == span.has(place));
        }
    }
}

/// Nothing of the row is marked once exactly the places of no span are.
fn expect_empty(rt: &impl Abort, mut row: Row) {
    row.mark_span(Span::whole(false));
    for place in 0..row.len() {
        assert!(rt; !row.has(place));
    }
}

/// The rule must rule out these values, and no other.
fn expect_ruled_out(rt: &impl Abort, alloc: Global, rule: Rule, ruled_out: &[i64])
    requires known { All (IsTermOf 1) (terms_of rule) }
    requires shape { IsTrue (has_shape rule) }
{
    let problem = problem_with(rt, alloc, rule);
    let row = filled(rt, alloc, &problem);
    expect_has(rt, &problem, &row, ruled_out);
    expect_span(rt, &problem, &row);
    let_go(problem);
    expect_empty(rt, row);
}

#[test]
fn rows_of_comparisons(rt: HostRuntime) {
    let alloc = rt.alloc();
    let rule = compared(&rt, alloc, ConstraintKind::IntNe, 65);
    expect_ruled_out(&rt, alloc, rule, &[65]);
    let rule = compared(&rt, alloc, ConstraintKind::IntLe, 68);
    expect_ruled_out(&rt, alloc, rule, &[69, 70]);
    let rule = compared(&rt, alloc, ConstraintKind::IntLt, 70);
    expect_ruled_out(&rt, alloc, rule, &[70]);
}

#[test]
fn rows_of_sums(rt: HostRuntime) {
    let alloc = rt.alloc();
    let rule = summed(&rt, alloc, Rel::AtMost, 1, Term::Const(3), 72);
    expect_ruled_out(&rt, alloc, rule, &[70]);
    let rule = summed(&rt, alloc, Rel::AtMost, -1, Term::Const(3), 2);
    expect_ruled_out(&rt, alloc, rule, &[0]);
    let rule = summed(&rt, alloc, Rel::AtMost, 2, Term::Const(3), 140);
    expect_ruled_out(&rt, alloc, rule, &[69, 70]);
    let rule = summed(&rt, alloc, Rel::Differ, 1, Term::Var(0), 128);
    expect_ruled_out(&rt, alloc, rule, &[64]);
}

#[test]
fn rows_of_tables(rt: HostRuntime) {
    let alloc = rt.alloc();
    let rule = tabled(&rt, alloc);
    expect_ruled_out(&rt, alloc, rule, &[5, 70]);
}

/// From a place on the first of 130 places that one marks and the other does not is this one.
fn expect_change(rt: &impl Abort, marks: &Marks, other: &Marks, from: usize, change: Option<usize>)
    requires marks { FitsSize 130 marks.now }
    requires other { FitsSize 130 other.now }
{
    assert!(rt; marks.next_change(other, 130, from) == change);
}

/// A walk over a row that marks 64 and 129 finds these two.
fn expect_walk(rt: &impl Abort, row: &Row) {
    let mut walk = row.walk();
    assert!(rt; row.next_of(&mut walk) == Some(64));
    assert!(rt; row.next_of(&mut walk) == Some(129));
    assert!(rt; row.next_of(&mut walk) == None);
}

/// Lets both go.
fn end(_marks: Marks, _other: Marks) {}

#[test]
fn changes_are_found(rt: HostRuntime) {
    let mut row = Row::new(rt.alloc(), 130).expect(&rt, "memory");
    row.put(64, true);
    row.put(129, true);
    expect_walk(&rt, &row);
    let marks = Marks::Row(row);
    let none = Marks::Span(Span::whole(false));
    expect_change(&rt, &marks, &none, 0, Some(64));
    expect_change(&rt, &marks, &none, 65, Some(129));
    expect_change(&rt, &marks, &none, 130, None);
    expect_change(&rt, &none, &marks, 0, Some(64));
    let run = Marks::Span(Span {
        from: 64,
        to: 66,
        outside: 0,
    });
    expect_change(&rt, &run, &none, 0, Some(64));
    expect_change(&rt, &run, &none, 65, Some(65));
    expect_change(&rt, &run, &none, 66, None);
    expect_change(&rt, &run, &marks, 0, Some(65));
    end(marks, none);
    end(run, Marks::Span(Span::whole(true)));
}

#[test]
fn marks_are_copied(rt: HostRuntime) {
    let span = Span {
        from: 0,
        to: 70,
        outside: 1,
    };
    let row = Row::new(rt.alloc(), 130).expect(&rt, "memory");
    let mut copy = Marks::Row(row);
    let high = Marks::Span(span);
    let low = Marks::Span(span.others());
    copy.copy_from(130, &high);
    expect_change(&rt, &copy, &high, 0, None);
    expect_change(&rt, &copy, &low, 69, Some(69));
    copy.copy_from(130, &low);
    expect_change(&rt, &copy, &low, 0, None);
    expect_change(&rt, &copy, &high, 70, Some(70));
    end(copy, high);
}

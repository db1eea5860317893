//! The kept reasons, beside the plain search.

ghost use Rattle.std.specs.Prelude.{◌≡◌, ◌<◌, ℕ, None, Some, [], ◌∷◌, length, if◌then◌else◌};
ghost use Rattle.dcsp_defs.specs.Words.{update};
ghost use Rattle.dcsp_defs.specs.Pairs.{pair_of};
ghost use Rattle.abt_defs.specs.Agents.{values_in};
ghost use Rattle.abt_parts.specs.Views.{view_of};
ghost use Rattle.dcsp_rule.specs.Problems.{csp_of, AreInDomains};
ghost use Rattle.abt_reason.specs.Cached.{StandsFor};
ghost use Rattle.abt_reason.specs.Kept.{own_at};

use crate::given::{add_between, add_variable, let_go, let_store_go};
use abt_parts::{Store, View};
use abt_reason::{Reason, Reasons, first_violated};
use dcsp_defs::{Nogood, Pair};
use dcsp_problem::{
    ConstraintKind, Domain, IntList, Problem, ProblemBuilder, Rel, Rule, Term, TermList,
};
use std::alloc::Global;
use std::process::Abort;

fn pair(var: u32, value: i64) -> Pair {
    Pair { var, value }
}

/// The agent with the value at a place of its domain.
fn own_pair(agent: u32, domain: &Domain, place: usize) -> Pair
    requires { place < length domain.now }
    ensures { result ≡ pair_of agent (own_at domain.now place) }
{
    Pair {
        var: agent,
        value: domain.value(place),
    }
}

/// Variables with the values from 0 to these, and no rules.
fn free(rt: &impl Abort, alloc: Global, highest: &[i64]) -> Problem
    ensures { length result.domains ≡ length highest.now }
{
    let mut builder = ProblemBuilder::new(alloc);
    for high in highest {
        add_variable(rt, alloc, &mut builder, *high);
    }
    builder.finish().expect(rt, "memory")
}

/// Lets the reasons and the view go.
fn end(_reasons: Reasons<'_>, _view: View) {}

/// A view of nothing, with room for two agents.
fn blank(rt: &impl Abort, alloc: Global) -> View
    ensures empty { view_of result ≡ (λ k. None) }
    ensures slots { length result ≡ 2 }
{
    match View::new(alloc, 2) {
        Ok(view) => view,
        Err(_) => panic!(rt; "memory"),
    }
}

/// The reasons of an agent that was told nothing.
fn fresh<'p>(
    rt: &impl Abort,
    alloc: Global,
    problem: &'p Problem,
    agent: u32,
    _view: &View,
    _store: &Store,
) -> Reasons<'p>
    requires agent { agent < length problem.now.domains }
    requires empty { view_of _view.now ≡ (λ k. None) }
    requires none { _store.now ≡ [] }
    ensures stands { StandsFor result (values_in (view_of _view.now)) _store.now }
    ensures problem { result.problem ≡ problem.now }
    ensures agent { result.agent ≡ agent }
{
    Reasons::new(alloc, problem, agent).expect(rt, "memory")
}

/// Keeps the nogood of these pairs, which must be free to keep.
fn record(
    rt: &impl Abort,
    alloc: Global,
    reasons: &mut Reasons,
    view: &View,
    store: &mut Store,
    pairs: &[Pair],
    step: u64,
)
    requires { StandsFor reasons.old (values_in (view_of view.now)) store.old }
    ensures stands { StandsFor reasons.new (values_in (view_of view.now)) store.new }
    ensures problem { reasons.new.problem ≡ reasons.old.problem }
    ensures agent { reasons.new.agent ≡ reasons.old.agent }
{
    let nogood = Nogood::from_pairs(alloc, pairs).expect(rt, "a nogood");
    let lowest = nogood.lowest().expect(rt, "a pair");
    assert!(rt; !store.rules_out(lowest.value));
    reasons.make_room(alloc).expect(rt, "memory");
    store.keep(nogood, step).expect(rt, "memory");
    reasons.after_record(view, store);
}

/// The first reason for the value at a place must be this one.
fn expect_first(
    rt: &impl Abort,
    problem: &Problem,
    agent: u32,
    reasons: &Reasons,
    place: usize,
    reason: Option<Reason>,
)
    requires agent { agent < length problem.now.domains }
    requires same { reasons.now.problem ≡ problem.now }
    requires own { reasons.now.agent ≡ agent }
{
    assert!(rt; place < problem.domain(agent).len());
    assert_eq!(rt; reasons.first(place), reason);
}

/// The nogoods that name the variable have these places.
fn expect_naming(rt: &impl Abort, store: &Store, var: u32, places: &[u64]) {
    assert!(rt; store.naming(var) == places);
}

#[test]
fn tells_the_step_of_each_value(rt: HostRuntime) {
    let problem = free(&rt, rt.alloc(), &[2]);
    let view = blank(&rt, rt.alloc());
    let mut store = Store::new(rt.alloc());
    let mut reasons = fresh(&rt, rt.alloc(), &problem, 0, &view, &store);
    record(
        &rt,
        rt.alloc(),
        &mut reasons,
        &view,
        &mut store,
        &[pair(0, 1)],
        4,
    );
    assert!(rt; store.rules_out(1));
    record(
        &rt,
        rt.alloc(),
        &mut reasons,
        &view,
        &mut store,
        &[pair(0, 0)],
        9,
    );
    expect_first(&rt, &problem, 0, &reasons, 0, Some(Reason::Earlier(9)));
    expect_first(&rt, &problem, 0, &reasons, 1, Some(Reason::Earlier(4)));
    expect_first(&rt, &problem, 0, &reasons, 2, None);
    expect_naming(&rt, &store, 0, &[0, 1]);
    expect_naming(&rt, &store, 1, &[]);
    end(reasons, view);
    let_store_go(store);
    let_go(problem);
}

/// Takes in a view of nothing so many times more.
fn look_again(reasons: &mut Reasons, times: u32, view: &View, store: &Store)
    requires empty { view_of view.now ≡ (λ k. None) }
    requires stands { StandsFor reasons.old (values_in (view_of view.now)) store.now }
    ensures problem { reasons.new.problem ≡ reasons.old.problem }
    ensures agent { reasons.new.agent ≡ reasons.old.agent }
{
    for _time in 0..times {
        reasons.after_view(0, view, store);
    }
}

/// Keeps a nogood for each value below a number, of the step after it.
fn record_each(
    rt: &impl Abort,
    alloc: Global,
    reasons: &mut Reasons,
    view: &View,
    store: &mut Store,
    values: u32,
)
    requires { StandsFor reasons.old (values_in (view_of view.now)) store.old }
    ensures stands { StandsFor reasons.new (values_in (view_of view.now)) store.new }
    ensures problem { reasons.new.problem ≡ reasons.old.problem }
    ensures agent { reasons.new.agent ≡ reasons.old.agent }
{
    for value in 0..values {
        let pairs = [pair(1, i64::from(value))];
        record(
            rt,
            alloc,
            reasons,
            view,
            store,
            &pairs,
            u64::from(value) + 1,
        );
    }
}

/// Each value of so many must have the step after it as its reason.
fn expect_each(rt: &impl Abort, problem: &Problem, reasons: &Reasons, values: usize)
    requires agent { 1 < length problem.now.domains }
    requires same { reasons.now.problem ≡ problem.now }
    requires own { reasons.now.agent ≡ 1 }
{
    for place in 0..values {
        expect_first(
            rt,
            problem,
            1,
            reasons,
            place,
            Some(Reason::Earlier(place as u64 + 1)),
        );
    }
}

#[test]
fn tells_many_steps(rt: HostRuntime) {
    let problem = free(&rt, rt.alloc(), &[0, 65535]);
    let view = blank(&rt, rt.alloc());
    let mut store = Store::new(rt.alloc());
    let mut reasons = fresh(&rt, rt.alloc(), &problem, 1, &view, &store);
    record_each(&rt, rt.alloc(), &mut reasons, &view, &mut store, 65536);
    look_again(&mut reasons, 1000, &view, &store);
    expect_each(&rt, &problem, &reasons, 65536);
    expect_naming(&rt, &store, 0, &[]);
    end(reasons, view);
    let_store_go(store);
    let_go(problem);
}

/// A sum of the first of three variables and the last, with these coefficients.
fn weighted(rt: &impl Abort, alloc: Global, rel: Rel, coefs: [i64; 2], total: i64) -> Rule
    ensures { result ≡ Rule.Sum rel coefs (Term.Var 0 ∷ Term.Var 2 ∷ []) (Term.Const total) None }
{
    let terms = vec![in alloc; Term::Var(0), Term::Var(2)];
    let coefs = Vec::from_slice(alloc, &coefs);
    Rule::Sum {
        rel,
        coefs: IntList::from_vec(coefs.expect(rt, "memory")),
        terms: TermList::from_vec(terms.expect(rt, "memory")),
        total: Term::Const(total),
        truth: None,
    }
}

/// Three variables with the values from 0 to 3, the last up to another; it is neither of the others, and twice it
/// is in sums with the first.
fn triangle(rt: &impl Abort, alloc: Global, greatest: i64) -> Problem
    ensures { length result.domains ≡ 3 }
{
    let mut builder = ProblemBuilder::new(alloc);
    add_variable(rt, alloc, &mut builder, 3);
    add_variable(rt, alloc, &mut builder, 3);
    add_variable(rt, alloc, &mut builder, greatest);
    add_between(rt, alloc, &mut builder, ConstraintKind::IntNe, 0, 2);
    add_between(rt, alloc, &mut builder, ConstraintKind::IntNe, 2, 1);
    let at_most = weighted(rt, alloc, Rel::AtMost, [3, -2], 1);
    builder.add_rule(at_most).expect(rt, "within the limits");
    let differ = weighted(rt, alloc, Rel::Differ, [1, 2], 5);
    builder.add_rule(differ).expect(rt, "within the limits");
    builder.finish().expect(rt, "memory")
}

/// Three variables with the values from 0 to 3, the last up to another. A rule rules out a span of its values, the
/// next all but one, as bits, and the last all outside a span.
fn mixed(rt: &impl Abort, alloc: Global, greatest: i64) -> Problem
    ensures { length result.domains ≡ 3 }
{
    let mut builder = ProblemBuilder::new(alloc);
    add_variable(rt, alloc, &mut builder, 3);
    add_variable(rt, alloc, &mut builder, 3);
    add_variable(rt, alloc, &mut builder, greatest);
    add_between(rt, alloc, &mut builder, ConstraintKind::IntLt, 0, 2);
    add_between(rt, alloc, &mut builder, ConstraintKind::IntAbs, 2, 1);
    add_between(rt, alloc, &mut builder, ConstraintKind::IntEq, 2, 1);
    builder.finish().expect(rt, "memory")
}

/// A value is told by an agent above, which gets a place in the view, if it has none. True exactly if it is newer.
fn hear(rt: &impl Abort, view: &mut View, var: u32, value: i64, stamp: u64) -> bool
    requires { var < length view.old }
    ensures view { view_of view.new ≡ (if result then update (view_of view.old) var (Some (record { value = value; stamp = stamp })) else view_of view.old) }
    ensures slots { length view.new ≡ length view.old }
{
    view.make_place(var).expect(rt, "memory");
    view.learn(var, value, stamp)
}

/// A value at a place of a domain is told by an agent above.
fn learn(
    rt: &impl Abort,
    problem: &Problem,
    reasons: &mut Reasons,
    view: &mut View,
    store: &mut Store,
    var: u32,
    place: usize,
    stamp: u64,
)
    requires var { var < length view.old }
    requires exists { var < length problem.now.domains }
    requires same { reasons.old.problem ≡ problem.now }
    requires domains { AreInDomains (csp_of problem.now) (values_in (view_of view.old)) }
    requires stands { StandsFor reasons.old (values_in (view_of view.old)) store.old }
    ensures slots { length view.new ≡ length view.old }
    ensures problem { reasons.new.problem ≡ reasons.old.problem }
    ensures agent { reasons.new.agent ≡ reasons.old.agent }
    ensures domains { AreInDomains (csp_of problem.now) (values_in (view_of view.new)) }
    ensures stands { StandsFor reasons.new (values_in (view_of view.new)) store.new }
{
    let domain = problem.domain(var);
    assert!(rt; place < domain.len());
    let told = own_pair(var, domain, place);
    if !hear(rt, view, var, told.value, stamp) {
        return;
    }
    store.forget(var, told.value);
    reasons.after_view(var, view, store);
}

/// Each value's first reason must be what a search finds, and so must the first value that has none.
fn compare(
    rt: &impl Abort,
    problem: &Problem,
    agent: u32,
    reasons: &Reasons,
    view: &View,
    store: &Store,
)
    requires agent { agent < length problem.now.domains }
    requires same { reasons.now.problem ≡ problem.now }
    requires own { reasons.now.agent ≡ agent }
    requires domains { AreInDomains (csp_of problem.now) (values_in (view_of view.now)) }
{
    let domain = problem.domain(agent);
    let mut free = None;
    for place in 0..domain.len() {
        let own = own_pair(agent, domain, place);
        let found = first_violated(problem, own, view, store);
        if found.is_none() && free.is_none() {
            free = Some(place);
        }
        expect_first(rt, problem, agent, reasons, place, found);
    }
    assert_eq!(rt; reasons.first_free(), free);
}

/// One of the agents above tells a value, and a nogood over it is kept if its own value is free.
fn change(
    rt: &impl Abort,
    alloc: Global,
    problem: &Problem,
    reasons: &mut Reasons,
    view: &mut View,
    store: &mut Store,
    number: u32,
)
    requires slots { length view.old ≡ 2 }
    requires exists { length problem.now.domains ≡ 3 }
    requires same { reasons.old.problem ≡ problem.now }
    requires domains { AreInDomains (csp_of problem.now) (values_in (view_of view.old)) }
    requires stands { StandsFor reasons.old (values_in (view_of view.old)) store.old }
    ensures slots { length view.new ≡ length view.old }
    ensures problem { reasons.new.problem ≡ reasons.old.problem }
    ensures agent { reasons.new.agent ≡ reasons.old.agent }
    ensures domains { AreInDomains (csp_of problem.now) (values_in (view_of view.new)) }
    ensures stands { StandsFor reasons.new (values_in (view_of view.new)) store.new }
{
    let mixed = number.wrapping_mul(2654435761) / 65536;
    let var = mixed % 2;
    let place = (mixed / 2 % 4) as usize;
    learn(
        rt,
        problem,
        reasons,
        view,
        store,
        var,
        place,
        u64::from(number) + 1,
    );
    let own = i64::from(mixed / 8 % 4);
    if store.rules_out(own) {
        return;
    }
    let Some(told) = view.value_of(mixed / 32 % 2) else {
        return;
    };
    let pairs = [pair(mixed / 32 % 2, told), pair(2, own)];
    record(rt, alloc, reasons, view, store, &pairs, u64::from(number));
}

/// So many changes, with a comparison after each.
fn drive(
    rt: &impl Abort,
    alloc: Global,
    problem: &Problem,
    reasons: &mut Reasons,
    view: &mut View,
    store: &mut Store,
    changes: u32,
)
    requires slots { length view.old ≡ 2 }
    requires exists { length problem.now.domains ≡ 3 }
    requires same { reasons.old.problem ≡ problem.now }
    requires own { reasons.old.agent ≡ 2 }
    requires domains { AreInDomains (csp_of problem.now) (values_in (view_of view.old)) }
    requires stands { StandsFor reasons.old (values_in (view_of view.old)) store.old }
{
    for number in 0..changes {
        change(rt, alloc, problem, reasons, view, store, number);
        compare(rt, problem, 2, reasons, view, store);
    }
}

/// So many changes at the last of three variables, from nothing known on.
fn drive_fresh(rt: &impl Abort, alloc: Global, problem: &Problem, changes: u32)
    requires exists { length problem.now.domains ≡ 3 }
{
    let mut view = blank(rt, alloc);
    let mut store = Store::new(alloc);
    let mut reasons = fresh(rt, alloc, problem, 2, &view, &store);
    drive(
        rt,
        alloc,
        problem,
        &mut reasons,
        &mut view,
        &mut store,
        changes,
    );
    end(reasons, view);
    let_store_go(store);
}

#[test]
fn equals_the_search(rt: HostRuntime) {
    let problem = triangle(&rt, rt.alloc(), 3);
    drive_fresh(&rt, rt.alloc(), &problem, 400);
    let_go(problem);
}

#[test]
fn equals_the_search_where_nothing_is_counted(rt: HostRuntime) {
    let problem = triangle(&rt, rt.alloc(), 1200);
    drive_fresh(&rt, rt.alloc(), &problem, 25);
    let_go(problem);
}

#[test]
fn equals_the_search_over_rows(rt: HostRuntime) {
    let problem = mixed(&rt, rt.alloc(), 1200);
    drive_fresh(&rt, rt.alloc(), &problem, 25);
    let_go(problem);
}

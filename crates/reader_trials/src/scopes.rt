//! Constraints over names in scope, their rules and refusals.

use dcsp_common::Memory;
use dcsp_problem::{Members, Rel, RuleRef, Term, TermList};
use fzn_item::{Item, LentItem, items, next_lent};
use fzn_scope::{ArgumentLists, Context, Declared, Names, bytes_at};
use fzn_token::{ModelError, Refusal, TokenList, tokens};
use std::alloc::{AllocFailed, Global};
use std::process::Abort;

/// The tokens of a short text.
fn read(alloc: Global, text: &[u8]) -> Result<TokenList, ModelError> {
    if text.len() > 1000 {
        return Err(ModelError::Memory);
    }
    tokens(alloc, text)
}

/// Adds a name to those in scope.
fn add<'t>(rt: &impl Abort, names: &mut Names<'t>, name: &'t [u8], declared: Declared) {
    assert!(rt; names.get(name).is_none());
    assert!(rt; names.declare(name, declared).is_ok());
}

/// A variable or a parameter.
fn one(boolean: bool, term: Term) -> Declared {
    Declared::One { boolean, term }
}

/// An array of these terms.
fn many(rt: &impl Abort, alloc: Global, boolean: bool, variable: bool, terms: &[Term]) -> Declared {
    let terms = Vec::from_slice(alloc, terms).expect(rt, "memory");
    Declared::Many {
        boolean,
        variable,
        terms: TermList::from_vec(terms),
    }
}

/// The integer variables `x` and `y`, the Boolean variable `b`, the parameters `n` (3) and `t` (true), the set `s`,
/// the integers `cs`, and the arrays of variables `xs` of `x` and `y`, `bs` of `b`, and `vs` of a constant.
fn scope(rt: &impl Abort, alloc: Global) -> Names<'static> {
    let mut names = Names::new(alloc);
    add(rt, &mut names, b"x", one(false, Term::Var(0)));
    add(rt, &mut names, b"y", one(false, Term::Var(1)));
    add(rt, &mut names, b"b", one(true, Term::Var(2)));
    add(rt, &mut names, b"n", one(false, Term::Const(3)));
    add(rt, &mut names, b"t", one(true, Term::Const(1)));
    let set = Members::Between { low: 1, high: 3 };
    add(rt, &mut names, b"s", Declared::Set(set));
    let constants = many(rt, alloc, false, false, &[Term::Const(1), Term::Const(-1)]);
    add(rt, &mut names, b"cs", constants);
    let variables = many(rt, alloc, false, true, &[Term::Var(0), Term::Var(1)]);
    add(rt, &mut names, b"xs", variables);
    let truths = many(rt, alloc, true, true, &[Term::Var(2)]);
    add(rt, &mut names, b"bs", truths);
    let fixed = many(rt, alloc, false, true, &[Term::Const(4)]);
    add(rt, &mut names, b"vs", fixed);
    names
}

/// The rule of a text's first item, which is a constraint, lent from lists.
fn rule_of<'l>(
    rt: &impl Abort,
    alloc: Global,
    lists: &'l mut ArgumentLists,
    text: &[u8],
) -> Result<RuleRef<'l>, ModelError> {
    let list = read(alloc, text).ok().expect(rt, "tokens");
    let names = scope(rt, alloc);
    match next_lent(alloc, text, list.items()) {
        Ok(Some((LentItem::Constraint(constraint), _))) => {
            let name = bytes_at(text, constraint.name_at, constraint.name_to);
            let context = Context {
                alloc,
                text,
                names: &names,
            };
            context.constraint_rule(lists, constraint.name_at, name, constraint.arguments)
        }
        _ => panic!(rt; "no constraint"),
    }
}

/// The text's first item is a constraint that has a rule.
fn expect_rule(rt: &impl Abort, alloc: Global, text: &[u8]) {
    let mut lists = ArgumentLists::new(alloc);
    assert!(rt; rule_of(rt, alloc, &mut lists, text).is_ok());
}

/// The text's first item is a constraint that is refused for this.
fn expect_refused(rt: &impl Abort, alloc: Global, text: &[u8], refusal: Refusal) {
    let mut lists = ArgumentLists::new(alloc);
    assert_eq!(rt;
        rule_of(rt, alloc, &mut lists, text).err(),
        Some(ModelError::Refused(refusal))
    );
}

/// A constraint that is refused, and why.
type Refused = (&'static [u8], Refusal);

/// Each of these constraints is refused for its reason.
fn expect_all_refused(rt: &impl Abort, alloc: Global, rows: &[Refused]) {
    for (text, refusal) in rows {
        expect_refused(rt, alloc, text, *refusal);
    }
}

#[test]
fn constraints_with_a_rule(rt: HostRuntime) {
    let alloc = rt.alloc();
    expect_rule(&rt, alloc, b"constraint int_ne(x,1);");
    expect_rule(&rt, alloc, b"constraint int_ne(n,y);");
    expect_rule(&rt, alloc, b"constraint bool_xor(b,t);");
    expect_rule(&rt, alloc, b"constraint bool_xor(b,false,b);");
    expect_rule(&rt, alloc, b"constraint bool2int(b,x);");
    expect_rule(&rt, alloc, b"constraint set_in(x,s);");
    expect_rule(&rt, alloc, b"constraint set_in_reif(x,{5,2,5},b);");
    expect_rule(&rt, alloc, b"constraint bool_clause(bs,[]);");
    expect_rule(&rt, alloc, b"constraint array_var_int_element(x,xs,y);");
    expect_rule(&rt, alloc, b"constraint array_bool_element(x,[t,false],b);");
    expect_rule(&rt, alloc, b"constraint fzn_all_different_int(vs);");
    expect_rule(
        &rt,
        alloc,
        b"constraint fzn_table_int([x,n,y],[1,2,3,4,n,6]);",
    );
    expect_rule(&rt, alloc, b"constraint fzn_table_int_reif(xs,[],b);");
    expect_rule(
        &rt,
        alloc,
        b"constraint fzn_table_bool_reif([b,t],[t,false],t);",
    );
    expect_rule(&rt, alloc, b"constraint int_lin_eq(cs,xs,n);");
    expect_rule(&rt, alloc, b"constraint int_lin_le_reif([n],vs,1,b);");
    expect_rule(&rt, alloc, b"constraint bool_lin_le([2],bs,x);");
}

const SCALARS_AND_THEIR_REFUSALS: &[Refused] = &[
    (
        b"constraint int_nq(q);",
        Refusal::UnknownConstraint { at: 11 },
    ),
    (b"constraint int_ne(q);", Refusal::IllTyped { at: 11 }),
    (b"constraint int_ne(q,b);", Refusal::Undeclared { at: 18 }),
    (b"constraint int_ne(b,q);", Refusal::IllTyped { at: 18 }),
    (b"constraint int_ne(x,true);", Refusal::IllTyped { at: 20 }),
    (b"constraint int_ne(2.5,1);", Refusal::IllTyped { at: 18 }),
    (b"constraint int_ne(xs,1);", Refusal::IllTyped { at: 18 }),
    (b"constraint int_ne([q],1);", Refusal::IllTyped { at: 18 }),
    (b"constraint int_ne(s,1);", Refusal::IllTyped { at: 18 }),
    (b"constraint bool_eq(b,1);", Refusal::IllTyped { at: 21 }),
    (b"constraint bool_xor(b);", Refusal::IllTyped { at: 11 }),
];

#[test]
fn scalars_and_their_refusals(rt: HostRuntime) {
    expect_all_refused(&rt, rt.alloc(), SCALARS_AND_THEIR_REFUSALS);
}

const LISTS_AND_SETS_AND_THEIR_REFUSALS: &[Refused] = &[
    (b"constraint set_in(x,n);", Refusal::IllTyped { at: 20 }),
    (b"constraint set_in(x,[1]);", Refusal::IllTyped { at: 20 }),
    (
        b"constraint fzn_all_different_int([x,q,b]);",
        Refusal::Undeclared { at: 36 },
    ),
    (
        b"constraint fzn_all_different_int(x);",
        Refusal::IllTyped { at: 33 },
    ),
    (
        b"constraint fzn_table_int([x,y],[1,2,3]);",
        Refusal::IllTyped { at: 11 },
    ),
    (
        b"constraint fzn_table_int([],[]);",
        Refusal::IllTyped { at: 11 },
    ),
    (
        b"constraint fzn_table_int([x],vs);",
        Refusal::IllTyped { at: 29 },
    ),
    (
        b"constraint fzn_table_int([x],[1,q]);",
        Refusal::Undeclared { at: 32 },
    ),
    (
        b"constraint fzn_table_int([b],[1]);",
        Refusal::IllTyped { at: 26 },
    ),
    (
        b"constraint fzn_table_bool([b],[t,b]);",
        Refusal::IllTyped { at: 33 },
    ),
    (
        b"constraint fzn_table_int([x],[1],b);",
        Refusal::IllTyped { at: 11 },
    ),
    (
        b"constraint fzn_table_bool_reif([b],[t]);",
        Refusal::IllTyped { at: 11 },
    ),
    (
        b"constraint int_lin_eq(xs,xs,3);",
        Refusal::IllTyped { at: 22 },
    ),
    (
        b"constraint int_lin_eq(vs,[x],3);",
        Refusal::IllTyped { at: 22 },
    ),
    (
        b"constraint int_lin_eq([1,x],[q],3);",
        Refusal::IllTyped { at: 25 },
    ),
    (
        b"constraint int_lin_eq(cs,[x],3);",
        Refusal::IllTyped { at: 11 },
    ),
    (
        b"constraint int_lin_eq(cs,[x],q);",
        Refusal::Undeclared { at: 29 },
    ),
];

#[test]
fn lists_and_sets_and_their_refusals(rt: HostRuntime) {
    expect_all_refused(&rt, rt.alloc(), LISTS_AND_SETS_AND_THEIR_REFUSALS);
}

fn expect_numbers(rt: &impl Abort, found: &[i64], numbers: &[i64]) {
    assert_eq!(rt; found, numbers);
}

fn expect_terms(rt: &impl Abort, found: &[Term], terms: &[Term]) {
    assert_eq!(rt; found, terms);
}

/// The rule is a sum, with a truth.
fn expect_sum(rt: &impl Abort, rule: RuleRef<'_>) {
    match rule {
        RuleRef::Sum {
            rel,
            coefs,
            terms,
            total,
            truth,
        } => {
            assert_eq!(rt; rel, Rel::AtMost);
            expect_numbers(rt, coefs, &[1, -1]);
            expect_terms(rt, terms, &[Term::Var(0), Term::Const(3)]);
            assert_eq!(rt; total, Term::Var(1));
            assert_eq!(rt; truth, Some(Term::Var(2)));
        }
        RuleRef::Plain { .. } => panic!(rt; "no sum"),
    }
}

/// The rule is of two truths, and has no list, whatever stood in the lists before.
fn expect_truths(rt: &impl Abort, rule: RuleRef<'_>) {
    match rule {
        RuleRef::Plain { scalars, first, .. } => {
            expect_terms(rt, scalars, &[Term::Var(2), Term::Const(1)]);
            assert!(rt; first.is_empty());
        }
        RuleRef::Sum { .. } => panic!(rt; "a sum"),
    }
}

#[test]
fn rules_of_a_sum_and_of_two_truths(rt: HostRuntime) {
    let alloc = rt.alloc();
    let mut lists = ArgumentLists::new(alloc);
    let text = b"constraint int_lin_le_reif(cs,[x,n],y,b);";
    let sum = rule_of(&rt, alloc, &mut lists, text)
        .ok()
        .expect(&rt, "a rule");
    expect_sum(&rt, sum);
    let text = b"constraint bool_xor(b,t);";
    let truths = rule_of(&rt, alloc, &mut lists, text)
        .ok()
        .expect(&rt, "a rule");
    expect_truths(&rt, truths);
}

/// The right side at a place of the arguments has so many elements, or is refused.
fn expect_count(rt: &impl Abort, alloc: Global, place: usize, count: Result<usize, Refusal>) {
    let text = b"constraint p([q,q],xs,q,7);";
    let tokens = read(alloc, text).ok().expect(rt, "tokens");
    let list = items(alloc, text, &tokens).ok().expect(rt, "items");
    let names = scope(rt, alloc);
    let Some(Item::Constraint { arguments, .. }) = list.items().first() else {
        panic!(rt; "no constraint")
    };
    let expr = arguments.items().get(place).expect(rt, "an expression");
    let context = Context {
        alloc,
        text,
        names: &names,
    };
    assert_eq!(rt; context.count_of(expr), count);
}

#[test]
fn elements_of_right_sides(rt: HostRuntime) {
    let alloc = rt.alloc();
    expect_count(&rt, alloc, 0, Ok(2));
    expect_count(&rt, alloc, 1, Ok(2));
    expect_count(&rt, alloc, 2, Err(Refusal::Undeclared { at: 22 }));
    expect_count(&rt, alloc, 3, Err(Refusal::IllTyped { at: 24 }));
}

#[test]
fn places_outside_a_text_have_no_bytes(rt: HostRuntime) {
    assert_eq!(rt; bytes_at(b"abc", 1, 3), b"bc".as_slice());
    assert_eq!(rt; bytes_at(b"abc", 2, 1).len(), 0);
    assert_eq!(rt; bytes_at(b"abc", 1, 4).len(), 0);
}

#[test]
fn want_of_memory_is_no_refusal(rt: HostRuntime) {
    assert_eq!(rt; ModelError::from((7u32, Memory)), ModelError::Memory);
    assert_eq!(rt;
        ModelError::from(AllocFailed { value: 7u32 }),
        ModelError::Memory
    );
    assert_eq!(rt;
        ModelError::from(Refusal::IllTyped { at: 7 }),
        ModelError::Refused(Refusal::IllTyped { at: 7 })
    );
}

//! Texts, their items, refusals and marks.

use fzn_item::{Item, ItemList, Marked, items};
use fzn_token::{ModelError, Refusal, tokens};
use std::alloc::{AllocError, Global};
use std::process::Abort;
use std::test::Fail;

/// The items of a short text.
fn read(alloc: Global, text: &[u8]) -> Result<ItemList, ModelError> {
    if text.len() > 1000 {
        return Err(ModelError::Memory);
    }
    let list = tokens(alloc, text)?;
    items(alloc, text, &list)
}

/// The mark of a short text's first item.
fn mark(alloc: Global, text: &[u8]) -> &'static str {
    let Ok(list) = read(alloc, text) else {
        return "no items";
    };
    match list.items().first() {
        Some(Item::Declare { marked, .. }) => match marked {
            Marked::Nothing => "nothing",
            Marked::Variable => "variable",
            Marked::Ranges(_) => "ranges",
            Marked::Wrong => "wrong",
        },
        _ => "no declaration",
    }
}

/// The short text has one item, and this is its debug text.
fn expect_item(
    rt: &impl Abort,
    alloc: Global,
    text: &[u8],
    expected: &str,
) -> Result<(), AllocError> {
    let list = read(alloc, text).ok().expect(rt, "an item");
    assert_eq!(rt; list.len(), 1);
    for item in list.items() {
        assert_eq!(rt; format!(in alloc; "{item:?}")?.as_str(), expected);
    }
    Ok(())
}

#[test]
fn declarations_as_they_are_read(rt: HostRuntime) -> Result<(), AllocError> {
    let alloc = rt.alloc();
    expect_item(
        &rt,
        alloc,
        b"set of int: s = {1,3};",
        "Declare { at: 0, variable: false, index: None, base: Set, name_at: 12, name_to: 13, marked: Nothing, right: Some(One(Listed { at: 16, values: ItemList { items: [1, 3] } })) }",
    )?;
    expect_item(
        &rt,
        alloc,
        b"float: f = 1.5;",
        "Declare { at: 0, variable: false, index: None, base: Float, name_at: 7, name_to: 8, marked: Nothing, right: Some(One(Float { at: 11 })) }",
    )?;
    expect_item(
        &rt,
        alloc,
        b"var -3..3: x;",
        "Declare { at: 0, variable: true, index: None, base: Range { low: -3, high: 3 }, name_at: 11, name_to: 12, marked: Nothing, right: None }",
    )?;
    expect_item(
        &rt,
        alloc,
        b"var {5,2}: y = x;",
        "Declare { at: 0, variable: true, index: None, base: Listed(ItemList { items: [5, 2] }), name_at: 11, name_to: 12, marked: Nothing, right: Some(One(Name { at: 15, to: 16 })) }",
    )?;
    expect_item(
        &rt,
        alloc,
        b"array [1..2] of var bool: a :: output_array([1..2]) = [b, true];",
        "Declare { at: 0, variable: true, index: Some((1, 2)), base: Bool, name_at: 26, name_to: 27, marked: Ranges(ItemList { items: [(1, 2)] }), right: Some(List { at: 54, atoms: ItemList { items: [Name { at: 55, to: 56 }, Truth { at: 58, value: true }] } }) }",
    )
}

#[test]
fn other_items_as_they_are_read(rt: HostRuntime) -> Result<(), AllocError> {
    let alloc = rt.alloc();
    expect_item(
        &rt,
        alloc,
        b"predicate p(var int: x, array [int] of bool: y);",
        "Predicate { at: 0 }",
    )?;
    expect_item(
        &rt,
        alloc,
        b"constraint int_eq(x, -4) :: domain(x, [1..2, {0.5, 1}], \"t\");",
        "Constraint { at: 0, name_at: 11, name_to: 17, arguments: ItemList { items: [One(Name { at: 18, to: 19 }), One(Whole { at: 21, value: -4 })] } }",
    )?;
    expect_item(
        &rt,
        alloc,
        b"constraint p(2..1);",
        "Constraint { at: 0, name_at: 11, name_to: 12, arguments: ItemList { items: [One(Range { at: 13, low: 2, high: 1 })] } }",
    )?;
    expect_item(
        &rt,
        alloc,
        b"solve :: int_search([x], input_order) minimize x;",
        "Solve { at: 0, goal: Minimize { at: 38, what: One(Name { at: 47, to: 48 }) } }",
    )
}

/// The text has so many items.
fn expect_items(rt: &impl Abort, alloc: Global, text: &[u8], count: usize) {
    match read(alloc, text) {
        Ok(list) => assert_eq!(rt; list.len(), count),
        Err(_) => panic!(rt; "a text of items"),
    }
}

#[test]
fn texts_and_their_numbers_of_items(rt: HostRuntime) {
    let alloc = rt.alloc();
    expect_items(&rt, alloc, b"", 0);
    expect_items(
        &rt,
        alloc,
        b"var -3..3: x; var {}: y = x; var set of 1..2: z; var 0.5..1.5: w;",
        4,
    );
    expect_items(&rt, alloc, b"constraint p(); solve satisfy;", 2);
}

/// The text is refused at this place.
fn expect_refused(rt: &impl Abort, alloc: Global, text: &[u8], at: u32) {
    assert!(rt;
        matches!(read(alloc, text), Err(ModelError::Refused(Refusal::Syntax { at: place })) if place == at)
    );
}

#[test]
fn texts_and_their_refusals(rt: HostRuntime) {
    let alloc = rt.alloc();
    expect_refused(&rt, alloc, b"solve satisfy; var x;", 15);
    expect_refused(&rt, alloc, b"var 0..1: x", 0);
    expect_refused(&rt, alloc, b"solve satisfy; ;", 15);
    expect_refused(&rt, alloc, b"int: n;", 0);
    expect_refused(&rt, alloc, b"array [1..1] of var bool: a;", 0);
    expect_refused(&rt, alloc, b"set of 1..2: s = {1};", 0);
    expect_refused(&rt, alloc, b"constraint p(x,);", 0);
    expect_refused(&rt, alloc, b"constraint p(x) :: true;", 0);
    expect_refused(&rt, alloc, b"solve maximize;", 0);
    expect_refused(&rt, alloc, b"var x: y; predicate", 0);
    expect_refused(&rt, alloc, b" int_eq(x, y);", 1);
}

/// The text's first item is a declaration with this mark.
fn expect_mark(rt: &impl Abort, alloc: Global, text: &[u8], marked: &str) {
    assert_eq!(rt; mark(alloc, text), marked);
}

#[test]
fn declarations_and_their_marks(rt: HostRuntime) {
    let alloc = rt.alloc();
    expect_mark(&rt, alloc, b"var 0..1: x :: a(a);", "nothing");
    expect_mark(&rt, alloc, b"var 0..1: x :: a(output_var);", "nothing");
    expect_mark(&rt, alloc, b"var 0..1: x :: output_var();", "nothing");
    expect_mark(&rt, alloc, b"var 0..1: x :: a :: output_var;", "variable");
    expect_mark(
        &rt,
        alloc,
        b"var 0..1: x :: output_array([9..9]) :: output_var;",
        "ranges",
    );
    expect_mark(
        &rt,
        alloc,
        b"var 0..1: x :: output_array :: output_var;",
        "wrong",
    );
    expect_mark(&rt, alloc, b"var 0..1: x :: output_array([9]);", "wrong");
}

/// Whether an annotation of this depth is refused.
fn refuses_depth(alloc: Global, depth: usize) -> Result<bool, Fail> {
    let mut text = Vec::new(alloc);
    text.extend_from_slice(b"var 0..1: x :: ")?;
    for _ in 0..depth {
        text.extend_from_slice(b"a(")?;
    }
    text.push(b'a')?;
    for _ in 0..depth {
        text.push(b')')?;
    }
    text.push(b';')?;
    Ok(read(alloc, &text).is_err())
}

#[test]
fn depth_of_annotations(rt: HostRuntime) -> Result<(), Fail> {
    assert!(rt; !refuses_depth(rt.alloc(), 199)?);
    assert!(rt; refuses_depth(rt.alloc(), 200)?);
    Ok(())
}

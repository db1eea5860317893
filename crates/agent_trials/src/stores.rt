//! The nogoods that an agent keeps.

use crate::given::let_store_go;
use abt_parts::Store;
use dcsp_defs::{Nogood, Pair};
use std::alloc::Global;
use std::process::Abort;

fn pair(var: u32, value: i64) -> Pair {
    Pair { var, value }
}

/// Keeps the nogood of these pairs, which must be free to keep.
fn keep(rt: &impl Abort, alloc: Global, store: &mut Store, pairs: &[Pair], step: u64) {
    let nogood = Nogood::from_pairs(alloc, pairs).expect(rt, "a nogood");
    let lowest = nogood.lowest().expect(rt, "a pair");
    assert!(rt; !store.rules_out(lowest.value));
    assert!(rt; store.keep(nogood, step).is_ok());
}

/// The steps of the items must be these.
fn expect_steps(rt: &impl Abort, store: &Store, steps: &[u64]) {
    assert_eq!(rt; store.len(), steps.len());
    for (item, step) in store.items().iter().zip(steps) {
        assert_eq!(rt; item.step, *step);
    }
}

/// The items that name the variable have these places.
fn expect_naming(rt: &impl Abort, store: &Store, var: u32, places: &[u64]) {
    assert!(rt; store.naming(var) == places);
}

#[test]
fn keeps_one_for_each_value(rt: HostRuntime) {
    let mut store = Store::new(rt.alloc());
    keep(&rt, rt.alloc(), &mut store, &[pair(0, 1)], 4);
    assert!(rt; store.rules_out(1));
    assert!(rt; !store.rules_out(0));
    keep(&rt, rt.alloc(), &mut store, &[pair(0, 0)], 9);
    expect_steps(&rt, &store, &[4, 9]);
    expect_naming(&rt, &store, 0, &[0, 1]);
    expect_naming(&rt, &store, 1, &[]);
    let_store_go(store);
}

#[test]
fn forgets_what_differs(rt: HostRuntime) {
    let mut store = Store::new(rt.alloc());
    keep(&rt, rt.alloc(), &mut store, &[pair(0, 5), pair(3, 1)], 1);
    keep(&rt, rt.alloc(), &mut store, &[pair(1, 6), pair(3, 2)], 2);
    keep(
        &rt,
        rt.alloc(),
        &mut store,
        &[pair(0, 5), pair(1, 6), pair(3, 3)],
        3,
    );
    keep(&rt, rt.alloc(), &mut store, &[pair(0, 7), pair(3, 4)], 4);
    store.forget(2, 0);
    expect_steps(&rt, &store, &[1, 2, 3, 4]);
    expect_naming(&rt, &store, 1, &[1, 2]);
    store.forget(0, 7);
    expect_steps(&rt, &store, &[2, 4]);
    expect_naming(&rt, &store, 0, &[1]);
    expect_naming(&rt, &store, 1, &[0]);
    expect_naming(&rt, &store, 3, &[0, 1]);
    assert!(rt; store.rules_out(2));
    assert!(rt; !store.rules_out(3));
    keep(&rt, rt.alloc(), &mut store, &[pair(3, 3)], 5);
    expect_steps(&rt, &store, &[2, 4, 5]);
    let_store_go(store);
}

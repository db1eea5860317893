//! Nogoods of pairs, and their merges.

use dcsp_defs::{MergeError, Nogood, NogoodError, Pair};
use std::alloc::Global;
use std::process::Abort;

fn pair(var: u32, value: i64) -> Pair {
    Pair { var, value }
}

fn nogood(rt: &impl Abort, alloc: Global, pairs: &[Pair]) -> Nogood {
    Nogood::from_pairs(alloc, pairs).expect(rt, "a nogood")
}

/// The nogood has these pairs.
fn expect_pairs(rt: &impl Abort, nogood: &Nogood, pairs: &[Pair]) {
    assert!(rt; nogood.pairs() == pairs);
}

/// Lets nogoods go. They are let go in a function of its own, where nothing else is known: its proof is long
/// where much is.
fn end(_one: Nogood, _other: Nogood) {}

/// The pairs fall first at this place.
fn expect_fall(rt: &impl Abort, alloc: Global, pairs: &[Pair], at: usize) {
    let fall = Nogood::from_pairs(alloc, pairs);
    assert!(rt; matches!(&fall, Err(NogoodError::Unordered { place }) if *place == at));
}

#[test]
fn from_pairs_tells_the_first_fall(rt: HostRuntime) {
    let nogood = nogood(&rt, rt.alloc(), &[pair(0, 5), pair(2, 7)]);
    let copy = nogood.copy(rt.alloc()).expect(&rt, "memory");
    expect_pairs(&rt, &copy, &[pair(0, 5), pair(2, 7)]);
    assert!(rt; nogood.lowest() == Some(pair(2, 7)));
    assert!(rt; nogood.value_of(2) == Some(7));
    assert!(rt; nogood.value_of(1).is_none());
    end(nogood, copy);
    expect_fall(&rt, rt.alloc(), &[pair(2, 7), pair(0, 5)], 1);
}

/// Merges these pairs without the variable, with this answer.
fn expect_merged(
    rt: &impl Abort,
    alloc: Global,
    nogood: &mut Nogood,
    other: &Nogood,
    without: u32,
    answer: Result<(), MergeError>,
) {
    assert!(rt; nogood.merge_without(alloc, other, without) == answer);
}

#[test]
fn merges_are_unions(rt: HostRuntime) {
    let alloc = rt.alloc();
    let mut merged = nogood(&rt, alloc, &[pair(0, 1), pair(2, 3)]);
    let other = nogood(&rt, alloc, &[pair(1, 4), pair(2, 3)]);
    expect_merged(&rt, alloc, &mut merged, &other, 1, Ok(()));
    expect_pairs(&rt, &merged, &[pair(0, 1), pair(2, 3)]);
    expect_merged(&rt, alloc, &mut merged, &other, 9, Ok(()));
    expect_pairs(&rt, &merged, &[pair(0, 1), pair(1, 4), pair(2, 3)]);
    end(merged, other);
}

#[test]
fn merges_tell_a_clash(rt: HostRuntime) {
    let alloc = rt.alloc();
    let three = [pair(0, 1), pair(1, 4), pair(2, 3)];
    let mut merged = nogood(&rt, alloc, &three);
    let eight = nogood(&rt, alloc, &[pair(2, 8)]);
    let clash = MergeError::Clash {
        var: 2,
        mine: 3,
        theirs: 8,
    };
    expect_merged(&rt, alloc, &mut merged, &eight, 9, Err(clash));
    expect_merged(&rt, alloc, &mut merged, &eight, 2, Ok(()));
    assert!(rt; merged.pairs().len() == 3);
    end(merged, eight);
}

//! Derivations as entries, with deletions.

use ngd_log::{Entries, Entry, read_log};
use ngd_rewrite::{Endings, upgraded};
use std::alloc::Global;
use std::process::Abort;

const TRIANGLE: &[u8] =
    b"ngd 1\n1 v3 [v1=0,v2=1] <- c2 c3\n2 v2 [v1=0] <- c1 n1\n3 v3 [v1=1,v2=0] <- c3 c2\n4 v2 [v1=1] <- n3 c1\n5 v1 [] <- n2 n4\nend\n";

/// `s` for a step, and the first number of a deletion as a digit.
fn shown(entry: &Entry) -> u8 {
    match entry {
        Entry::Step(_) => b's',
        Entry::Delete(numbers) => match numbers.items() {
            [number, ..] => b'0'.wrapping_add((*number % 10) as u8),
            [] => b'?',
        },
    }
}

/// The entries of the text's derivation, shown one by one, with so many deleted steps.
fn expect_upgraded(rt: &impl Abort, alloc: Global, text: &[u8], deleted: u64, kinds: &[u8]) {
    let derivation = read_log(alloc, text).ok().expect(rt, "a log");
    let mut entries = Entries::new(alloc);
    assert_eq!(rt; upgraded(alloc, &derivation, &mut entries), Ok(deleted));
    for kind in kinds {
        let entry = entries.take_first().expect(rt, "an entry");
        assert_eq!(rt; shown(&entry), *kind, "{text:?}");
    }
    assert!(rt; entries.take_first().is_none());
}

#[test]
fn deletes_after_the_last_citing_step(rt: HostRuntime) {
    let alloc = rt.alloc();
    expect_upgraded(&rt, alloc, b"ngd 1\nend\n", 0, b"");
    let text = b"ngd 1\n1 v2 [v1=0] <- c1 c2\n2 v2 [v1=1] <- c2 c1\n3 v1 [] <- n1 n2\nend\n";
    expect_upgraded(&rt, alloc, text, 0, b"sss");
    expect_upgraded(&rt, alloc, TRIANGLE, 2, b"ss1ss3s");
    let text = b"ngd 1\n1 v1 [] <-\n2 v1 [] <- n2 n9\n3 v1 [] <- n4 n1 n1\n4 v1 [] <-\nend\n";
    expect_upgraded(&rt, alloc, text, 3, b"ss2s1s");
}

/// For each step of the log, the numbers of the steps that end there.
fn expect_endings(rt: &impl Abort, alloc: Global, text: &[u8], expected: &[&[u64]]) {
    let endings = Endings::of_log(alloc, text).ok().expect(rt, "a log");
    assert!(rt; endings.len() == expected.len());
    for (place, numbers) in expected.iter().enumerate() {
        let mut told = Vec::new(alloc);
        assert!(rt; endings.add_numbers(place, &mut told).is_ok());
        assert!(rt; told.as_slice() == *numbers, "{place}");
    }
}

#[test]
fn tells_the_steps_that_end_at_each(rt: HostRuntime) {
    let alloc = rt.alloc();
    expect_endings(&rt, alloc, b"ngd 1\nend\n", &[]);
    expect_endings(&rt, alloc, TRIANGLE, &[&[], &[1], &[], &[3], &[2, 4, 5]]);
    let text = b"ngd 1\n1 v1 [] <-\n2 v1 [] <- n2 n9\n3 v1 [] <- n4 n1 n1\n4 v1 [] <-\nend\n";
    expect_endings(&rt, alloc, text, &[&[], &[2], &[1, 3], &[4]]);
}

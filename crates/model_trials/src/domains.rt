//! A listed set, and ranges.

use dcsp_domain::{Domain, DomainError};
use std::process::Abort;

/// The domain has these values.
fn expect_values(rt: &impl Abort, domain: Domain, values: [i64; 3]) {
    assert_eq!(rt; domain.len(), 3);
    assert!(rt; domain.value(0) == values[0]);
    assert!(rt; domain.value(1) == values[1]);
    assert!(rt; domain.value(2) == values[2]);
}

#[test]
fn lists_a_set(rt: HostRuntime) {
    let domain = Domain::listed(rt.alloc(), &[5, 1, 3, 1]).expect(&rt, "a set");
    assert!(rt; domain.place_of(3) == Some(1));
    assert!(rt; domain.place_of(2).is_none());
    assert!(rt; !domain.is_empty());
    expect_values(&rt, domain, [1, 3, 5]);
}

#[test]
fn makes_a_range(rt: HostRuntime) {
    let domain = Domain::range(rt.alloc(), -2, 0).expect(&rt, "a range");
    expect_values(&rt, domain, [-2, -1, 0]);
    let refused = Domain::range(rt.alloc(), 0, 65_536).err();
    assert!(rt; refused == Some(DomainError::Large { size: 65_537 }));
}

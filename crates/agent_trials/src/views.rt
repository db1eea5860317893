//! What an agent is told of others.

use abt_parts::View;
use std::test::Fail;

#[test]
fn learns_what_is_newer(rt: HostRuntime) -> Result<(), Fail> {
    let mut view = View::new(rt.alloc(), 2).expect(&rt, "memory");
    assert_eq!(rt; view.value_of(1), None);
    assert!(rt; view.learn(0, 5, 1));
    assert!(rt; !view.learn(0, 5, 1));
    assert!(rt; view.learn(0, 5, 2));
    assert!(rt; !view.learn(0, 6, 1));
    assert_eq!(rt; view.value_of(0), Some(5));
    assert_eq!(rt; view.stamp_of(0), Some(2));
    assert_eq!(rt; view.stamp_of(1), None);
    assert_eq!(rt; view.value_of(7), None);
    Ok(())
}

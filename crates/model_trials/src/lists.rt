//! A list that grows.

use dcsp_common::ItemList;
use std::test::Fail;

#[test]
fn grows_at_its_end(rt: HostRuntime) -> Result<(), Fail> {
    let mut list = ItemList::new(rt.alloc());
    assert!(rt; list.is_empty());
    for item in [7u32, 5] {
        assert!(rt; list.push(item).is_ok());
    }
    assert_eq!(rt; list.items(), [7, 5].as_slice());
    assert_eq!(rt; list.len(), 2);
    let again = ItemList::from_vec(list.into_vec());
    assert_eq!(rt; again.items(), [7, 5].as_slice());
    Ok(())
}

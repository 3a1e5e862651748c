//! Orders of items that wait for others, by both agendas.

use dependency_order::{Dependencies, arrival_order, lowest_order};
use std::alloc::{AllocError, Global};
use std::test::Fail;

/// Numbers 0 to 5, of which 0 is known at the start. Items 0 to 3 yield the numbers 1 to 4; item 4 waits for itself.
fn dependencies(alloc: Global) -> Result<Dependencies, AllocError> {
    let mut dependencies = Dependencies::new(alloc, 6);
    dependencies.start(&[0])?;
    dependencies.push(&[2, 3], &[1])?;
    dependencies.push(&[0], &[2])?;
    dependencies.push(&[0, 2, 0], &[3])?;
    dependencies.push(&[], &[4])?;
    dependencies.push(&[5], &[5])?;
    Ok(dependencies)
}

#[test]
fn items_come_after_what_they_need(rt: HostRuntime) -> Result<(), Fail> {
    let alloc = rt.alloc();
    let dependencies = dependencies(alloc)?;
    let order = arrival_order(alloc, &dependencies)?;
    assert_eq!(rt; order.items(), [1, 3, 2, 0].as_slice());
    let keys: [([u32; 5], [u32; 4]); 3] = [
        ([0, 1, 2, 3, 4], [1, 2, 0, 3]),
        ([9, 8, 7, 6, 5], [3, 1, 2, 0]),
        ([1, 1, 1, 1, 1], [1, 2, 0, 3]),
    ];
    for (keys, items) in keys {
        let keys = keys.to_vec(alloc)?;
        assert!(rt; dependencies.len() <= keys.len());
        let order = lowest_order(alloc, &dependencies, keys)?;
        assert_eq!(rt; order.items(), items.as_slice());
    }
    Ok(())
}

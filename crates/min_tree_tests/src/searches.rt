use min_tree::{ABOVE_ALL, MinTree};
use std::alloc::Global;
use std::test::Fail;

/// A tree of these numbers.
fn tree_of(alloc: Global, numbers: &[u64]) -> Result<MinTree, Fail> {
    let mut tree = MinTree::new(alloc);
    for number in numbers {
        tree.reserve()?;
        tree.push(*number);
    }
    Ok(tree)
}

#[test]
fn finds_the_first_at_most_a_bound(rt: HostRuntime) -> Result<(), Fail> {
    let tree = tree_of(rt.alloc(), &[9, 7, 8, 3, 7, 1])?;
    assert_eq!(rt; tree.first_at_most(0, 7), Some(1));
    assert_eq!(rt; tree.first_at_most(2, 7), Some(3));
    assert_eq!(rt; tree.first_at_most(4, 3), Some(5));
    assert_eq!(rt; tree.first_at_most(0, 0), None);
    assert_eq!(rt; tree.first_at_most(6, 9), None);
    Ok(())
}

#[test]
fn empty_tree_has_nothing(rt: HostRuntime) -> Result<(), Fail> {
    let tree = tree_of(rt.alloc(), &[])?;
    assert_eq!(rt; tree.len(), 0);
    assert_eq!(rt; tree.first_at_most(0, u64::MAX), None);
    Ok(())
}

#[test]
fn changed_number_is_found(rt: HostRuntime) -> Result<(), Fail> {
    let mut tree = tree_of(rt.alloc(), &[u64::MAX, u64::MAX, 5, u64::MAX, u64::MAX])?;
    assert_eq!(rt; tree.len(), 5);
    if tree.len() == 5 {
        tree.set(2, u64::MAX);
        tree.set(4, 6);
        assert_eq!(rt; tree.get(4), 6);
    }
    assert_eq!(rt; tree.first_at_most(0, 10), Some(4));
    Ok(())
}

/// The least number of a tree of these, and once the number at a place is another.
fn least_of(alloc: Global, numbers: &[u64], place: usize, number: u64) -> Result<(u64, u64), Fail> {
    let mut tree = tree_of(alloc, numbers)?;
    let before = tree.least();
    if place < tree.len() {
        tree.set(place, number);
    }
    Ok((before, tree.least()))
}

#[test]
fn least_number(rt: HostRuntime) -> Result<(), Fail> {
    assert_eq!(rt; least_of(rt.alloc(), &[9, 7, 8, 3, 7], 3, 10)?, (3, 7));
    Ok(())
}

#[test]
fn no_least_number(rt: HostRuntime) -> Result<(), Fail> {
    assert_eq!(rt; least_of(rt.alloc(), &[], 0, 1)?, (ABOVE_ALL, ABOVE_ALL));
    Ok(())
}

use super::*;
use std::cmp::Ordering;
use std::test::Fail;

#[test]
fn items_are_a_list_and_compare_like_one(rt: HostRuntime) -> Result<(), Fail> {
    let alloc = rt.alloc();
    let mut items = Items::new(alloc);
    assert!(rt; items.is_empty());
    items.push(3u8)?;
    items.push(1u8)?;
    assert_eq!(rt; items.len(), 2);
    assert_eq!(rt; items.get(1).copied(), Some(1));
    let copy = Items::from_slice(alloc, items.as_slice())?;
    assert!(rt; copy == items);
    assert_eq!(rt; items.pop(), Some(1));
    assert_eq!(rt; items.cmp(&copy), Ordering::Less);
    assert_eq!(rt; items.partial_cmp(&copy), Some(Ordering::Less));
    let again = Items::from_vec(copy.into_vec());
    assert_eq!(rt; again.as_slice(), [3u8, 1].as_slice());
    Ok(())
}

#[test]
fn boxes_are_values_and_compare_like_them(rt: HostRuntime) -> Result<(), Fail> {
    let alloc = rt.alloc();
    let small = Boxed::new(alloc, 3u8)?;
    let large = Boxed::new(alloc, 5u8)?;
    assert!(rt; small != large);
    assert_eq!(rt; small.cmp(&large), Ordering::Less);
    assert_eq!(rt; small.partial_cmp(&large), Some(Ordering::Less));
    assert_eq!(rt; *small.get(), 3);
    assert_eq!(rt; large.into_inner(), 5);
    Ok(())
}

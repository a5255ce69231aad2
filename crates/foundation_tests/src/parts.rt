use list_core::{Parts, RoomyParts};
use std::test::Fail;

#[test]
fn parts_stand_in_order(rt: HostRuntime) -> Result<(), Fail> {
    let mut parts: Parts<u8> = Parts::new(rt.alloc());
    assert!(rt; parts.is_empty());
    parts.push(2)?;
    parts.push(3)?;
    parts.push_front(1)?;
    assert_eq!(rt; parts.as_slice(), [1, 2, 3].as_slice());
    assert_eq!(rt; parts.len(), 3);
    assert_eq!(rt; parts.get(2).copied(), Some(3));
    assert_eq!(rt; parts.get(3).copied(), None);
    let mut copy = Parts::from_slice(rt.alloc(), parts.as_slice())?;
    assert_eq!(rt; copy.as_slice(), [1, 2, 3].as_slice());
    assert_eq!(rt; copy.pop(), Some(3));
    assert_eq!(rt; copy.len(), 2);
    copy.set(0, 7);
    assert_eq!(rt; copy.as_slice(), [7, 2].as_slice());
    let whole = Parts::from_vec([4, 5].to_vec(rt.alloc())?);
    assert_eq!(rt; whole.as_slice(), [4, 5].as_slice());
    assert_eq!(rt; whole.into_vec().pop(), Some(5));
    Ok(())
}

#[test]
fn parts_are_edited(rt: HostRuntime) -> Result<(), Fail> {
    let mut parts = Parts::from_slice(rt.alloc(), &[1, 3])?;
    parts.insert(1, 2)?;
    parts.insert(3, 4)?;
    *parts.item_mut(0) = 9;
    assert_eq!(rt; parts.as_slice(), [9, 2, 3, 4].as_slice());
    assert_eq!(rt; parts.remove(1), 2);
    parts.extend(Parts::from_slice(rt.alloc(), &[5, 6])?)?;
    assert_eq!(rt; parts.as_slice(), [9, 3, 4, 5, 6].as_slice());
    parts.truncate(2);
    assert_eq!(rt; parts.as_slice(), [9, 3].as_slice());
    Ok(())
}

#[test]
fn room_is_made_before_it_is_used(rt: HostRuntime) -> Result<(), Fail> {
    let mut parts = RoomyParts::new(rt.alloc());
    parts.reserve(2)?;
    parts.append(1);
    parts.append(2);
    assert_eq!(rt; parts.as_slice(), [1, 2].as_slice());
    assert_eq!(rt; parts.pop(), Some(2));
    parts.append(3);
    assert_eq!(rt; (parts.len(), parts.get(1).copied()), (2, Some(3)));
    parts.truncate(1);
    assert_eq!(rt; parts.as_slice(), [1].as_slice());
    Ok(())
}

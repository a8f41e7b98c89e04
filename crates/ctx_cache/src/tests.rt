use super::*;
use std::test::Fail;

// One file at most has a context: while 4 is busy there is none for 5, and once it is idle 5 comes in its place.
#[test]
fn one_context_is_replaced_once_it_is_idle(rt: HostRuntime) -> Result<(), Fail> {
    let mut order = ContextOrder::new(rt.alloc(), 1)?;
    assert_eq!(rt; order.entrance(4, |_| false), Entrance::Free);
    order.enter(4)?;
    assert_eq!(rt; order.entrance(4, |_| false), Entrance::There);
    assert_eq!(rt; order.entrance(5, |_| false), Entrance::Full);
    assert_eq!(rt; order.entrance(5, |_| true), Entrance::Replaces(4));
    order.enter(5)?;
    order.remove(4);
    assert_eq!(rt; order.contains(4), false);
    assert_eq!(rt; order.entrance(4, |_| true), Entrance::Replaces(5));
    Ok(())
}

// 4, 5 and 6 are entered in this order, and then 4 is used: 5 is the one used least recently, and 6 where 5 is busy.
#[test]
fn a_use_saves_a_context(rt: HostRuntime) -> Result<(), Fail> {
    let mut order = ContextOrder::new(rt.alloc(), 3)?;
    for file in [4, 5, 6] {
        order.enter(file)?;
    }
    order.touch(4);
    order.touch(9);
    assert_eq!(rt; order.len(), 3);
    assert_eq!(rt; order.entrance(7, |_| true), Entrance::Replaces(5));
    assert_eq!(rt; order.entrance(7, |file| file != 5), Entrance::Replaces(6));
    assert_eq!(rt; order.entrance(7, |file| file == 4), Entrance::Replaces(4));
    Ok(())
}

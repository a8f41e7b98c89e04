ghost use Rattle.std.specs.Prelude.{◌≡◌, OnOk, IsTrue, None};
ghost use Rattle.range_map.specs.Entries.{is_new, with_entry};

use super::*;
use bytes::Bytes;
use gw_model::Stable;
use spill_region::Region;
use std::alloc::Global;
use std::test::Fail;
use tickets::ReplyDesk;

// An unstable write of four bytes that was answered when it was accepted.
fn entry(number: u32, offset: u64) -> Entry
    ensures number { result.number ≡ number }
    ensures offset { result.offset ≡ offset }
    ensures ticket { result.ticket ≡ None }
{
    Entry {
        number,
        offset,
        count: 4,
        weight: 1028,
        place: Place::Memory(Bytes::from_static(b"abcd")),
        stable: Stable::Unstable,
        ticket: None,
    }
}

fn put<M: PendingMap>(map: &mut M, entry: Entry) -> Result<(), Fail>
    requires { IsTrue (is_new entry.number (M.entries map.old)) }
    ensures { OnOk result (M.entries map.new ≡ with_entry entry (M.entries map.old)) }
{
    match map.insert(entry) {
        Ok(()) => Ok(()),
        Err(_) => Err(Fail::from("not put in")),
    }
}

// The numbers of the entries, in order.
fn numbers<M: PendingMap>(alloc: Global, mut map: M) -> Result<Vec<u32>, Fail> {
    let mut all = Vec::new(alloc);
    for _ in 0..map.len() {
        if let Some(entry) = map.pop_first() {
            all.push(entry.number)?;
        }
    }
    Ok(all)
}

#[test]
fn entries_are_in_order(rt: HostRuntime) -> Result<(), Fail> {
    let alloc = rt.alloc();
    let mut map = SortedVecMap::new(alloc);
    put(&mut map, entry(1, 20))?;
    put(&mut map, entry(2, 10))?;
    put(&mut map, entry(3, 10))?;
    assert_eq!(rt; map.len(), 3);
    assert_eq!(rt; map.first().map(|e| e.number), Some(2));
    assert_eq!(rt; map.same_range(10, 4).map(|e| e.number), Some(2));
    assert!(rt; map.same_range(10, 5).is_none());
    assert_eq!(rt; map.last_in_memory().map(|e| e.number), Some(1));
    assert_eq!(rt;
        (
            map.max_goal(10),
            map.max_goal(12),
            map.max_goal(20),
            map.max_goal(99)
        ),
        (0, 12, 14, 24)
    );
    assert_eq!(rt; numbers(alloc, map)?.as_slice(), [2, 3, 1].as_slice());
    Ok(())
}

#[test]
fn an_entry_is_changed_where_it_stands(rt: HostRuntime) -> Result<(), Fail> {
    let alloc = rt.alloc();
    let mut desk = ReplyDesk::new(alloc);
    let mut region = Region::new(alloc, 16);
    let mut map = SortedVecMap::new(alloc);
    put(&mut map, entry(1, 10))?;
    put(&mut map, entry(2, 20))?;
    map.give_ticket(10, 1, Stable::FileSync, desk.issue(7, 100)?);
    let extent = region.place(4)?;
    let old = map.set_place(20, 2, Place::Spilled(extent));
    assert!(rt; matches!(old, Place::Memory(_)));
    assert_eq!(rt; map.last_in_memory().map(|e| e.number), Some(1));
    let Some(first) = map.pop_first() else {
        return Err(Fail::from("empty"));
    };
    assert_eq!(rt; first.stable, Stable::FileSync);
    assert_eq!(rt; first.ticket.map(|t| t.xid()), Some(100));
    let Some(second) = map.pop_first() else {
        return Err(Fail::from("empty"));
    };
    assert_eq!(rt; second.stable, Stable::Unstable);
    assert!(rt; second.ticket.is_none());
    assert!(rt; matches!(second.place, Place::Spilled(_)));
    assert!(rt; map.pop_first().is_none());
    Ok(())
}

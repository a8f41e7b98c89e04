// The happy path of each call that takes memory.
ghost use Rattle.std.specs.Prelude.{◌≡◌, true};
ghost use Rattle.range_map.specs.Entries.{is_in_memory};
ghost use Rattle.pending_writes.specs.Writes.{is_sound_entry};

use super::*;
use bytes::Bytes;
use gw_model::Stable;
use range_map::{Entry, PendingMap, Place, SortedVecMap};
use spill::{MemSpill, MemSpillHost, SpillDevice, SpillFile, SpillHost};
use std::alloc::Global;
use std::test::Fail;

// An unstable write of four bytes that was answered when it was accepted.
fn entry() -> Entry
    ensures number { result.number ≡ 1 }
    ensures here { is_in_memory result ≡ true }
    ensures sound { is_sound_entry result ≡ true }
{
    Entry {
        number: 1,
        offset: 9,
        count: 4,
        weight: 1028,
        place: Place::Memory(Bytes::from_static(b"abcd")),
        stable: Stable::Unstable,
        ticket: None,
    }
}

// A spill file of sixteen bytes.
fn file(alloc: Global) -> Result<SpillFile<MemSpill>, Fail> {
    let mut host = MemSpillHost::new(alloc, Vec::new(alloc));
    let device = host.take_device(4)?;
    Ok(SpillFile::new(alloc, device, 16))
}

// One pending write.
fn one_pending(alloc: Global) -> Result<PendingWrites<SortedVecMap, MemSpill>, Fail> {
    let mut writes = PendingWrites::new(alloc, file(alloc)?);
    match writes.insert(entry()) {
        Ok(()) => Ok(writes),
        Err(_) => Err(Fail::from("not put in")),
    }
}

fn loaded(load: Load) -> Result<Bytes, Fail> {
    match load {
        Load::Loaded(bytes) => Ok(bytes),
        Load::Fault => Err(Fail::from("not read")),
        Load::Memory(_extent) => Err(Fail::from("no memory")),
        Load::MemoryAfterRead(_extent) => Err(Fail::from("no memory behind the read")),
    }
}

// The bytes of the first entry, which is on the device.
fn load_first<M: PendingMap, D: SpillDevice>(
    writes: &mut PendingWrites<M, D>,
) -> Result<Bytes, Fail> {
    let Some(entry) = writes.take_first(9) else {
        return Err(Fail::from("not taken"));
    };
    let Entry { place, .. } = entry;
    match place {
        Place::Spilled(extent) => loaded(writes.load(extent)),
        Place::Memory(_bytes) => Err(Fail::from("not on the device")),
    }
}

#[test]
fn a_spilled_write_is_compared_and_loaded(rt: HostRuntime) -> Result<(), Fail> {
    let mut writes = one_pending(rt.alloc())?;
    assert_eq!(rt;
        writes.spill_one(),
        SpillMove::Moved {
            number: 1,
            weight: 1028,
            start: 0
        }
    );
    assert_eq!(rt; writes.compare(9, b"abcd"), Comparison::Same);
    assert_eq!(rt; load_first(&mut writes)?.as_slice(), b"abcd".as_slice());
    Ok(())
}

// Steps over a map and a spill file.
ghost use Rattle.std.specs.Prelude.{◌≡◌, true, IsSomeAnd};
ghost use Rattle.range_map.specs.declared.entry.Place.TheVariants.{Spilled};
ghost use Rattle.range_map.specs.Entries.{entry_at, is_in_memory, with_place_at};
ghost use Rattle.pending_writes.specs.Moves.{MovesLast, failed_move};
ghost use Rattle.pending_writes.specs.Writes.{AreSoundEntries, pending_state};

use crate::SpillMove;
use range_map::{PendingMap, Place};
use spill::{SpillDevice, SpillFail, SpillFile};
use spill_region::Extent;

// The bytes of an entry in memory are in an extent.
fn put_away<M: PendingMap>(map: &mut M, offset: u64, number: u32, extent: Extent)
    requires { IsSomeAnd (entry_at offset number (M.entries map.old)) (λ e. is_in_memory e ≡ true) }
    ensures { M.entries map.new ≡ with_place_at offset number (Spilled extent) (M.entries map.old) }
{
    map.set_place(offset, number, Place::Spilled(extent));
}

// What a spill step came to whose put failed.
fn failed_move(fail: SpillFail) -> SpillMove
    ensures { result ≡ failed_move fail }
{
    match fail {
        SpillFail::NoRoom => SpillMove::NoRoom,
        SpillFail::Fault => SpillMove::Fault,
        SpillFail::Memory => SpillMove::Memory,
    }
}

// The bytes of the last entry in memory go to the device.
pub(crate) fn move_last<M: PendingMap, D: SpillDevice>(
    map: &mut M,
    spill: &mut SpillFile<D>,
) -> SpillMove
    requires sound { AreSoundEntries (pending_state (M.entries map.old) spill.old) }
    ensures { MovesLast D.tells result (pending_state (M.entries map.old) spill.old) (pending_state (M.entries map.new) spill.new) }
{
    let Some(entry) = map.last_in_memory() else {
        return SpillMove::Nothing;
    };
    let Place::Memory(bytes) = &entry.place else {
        unreachable!()
    };
    let (number, offset, weight) = (entry.number, entry.offset, entry.weight);
    let extent = match spill.put(bytes.as_slice()) {
        Ok(extent) => extent,
        Err(fail) => return failed_move(fail),
    };
    let start = extent.start();
    put_away(map, offset, number, extent);
    SpillMove::Moved {
        number,
        weight,
        start,
    }
}

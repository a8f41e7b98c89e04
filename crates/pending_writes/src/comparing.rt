// A write is compared with a pending one.
ghost use Rattle.std.specs.Prelude.{◌≡◌, ◌≤◌, true, length, [], ◌∷◌};
ghost use Rattle.spill.specs.Kept.{extents_of};
ghost use Rattle.pending_writes.specs.Comparisons.{Compares, ComparesAt, ComparesHere, ComparesThere, same_range};
ghost use Rattle.pending_writes.specs.Extents.{are_live, held_extents, place_extents};

use crate::Comparison;
use range_map::{PendingMap, Place};
use spill::{GetFail, SpillDevice, SpillFile};
use spill_region::Extent;

// With bytes in memory.
fn compare_here(held: &[u8], bytes: &[u8]) -> Comparison
    ensures { ComparesHere held.now bytes.now result }
{
    if held == bytes {
        Comparison::Same
    } else {
        Comparison::Differs
    }
}

// With the bytes of an extent.
fn compare_there<D: SpillDevice>(
    spill: &mut SpillFile<D>,
    extent: &Extent,
    bytes: &[u8],
) -> Comparison
    requires { are_live (extent.now ∷ []) (extents_of spill.old.kept) ≡ true }
    ensures { ComparesThere D.tells extent.now bytes.now result spill.old spill.new }
{
    match spill.get(extent) {
        Ok(held) => compare_here(held.as_slice(), bytes),
        Err(GetFail::Fault) => Comparison::Fault,
        Err(GetFail::Memory) => Comparison::Memory,
    }
}

// With bytes wherever they are.
fn compare_at<D: SpillDevice>(spill: &mut SpillFile<D>, place: &Place, bytes: &[u8]) -> Comparison
    requires { are_live (place_extents place.now) (extents_of spill.old.kept) ≡ true }
    ensures { ComparesAt D.tells place.now bytes.now result spill.old spill.new }
{
    match place {
        Place::Memory(held) => compare_here(held.as_slice(), bytes),
        Place::Spilled(extent) => compare_there(spill, extent, bytes),
    }
}

/// Compares bytes with those of the first entry of their range.
pub(crate) fn compare_range<M: PendingMap, D: SpillDevice>(
    map: &M,
    spill: &mut SpillFile<D>,
    offset: u64,
    bytes: &[u8],
) -> Comparison
    requires few { length bytes.now ≤ 1048576 }
    requires live { are_live (held_extents (M.entries map.now)) (extents_of spill.old.kept) ≡ true }
    ensures { Compares D.tells (same_range offset bytes.now (M.entries map.now)) bytes.now result spill.old spill.new }
{
    match map.same_range(offset, bytes.len() as u32) {
        Some(entry) => compare_at(spill, &entry.place, bytes),
        None => Comparison::NotThere,
    }
}

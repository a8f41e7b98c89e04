// Extents are freed.
ghost use Rattle.std.specs.Prelude.{◌≡◌, true, []};
ghost use Rattle.spill.specs.Kept.{extents_of};
ghost use Rattle.pending_writes.specs.Extents.{are_live, held_extents, place_extents};
ghost use Rattle.pending_writes.specs.Taken.{freed_all};

use range_map::{PendingMap, Place};
use spill::{SpillDevice, SpillFile};

/// The extent of a place is freed, if it has one.
pub(crate) fn free_place<D: SpillDevice>(spill: &mut SpillFile<D>, place: Place)
    requires { are_live (place_extents place) (extents_of spill.old.kept) ≡ true }
    ensures { spill.new ≡ freed_all (place_extents place) spill.old }
{
    match place {
        Place::Memory(_bytes) => {}
        Place::Spilled(extent) => spill.free(extent),
    }
}

/// All entries are taken off, and their extents freed.
pub(crate) fn free_all<M: PendingMap, D: SpillDevice>(map: &mut M, spill: &mut SpillFile<D>)
    requires { are_live (held_extents (M.entries map.old)) (extents_of spill.old.kept) ≡ true }
    ensures none { M.entries map.new ≡ [] }
    ensures freed { spill.new ≡ freed_all (held_extents (M.entries map.old)) spill.old }
{
    while let Some(entry) = map.pop_first() {
        free_place(spill, entry.place);
    }
}

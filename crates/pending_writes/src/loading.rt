// The bytes of an extent come back into memory.
ghost use Rattle.std.specs.Prelude.{◌≡◌, true, Contains, [], ◌∷◌};
ghost use Rattle.spill.specs.Kept.{extents_of};
ghost use Rattle.pending_writes.specs.Extents.{are_live};
ghost use Rattle.pending_writes.specs.declared.reports.Load.TheVariants.{Fault};
ghost use Rattle.pending_writes.specs.Reads.{Loads};
ghost use Rattle.pending_writes.specs.Taken.{freed_spill};

use crate::Load;
use bytes::Bytes;
use spill::{GetFail, SpillDevice, SpillFile};
use spill_region::Extent;

// The bytes of an extent couldn't be read.
fn lose_extent<D: SpillDevice>(spill: &mut SpillFile<D>, lost: Extent) -> Load
    requires { Contains (extents_of spill.old.kept) lost }
    ensures freed { spill.new ≡ freed_spill lost spill.old }
    ensures fault { result ≡ Fault }
{
    spill.free(lost);
    Load::Fault
}

/// Loads the bytes of an extent. It is freed last, so that want of memory loses none.
pub(crate) fn load_extent<D: SpillDevice>(spill: &mut SpillFile<D>, extent: Extent) -> Load
    requires { are_live (extent ∷ []) (extents_of spill.old.kept) ≡ true }
    ensures { Loads D.tells extent result spill.old spill.new }
{
    let read = match spill.get(&extent) {
        Ok(read) => read,
        Err(GetFail::Memory) => return Load::Memory(extent),
        Err(GetFail::Fault) => return lose_extent(spill, extent),
    };
    let Ok(bytes) = Bytes::from_vec(read) else {
        return Load::MemoryAfterRead(extent);
    };
    spill.free(extent);
    Load::Loaded(bytes)
}

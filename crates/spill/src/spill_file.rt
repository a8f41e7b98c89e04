// Bytes in extents of a device.
ghost use Rattle.std.specs.Prelude.{◌≡◌, ◌≢◌, ℕ, ◌+◌, ◌<◌, ◌≤◌, ◌↔◌, [], ◌∷◌, ◌++◌, IfOk, OnOk, OnErr, IsErrOf, Err, length, vec_len, All, Contains, false, true};
ghost use Rattle.gw_outside.specs.Causes.{Rose};
ghost use Rattle.gw_outside.specs.Tally.{one_call};
ghost use Rattle.spill_region.specs.Extents.{AreApart, span_end, next_span, with_placed, with_freed};
ghost use Rattle.spill.specs.Device.{bytes_from};
ghost use Rattle.spill.specs.Kept.{bytes_at, extents_of, kept_without, region_after_fault, region_of};

use crate::{SpillDevice, SpillFault};
use spill_region::{Extent, PlaceFault, Region};
use std::alloc::Global;
use std::marker::Model;

/// Why bytes weren't put.
#[derive(Clone, Copy, Debug, PartialEq, Eq)]
pub enum SpillFail {
    /// They don't fit into the region.
    NoRoom,
    /// The device failed.
    Fault,
    /// Memory was refused.
    Memory,
}

/// Why bytes weren't got.
#[derive(Clone, Copy, Debug, PartialEq, Eq)]
pub enum GetFail {
    /// The device failed.
    Fault,
    /// Memory was refused.
    Memory,
}

// So many bytes of a device from a place on.
fn read_bytes<D: SpillDevice>(
    device: &mut D,
    alloc: Global,
    place: u64,
    len: usize,
) -> Result<Vec<u8>, GetFail>
    ensures many { IfOk result (λ bytes. vec_len bytes ≡ len) }
    ensures bytes { IfOk result (λ bytes. D.tells → bytes.items ≡ bytes_from (D.byte device.old) place len) }
    ensures same { D.tells → (k : ℕ) → D.byte device.new k ≡ D.byte device.old k }
    ensures memory_same { IsErrOf result GetFail.Memory → device.new ≡ device.old }
    ensures fault { IsErrOf result GetFail.Fault → Rose (D.count device.old) (D.count device.new) }
    ensures later { D.count device.old ≤ D.count device.new }
    ensures done_counted { OnOk result (D.tally device.new ≡ one_call false (D.tally device.old)) }
    ensures fault_counted { IsErrOf result GetFail.Fault → D.tally device.new ≡ one_call true (D.tally device.old) }
{
    let Ok(mut bytes) = vec![in alloc; 0; len] else {
        return Err(GetFail::Memory);
    };
    match device.read_at(place, &mut bytes) {
        Ok(()) => Ok(bytes),
        Err(SpillFault) => Err(GetFail::Fault),
    }
}

/// A device as a file of extents, each with the bytes that were put into it.
#[derive(Drop)]
pub struct SpillFile<D: SpillDevice> {
    alloc: Global,
    region: Region,
    device: D,
}

impl<D: SpillDevice> Model for SpillFile<D> {
    ghost use Rattle.spill.specs.Kept.{SpillState, spill_view};

    ghost Value = { SpillState };

    ghost view = { λ s. spill_view s.region (D.byte s.device) (D.count s.device) (D.tally s.device) };
}

impl<D: SpillDevice> SpillFile<D> {
    /// A file without extents over the first `size` bytes of a device.
    pub fn new(alloc: Global, device: D, size: u64) -> Self
        ensures { result ≡ record { size = size; next = 0; kept = []; faults = D.count device; tally = D.tally device } }
    {
        SpillFile {
            alloc,
            region: Region::new(alloc, size),
            device,
        }
    }

    /// Gives the device back.
    pub fn into_device(self) -> D
        ensures count { D.count result ≡ self.faults }
        ensures tally { D.tally result ≡ self.tally }
    {
        self.device
    }

    /// How often the device has failed since it was taken.
    pub fn faults(&self) -> u64
        ensures { result ≡ self.now.faults }
    {
        self.device.faults()
    }

    /// Puts 1 to 1,048,576 bytes into an extent of their own. Where it fails, the live extents and
    /// their bytes are as they were. Takes memory.
    pub fn put(&mut self, bytes: &[u8]) -> Result<Extent, SpillFail>
        requires some { 0 < length bytes.now }
        requires few { length bytes.now ≤ 1048576 }
        ensures placed { IfOk result (λ e. e ≡ next_span (region_of self.old) (length bytes.now)) }
        ensures fresh { IfOk result (λ e. All (λ k. k.extent.start ≢ e.start) self.old.kept) }
        ensures ok { OnOk result (region_of self.new ≡ with_placed (region_of self.old) (length bytes.now)) }
        ensures kept { IfOk result (λ e. D.tells → self.new.kept ≡ self.old.kept ++ record { extent = e; bytes = bytes.now } ∷ []) }

        // It is refused exactly where it doesn't fit, but for want of memory.
        ensures no_room { (result ≡ Err SpillFail.NoRoom) ↔ (self.old.size < self.old.next + length bytes.now) }
        ensures no_room_same { IsErrOf result SpillFail.NoRoom → self.new ≡ self.old }
        ensures memory_same { IsErrOf result SpillFail.Memory → self.new ≡ self.old }

        // An extent whose write failed is freed, but was placed.
        ensures fault { IsErrOf result SpillFail.Fault → Rose self.old.faults self.new.faults }
        ensures fault_region { IsErrOf result SpillFail.Fault
            → region_of self.new ≡ region_after_fault (region_of self.old) (length bytes.now) }
        ensures err { OnErr result (extents_of self.new.kept ≡ extents_of self.old.kept) }
        ensures err_kept { OnErr result (D.tells → self.new.kept ≡ self.old.kept) }
        ensures later { self.old.faults ≤ self.new.faults }

        // One call is made, unless it is refused for want of room or memory.
        ensures done_counted { OnOk result (self.new.tally ≡ one_call false self.old.tally) }
        ensures fault_counted { IsErrOf result SpillFail.Fault → self.new.tally ≡ one_call true self.old.tally }
    {
        let extent = match self.region.place(bytes.len() as u32) {
            Ok(extent) => extent,
            Err(PlaceFault::NoRoom) => return Err(SpillFail::NoRoom),
            Err(PlaceFault::Memory) => return Err(SpillFail::Memory),
        };
        match self.device.write_at(extent.start(), bytes) {
            Ok(()) => Ok(extent),
            Err(SpillFault) => {
                self.region.free(extent);
                Err(SpillFail::Fault)
            }
        }
    }

    /// Gets the bytes that were put into a live extent. Takes memory.
    pub fn get(&mut self, extent: &Extent) -> Result<Vec<u8>, GetFail>
        requires live { Contains (extents_of self.old.kept) extent.now }
        ensures many { IfOk result (λ bytes. vec_len bytes ≡ extent.now.len) }
        ensures bytes { IfOk result (λ bytes. D.tells → bytes.items ≡ bytes_at extent.now self.old.kept) }
        ensures region { region_of self.new ≡ region_of self.old }
        ensures kept { D.tells → self.new.kept ≡ self.old.kept }
        ensures memory_same { IsErrOf result GetFail.Memory → self.new ≡ self.old }
        ensures fault { IsErrOf result GetFail.Fault → Rose self.old.faults self.new.faults }
        ensures later { self.old.faults ≤ self.new.faults }
        ensures done_counted { OnOk result (self.new.tally ≡ one_call false self.old.tally) }
        ensures fault_counted { IsErrOf result GetFail.Fault → self.new.tally ≡ one_call true self.old.tally }
    {
        let len = extent.len() as usize;
        read_bytes(&mut self.device, self.alloc, extent.start(), len)
    }

    /// Frees a live extent. Takes no memory.
    pub fn free(&mut self, extent: Extent)
        requires live { Contains (extents_of self.old.kept) extent }
        ensures region { region_of self.new ≡ with_freed (region_of self.old) extent }
        ensures kept { self.new.kept ≡ kept_without extent self.old.kept }
        ensures faults { self.new.faults ≡ self.old.faults }
        ensures tally { self.new.tally ≡ self.old.tally }
    {
        self.region.free(extent);
    }
}

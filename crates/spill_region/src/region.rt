// Extents of a region, placed behind one another.
ghost use Rattle.std.specs.Prelude.{◌≡◌, ◌≢◌, ◌+◌, ◌<◌, ◌≤◌, ◌↔◌, IfOk, OnOk, OnErr, length, Err, All, Contains};
ghost use Rattle.spill_region.specs.Extents.{AreApart, IsSoundRegion, empty_region, next_span, with_placed, with_freed, span_end, length_sum};

use std::alloc::Global;
use std::collections::BTreeMap;
use std::marker::Model;

/// So many bytes of a region, from a start on. Only a region makes one, and it is given back to be
/// freed.
#[derive(Debug, Drop)]
pub struct Extent {
    start: u64,
    len: u32,
}

impl Model for Extent {
    ghost use Rattle.spill_region.specs.Extents.{Span};

    ghost Value = { Span };

    ghost view = { λ e. record { start = e.start; len = e.len } };
}

impl Extent {
    /// The place of its first byte in the region.
    pub fn start(&self) -> u64
        ensures { result ≡ self.now.start }
    {
        self.start
    }

    /// How many bytes it has.
    pub fn len(&self) -> u32
        ensures { result ≡ self.now.len }
    {
        self.len
    }
}

/// Why no extent was placed.
#[derive(Clone, Copy, Debug, PartialEq, Eq)]
pub enum PlaceFault {
    /// It doesn't fit.
    NoRoom,
    /// Memory was refused.
    Memory,
}

/// A region of so many bytes, and the extents of it that are live: placed and not freed since.
#[derive(Drop)]
pub struct Region {
    size: u64,
    next: u64,
    free: u64,
    lens: BTreeMap<u64, u32>,
}

impl Model for Region {
    ghost use Rattle.spill_region.specs.Extents.{RegionState};

    ghost Value = { RegionState };

    ghost use Rattle.spill_region.specs.Layout.{IsRegion, region_view, spans_of};

    ghost view = { λ r. region_view r.size r.next r.lens.entries };

    ghost invariant = { λ r. IsRegion (spans_of r.lens.entries) r.size r.next r.free };
}

impl Region {
    /// A region of `size` bytes with no extent.
    pub fn new(alloc: Global, size: u64) -> Self
        ensures { result ≡ empty_region size }
    {
        Region {
            size,
            next: 0,
            free: size,
            lens: BTreeMap::new(alloc),
        }
    }

    /// Places an extent of `len` bytes behind the last one that was placed since the region was
    /// last empty. Its bytes are no other live extent's. Takes memory, and a logarithm of the
    /// number of live extents in time.
    pub fn place(&mut self, len: u32) -> Result<Extent, PlaceFault>
        requires { 0 < len }
        ensures placed { IfOk result (λ e. e ≡ next_span self.old len) }
        ensures apart { IfOk result (λ e. All (AreApart e) self.old.live) }
        ensures fresh { IfOk result (λ e. All (λ x. x.start ≢ e.start) self.old.live) }
        ensures inside { IfOk result (λ e. span_end e ≤ self.old.size) }
        ensures ok { OnOk result (self.new ≡ with_placed self.old len) }

        // It is refused exactly where it doesn't fit, but for want of memory.
        ensures no_room { (result ≡ Err PlaceFault.NoRoom) ↔ (self.old.size < self.old.next + len) }
        ensures err { OnErr result (self.new ≡ self.old) }
    {
        let start = self.next;
        if self.size - start < u64::from(len) {
            return Err(PlaceFault::NoRoom);
        }
        if let Err(_) = self.lens.insert(start, len) {
            return Err(PlaceFault::Memory);
        }
        self.next = start + u64::from(len);
        self.free -= u64::from(len);
        Ok(Extent { start, len })
    }

    /// Frees a live extent. Takes no memory, and a logarithm of the number of live extents in time.
    pub fn free(&mut self, extent: Extent)
        requires live { Contains self.old.live extent }
        ensures { self.new ≡ with_freed self.old extent }
    {
        self.lens.remove(&extent.start);
        self.free += u64::from(extent.len);
        if self.lens.is_empty() {
            self.next = 0;
        }
    }

    /// How many extents are live. No two of them have a byte in common, and each is inside the
    /// region.
    pub fn live(&self) -> usize
        ensures count { result ≡ length self.now.live }
        ensures sound { IsSoundRegion self.now }
    {
        self.lens.len()
    }

    /// How many bytes of the region are in no live extent.
    pub fn free_bytes(&self) -> u64
        ensures { result + length_sum self.now.live ≡ self.now.size }
    {
        self.free
    }
}

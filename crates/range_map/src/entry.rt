// One pending write.
use crate::EntryKey;
use bytes::Bytes;
use gw_model::Stable;
use spill_region::Extent;
use tickets::Ticket;

/// Where the bytes of a pending write are.
#[derive(Debug, Drop)]
pub enum Place {
    Memory(Bytes),
    /// In this extent of the file's spill region.
    Spilled(Extent),
}

impl Place {
    ghost use Rattle.std.specs.Prelude.{◌≡◌};
    ghost use Rattle.range_map.specs.Entries.{lies_in_memory};

    /// Whether the bytes are in memory.
    pub fn is_in_memory(&self) -> bool
        ensures { result ≡ lies_in_memory self.now }
    {
        matches!(self, Place::Memory(_))
    }
}

/// An accepted write that begins behind a hole.
#[derive(Debug, Drop)]
pub struct Entry {
    /// Its place among the writes accepted of this file, from 1.
    pub number: u32,
    pub offset: u64,
    /// How many bytes it has.
    pub count: u32,
    /// What it weighs against the caps, in bytes.
    pub weight: u32,
    pub place: Place,
    pub stable: Stable,
    /// The reply that is owed, unless the write was answered when it was accepted.
    pub ticket: Option<Ticket>,
}

impl Entry {
    ghost use Rattle.std.specs.Prelude.{◌≡◌};
    ghost use Rattle.range_map.specs.Keys.{entry_key};

    /// Its key.
    pub fn key(&self) -> EntryKey
        ensures { result ≡ entry_key self.now }
    {
        EntryKey {
            offset: self.offset,
            number: self.number,
        }
    }
}

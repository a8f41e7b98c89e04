// What the calls answer.
use bytes::Bytes;
use spill_region::Extent;

/// What a spill step came to.
#[derive(Clone, Copy, Debug, PartialEq, Eq)]
pub enum SpillMove {
    /// No entry is in memory.
    Nothing,
    /// The bytes of the entry of this number and weight went to an extent that begins here.
    Moved {
        number: u32,
        weight: u32,
        start: u64,
    },
    /// They don't fit into the region.
    NoRoom,
    /// The device failed.
    Fault,
    /// Memory was refused.
    Memory,
}

/// What a load came to.
#[derive(Debug, Drop)]
pub enum Load {
    /// The bytes are in memory, and their extent is freed.
    Loaded(Bytes),
    /// The device failed: the bytes are lost, and their extent is freed.
    Fault,
    /// Memory was refused before the device was called.
    Memory(Extent),
    /// The device was called, and then memory was refused.
    MemoryAfterRead(Extent),
}

/// How a write compares with a pending one of its range.
#[derive(Clone, Copy, Debug, PartialEq, Eq)]
pub enum Comparison {
    /// The pending one has the same bytes.
    Same,
    /// It has other bytes.
    Differs,
    /// Its bytes are on the device, which failed.
    Fault,
    /// Memory for them was refused.
    Memory,
    /// No pending write has this range.
    NotThere,
}

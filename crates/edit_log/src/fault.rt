// Why there is no log.

/// Why a start came to nothing. `Damaged`, `MissingBody` and `LastGeneration` come in this order; the others may come at any
/// call.
#[derive(Clone, Copy, Debug, PartialEq, Eq)]
pub enum StartFault {
    /// A call on the store failed.
    Store,
    /// From this byte on the log of this generation is no edit's text, nor the front of one.
    Damaged { generation: u64, place: u64 },
    /// A regular file of the recovered tree has no body. It is the least such file.
    MissingBody { file: u64 },
    /// The last generation that there can be has a log.
    LastGeneration,
    /// Memory was refused.
    Memory,
}

/// The log failed. From then on nothing is added to it.
#[derive(Clone, Copy, Debug, PartialEq, Eq)]
pub struct LogFault {
    /// How many edits this log added before the one that failed.
    pub after: u64,
}

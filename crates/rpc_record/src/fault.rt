// Why a stream can't be cut into records.

/// What a piece is refused with.
#[derive(Clone, Copy, Debug, PartialEq, Eq)]
pub enum FrameFault {
    /// A fragment's header makes its record longer than 1,052,672 bytes: with that fragment it would
    /// have `have` bytes.
    TooLong { have: u64 },
    /// The header of a record's 65th fragment.
    TooMany,
    /// No memory was left. Nothing was changed.
    Memory,
}

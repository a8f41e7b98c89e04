// What an entry is found by.

/// An offset and a number, which name an entry. Keys are ordered by offset, then by number.
#[derive(Clone, Copy, Debug, PartialEq, Eq, PartialOrd, Ord)]
pub struct EntryKey {
    pub offset: u64,
    pub number: u32,
}

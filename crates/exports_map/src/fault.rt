// Why rules weren't read.

/// The lists of texts that rules are read from.
#[derive(Clone, Copy, Debug, PartialEq, Eq)]
pub enum RuleList {
    Exports,
    Uids,
    Gids,
}

/// Why rules weren't read.
#[derive(Clone, Copy, Debug, PartialEq, Eq)]
pub enum RuleFault {
    /// The first text that is no item: its list, and its number there, from 1.
    Bad { list: RuleList, item: u32 },
    /// Memory was refused.
    Memory,
}

/// Why a list wasn't read.
#[derive(Clone, Copy, Debug, PartialEq, Eq)]
pub(crate) enum ItemFault {
    /// The number of the first text that is no item, from 1.
    Bad(u32),
    Memory,
}

// How a run of the program ends.
use gw_config::ConfigFault;

/// How a command ended. Each has an exit code.
#[derive(Debug, Drop)]
pub enum Status {
    /// The transcript was read up to its `end` line.
    Done,
    /// The words are no command.
    Usage,
    /// There was no memory.
    NoMemory,
    /// The source failed.
    ReadFault,
    /// The sink failed.
    WriteFault,
    /// This line, counted from 1, is the first that isn't in the grammar.
    BadLine(u64),
    /// The store failed in the `file` line.
    StoreFault,
    /// The settings are refused.
    BadConfig(ConfigFault),
}

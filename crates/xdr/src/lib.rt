//! The external data representation of RFC 4506: its items are read from a message and written to one.
#![tactic(auto)]

mod fault;
mod laws;
mod padding;
mod reader;
mod writer;

pub use fault::{NoMemory, XdrFault};
pub use laws::{bool_law, finish_law, fixed_law, opaque_law, row_law, u32_law, u64_law};
pub use padding::padded_length;
pub use reader::Reader;
pub use writer::Writer;

#[cfg(test)]
mod tests;

//! Record marking of RFC 5531 section 11: a byte stream is cut into records, and replies are marked.
#![tactic(auto)]

mod assembler;
mod fault;
mod laws;
mod marking;
mod place;
mod present;
mod stream;

pub use assembler::Assembler;
pub use fault::FrameFault;
pub use laws::{assembler_law, front_law, records_law};
pub use marking::mark;
pub use stream::{Stream, StreamStep};

#[cfg(test)]
mod tests;

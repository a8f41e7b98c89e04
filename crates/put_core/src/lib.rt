//! The core of an upload: which WRITEs and COMMITs of RFC 1813 (sections 3.3.7 and 3.3.21) to send next, and what their
//! replies mean. It has no socket and no file, and speaks of the chunks of a source by their offsets alone.
#![tactic(auto)]

mod call;
mod chunks;
mod laws;
mod put;

pub use call::{Next, PutAnswer};
pub use laws::{call_laws, upload_law};
pub use put::{Put, chunk_count};

#[cfg(test)]
mod tests;

//! What a whole message of a connection asks for: a reply at once, a READ, a WRITE or a COMMIT of a file, or the end of its connection.
#![tactic(auto)]

mod message;
mod request;
#[cfg(test)]
mod tests;

pub use message::Refused;
pub use request::{Request, busy_request, read_request};

//! A port mapper: program 100000 version 2 over TCP, as RFC 1833 section 3 has it, but for the indirect call.
#![tactic(auto)]

mod message;
mod ports;
mod reply;
mod request;
mod session;

pub use ports::{Mapping, Ports};
pub use session::{PortEnd, port_session};

#[cfg(test)]
mod tests;

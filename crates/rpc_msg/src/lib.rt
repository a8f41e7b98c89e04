//! Calls and replies of RFC 5531: a message is read as a call, and a reply's front is made.
#![tactic(auto)]

mod call;
mod fault;
mod laws;
pub mod numbers;
mod parts;
mod reading;
mod replies;
mod sender;

pub use call::{Call, Caller};
pub use fault::CallFault;
pub use laws::call_law;
pub use reading::read_call;
pub use replies::{accepted_head, auth_error, rpc_mismatch, system_err};

#[cfg(test)]
mod tests;

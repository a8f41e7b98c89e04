//! The last calls with their replies, so that a call that is sent again gets the reply that it had: the duplicate request
//! cache of RFC 1813 section 4.5.
#![tactic(auto)]

mod calls;
mod key;
mod laws;
mod reply;

pub use calls::Calls;
pub use key::key_of;
pub use laws::call_laws;

#[cfg(test)]
mod tests;

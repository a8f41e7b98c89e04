//! Tickets: each request that a server takes on is owed at most one reply, and the desk keeps which are still owed.
#![tactic(auto)]

mod answer;
mod desk;
mod laws;

pub use answer::{Answer, Body, stable_how};
pub use desk::{IssueFault, ReplyDesk, Sent, Ticket};
pub use laws::{number_laws, reply_laws};

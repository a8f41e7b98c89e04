//! The COMMITs of a file that wait until every byte below their goal is there, in the order in which they came.
#![tactic(auto)]

mod laws;
mod waiting;

pub use laws::queue_laws;
pub use waiting::Waiting;

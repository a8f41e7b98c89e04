//! One file's part of the gateway: its context or its stored body, the tickets that wait, and what each act makes of them.
#![tactic(auto)]

mod answers;
mod call;
mod closing;
mod hull;
mod laws;
mod opening;
mod part;
mod reply;
#[cfg(test)]
mod tests;
mod tracker;

pub use call::{CommitCall, ReadCall, WriteCall};
pub use closing::{ClosedFile, Visit, end_cell, tick_cell};
pub use hull::ClosedHull;
pub use laws::send_laws;
pub use part::{
    FirstWrite, StepResult, close_cell, commit_cell, commit_closed, create_body, first_write,
    idle_event, pump_cell, read_cell, read_closed, refuse_write, step_result, sync_cell, turn_cell,
    write_cell,
};
pub use reply::body_reply;
pub use tracker::RequestTracker;

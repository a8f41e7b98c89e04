//! A transcript's lines, one after another: what comes in, and what goes out.
#![tactic(auto)]

mod grammar;
mod run;
mod status;

pub use grammar::{Line, grammar_law};
pub use run::replay;
pub use status::Status;

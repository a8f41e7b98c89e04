//! Export rules, which say what a client may do, and maps of user and group ids.
#![tactic(auto)]

mod access;
mod fault;
mod item;
mod lists;
mod rules;
#[cfg(test)]
mod tests;

pub use access::{Access, ExportRule, IdPair, Mode};
pub use fault::{RuleFault, RuleList};
pub use rules::{Rules, access_law};

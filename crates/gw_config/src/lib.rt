//! The settings of a gateway, read from a text in TOML.
#![tactic(auto)]

mod config;
mod fault;
mod judge;
mod kind;
mod table;
#[cfg(test)]
mod tests;

pub use config::Config;
pub use fault::ConfigFault;

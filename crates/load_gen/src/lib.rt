//! A load for the gateway: the transcript of a drill, which is a large valid upload made from a number.
#![tactic(auto)]

mod calls;
mod laws;
mod lines;
mod load;
mod numbers;
#[cfg(test)]
mod tests;

pub use laws::load_laws;
pub use load::transcript_of;

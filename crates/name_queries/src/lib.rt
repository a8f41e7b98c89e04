//! The procedures of NFS version 3 that only read names and attributes, over a tree (RFC 1813 sections 3.3.1, 3.3.3 to
//! 3.3.5 and 3.3.16 to 3.3.20).
#![tactic(auto)]

mod found;
mod laws;
mod listing;
mod object;
mod query;
mod system;

pub use laws::listing_laws;
pub use query::answer;

#[cfg(test)]
mod tests;

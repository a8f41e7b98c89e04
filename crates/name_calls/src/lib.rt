//! One call for every procedure of NFS version 3 but READ, WRITE and COMMIT, and for all of MOUNT version 3 (RFC 1813 sections
//! 3.3 and 5.2).
#![tactic(auto)]

mod call;
mod front;
mod mounts;
mod told;

pub use call::answer;
pub use front::Front;

#[cfg(test)]
mod tests;

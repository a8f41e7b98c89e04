//! The writes of a file that wait for the bytes before them, in the order in which they are to be written: by offset,
//! then by number.
#![tactic(auto)]

mod calls;
mod entry;
mod key;
mod laws;
mod pending;
mod sorted_vec;
mod tree;

pub use calls::{MapAnswer, MapCall, make_call, make_calls, make_calls_twice};
pub use entry::{Entry, Place};
pub use key::EntryKey;
pub use laws::order_laws;
pub use pending::PendingMap;
pub use sorted_vec::SortedVecMap;
pub use tree::TreeMap;

#[cfg(test)]
mod tests;

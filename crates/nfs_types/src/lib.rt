//! The types of NFS version 3 (RFC 1813 section 2): statuses, file types, times and attributes.
#![tactic(auto)]

mod attr;
mod file_type;
mod laws;
mod set;
mod text;
mod time;

pub use attr::{Attr, Device, read_attr, read_device};
pub use file_type::{FileType, read_type};
pub use gw_model::status;
pub use laws::{attr_law, set_law, time_law};
pub use set::{SetAttr, read_set};
pub use text::attr_text;
pub use time::{SetTime, Time, read_time};

#[cfg(test)]
mod tests;

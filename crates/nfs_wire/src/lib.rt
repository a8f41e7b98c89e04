//! Arguments and results of NFS version 3 and MOUNT version 3 (RFC 1813 sections 3 and 5): arguments are read from calls,
//! results are written for replies.
#![tactic(auto)]

mod absent;
mod args;
mod by_handle;
mod by_name;
mod by_range;
mod fault;
mod head;
mod items;
mod laws;
pub mod lengths;
mod listing;
mod making;
pub mod program;
mod put_attr;
mod put_list;
mod put_system;
mod put_words;
mod reading;
mod res;
mod writing;

pub use absent::{absent_words, refusal};
pub use args::{Args, CreateHow, DirOp, NodeKind};
pub use fault::ArgsFault;
pub use head::{Head, body_head};
pub use laws::{args_law, results_law};
pub use reading::read_args;
pub use res::{Entry, EntryPlus, FsInfo, FsStat, Mounted, PathConf, Res};
pub use writing::res_text;

#[cfg(test)]
mod tests;

// A call and who makes it.
use bytes::Bytes;

/// A call of RFC 5531 section 9.
#[derive(Drop)]
pub struct Call {
    pub xid: u32,
    pub prog: u32,
    pub vers: u32,
    pub proc_no: u32,
    pub caller: Caller,
    /// The name of the calling machine, or `none`.
    pub host: Bytes,
    /// What stands behind the verifier.
    pub args: Bytes,
    /// The message.
    pub whole: Bytes,
}

/// Who calls. The first `gid_count` of `gids` are further groups; there are at most 16.
#[derive(Clone, Copy, Debug, PartialEq, Eq)]
pub struct Caller {
    pub uid: u32,
    pub gid: u32,
    pub gids: [u32; 16],
    pub gid_count: u32,
}

// The arguments of each procedure.
use bytes::Bytes;
use gw_model::Stable;
use nfs_types::{Device, SetAttr, Time};

/// The arguments of a call: one variant for each procedure of NFS (RFC 1813 section 3.3), then one for each of MOUNT
/// (section 5.2). A handle has at most 64 bytes, a name 4,096, a path 1,024, and the data of a WRITE 1,048,576.
#[derive(Drop)]
pub enum Args {
    Null,
    Getattr {
        handle: Bytes,
    },
    Setattr {
        handle: Bytes,
        set: SetAttr,
        /// Where it is there, only an object with this time of change is to be changed.
        guard: Option<Time>,
    },
    Lookup {
        place: DirOp,
    },
    Access {
        handle: Bytes,
        mask: u32,
    },
    Readlink {
        handle: Bytes,
    },
    Read {
        handle: Bytes,
        offset: u64,
        count: u32,
    },
    Write {
        handle: Bytes,
        offset: u64,
        /// How many bytes the data is said to have.
        count: u32,
        stable: Stable,
        /// A slice of the message.
        data: Bytes,
    },
    Create {
        place: DirOp,
        how: CreateHow,
    },
    Mkdir {
        place: DirOp,
        set: SetAttr,
    },
    Symlink {
        place: DirOp,
        set: SetAttr,
        path: Bytes,
    },
    Mknod {
        place: DirOp,
        kind: NodeKind,
    },
    Remove {
        place: DirOp,
    },
    Rmdir {
        place: DirOp,
    },
    Rename {
        from: DirOp,
        to: DirOp,
    },
    Link {
        handle: Bytes,
        place: DirOp,
    },
    Readdir {
        handle: Bytes,
        cookie: u64,
        verifier: [u8; 8],
        /// The most bytes that the results may have.
        count: u32,
    },
    Readdirplus {
        handle: Bytes,
        cookie: u64,
        verifier: [u8; 8],
        /// The most bytes that names, numbers and cookies may have.
        dircount: u32,
        /// The most bytes that the results may have.
        maxcount: u32,
    },
    Fsstat {
        handle: Bytes,
    },
    Fsinfo {
        handle: Bytes,
    },
    Pathconf {
        handle: Bytes,
    },
    Commit {
        handle: Bytes,
        offset: u64,
        count: u32,
    },
    MountNull,
    Mnt {
        path: Bytes,
    },
    Dump,
    Umnt {
        path: Bytes,
    },
    Umntall,
    Export,
}

/// `diropargs3` of RFC 1813 section 2: the handle of a directory and a name in it.
#[derive(Drop)]
pub struct DirOp {
    pub dir: Bytes,
    pub name: Bytes,
}

/// `createhow3` of RFC 1813 section 3.3.8.
#[derive(Clone, Copy)]
pub enum CreateHow {
    /// A file that is there is taken.
    Unchecked(SetAttr),
    /// The name must be free.
    Guarded(SetAttr),
    /// The name must be free, unless it was taken with this verifier.
    Exclusive([u8; 8]),
}

/// `mknoddata3` of RFC 1813 section 3.3.11.
#[derive(Clone, Copy)]
pub enum NodeKind {
    Regular,
    Directory,
    Block(SetAttr, Device),
    Character(SetAttr, Device),
    Link,
    Socket(SetAttr),
    Fifo(SetAttr),
}

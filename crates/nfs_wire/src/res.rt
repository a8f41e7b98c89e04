// The results of the name procedures.
use nfs_types::{Attr, Time};

/// The results of a call that was done: one variant for each procedure of NFS (RFC 1813 section 3.3) but READ, WRITE,
/// COMMIT, MKNOD and LINK, then one for each of MOUNT (section 5.2); and those of a call that was refused.
#[derive(Clone, Copy)]
pub enum Res<'a> {
    Null,
    Getattr {
        attr: Attr,
    },
    Setattr,
    Lookup {
        handle: [u8; 32],
        attr: Attr,
    },
    Access {
        attr: Attr,
        mask: u32,
    },
    Readlink {
        path: &'a [u8],
    },
    Create {
        handle: [u8; 32],
        attr: Attr,
    },
    Mkdir {
        handle: [u8; 32],
        attr: Attr,
    },
    Symlink {
        handle: [u8; 32],
        attr: Attr,
    },
    Remove,
    Rmdir,
    Rename,
    Readdir {
        verifier: [u8; 8],
        entries: &'a [Entry<'a>],
        /// Whether no entry is left.
        eof: bool,
    },
    Readdirplus {
        verifier: [u8; 8],
        entries: &'a [EntryPlus<'a>],
        /// Whether no entry is left.
        eof: bool,
    },
    Fsstat {
        stat: FsStat,
    },
    Fsinfo {
        info: FsInfo,
    },
    Pathconf {
        conf: PathConf,
    },
    MountNull,
    Mnt {
        handle: [u8; 32],
    },
    Dump {
        mounts: &'a [Mounted<'a>],
    },
    Umnt,
    Umntall,
    Export {
        path: &'a [u8],
    },
    /// A status other than `NFS3_OK`, and so many words of zero: the optional parts that are absent.
    Refused {
        status: u32,
        zeros: u32,
    },
}

/// An entry of a directory (`entry3` of RFC 1813 section 3.3.16).
#[derive(Clone, Copy)]
pub struct Entry<'a> {
    pub file: u64,
    pub name: &'a [u8],
    pub cookie: u64,
}

/// An entry with what is known of its file (`entryplus3` of RFC 1813 section 3.3.17).
#[derive(Clone, Copy)]
pub struct EntryPlus<'a> {
    pub entry: Entry<'a>,
    pub attr: Attr,
    pub handle: [u8; 32],
}

/// Who mounted what (`mountbody` of RFC 1813 section 5.2.2).
#[derive(Clone, Copy)]
pub struct Mounted<'a> {
    pub host: &'a [u8],
    pub path: &'a [u8],
}

/// Sizes of a file system: bytes, files, and seconds for which they hold (RFC 1813 section 3.3.18).
#[derive(Clone, Copy, Debug, PartialEq, Eq)]
pub struct FsStat {
    pub tbytes: u64,
    pub fbytes: u64,
    pub abytes: u64,
    pub tfiles: u64,
    pub ffiles: u64,
    pub afiles: u64,
    pub invarsec: u32,
}

/// What a file system prefers and can do (RFC 1813 section 3.3.19). Sizes are in bytes.
#[derive(Clone, Copy, Debug, PartialEq, Eq)]
pub struct FsInfo {
    pub rtmax: u32,
    pub rtpref: u32,
    pub rtmult: u32,
    pub wtmax: u32,
    pub wtpref: u32,
    pub wtmult: u32,
    pub dtpref: u32,
    pub maxfilesize: u64,
    pub time_delta: Time,
    pub properties: u32,
}

/// What names may be (RFC 1813 section 3.3.20).
#[derive(Clone, Copy, Debug, PartialEq, Eq)]
pub struct PathConf {
    pub linkmax: u32,
    pub name_max: u32,
    pub no_trunc: bool,
    pub chown_restricted: bool,
    pub case_insensitive: bool,
    pub case_preserving: bool,
}

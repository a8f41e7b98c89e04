// Results: a text for each procedure.
use crate::{Entry, EntryPlus, FsInfo, FsStat, Mounted, PathConf, Res, body_head, res_text};
use nfs_types::{Attr, Device, FileType, Time};
use std::alloc::Global;
use std::test::Fail;
use tickets::Body;

const ATTR: Attr = Attr {
    kind: FileType::Regular,
    mode: 0o644,
    nlink: 1,
    uid: 7,
    gid: 8,
    size: 5,
    used: 6,
    rdev: Device { major: 0, minor: 0 },
    fsid: 1,
    fileid: 4,
    atime: Time {
        seconds: 0,
        nanos: 0,
    },
    mtime: Time {
        seconds: 1,
        nanos: 2,
    },
    ctime: Time {
        seconds: 3,
        nanos: 4,
    },
};

// a handle of 32 bytes "h"
const HANDLE: [u8; 32] = [0x68; 32];

const H: u32 = 0x6868_6868;

// "old" and "new" with their padding
const OLD: u32 = 0x6f6c_6400;

const NEW: u32 = 0x6e65_7700;

// "." and ".." with their padding
const DOT: u32 = 0x2e00_0000;

const DOTS: u32 = 0x2e2e_0000;

const SELF_ENTRY: Entry<'static> = Entry {
    file: 3,
    name: b".",
    cookie: 1,
};

const PARENT_ENTRY: Entry<'static> = Entry {
    file: 4,
    name: b"..",
    cookie: 2,
};

const STAT: FsStat = FsStat {
    tbytes: 1 << 62,
    fbytes: 2,
    abytes: 3,
    tfiles: 1 << 32,
    ffiles: 5,
    afiles: 6,
    invarsec: 7,
};

const INFO: FsInfo = FsInfo {
    rtmax: 1,
    rtpref: 2,
    rtmult: 3,
    wtmax: 4,
    wtpref: 5,
    wtmult: 6,
    dtpref: 7,
    maxfilesize: 9_223_372_036_854_775_807,
    time_delta: Time {
        seconds: 0,
        nanos: 1_000_000,
    },
    properties: 26,
};

const CONF: PathConf = PathConf {
    linkmax: 2,
    name_max: 255,
    no_trunc: true,
    chown_restricted: true,
    case_insensitive: false,
    case_preserving: true,
};

// status, and the attributes
const ATTR_WORDS: [u32; 22] = [
    0, 1, 0o644, 1, 7, 8, 0, 5, 0, 6, 0, 0, 0, 1, 0, 4, 0, 0, 1, 2, 3, 4,
];

// status, handle, attributes, none of the directory
const LOOKUP_WORDS: [u32; 33] = [
    0, 32, H, H, H, H, H, H, H, H, 1, 1, 0o644, 1, 7, 8, 0, 5, 0, 6, 0, 0, 0, 1, 0, 4, 0, 0, 1, 2,
    3, 4, 0,
];

const ACCESS_WORDS: [u32; 24] = [
    0, 1, 1, 0o644, 1, 7, 8, 0, 5, 0, 6, 0, 0, 0, 1, 0, 4, 0, 0, 1, 2, 3, 4, 31,
];

// status, handle, attributes, none of the directory before and after
const MADE_WORDS: [u32; 35] = [
    0, 1, 32, H, H, H, H, H, H, H, H, 1, 1, 0o644, 1, 7, 8, 0, 5, 0, 6, 0, 0, 0, 1, 0, 4, 0, 0, 1,
    2, 3, 4, 0, 0,
];

const READDIR_WORDS: [u32; 20] = [
    0, 0, 0, 0, 1, 0, 3, 1, DOT, 0, 1, 1, 0, 4, 2, DOTS, 0, 2, 0, 1,
];

// no attributes of the directory, verifier, an entry with attributes and handle, and that others follow
const READDIRPLUS_WORDS: [u32; 45] = [
    0, 0, 0, 0, 1, 0, 3, 1, DOT, 0, 1, 1, 1, 0o644, 1, 7, 8, 0, 5, 0, 6, 0, 0, 0, 1, 0, 4, 0, 0, 1,
    2, 3, 4, 1, 32, H, H, H, H, H, H, H, H, 0, 0,
];

const INFO_WORDS: [u32; 14] = [
    0,
    0,
    1,
    2,
    3,
    4,
    5,
    6,
    7,
    0x7fff_ffff,
    0xffff_ffff,
    0,
    1_000_000,
    26,
];

const ATTRIBUTES: [(Res<'static>, &[u32]); 6] = [
    (Res::Getattr { attr: ATTR }, &ATTR_WORDS),
    (
        Res::Lookup {
            handle: HANDLE,
            attr: ATTR,
        },
        &LOOKUP_WORDS,
    ),
    (
        Res::Access {
            attr: ATTR,
            mask: 31,
        },
        &ACCESS_WORDS,
    ),
    (
        Res::Create {
            handle: HANDLE,
            attr: ATTR,
        },
        &MADE_WORDS,
    ),
    (
        Res::Mkdir {
            handle: HANDLE,
            attr: ATTR,
        },
        &MADE_WORDS,
    ),
    (
        Res::Symlink {
            handle: HANDLE,
            attr: ATTR,
        },
        &MADE_WORDS,
    ),
];

const WORDS: [(Res<'static>, &[u32]); 13] = [
    (Res::Null, &[]),
    (Res::MountNull, &[]),
    (Res::Umnt, &[]),
    (Res::Umntall, &[]),
    (Res::Setattr, &[0, 0, 0]),
    (Res::Remove, &[0, 0, 0]),
    (Res::Rmdir, &[0, 0, 0]),
    (Res::Rename, &[0, 0, 0, 0, 0]),
    (Res::Readlink { path: b"old" }, &[0, 0, 3, OLD]),
    (
        Res::Refused {
            status: 70,
            zeros: 3,
        },
        &[70, 0, 0, 0],
    ),
    (
        Res::Mnt { handle: HANDLE },
        &[0, 32, H, H, H, H, H, H, H, H, 1, 1],
    ),
    (
        Res::Dump {
            mounts: &[Mounted {
                host: b"old",
                path: b"new",
            }],
        },
        &[1, 3, OLD, 3, NEW, 0],
    ),
    (Res::Export { path: b"old" }, &[1, 3, OLD, 0, 0]),
];

const LISTINGS: [(Res<'static>, &[u32]); 2] = [
    (
        Res::Readdir {
            verifier: [0; 8],
            entries: &[SELF_ENTRY, PARENT_ENTRY],
            eof: true,
        },
        &READDIR_WORDS,
    ),
    (
        Res::Readdirplus {
            verifier: [0; 8],
            entries: &[EntryPlus {
                entry: SELF_ENTRY,
                attr: ATTR,
                handle: HANDLE,
            }],
            eof: false,
        },
        &READDIRPLUS_WORDS,
    ),
];

const SYSTEMS: [(Res<'static>, &[u32]); 3] = [
    (
        Res::Fsstat { stat: STAT },
        &[0, 0, 0x4000_0000, 0, 0, 2, 0, 3, 1, 0, 0, 5, 0, 6, 7],
    ),
    (Res::Fsinfo { info: INFO }, &INFO_WORDS),
    (Res::Pathconf { conf: CONF }, &[0, 0, 2, 255, 1, 1, 0, 1]),
];

fn are_words(text: &[u8], words: &[u32]) -> bool {
    let mut rest = text;
    for word in words {
        match rest.strip_prefix(word.to_be_bytes().as_slice()) {
            Some(behind) => rest = behind,
            None => return false,
        }
    }
    rest.is_empty()
}

fn is_written(alloc: Global, res: &Res<'_>, words: &[u32]) -> bool {
    match res_text(alloc, res) {
        Ok(text) => are_words(&text, words),
        Err(_) => false,
    }
}

// Whether each of the results is written as its words.
fn are_written(alloc: Global, table: &[(Res<'_>, &[u32])]) -> bool {
    for (res, words) in table {
        if !is_written(alloc, res, words) {
            return false;
        }
    }
    true
}

#[test]
fn attributes(rt: HostRuntime) {
    assert!(rt; are_written(rt.alloc(), &ATTRIBUTES));
}

#[test]
fn words(rt: HostRuntime) {
    assert!(rt; are_written(rt.alloc(), &WORDS));
}

#[test]
fn listings(rt: HostRuntime) {
    assert!(rt; are_written(rt.alloc(), &LISTINGS));
}

#[test]
fn systems(rt: HostRuntime) {
    assert!(rt; are_written(rt.alloc(), &SYSTEMS));
}

fn is_headed(body: &Body, words: &[u32]) -> bool {
    are_words(body_head(body, 9).bytes(), words)
}

#[test]
fn heads(rt: HostRuntime) {
    let write = Body::Write {
        status: 0,
        count: 5,
        committed: 2,
    };
    assert!(rt; is_headed(&write, &[0, 0, 0, 5, 2, 0, 9]));
    assert!(rt; is_headed(&Body::Commit { status: 0 }, &[0, 0, 0, 0, 9]));
    assert!(rt; is_headed(&Body::Commit { status: 5 }, &[5, 0, 0]));
    assert!(rt; is_headed(&Body::SystemErr, &[]));
}

#[test]
fn heads_of_reads(rt: HostRuntime) -> Result<(), Fail> {
    let alloc = rt.alloc();
    let read = Body::Read {
        status: 0,
        eof: true,
        bytes: b"abc".to_vec(alloc)?,
    };
    assert!(rt; is_headed(&read, &[0, 0, 3, 1, 3]));
    let refused = Body::Read {
        status: 13,
        eof: false,
        bytes: Vec::new(alloc),
    };
    assert!(rt; is_headed(&refused, &[13, 0]));
    Ok(())
}

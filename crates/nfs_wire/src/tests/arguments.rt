// Arguments: a text for each procedure, and what is refused.
use crate::{Args, ArgsFault, CreateHow, DirOp, NodeKind, read_args};
use bytes::Bytes;
use gw_model::Stable;
use nfs_types::{Device, SetAttr, SetTime, Time};
use std::alloc::Global;

const NFS: u32 = 100_003;

const MOUNT: u32 = 100_005;

// the handle "hand", and the names "old" and "new" with their padding
const HAND: u32 = 0x6861_6e64;

const OLD: u32 = 0x6f6c_6400;

const NEW: u32 = 0x6e65_7700;

const UNSET: SetAttr = SetAttr {
    mode: None,
    uid: None,
    gid: None,
    size: None,
    atime: SetTime::Leave,
    mtime: SetTime::Leave,
};

const MODE_ALONE: SetAttr = SetAttr {
    mode: Some(0o600),
    uid: None,
    gid: None,
    size: None,
    atime: SetTime::Leave,
    mtime: SetTime::Leave,
};

const GUARD: Time = Time {
    seconds: 5,
    nanos: 6,
};

// The program, the procedure, and a text of its arguments.
const TEXTS: [(u32, u32, &[u32]); 28] = [
    (NFS, 0, &[]),
    (NFS, 1, &[4, HAND]),
    // mode 0600, and a guard of 5 s and 6 ns
    (NFS, 2, &[4, HAND, 1, 0o600, 0, 0, 0, 0, 0, 1, 5, 6]),
    (NFS, 3, &[4, HAND, 3, OLD]),
    (NFS, 4, &[4, HAND, 31]),
    (NFS, 5, &[4, HAND]),
    (NFS, 6, &[4, HAND, 1, 7, 9]),
    // five bytes at 7, to be durable before the answer; the padding isn't zero
    (NFS, 7, &[4, HAND, 0, 7, 5, 2, 5, 0x6162_6364, 0x6501_0203]),
    (NFS, 8, &[4, HAND, 3, OLD, 0, 0, 0, 0, 0, 0, 0]),
    (NFS, 9, &[4, HAND, 3, OLD, 0, 0, 0, 0, 0, 0]),
    (NFS, 10, &[4, HAND, 3, OLD, 0, 0, 0, 0, 0, 0, 3, NEW]),
    (NFS, 11, &[4, HAND, 3, OLD, 3, 0, 0, 0, 0, 0, 0, 8, 9]),
    (NFS, 12, &[4, HAND, 3, OLD]),
    (NFS, 13, &[4, HAND, 3, OLD]),
    (NFS, 14, &[4, HAND, 3, OLD, 4, HAND, 3, NEW]),
    (NFS, 15, &[4, HAND, 4, HAND, 3, NEW]),
    (NFS, 16, &[4, HAND, 0, 3, 0, 4, 512]),
    (NFS, 17, &[4, HAND, 0, 3, 0, 4, 512, 1024]),
    (NFS, 18, &[4, HAND]),
    (NFS, 19, &[4, HAND]),
    (NFS, 20, &[4, HAND]),
    (NFS, 21, &[4, HAND, 1, 7, 9]),
    (MOUNT, 0, &[]),
    (MOUNT, 1, &[3, OLD]),
    (MOUNT, 2, &[]),
    (MOUNT, 3, &[3, NEW]),
    (MOUNT, 4, &[]),
    (MOUNT, 5, &[]),
];

fn is_hand(handle: &Bytes) -> bool {
    handle.as_slice() == b"hand".as_slice()
}

fn is_old(place: &DirOp) -> bool {
    is_hand(&place.dir) && place.name.as_slice() == b"old".as_slice()
}

fn is_new(place: &DirOp) -> bool {
    is_hand(&place.dir) && place.name.as_slice() == b"new".as_slice()
}

// Whether these are the arguments that the procedure's text has.
fn is_told(prog: u32, proc_no: u32, args: &Args) -> bool {
    if prog == MOUNT {
        is_of_mount(proc_no, args)
    } else {
        is_of_handle(proc_no, args)
            || is_of_name(proc_no, args)
            || is_of_range(proc_no, args)
            || is_of_making(proc_no, args)
    }
}

fn is_of_mount(proc_no: u32, args: &Args) -> bool {
    match args {
        Args::MountNull => proc_no == 0,
        Args::Mnt { path } => proc_no == 1 && path.as_slice() == b"old".as_slice(),
        Args::Dump => proc_no == 2,
        Args::Umnt { path } => proc_no == 3 && path.as_slice() == b"new".as_slice(),
        Args::Umntall => proc_no == 4,
        Args::Export => proc_no == 5,
        _ => false,
    }
}

fn is_of_handle(proc_no: u32, args: &Args) -> bool {
    match args {
        Args::Null => proc_no == 0,
        Args::Getattr { handle } => proc_no == 1 && is_hand(handle),
        Args::Setattr { handle, set, guard } => {
            proc_no == 2 && is_hand(handle) && *set == MODE_ALONE && *guard == Some(GUARD)
        }
        Args::Access { handle, mask } => proc_no == 4 && is_hand(handle) && *mask == 31,
        Args::Readlink { handle } => proc_no == 5 && is_hand(handle),
        Args::Fsstat { handle } => proc_no == 18 && is_hand(handle),
        Args::Fsinfo { handle } => proc_no == 19 && is_hand(handle),
        Args::Pathconf { handle } => proc_no == 20 && is_hand(handle),
        _ => false,
    }
}

fn is_of_name(proc_no: u32, args: &Args) -> bool {
    match args {
        Args::Lookup { place } => proc_no == 3 && is_old(place),
        Args::Remove { place } => proc_no == 12 && is_old(place),
        Args::Rmdir { place } => proc_no == 13 && is_old(place),
        Args::Rename { from, to } => proc_no == 14 && is_old(from) && is_new(to),
        Args::Link { handle, place } => proc_no == 15 && is_hand(handle) && is_new(place),
        _ => false,
    }
}

fn is_of_range(proc_no: u32, args: &Args) -> bool {
    match args {
        Args::Read {
            handle,
            offset,
            count,
        } => proc_no == 6 && is_hand(handle) && *offset == 0x1_0000_0007 && *count == 9,
        Args::Write {
            handle,
            offset,
            count,
            stable,
            data,
        } => {
            proc_no == 7
                && is_hand(handle)
                && (*offset, *count, *stable) == (7, 5, Stable::FileSync)
                && data.as_slice() == b"abcde".as_slice()
        }
        Args::Readdir {
            handle,
            cookie,
            verifier,
            count,
        } => {
            proc_no == 16
                && is_hand(handle)
                && (*cookie, *count) == (3, 512)
                && *verifier == [0, 0, 0, 0, 0, 0, 0, 4]
        }
        Args::Readdirplus {
            handle,
            cookie,
            verifier,
            dircount,
            maxcount,
        } => {
            proc_no == 17
                && is_hand(handle)
                && (*cookie, *dircount, *maxcount) == (3, 512, 1024)
                && *verifier == [0, 0, 0, 0, 0, 0, 0, 4]
        }
        Args::Commit {
            handle,
            offset,
            count,
        } => proc_no == 21 && is_hand(handle) && *offset == 0x1_0000_0007 && *count == 9,
        _ => false,
    }
}

fn is_of_making(proc_no: u32, args: &Args) -> bool {
    match args {
        Args::Create {
            place,
            how: CreateHow::Unchecked(set),
        } => proc_no == 8 && is_old(place) && *set == UNSET,
        Args::Mkdir { place, set } => proc_no == 9 && is_old(place) && *set == UNSET,
        Args::Symlink { place, set, path } => {
            proc_no == 10 && is_old(place) && *set == UNSET && path.as_slice() == b"new".as_slice()
        }
        Args::Mknod {
            place,
            kind: NodeKind::Block(set, device),
        } => {
            proc_no == 11
                && is_old(place)
                && *set == UNSET
                && *device == Device { major: 8, minor: 9 }
        }
        _ => false,
    }
}

// The arguments that the words spell.
fn read(alloc: Global, prog: u32, proc_no: u32, words: &[u32]) -> Result<Args, ArgsFault> {
    let mut text = Vec::new(alloc);
    for word in words {
        text.extend_from_slice(&word.to_be_bytes())?;
    }
    read_args(alloc, prog, proc_no, Bytes::copy_from_slice(alloc, &text)?)
}

fn is_read(alloc: Global, prog: u32, proc_no: u32, words: &[u32]) -> bool {
    match read(alloc, prog, proc_no, words) {
        Ok(args) => is_told(prog, proc_no, &args),
        Err(_) => false,
    }
}

#[test]
fn texts(rt: HostRuntime) {
    for (prog, proc_no, words) in TEXTS {
        assert!(rt;
            is_read(rt.alloc(), prog, proc_no, words),
            "procedure {proc_no} of {prog}"
        );
    }
}

// Whether this is a creation with this verifier.
fn has_verifier(args: &Args, wanted: &[u8; 8]) -> bool {
    match args {
        Args::Create {
            how: CreateHow::Exclusive(verifier),
            ..
        } => verifier.as_slice() == wanted.as_slice(),
        _ => false,
    }
}

#[test]
fn exclusive_creation(rt: HostRuntime) {
    match read(rt.alloc(), NFS, 8, &[4, HAND, 3, OLD, 2, 1, 2]) {
        Ok(args) => assert!(rt; has_verifier(&args, &[0, 0, 0, 1, 0, 0, 0, 2])),
        Err(_) => assert!(rt; false),
    }
}

#[test]
fn node_without_attributes(rt: HostRuntime) {
    let read = read(rt.alloc(), NFS, 11, &[4, HAND, 3, OLD, 1]);
    assert!(rt;
        matches!(
            read,
            Ok(Args::Mknod {
                kind: NodeKind::Regular,
                ..
            })
        )
    );
}

// The program, the procedure, words that aren't its arguments, and where they aren't.
const GARBAGE: [(u32, u32, &[u32], usize); 12] = [
    (NFS, 0, &[0], 0),
    (NFS, 1, &[4], 0),
    (NFS, 1, &[65], 0),
    (NFS, 1, &[4, HAND, 0], 8),
    (NFS, 2, &[4, HAND, 2], 8),
    (NFS, 3, &[4, HAND, 4097], 8),
    (NFS, 7, &[4, HAND, 0, 7, 5, 3], 20),
    (NFS, 7, &[4, HAND, 0, 7, 5, 2, 1_048_577], 24),
    (NFS, 8, &[4, HAND, 3, OLD, 3], 16),
    (NFS, 11, &[4, HAND, 3, OLD, 8], 16),
    (NFS, 22, &[], 0),
    (100_004, 0, &[], 0),
];

#[test]
fn garbage(rt: HostRuntime) {
    for (prog, proc_no, words, place) in GARBAGE {
        let fault = read(rt.alloc(), prog, proc_no, words).err();
        assert_eq!(rt;
            fault,
            Some(ArgsFault::Garbage { place }),
            "procedure {proc_no} of {prog}"
        );
    }
}

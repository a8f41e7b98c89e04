// Calls of the machine `h` over a tree of the root alone, as file system 1. The digest in its handle was made by md5sum; the
// replies are laid out by RFC 5531 section 9 and RFC 1813 sections 2.6, 3.3.1, 5.2.1 and 5.2.2.
use super::*;
use append_store::{MemCluster, MemFile};
use bytes::Bytes;
use dup_cache::Calls;
use edit_log::Log;
use gw_model::Trace;
use mount_proc::MountList;
use name_changes::FileSystem;
use name_tree::Tree;
use nfs_wire::Args;
use rpc_msg::{Call, Caller};
use std::alloc::Global;

const ROOT: [u8; 32] = [
    0, 0, 0, 0, 0, 0, 0, 3, 0, 0, 0, 0, 0, 0, 0, 1, 0xb0, 0xd5, 0x68, 0xa0, 0x67, 0xb6, 0x39, 0x5c,
    0xee, 0x93, 0x09, 0x4d, 0xf5, 0x41, 0x7c, 0xec,
];

const NOBODY: Caller = Caller {
    uid: 65_534,
    gid: 65_534,
    gids: [0; 16],
    gid_count: 0,
};

// an accepted reply to call 7; NFS3_OK, and a directory of mode 0755 with two links and 4,096 bytes
const ATTRIBUTES: [u32; 28] = [
    7, 1, 0, 0, 0, 0, 0, 2, 0o755, 2, 0, 0, 0, 4096, 0, 4096, 0, 0, 0, 1, 0, 3, 0, 0, 0, 0, 0, 0,
];

// an accepted reply to call 7; MNT3_OK, the root's handle, and one flavor, AUTH_SYS
const MOUNTED: [u32; 18] = [
    7,
    1,
    0,
    0,
    0,
    0,
    0,
    32,
    0,
    3,
    0,
    1,
    0xb0d5_68a0,
    0x67b6_395c,
    0xee93_094d,
    0xf541_7cec,
    1,
    1,
];

// an accepted reply to call 7; the machine `h` has mounted `/`, and no other pair follows
const DUMPED: [u32; 12] = [7, 1, 0, 0, 0, 0, 1, 1, 0x6800_0000, 1, 0x2f00_0000, 0];

fn are_words(text: &[u8], words: &[u32]) -> bool {
    let mut rest = text;
    for word in words {
        match rest.strip_prefix(word.to_be_bytes().as_slice()) {
            Some(behind) => rest = behind,
            None => return false,
        }
    }
    rest.is_empty()
}

// The root is exported as `/`, and nobody has mounted it.
fn new_front(alloc: Global) -> Option<Front> {
    let Ok(tree) = Tree::new(alloc) else {
        return None;
    };
    let Ok(calls) = Calls::new(alloc, 4) else {
        return None;
    };
    let Ok(export) = Vec::from_slice(alloc, b"/") else {
        return None;
    };
    Some(Front {
        names: FileSystem {
            tree,
            calls,
            fsid: 1,
            read_only: false,
        },
        mounts: MountList::new(alloc),
        export,
    })
}

// Whether arguments are answered by these words.
fn is_answered(
    alloc: Global,
    front: &mut Front,
    log: &mut Log<MemFile>,
    cluster: &mut MemCluster,
    args: &Args,
    words: &[u32],
) -> bool {
    let call = Call {
        xid: 7,
        prog: 0,
        vers: 3,
        proc_no: 0,
        caller: NOBODY,
        host: Bytes::from_static(b"h"),
        args: Bytes::from_static(b""),
        whole: Bytes::from_static(b""),
    };
    let mut trace = Trace::new(alloc);
    match answer(alloc, front, log, cluster, 1, &call, args, 0, &mut trace) {
        Ok(Some(done)) => are_words(&done.text, words),
        _ => false,
    }
}

// Whether arguments are answered by these words, and others then by those.
fn are_answered(
    alloc: Global,
    first: &Args,
    first_words: &[u32],
    then: &Args,
    then_words: &[u32],
) -> bool {
    let Some(mut front) = new_front(alloc) else {
        return false;
    };
    let mut cluster = MemCluster::new(alloc, Vec::new(alloc));
    let mut trace = Trace::new(alloc);
    match Log::start(alloc, &mut cluster, &mut trace) {
        Ok((mut log, _)) => {
            is_answered(
                alloc,
                &mut front,
                &mut log,
                &mut cluster,
                first,
                first_words,
            ) && is_answered(alloc, &mut front, &mut log, &mut cluster, then, then_words)
        }
        Err(_) => false,
    }
}

#[test]
fn attributes_of_the_root(rt: HostRuntime) {
    let args = Args::Getattr {
        handle: Bytes::from_static(&ROOT),
    };
    assert!(rt; are_answered(rt.alloc(), &args, &ATTRIBUTES, &args, &ATTRIBUTES));
}

#[test]
fn dump_has_what_was_mounted(rt: HostRuntime) {
    let path = Bytes::from_static(b"/");
    assert!(rt;
        are_answered(
            rt.alloc(),
            &Args::Mnt { path },
            &MOUNTED,
            &Args::Dump,
            &DUMPED
        )
    );
}

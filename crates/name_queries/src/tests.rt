// The happy path: a tree of the root alone, as file system 1. The digest in its handle was made by md5sum.
use super::*;
use bytes::Bytes;
use name_tree::Tree;
use nfs_wire::Args;
use rpc_msg::Caller;
use std::alloc::Global;

const ROOT: [u8; 32] = [
    0, 0, 0, 0, 0, 0, 0, 3, 0, 0, 0, 0, 0, 0, 0, 1, 0xb0, 0xd5, 0x68, 0xa0, 0x67, 0xb6, 0x39, 0x5c,
    0xee, 0x93, 0x09, 0x4d, 0xf5, 0x41, 0x7c, 0xec,
];

const NOBODY: Caller = Caller {
    uid: 65_534,
    gid: 65_534,
    gids: [0; 16],
    gid_count: 0,
};

// no attributes of the directory, verifier, an entry with attributes and handle, and that others follow
const FIRST_ENTRY: [u32; 45] = [
    0,
    0,
    0,
    0,
    1,
    0,
    3,
    1,
    0x2e00_0000,
    0,
    1,
    1,
    2,
    0o755,
    2,
    0,
    0,
    0,
    4096,
    0,
    4096,
    0,
    0,
    0,
    1,
    0,
    3,
    0,
    0,
    0,
    0,
    0,
    0,
    1,
    32,
    0,
    3,
    0,
    1,
    0xb0d5_68a0,
    0x67b6_395c,
    0xee93_094d,
    0xf541_7cec,
    0,
    0,
];

fn are_words(text: &[u8], words: &[u32]) -> bool {
    let mut rest = text;
    for word in words {
        match rest.strip_prefix(word.to_be_bytes().as_slice()) {
            Some(behind) => rest = behind,
            None => return false,
        }
    }
    rest.is_empty()
}

// Whether arguments are answered by these words.
fn is_answered(alloc: Global, args: &Args, words: &[u32]) -> bool {
    let Ok(tree) = Tree::new(alloc) else {
        return false;
    };
    match answer(alloc, &tree, 1, &NOBODY, args) {
        Ok(Some(text)) => are_words(&text, words),
        _ => false,
    }
}

#[test]
fn listing_of_one_entry(rt: HostRuntime) {
    let args = Args::Readdirplus {
        handle: Bytes::from_static(&ROOT),
        cookie: 0,
        verifier: [0; 8],
        dircount: 47,
        maxcount: 4096,
    };
    assert!(rt; is_answered(rt.alloc(), &args, &FIRST_ENTRY));
}

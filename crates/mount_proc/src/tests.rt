// What is answered once a host has mounted the root, by RFC 1813 sections 5.2.2 and 5.2.5.
use crate::{MountList, export_text};
use name_tree::Tree;
use std::alloc::Global;
use std::test::Fail;

// The host `h` has mounted the path `/`.
const DUMPED: [u8; 24] = *b"\0\0\0\x01\0\0\0\x01h\0\0\0\0\0\0\x01/\0\0\0\0\0\0\0";

// Everybody may mount the path `/`.
const EXPORTED: [u8; 20] = *b"\0\0\0\x01\0\0\0\x01/\0\0\0\0\0\0\0\0\0\0\0";

// Mounts the root from `h`, and says whether this is what DUMP answers then.
fn dumps(alloc: Global, want: &[u8]) -> bool {
    let Ok(tree) = Tree::new(alloc) else {
        return false;
    };
    let mut mounts = MountList::new(alloc);
    match mounts.mnt(&tree, b"/", b"h", b"/") {
        Ok(_) => match mounts.dump() {
            Ok(text) => text.as_slice() == want,
            Err(_) => false,
        },
        Err(_) => false,
    }
}

fn exports(alloc: Global, path: &[u8], want: &[u8]) -> bool {
    match export_text(alloc, path) {
        Ok(text) => text.as_slice() == want,
        Err(_) => false,
    }
}

#[test]
fn dump_has_what_was_mounted(rt: HostRuntime) -> Result<(), Fail> {
    assert!(rt; dumps(rt.alloc(), &DUMPED));
    Ok(())
}

#[test]
fn export_has_the_path(rt: HostRuntime) -> Result<(), Fail> {
    assert!(rt; exports(rt.alloc(), b"/", &EXPORTED));
    Ok(())
}

// Each public call once, and each refusal of the orders of RFC 1813 section 3.3 in front of the one behind it.
ghost use Rattle.std.specs.Prelude.{◌≤◌};

use super::*;
use gw_model::FileId;
use nfs_types::{FileType, SetAttr, SetTime, Time};
use rpc_msg::Caller;
use std::alloc::Global;
use std::test::Fail;

const NO_SET: SetAttr = SetAttr {
    mode: None,
    uid: None,
    gid: None,
    size: None,
    atime: SetTime::Leave,
    mtime: SetTime::Leave,
};

const ROOT: FileId = FileId(3);

const FILE: FileId = FileId(4);

const FULL: FileId = FileId(5);

const LEAF: FileId = FileId(6);

const BARE: FileId = FileId(7);

const LINK: FileId = FileId(8);

const NONE: FileId = FileId(99);

// Who has this number, in its own group and in no further one.
fn caller(uid: u32) -> Caller
    ensures { result.gid_count ≤ 16 }
{
    Caller {
        uid,
        gid: uid,
        gids: [0; 16],
        gid_count: 0,
    }
}

// Does what a request comes to, as the superuser.
fn does(tree: &mut Tree, request: &NameRequest<'_>, moment: u64) -> Result<(), Fail> {
    match tree.judge(&caller(0), false, request) {
        Ok(Judged::Change(edit)) => {
            tree.reserve(&edit).map_err(|_| "room")?;
            tree.apply(&edit, moment);
            Ok(())
        }
        _ => Err("a change")?,
    }
}

// The status of a request, 0 where it comes to a change, and 1,000,000 where the file is as it is asked for.
fn status_of(tree: &Tree, who: &Caller, read_only: bool, request: &NameRequest<'_>) -> u32
    requires { who.now.gid_count ≤ 16 }
{
    match tree.judge(who, read_only, request) {
        Ok(Judged::Change(_)) => 0,
        Ok(Judged::Same(_)) => 1_000_000,
        Err(Refused::Status(status)) => status,
        Err(Refused::Memory) => u32::MAX,
    }
}

fn found(tree: &Tree, who: &Caller, dir: FileId, name: &[u8]) -> u64
    requires { who.now.gid_count ≤ 16 }
{
    match tree.lookup(who, dir, name) {
        Ok(file) => file.0,
        Err(status) => 1_000_000 + u64::from(status),
    }
}

// A file, a directory with a file in it, one without, and a link, all in the root and of owner 7.
fn planted(alloc: Global) -> Result<Tree, Fail> {
    let mut tree = Tree::new(alloc).map_err(|_| "tree")?;
    let mut set = NO_SET;
    set.uid = Some(7);
    let made = [
        NameRequest::Create {
            moment: 1_000,
            dir: ROOT,
            name: b"f",
            how: How::Guarded(set),
        },
        NameRequest::Mkdir {
            moment: 1_000,
            dir: ROOT,
            name: b"d",
            set,
        },
        NameRequest::Create {
            moment: 1_000,
            dir: FULL,
            name: b"g",
            how: How::Exclusive([1; 8]),
        },
        NameRequest::Mkdir {
            moment: 1_000,
            dir: ROOT,
            name: b"e",
            set,
        },
        NameRequest::Symlink {
            moment: 1_000,
            dir: ROOT,
            name: b"l",
            set,
            path: b"d/g",
        },
    ];
    for request in &made {
        does(&mut tree, request, 1_000)?;
    }
    Ok(tree)
}

#[test]
fn makes_and_finds(rt: HostRuntime) -> Result<(), Fail> {
    let tree = planted(rt.alloc())?;
    let anyone = caller(9);
    for (dir, name, want) in [
        (ROOT, b"f".as_slice(), 4),
        (ROOT, b"d", 5),
        (FULL, b"g", 6),
        (FULL, b"..", 3),
        (ROOT, b"..", 3),
        (FULL, b".", 5),
        (NONE, b"f", 1_000_070),
        (FILE, b"f", 1_000_020),
        (FULL, b"", 1_000_022),
        (FULL, b"f", 1_000_002),
    ] {
        assert_eq!(rt; found(&tree, &anyone, dir, name), want);
    }
    assert_eq!(rt; tree.path(LINK), Some(b"d/g".as_slice()));
    assert_eq!(rt; tree.path(FILE), None);
    assert_eq!(rt; tree.child(ROOT, b"e"), Some(BARE));
    assert_eq!(rt; tree.next_id(), 9);
    assert_eq!(rt; tree.access(&anyone, FILE, 63), 1);
    assert_eq!(rt; tree.access(&anyone, FULL, 63), 3);
    assert_eq!(rt; tree.access(&caller(7), FULL, 63), 31);
    assert_eq!(rt; tree.access(&caller(0), FILE, 63), 45);
    Ok(())
}

#[test]
fn tells_attributes(rt: HostRuntime) -> Result<(), Fail> {
    let mut tree = planted(rt.alloc())?;
    tree.learn(FILE, 5, Some(2_500));
    match tree.attr(FILE) {
        Some(attr) => {
            assert!(rt; attr.kind == FileType::Regular);
            assert_eq!(rt;
                (attr.mode, attr.nlink, attr.uid, attr.gid),
                (0o644, 1, 7, 0)
            );
            assert_eq!(rt;
                (attr.size, attr.used, attr.fsid, attr.fileid),
                (5, 5, 0, 4)
            );
            assert_eq!(rt;
                (attr.atime.seconds, attr.mtime.seconds, attr.mtime.nanos),
                (1, 2, 500_000_000)
            );
        }
        None => assert!(rt; false),
    }
    match tree.attr(FULL) {
        Some(attr) => {
            assert!(rt; attr.kind == FileType::Directory);
            assert_eq!(rt; (attr.mode, attr.nlink, attr.size), (0o755, 2, 4096));
        }
        None => assert!(rt; false),
    }
    assert!(rt; tree.attr(NONE).is_none());
    Ok(())
}

#[test]
fn moves_lists_and_removes(rt: HostRuntime) -> Result<(), Fail> {
    let mut tree = planted(rt.alloc())?;
    let away = NameRequest::Rename {
        dir: ROOT,
        name: b"f",
        to_dir: FULL,
        to_name: b"g",
    };
    does(&mut tree, &away, 2_000)?;
    assert_eq!(rt; tree.child(ROOT, b"f"), None);
    assert_eq!(rt; tree.child(FULL, b"g"), Some(FILE));
    assert!(rt; tree.attr(LEAF).is_none());
    let mut cookie = 0;
    for (want, name) in [(5, b".".as_slice()), (3, b".."), (4, b"g")] {
        match tree.list_after(FULL, cookie) {
            Some(entry) => {
                assert_eq!(rt; entry.file.0, want);
                assert_eq!(rt; entry.name, name);
                cookie = entry.cookie;
            }
            None => assert!(rt; false),
        }
    }
    assert!(rt; tree.list_after(FULL, cookie).is_none());
    let gone = NameRequest::Remove {
        dir: FULL,
        name: b"g",
    };
    does(&mut tree, &gone, 3_000)?;
    let bare = NameRequest::Rmdir {
        dir: ROOT,
        name: b"d",
    };
    does(&mut tree, &bare, 3_000)?;
    assert!(rt; tree.attr(FULL).is_none());
    tree.pass_id(u64::MAX);
    assert_eq!(rt; tree.next_id(), u64::MAX);
    Ok(())
}

#[test]
fn sets_attributes(rt: HostRuntime) -> Result<(), Fail> {
    let mut tree = planted(rt.alloc())?;
    let mut set = NO_SET;
    set.mode = Some(0o177_777);
    set.mtime = SetTime::Server;
    let request = NameRequest::SetAttr {
        moment: 4_000,
        file: FILE,
        set,
        guard: None,
    };
    does(&mut tree, &request, 4_000)?;
    match tree.attr(FILE) {
        Some(attr) => {
            assert_eq!(rt; (attr.mode, attr.uid), (0o7777, 7));
            assert_eq!(rt;
                (attr.atime.seconds, attr.mtime.seconds, attr.ctime.seconds),
                (1, 4, 4)
            );
        }
        None => assert!(rt; false),
    }
    Ok(())
}

#[test]
fn refuses_removals(rt: HostRuntime) -> Result<(), Fail> {
    let tree = planted(rt.alloc())?;
    let long = [b'a'; 256];
    for (who, read_only, dir, name, file, folder) in [
        (9, true, NONE, long.as_slice(), 70, 70),
        (9, true, FILE, &long, 20, 20),
        (9, true, ROOT, &long, 63, 63),
        (9, true, ROOT, b"", 22, 22),
        (9, true, ROOT, b"a/b", 22, 22),
        (9, true, ROOT, b"a\0", 22, 22),
        (9, true, ROOT, b".", 30, 30),
        (9, false, ROOT, b".", 13, 13),
        (0, false, ROOT, b"..", 22, 22),
        (0, false, ROOT, b"x", 2, 2),
        (0, false, ROOT, b"f", 0, 20),
        (0, false, ROOT, b"d", 21, 66),
        (0, false, ROOT, b"e", 21, 0),
    ] {
        let remove = NameRequest::Remove { dir, name };
        assert_eq!(rt; status_of(&tree, &caller(who), read_only, &remove), file);
        let rmdir = NameRequest::Rmdir { dir, name };
        assert_eq!(rt; status_of(&tree, &caller(who), read_only, &rmdir), folder);
    }
    Ok(())
}

#[test]
fn refuses_creations(rt: HostRuntime) -> Result<(), Fail> {
    let mut tree = planted(rt.alloc())?;
    let mut sized = NO_SET;
    sized.size = Some(1);
    let mut empty = NO_SET;
    empty.size = Some(0);
    let long = [b'a'; 256];
    for (who, read_only, dir, name, how, want) in [
        (9, true, NONE, long.as_slice(), How::Guarded(sized), 70),
        (9, true, FILE, &long, How::Guarded(sized), 20),
        (9, true, ROOT, &long, How::Guarded(sized), 63),
        (9, true, ROOT, b"", How::Guarded(sized), 22),
        (9, true, ROOT, b".", How::Guarded(sized), 30),
        (9, false, ROOT, b".", How::Guarded(sized), 13),
        (0, false, ROOT, b".", How::Guarded(sized), 17),
        (0, false, ROOT, b"f", How::Guarded(sized), 17),
        (0, false, ROOT, b"d", How::Unchecked(sized), 17),
        (0, false, ROOT, b"f", How::Unchecked(sized), 10_004),
        (0, false, ROOT, b"f", How::Unchecked(empty), 1_000_000),
        (0, false, FULL, b"g", How::Exclusive([2; 8]), 17),
        (0, false, FULL, b"g", How::Exclusive([1; 8]), 1_000_000),
        (0, false, ROOT, b"x", How::Guarded(sized), 10_004),
        (0, false, ROOT, b"x", How::Guarded(empty), 0),
    ] {
        let moment = 0;
        let request = NameRequest::Create {
            moment,
            dir,
            name,
            how,
        };
        assert_eq!(rt; status_of(&tree, &caller(who), read_only, &request), want);
    }
    tree.pass_id(u64::MAX);
    let how = How::Guarded(empty);
    let last = NameRequest::Create {
        moment: 0,
        dir: ROOT,
        name: b"x",
        how,
    };
    assert_eq!(rt; status_of(&tree, &caller(0), false, &last), 10_006);
    Ok(())
}

#[test]
fn refuses_directories_and_links(rt: HostRuntime) -> Result<(), Fail> {
    let mut tree = planted(rt.alloc())?;
    let set = NO_SET;
    let moment = 0;
    let long = [b'a'; 256];
    for (who, read_only, dir, name, want) in [
        (9, true, NONE, long.as_slice(), 70),
        (9, true, FILE, &long, 20),
        (9, true, ROOT, &long, 63),
        (9, true, ROOT, b"", 22),
        (9, true, ROOT, b".", 30),
        (9, false, ROOT, b".", 13),
        (0, false, ROOT, b"..", 17),
        (0, false, ROOT, b"f", 17),
        (0, false, ROOT, b"x", 0),
    ] {
        let mkdir = NameRequest::Mkdir {
            moment,
            dir,
            name,
            set,
        };
        assert_eq!(rt; status_of(&tree, &caller(who), read_only, &mkdir), want);
        let symlink = NameRequest::Symlink {
            moment,
            dir,
            name,
            set,
            path: b"p",
        };
        assert_eq!(rt; status_of(&tree, &caller(who), read_only, &symlink), want);
    }
    tree.pass_id(u64::MAX);
    let last = NameRequest::Mkdir {
        moment,
        dir: ROOT,
        name: b"x",
        set,
    };
    assert_eq!(rt; status_of(&tree, &caller(0), false, &last), 10_006);
    Ok(())
}

#[test]
fn refuses_moves(rt: HostRuntime) -> Result<(), Fail> {
    let tree = planted(rt.alloc())?;
    let long = [b'a'; 256];
    for (who, read_only, dir, name, to_dir, to_name, want) in [
        (9, true, NONE, long.as_slice(), FILE, long.as_slice(), 70),
        (9, true, FILE, &long, NONE, &long, 70),
        (9, true, FILE, &long, ROOT, &long, 20),
        (9, true, ROOT, &long, FILE, &long, 20),
        (9, true, ROOT, &long, ROOT, b"", 63),
        (9, true, ROOT, b"", ROOT, &long, 22),
        (9, true, ROOT, b".", ROOT, &long, 63),
        (9, true, ROOT, b".", ROOT, b"x", 30),
        (7, false, ROOT, b".", FULL, b"x", 13),
        (7, false, FULL, b".", ROOT, b"x", 13),
        (0, false, ROOT, b".", ROOT, b"x", 22),
        (0, false, ROOT, b"x", ROOT, b"..", 22),
        (0, false, ROOT, b"x", ROOT, b"y", 2),
        (0, false, ROOT, b"f", ROOT, b"f", 1_000_000),
        (0, false, ROOT, b"d", FULL, b"g", 22),
        (0, false, ROOT, b"f", ROOT, b"d", 17),
        (0, false, ROOT, b"d", ROOT, b"f", 17),
        (0, false, ROOT, b"e", ROOT, b"d", 66),
        (0, false, ROOT, b"f", FULL, b"g", 0),
        (0, false, ROOT, b"d", ROOT, b"e", 0),
    ] {
        let request = NameRequest::Rename {
            dir,
            name,
            to_dir,
            to_name,
        };
        assert_eq!(rt; status_of(&tree, &caller(who), read_only, &request), want);
    }
    Ok(())
}

#[test]
fn refuses_settings(rt: HostRuntime) -> Result<(), Fail> {
    let tree = planted(rt.alloc())?;
    let (late, kept) = (Time::of_moment(1), Time::of_moment(1_000));
    let owner = (Some(8), None);
    for (who, read_only, file, (uid, size), guard, want) in [
        (9, true, NONE, owner, late, 70),
        (9, true, FILE, owner, late, 30),
        (9, false, FILE, owner, late, 10_002),
        (9, false, FILE, owner, kept, 1),
        (7, false, FULL, (Some(8), Some(1)), kept, 1),
        (7, false, FULL, (Some(7), Some(1)), kept, 22),
        (7, false, FILE, (Some(7), Some(1)), kept, 10_004),
        (9, false, FILE, (None, Some(0)), kept, 1_000_000),
        (7, false, FILE, (Some(7), Some(0)), kept, 0),
        (0, false, FILE, owner, kept, 0),
    ] {
        let mut set = NO_SET;
        set.uid = uid;
        set.size = size;
        let request = NameRequest::SetAttr {
            moment: 0,
            file,
            set,
            guard: Some(guard),
        };
        assert_eq!(rt; status_of(&tree, &caller(who), read_only, &request), want);
    }
    Ok(())
}

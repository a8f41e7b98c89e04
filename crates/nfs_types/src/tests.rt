// Texts that were made by hand from the structures of RFC 1813 section 2.
use crate::{Attr, Device, FileType, SetTime, Time, attr_text, read_attr, read_set, read_time};
use xdr::{Reader, XdrFault};

// A regular file with mode 0644, one link, uid 7, gid 8, five bytes, in file system 1 with number 4; never read,
// written at 1.5 s, changed at 2 s and 1 ns.
const ATTR: Attr = Attr {
    kind: FileType::Regular,
    mode: 0o644,
    nlink: 1,
    uid: 7,
    gid: 8,
    size: 5,
    used: 6,
    rdev: Device { major: 0, minor: 9 },
    fsid: 1,
    fileid: 4,
    atime: Time {
        seconds: 0,
        nanos: 0,
    },
    mtime: Time {
        seconds: 1,
        nanos: 500_000_000,
    },
    ctime: Time {
        seconds: 2,
        nanos: 1,
    },
};

const ATTR_TEXT: [u8; 84] = [
    0, 0, 0, 1, 0, 0, 1, 0xa4, 0, 0, 0, 1, 0, 0, 0, 7, 0, 0, 0, 8, 0, 0, 0, 0, 0, 0, 0, 5, 0, 0, 0,
    0, 0, 0, 0, 6, 0, 0, 0, 0, 0, 0, 0, 9, 0, 0, 0, 0, 0, 0, 0, 1, 0, 0, 0, 0, 0, 0, 0, 4, 0, 0, 0,
    0, 0, 0, 0, 0, 0, 0, 0, 1, 0x1d, 0xcd, 0x65, 0, 0, 0, 0, 2, 0, 0, 0, 1,
];

// Mode 0600, no uid, no gid, size 9, the server's moment, 3 s and 4 ns.
const SET_TEXT: [u8; 44] = [
    0, 0, 0, 1, 0, 0, 1, 0x80, 0, 0, 0, 0, 0, 0, 0, 0, 0, 0, 0, 1, 0, 0, 0, 0, 0, 0, 0, 9, 0, 0, 0,
    1, 0, 0, 0, 2, 0, 0, 0, 3, 0, 0, 0, 4,
];

#[test]
fn attributes(rt: HostRuntime) {
    assert_eq!(rt; attr_text(&ATTR), ATTR_TEXT);
    let mut reader = Reader::new(&ATTR_TEXT);
    assert!(rt; read_attr(&mut reader) == Ok(ATTR));
    assert_eq!(rt; reader.place(), 84);
    let mut short = Reader::new(&ATTR_TEXT[..83]);
    assert!(rt; read_attr(&mut short) == Err(XdrFault::Short { place: 80 }));
    let mut other = Reader::new(&[0, 0, 0, 8]);
    assert!(rt; read_attr(&mut other) == Err(XdrFault::BadChoice { place: 0 }));
}

#[test]
fn sets(rt: HostRuntime) {
    let mut reader = Reader::new(&SET_TEXT);
    match read_set(&mut reader) {
        Ok(set) => {
            assert_eq!(rt; set.mode, Some(0o600));
            assert_eq!(rt; set.uid, None);
            assert_eq!(rt; set.gid, None);
            assert_eq!(rt; set.size, Some(9));
            assert_eq!(rt; set.atime, SetTime::Server);
            let time = Time {
                seconds: 3,
                nanos: 4,
            };
            assert_eq!(rt; set.mtime, SetTime::At(time));
        }
        Err(_) => assert!(rt; false),
    }
    let mut text = SET_TEXT;
    text[31] = 0;
    text[35] = 3;
    let mut third = Reader::new(&text);
    assert!(rt; read_set(&mut third) == Err(XdrFault::BadChoice { place: 32 }));
    text[11] = 2;
    let mut second = Reader::new(&text);
    assert!(rt; read_set(&mut second) == Err(XdrFault::BadBool { place: 8 }));
}

#[test]
fn moments(rt: HostRuntime) {
    let time = Time {
        seconds: 1,
        nanos: 500_000_000,
    };
    assert_eq!(rt; Time::of_moment(1_500), time);
    let mut reader = Reader::new(&ATTR_TEXT[68..76]);
    assert!(rt; read_time(&mut reader) == Ok(time));
    let last = Time {
        seconds: 4_294_967_295,
        nanos: 615_000_000,
    };
    assert_eq!(rt; Time::of_moment(18_446_744_073_709_551_615), last);
}

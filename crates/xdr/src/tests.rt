// The example of RFC 4506 section 7, and each fault at its place.
use crate::{Reader, Writer, XdrFault};
use std::test::Fail;

// A file named "sillyprog" of kind EXEC (2), with interpreter "lisp", owner "john" and data "(quit)".
const SILLYPROG: [u8; 48] = [
    0, 0, 0, 9, b's', b'i', b'l', b'l', b'y', b'p', b'r', b'o', b'g', 0, 0, 0, 0, 0, 0, 2, 0, 0, 0,
    4, b'l', b'i', b's', b'p', 0, 0, 0, 4, b'j', b'o', b'h', b'n', 0, 0, 0, 6, b'(', b'q', b'u',
    b'i', b't', b')', 0, 0,
];

#[test]
fn writes_the_example(rt: HostRuntime) -> Result<(), Fail> {
    let mut writer = Writer::new(rt.alloc());
    writer.put_opaque(b"sillyprog")?;
    writer.put_u32(2)?;
    writer.put_opaque(b"lisp")?;
    writer.put_opaque(b"john")?;
    writer.put_opaque(b"(quit)")?;
    let text = writer.into_vec();
    assert_eq!(rt; text.as_slice(), SILLYPROG.as_slice());
    Ok(())
}

#[test]
fn writes_numbers(rt: HostRuntime) -> Result<(), Fail> {
    let mut writer = Writer::new(rt.alloc());
    writer.put_u64(0x0102_0304_0506_0708)?;
    writer.put_bool(true)?;
    writer.put_bool(false)?;
    writer.put_fixed(b"abcde")?;
    let text = writer.into_vec();
    let want = [
        1, 2, 3, 4, 5, 6, 7, 8, 0, 0, 0, 1, 0, 0, 0, 0, b'a', b'b', b'c', b'd', b'e', 0, 0, 0,
    ];
    assert_eq!(rt; text.as_slice(), want.as_slice());
    Ok(())
}

#[test]
fn reads_the_example(rt: HostRuntime) {
    let mut reader = Reader::new(&SILLYPROG);
    assert!(rt; reader.take_opaque(255) == Ok(b"sillyprog".as_slice()));
    assert!(rt; reader.take_u32() == Ok(2));
    assert!(rt; reader.take_opaque(4) == Ok(b"lisp".as_slice()));
    assert!(rt; reader.take_opaque(255) == Ok(b"john".as_slice()));
    assert_eq!(rt; reader.place(), 36);
    assert!(rt; reader.take_opaque(6) == Ok(b"(quit)".as_slice()));
    assert!(rt; reader.finish() == Ok(()));
}

#[test]
fn reads_any_padding(rt: HostRuntime) {
    let bytes = [0, 0, 0, 1, 0, 0, 0, 0, 0, 0, 1, 0, b'a', 9, 9, 9];
    let mut reader = Reader::new(&bytes);
    assert!(rt; reader.take_bool() == Ok(true));
    assert!(rt; reader.take_u64() == Ok(256));
    assert!(rt; reader.take_fixed(1) == Ok(b"a".as_slice()));
    assert!(rt; reader.finish() == Ok(()));
}

// After the word 7 stands the word 2, and then two bytes.
#[test]
fn faults_stand_at_their_item(rt: HostRuntime) {
    let bytes = [0, 0, 0, 7, 0, 0, 0, 2, 1, 2];
    let mut reader = Reader::new(&bytes);
    assert!(rt; reader.take_u32() == Ok(7));
    assert!(rt; reader.take_bool() == Err(XdrFault::BadBool { place: 4 }));
    assert!(rt; reader.take_u64() == Err(XdrFault::Short { place: 4 }));
    assert!(rt; reader.take_opaque(1) == Err(XdrFault::TooLong { place: 4 }));
    // the two bytes are there, and their padding is not
    assert!(rt; reader.take_opaque(2) == Err(XdrFault::Short { place: 4 }));
    assert!(rt; reader.take_fixed(7) == Err(XdrFault::Short { place: 4 }));
    assert!(rt; reader.take_u32() == Ok(2));
    assert!(rt; reader.take_u32() == Err(XdrFault::Short { place: 8 }));
    assert!(rt; reader.finish() == Err(XdrFault::Trailing { place: 8 }));
}

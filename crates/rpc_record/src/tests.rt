// Bytes that were made by hand from RFC 5531 section 11, whole and cut.
ghost use Rattle.std.specs.Prelude.{◌≡◌, None};

use crate::{Assembler, FrameFault, mark};
use bytes::Bytes;
use std::test::Fail;

// A call of procedure 0 of program 100003, version 3, without a credential: xid 1, then 0, 2.
const NULL_CALL: [u8; 40] = [
    0, 0, 0, 1, 0, 0, 0, 0, 0, 0, 0, 2, 0, 1, 0x86, 0xa3, 0, 0, 0, 3, 0, 0, 0, 0, 0, 0, 0, 0, 0, 0,
    0, 0, 0, 0, 0, 0, 0, 0, 0, 0,
];

// Feeds one piece and takes the record, if there is one.
fn step(assembler: &mut Assembler, piece: &[u8]) -> Result<Option<Bytes>, FrameFault>
    requires { assembler.old.ready ≡ None }
    ensures { assembler.new.ready ≡ None }
{
    let fed = assembler.feed(piece);
    let record = assembler.next();
    match fed {
        Ok(_) => Ok(record),
        Err(fault) => Err(fault),
    }
}

#[test]
fn one_fragment(rt: HostRuntime) -> Result<(), Fail> {
    let mut assembler = Assembler::new(rt.alloc());
    assert!(rt; step(&mut assembler, &mark(40))?.is_none());
    let record = step(&mut assembler, &NULL_CALL)?.expect(&rt, "a record");
    assert_eq!(rt; record.as_slice(), NULL_CALL.as_slice());
    assert_eq!(rt; mark(40), [0x80, 0, 0, 0x28]);
    Ok(())
}

#[test]
fn three_fragments(rt: HostRuntime) -> Result<(), Fail> {
    let mut bytes = Vec::new(rt.alloc());
    bytes.extend_from_slice(&[0, 0, 0, 4])?;
    bytes.extend_from_slice(&NULL_CALL[..4])?;
    bytes.extend_from_slice(&[0, 0, 0, 20])?;
    bytes.extend_from_slice(&NULL_CALL[4..24])?;
    bytes.extend_from_slice(&[0x80, 0, 0, 16])?;
    bytes.extend_from_slice(&NULL_CALL[24..])?;
    bytes.extend_from_slice(&[9, 9])?;
    let mut assembler = Assembler::new(rt.alloc());
    let taken = assembler.feed(&bytes)?;
    assert_eq!(rt; taken, 52);
    let record = assembler.next().expect(&rt, "a record");
    assert_eq!(rt; record.as_slice(), NULL_CALL.as_slice());
    assert!(rt; assembler.next().is_none());
    Ok(())
}

// Two fragments, "abc" and "de", cut at each place.
#[test]
fn each_cut(rt: HostRuntime) -> Result<(), Fail> {
    let bytes = [0, 0, 0, 3, b'a', b'b', b'c', 0x80, 0, 0, 2, b'd', b'e'];
    for cut in 0..13 {
        let mut assembler = Assembler::new(rt.alloc());
        assert!(rt; step(&mut assembler, &bytes[..cut])?.is_none(), "at {cut}");
        let record = step(&mut assembler, &bytes[cut..])?.expect(&rt, "a record");
        assert_eq!(rt; record.as_slice(), b"abcde".as_slice(), "at {cut}");
    }
    Ok(())
}

#[test]
fn too_many(rt: HostRuntime) -> Result<(), Fail> {
    let mut assembler = Assembler::new(rt.alloc());
    // 64 empty fragments that are not the last, and three bytes of a header
    assert!(rt; step(&mut assembler, &[0; 259])?.is_none());
    assert!(rt; step(&mut assembler, &[0]).err() == Some(FrameFault::TooMany));
    assert!(rt; step(&mut assembler, &[]).err() == Some(FrameFault::TooMany));
    Ok(())
}

#[test]
fn too_long(rt: HostRuntime) -> Result<(), Fail> {
    let mut assembler = Assembler::new(rt.alloc());
    // 1,052,672 is 0x101000
    assert!(rt; step(&mut assembler, &[0, 0, 0, 1, 7, 0x80, 0x10, 0x10])?.is_none());
    let fault = FrameFault::TooLong { have: 1_052_673 };
    assert!(rt; step(&mut assembler, &[0]).err() == Some(fault));
    assert!(rt; step(&mut assembler, &[0]).err() == Some(fault));
    let mut other = Assembler::new(rt.alloc());
    assert!(rt; step(&mut other, &[0x80, 0x10, 0x10, 0])?.is_none());
    Ok(())
}

// What no clause says: examples from outside, and that each call can succeed.
ghost use Rattle.std.specs.Prelude.{Some};

use crate::{
    Lines, MAX_LINE, Next, decode, number_law, parse_u32, parse_u64, push_hex, script_laws,
};
use gw_outside::{MemSource, ReadFault, Source};
use std::alloc::{AllocError, Global};
use std::test::Fail;

/// Gives one byte a read.
#[derive(Drop)]
struct Drip {
    inner: MemSource,
}

impl Source for Drip {
    ghost left = { λ s. Some s.inner.left };

    ghost ended = { λ s. s.inner.ended };

    ghost count = { λ s. s.inner.planned };

    fn read(&mut self, out: &mut [u8]) -> Result<usize, ReadFault> {
        let room = out.len().min(1);
        self.inner.read(&mut out[..room])
    }

    fn faults(&self) -> u64 {
        self.inner.faults()
    }
}

// The next lines one after another, each with a bar behind it, up to the first answer that isn't a line.
fn lines_of<S: Source>(alloc: Global, source: &mut S) -> Result<(Vec<u8>, Next), AllocError> {
    let mut lines = Lines::new(alloc);
    let mut text = Vec::new(alloc);
    let mut last = Next::Line;
    for _ in 0..9 {
        last = lines.next(source);
        if last != Next::Line {
            break;
        }
        text.extend_from_slice(lines.line())?;
        text.push(b'|')?;
    }
    Ok((text, last))
}

#[test]
fn finds_lines_at_once(rt: HostRuntime) -> Result<(), Fail> {
    let alloc = rt.alloc();
    let bytes = Vec::from_slice(alloc, b"one\n\ntwo three\nrest")?;
    let mut source = MemSource::new(bytes, Vec::new(alloc));
    let (text, last) = lines_of(alloc, &mut source)?;
    assert_eq!(rt; text.as_slice(), b"one||two three|".as_slice());
    assert_eq!(rt; last, Next::AtEnd);
    Ok(())
}

#[test]
fn finds_lines_byte_by_byte(rt: HostRuntime) -> Result<(), Fail> {
    let alloc = rt.alloc();
    let bytes = Vec::from_slice(alloc, b"one\n\ntwo three\n")?;
    let mut source = Drip {
        inner: MemSource::new(bytes, Vec::new(alloc)),
    };
    let (text, last) = lines_of(alloc, &mut source)?;
    assert_eq!(rt; text.as_slice(), b"one||two three|".as_slice());
    assert_eq!(rt; last, Next::AtEnd);
    Ok(())
}

#[test]
fn goes_on_after_a_fault(rt: HostRuntime) -> Result<(), Fail> {
    let alloc = rt.alloc();
    let bytes = Vec::from_slice(alloc, b"one\n")?;
    let mut source = Drip {
        inner: MemSource::new(bytes, Vec::from_slice(alloc, &[3])?),
    };
    let mut lines = Lines::new(alloc);
    assert_eq!(rt; lines.next(&mut source), Next::ReadFault);
    assert_eq!(rt; lines.next(&mut source), Next::Line);
    assert_eq!(rt; lines.line(), b"one".as_slice());
    assert_eq!(rt; lines.next(&mut source), Next::AtEnd);
    Ok(())
}

#[test]
fn takes_the_longest_line_and_no_longer_one(rt: HostRuntime) -> Result<(), Fail> {
    let alloc = rt.alloc();
    let mut bytes = vec![in alloc; b'x'; MAX_LINE]?;
    bytes.push(b'\n')?;
    bytes.extend_from_slice(b"next\n")?;
    let mut source = MemSource::new(bytes, Vec::new(alloc));
    let mut lines = Lines::new(alloc);
    assert_eq!(rt; lines.next(&mut source), Next::Line);
    assert_eq!(rt; lines.line().len(), 4_194_304);
    assert_eq!(rt; lines.next(&mut source), Next::Line);
    assert_eq!(rt; lines.line(), b"next".as_slice());
    let mut longer = vec![in alloc; b'x'; MAX_LINE]?;
    longer.extend_from_slice(b"x\nnext\n")?;
    let mut source = MemSource::new(longer, Vec::new(alloc));
    let mut lines = Lines::new(alloc);
    assert_eq!(rt; lines.next(&mut source), Next::TooLong);
    assert_eq!(rt; lines.next(&mut source), Next::TooLong);
    Ok(())
}

#[test]
fn reads_numbers(rt: HostRuntime) {
    number_law();
    script_laws::<u8, u8>();
    assert_eq!(rt; parse_u64(b"0"), Some(0));
    assert_eq!(rt; parse_u64(b"10"), Some(10));
    assert_eq!(rt; parse_u64(b"007"), None);
    assert_eq!(rt; parse_u64(b"00"), None);
    assert_eq!(rt; parse_u64(b"+5"), None);
    assert_eq!(rt; parse_u64(b"-5"), None);
    assert_eq!(rt; parse_u64(b""), None);
    assert_eq!(rt; parse_u64(b"5 "), None);
    assert_eq!(rt; parse_u64(b"\xff"), None);
    assert_eq!(rt;
        parse_u64(b"18446744073709551615"),
        Some(18_446_744_073_709_551_615)
    );
    assert_eq!(rt; parse_u64(b"18446744073709551616"), None);
    assert_eq!(rt; parse_u32(b"4294967295"), Some(4_294_967_295));
    assert_eq!(rt; parse_u32(b"4294967296"), None);
}

#[test]
fn reads_hex(rt: HostRuntime) -> Result<(), Fail> {
    let mut room = Vec::new(rt.alloc());
    let bytes = decode(b"0aFfAb", &mut room)?.expect(&rt, "digits");
    assert_eq!(rt; bytes, [0x0a, 0xff, 0xab].as_slice());
    let bytes = decode(b"7f", &mut room)?.expect(&rt, "digits");
    assert_eq!(rt; bytes, [0x7f].as_slice());
    assert!(rt; decode(b"", &mut room)?.is_none());
    assert!(rt; decode(b"0a0", &mut room)?.is_none());
    assert!(rt; decode(b"0g", &mut room)?.is_none());
    assert!(rt; decode(b"0a ", &mut room)?.is_none());
    Ok(())
}

#[test]
fn writes_hex(rt: HostRuntime) -> Result<(), Fail> {
    let mut text = Vec::from_slice(rt.alloc(), b"reply 1 ")?;
    push_hex(&mut text, &[0x0a, 0xff, 0xab])?;
    assert_eq!(rt; text.as_slice(), b"reply 1 0affab".as_slice());
    Ok(())
}

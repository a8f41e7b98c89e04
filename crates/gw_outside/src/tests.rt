ghost use Rattle.std.specs.Prelude.{Some};
ghost use Rattle.gw_outside.specs.Memory.{sink_count};

use super::*;
use std::test::Fail;

// A source in memory: two calls that give bytes, a planned failure between them, and the end.
#[test]
fn a_source_in_memory(rt: HostRuntime) -> Result<(), Fail> {
    let alloc = rt.alloc();
    let bytes = vec![in alloc; 1, 2, 3, 4, 5]?;
    let failing = vec![in alloc; 2]?;
    let mut source = MemSource::new(bytes, failing);
    let mut out = [0; 3];
    assert_eq!(rt; source.read(&mut out), Ok(3));
    assert_eq!(rt; out, [1, 2, 3]);
    assert_eq!(rt; source.read(&mut out), Err(ReadFault));
    assert_eq!(rt; source.read(&mut out), Ok(2));
    assert_eq!(rt; out, [4, 5, 3]);
    assert_eq!(rt; source.read(&mut out), Ok(0));
    assert_eq!(rt; source.faults(), 1);
    assert_eq!(rt; source.planned(), 1);
    assert_eq!(rt; source.starved(), 0);
    Ok(())
}

// A sink in memory, whose second write is planned to fail.
#[test]
fn a_sink_in_memory(rt: HostRuntime) -> Result<(), Fail> {
    let alloc = rt.alloc();
    let failing = vec![in alloc; 2]?;
    let mut sink = MemSink::new(alloc, failing);
    assert_eq!(rt; sink.write(b"ab"), Ok(2));
    assert_eq!(rt; sink.write(b"cd"), Err(WriteFault));
    assert_eq!(rt; sink.write(b"ef"), Ok(2));
    assert_eq!(rt; sink.bytes(), b"abef".as_slice());
    assert_eq!(rt; sink.faults(), 1);
    assert_eq!(rt; sink.planned(), 1);
    assert_eq!(rt; sink.starved(), 0);
    Ok(())
}

// std's reader and writer over memory. An array as a writer takes nothing once it is full.
#[test]
fn the_adapters(rt: HostRuntime) -> Result<(), Fail> {
    let mut source = Reading::new(&b"abc"[..]);
    let mut out = [0; 2];
    assert_eq!(rt; source.read(&mut out), Ok(2));
    assert_eq!(rt; out, *b"ab");
    assert_eq!(rt; source.read(&mut out), Ok(1));
    assert_eq!(rt; source.read(&mut out), Ok(0));
    assert_eq!(rt; source.faults(), 0);
    let mut room = [0; 3];
    let mut sink = Writing::new(&mut room[..]);
    assert_eq!(rt; sink.write(b"xy"), Ok(2));
    assert_eq!(rt; sink.write(b"zw"), Ok(1));
    assert_eq!(rt; sink.write(b"w"), Err(WriteFault));
    assert_eq!(rt; sink.faults(), 1);
    Ok(())
}

/// Takes two bytes a write.
#[derive(Drop)]
struct Sip {
    inner: MemSink,
}

impl Sink for Sip {
    ghost held = { λ s. Some s.inner.held };

    ghost count = { λ s. sink_count s.inner };

    fn write(&mut self, bytes: &[u8]) -> Result<usize, WriteFault> {
        let part = bytes.len().min(2);
        self.inner.write(&bytes[..part])
    }

    fn faults(&self) -> u64 {
        self.inner.faults()
    }
}

#[test]
fn writes_in_parts(rt: HostRuntime) -> Result<(), Fail> {
    let alloc = rt.alloc();
    let mut sink = Sip {
        inner: MemSink::new(alloc, Vec::new(alloc)),
    };
    assert_eq!(rt; write_all(&mut sink, b"closed 7\n"), Ok(()));
    assert_eq!(rt; sink.inner.bytes(), b"closed 7\n".as_slice());
    let mut sink = Sip {
        inner: MemSink::new(alloc, Vec::from_slice(alloc, &[3])?),
    };
    assert_eq!(rt; write_all(&mut sink, b"closed 7\n"), Err(WriteFault));
    assert_eq!(rt; sink.inner.bytes(), b"clos".as_slice());
    Ok(())
}

#[test]
fn a_tally_of_calls(rt: HostRuntime) -> Result<(), Fail> {
    let mut tally = Tally::new();
    tally.count(false);
    tally.count(true);
    let other = tally;
    tally.join(other);
    assert_eq!(rt; tally, Tally { made: 4, failed: 2 });
    Ok(())
}

// Calls that were made by hand from RFC 1833 section 3.1 and RFC 5531 sections 9 and 11.
use crate::{Mapping, PortEnd, Ports, port_session};
use gw_outside::{MemSink, MemSource};
use std::alloc::{AllocError, Global};
use std::test::Fail;

// The addresses 127.0.0.1 and 10.0.0.1.
const HERE: u32 = 0x7f00_0001;

const ELSEWHERE: u32 = 0x0a00_0001;

// GETPORT of NFS version 3 over TCP, as a record.
const NFS_PORT: [u32; 15] = [
    0x8000_0038,
    1,
    0,
    2,
    100_000,
    2,
    3,
    0,
    0,
    0,
    0,
    100_003,
    3,
    6,
    0,
];

// Its reply, where NFS is at 2049.
const NFS_PORT_REPLY: [u32; 8] = [0x8000_001c, 1, 1, 0, 0, 0, 0, 2049];

fn bytes_of(alloc: Global, words: &[u32]) -> Result<Vec<u8>, AllocError> {
    let mut bytes = Vec::new(alloc);
    for word in words {
        bytes.extend_from_slice(&word.to_be_bytes())?;
    }
    Ok(bytes)
}

// How a session over these words ends, and whether it writes these.
fn session(
    alloc: Global,
    ports: &mut Ports,
    client: u32,
    call: &[u32],
    reply: &[u32],
) -> Result<(PortEnd, bool), Fail> {
    let mut input = MemSource::new(bytes_of(alloc, call)?, Vec::new(alloc));
    let mut output = MemSink::new(alloc, Vec::new(alloc));
    let end = port_session(alloc, ports, client, &mut input, &mut output);
    let want = bytes_of(alloc, reply)?;
    Ok((end, output.bytes() == want.as_slice()))
}

#[test]
fn gives_a_port(rt: HostRuntime) -> Result<(), Fail> {
    let alloc = rt.alloc();
    let mut ports = Ports::new(alloc, 111, 2049)?;
    let (end, same) = session(alloc, &mut ports, ELSEWHERE, &NFS_PORT, &NFS_PORT_REPLY)?;
    assert!(rt; end == PortEnd::Ended && same);
    Ok(())
}

#[test]
fn sets_and_dumps(rt: HostRuntime) -> Result<(), Fail> {
    let alloc = rt.alloc();
    let mut ports = Ports::new(alloc, 111, 2049)?;
    let set = [
        0x8000_0038,
        1,
        0,
        2,
        100_000,
        2,
        1,
        0,
        0,
        0,
        0,
        100_024,
        1,
        17,
        700,
    ];
    let yes = [0x8000_001c, 1, 1, 0, 0, 0, 0, 1];
    let no = [0x8000_001c, 1, 1, 0, 0, 0, 0, 0];
    assert!(rt; session(alloc, &mut ports, ELSEWHERE, &set, &no)?.1);
    assert!(rt; session(alloc, &mut ports, HERE, &set, &yes)?.1);
    assert!(rt; session(alloc, &mut ports, HERE, &set, &no)?.1);
    let dump = [0x8000_0028, 1, 0, 2, 100_000, 2, 4, 0, 0, 0, 0];
    let all = [
        0x8000_006c,
        1,
        1,
        0,
        0,
        0,
        0,
        1,
        100_000,
        2,
        6,
        111,
        1,
        100_003,
        3,
        6,
        2049,
        1,
        100_005,
        3,
        6,
        2049,
        1,
        100_024,
        1,
        17,
        700,
        0,
    ];
    assert!(rt; session(alloc, &mut ports, ELSEWHERE, &dump, &all)?.1);
    Ok(())
}

// A message that is no call, which ends its link before the call behind it.
#[test]
fn closes_at_a_reply(rt: HostRuntime) -> Result<(), Fail> {
    let alloc = rt.alloc();
    let mut ports = Ports::new(alloc, 111, 2049)?;
    let mut words = [0; 26];
    words[..8].copy_from_slice(&NFS_PORT_REPLY);
    words[8..23].copy_from_slice(&NFS_PORT);
    let (end, same) = session(alloc, &mut ports, HERE, &words, &[])?;
    assert!(rt; end == PortEnd::Closed && same);
    Ok(())
}

// A read and a write that fail behind the first reply.
#[test]
fn fails_in_the_middle(rt: HostRuntime) -> Result<(), Fail> {
    let alloc = rt.alloc();
    let mut ports = Ports::new(alloc, 111, 2049)?;
    let mut input = MemSource::new(bytes_of(alloc, &NFS_PORT)?, Vec::from_slice(alloc, &[2])?);
    let mut output = MemSink::new(alloc, Vec::from_slice(alloc, &[2])?);
    let end = port_session(alloc, &mut ports, HERE, &mut input, &mut output);
    assert!(rt; end == PortEnd::ReadFault);
    let mut input = MemSource::new(bytes_of(alloc, &NFS_PORT)?, Vec::new(alloc));
    let end = port_session(alloc, &mut ports, HERE, &mut input, &mut output);
    assert!(rt; end == PortEnd::WriteFault);
    assert_eq!(rt;
        output.bytes(),
        bytes_of(alloc, &NFS_PORT_REPLY)?.as_slice()
    );
    Ok(())
}

#[test]
fn takes_1024_entries(rt: HostRuntime) -> Result<(), Fail> {
    let alloc = rt.alloc();
    let mut ports = Ports::new(alloc, 111, 2049)?;
    for prog in 0..1024 {
        let mapping = Mapping {
            prog,
            vers: 1,
            prot: 17,
            port: 700,
        };
        assert_eq!(rt; ports.set(HERE, mapping)?, prog < 1021, "at {prog}");
    }
    Ok(())
}

#[test]
fn unsets_a_program(rt: HostRuntime) -> Result<(), Fail> {
    let mut ports = Ports::new(rt.alloc(), 111, 2049)?;
    let nfs = Mapping {
        prog: 100_003,
        vers: 3,
        prot: 6,
        port: 0,
    };
    assert_eq!(rt; ports.port_of(&nfs), 2049);
    assert!(rt; !ports.unset(ELSEWHERE, &nfs));
    assert!(rt; ports.unset(HERE, &nfs));
    assert!(rt; !ports.unset(HERE, &nfs));
    assert_eq!(rt; ports.port_of(&nfs), 0);
    assert_eq!(rt; ports.entries().len(), 2);
    Ok(())
}

// Messages that were made by hand from RFC 5531 section 9 and RFC 1813 sections 3.3.6, 3.3.7, 3.3.21, 5.1 and 5.2.
use crate::{Request, read_request};
use bytes::Bytes;
use file_calls::{CommitCall, ReadCall};
use gw_config::Config;
use std::alloc::{AllocError, Global};
use std::test::Fail;

// A NULL call of no one to MOUNT, with the xid 9.
const NULL_CALL: [u32; 10] = [9, 0, 2, 100_005, 3, 0, 0, 0, 0, 0];

// A READ of 5 bytes at offset 2^32 + 2 of file 4.
const READ_CALL: [u32; 22] = [
    9,
    0,
    2,
    100_003,
    3,
    6,
    0,
    0,
    0,
    0,
    32,
    0,
    4,
    0,
    1,
    0x21e0_f297,
    0x5a84_e78c,
    0xec58_787a,
    0xf28b_de14,
    1,
    2,
    5,
];

// A COMMIT of 5 bytes at offset 2^32 + 2 of file 4.
const COMMIT_CALL: [u32; 22] = [
    9,
    0,
    2,
    100_003,
    3,
    21,
    0,
    0,
    0,
    0,
    32,
    0,
    4,
    0,
    1,
    0x21e0_f297,
    0x5a84_e78c,
    0xec58_787a,
    0xf28b_de14,
    1,
    2,
    5,
];

// A WRITE of `abcde` at offset 2^32 + 2 of file 4.
const WRITE_CALL: [u32; 26] = [
    9,
    0,
    2,
    100_003,
    3,
    7,
    0,
    0,
    0,
    0,
    32,
    0,
    4,
    0,
    1,
    0x21e0_f297,
    0x5a84_e78c,
    0xec58_787a,
    0xf28b_de14,
    1,
    2,
    5,
    0,
    5,
    0x6162_6364,
    0x6500_0000,
];

fn message_of(alloc: Global, words: &[u32]) -> Result<Bytes, AllocError> {
    let mut bytes = Vec::new(alloc);
    for word in words {
        bytes.extend_from_slice(&word.to_be_bytes())?;
    }
    Bytes::copy_from_slice(alloc, &bytes)
}

// What a call asks for where nothing is set and one file is in the tree.
fn request_of(alloc: Global, call: &[u32]) -> Result<Request, Fail> {
    let config = Config::from_toml(alloc, "").map_err(|_| "settings")?;
    let message = message_of(alloc, call)?;
    Ok(read_request(alloc, &config, 1, message).map_err(|_| "memory")?)
}

#[test]
fn null_is_answered_at_once(rt: HostRuntime) -> Result<(), Fail> {
    let alloc = rt.alloc();
    let Request::Reply { xid, reply } = request_of(alloc, &NULL_CALL)? else {
        assert!(rt; false);
        return Ok(());
    };
    let want = message_of(alloc, &[9, 1, 0, 0, 0, 0])?;
    assert_eq!(rt; xid, 9);
    assert_eq!(rt; reply.as_slice(), want.as_slice());
    Ok(())
}

#[test]
fn a_write_is_of_its_file(rt: HostRuntime) -> Result<(), Fail> {
    let alloc = rt.alloc();
    let Request::Write(file, call) = request_of(alloc, &WRITE_CALL)? else {
        assert!(rt; false);
        return Ok(());
    };
    assert_eq!(rt; file, 4);
    assert_eq!(rt; call.xid, 9);
    assert_eq!(rt; call.offset, 0x1_0000_0002);
    assert_eq!(rt; call.content.as_slice(), b"abcde".as_slice());
    Ok(())
}

#[test]
fn a_read_is_of_its_file(rt: HostRuntime) -> Result<(), Fail> {
    let alloc = rt.alloc();
    let Request::Read(file, call) = request_of(alloc, &READ_CALL)? else {
        assert!(rt; false);
        return Ok(());
    };
    let want = ReadCall {
        xid: 9,
        offset: 0x1_0000_0002,
        count: 5,
    };
    assert_eq!(rt; file, 4);
    assert_eq!(rt; call, want);
    Ok(())
}

#[test]
fn a_commit_is_of_its_file(rt: HostRuntime) -> Result<(), Fail> {
    let alloc = rt.alloc();
    let Request::Commit(file, call) = request_of(alloc, &COMMIT_CALL)? else {
        assert!(rt; false);
        return Ok(());
    };
    let want = CommitCall {
        xid: 9,
        offset: 0x1_0000_0002,
        count: 5,
    };
    assert_eq!(rt; file, 4);
    assert_eq!(rt; call, want);
    Ok(())
}

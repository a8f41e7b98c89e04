// Messages that were made by hand from RFC 5531 section 9 and its appendix A.
use crate::{Call, CallFault, accepted_head, auth_error, read_call, rpc_mismatch, system_err};
use bytes::Bytes;
use std::alloc::{AllocError, Global};
use std::test::Fail;

fn message(alloc: Global, words: &[u32]) -> Result<Bytes, AllocError> {
    let mut bytes = Vec::new(alloc);
    for word in words {
        bytes.extend_from_slice(&word.to_be_bytes())?;
    }
    Bytes::copy_from_slice(alloc, &bytes)
}

fn read(alloc: Global, words: &[u32]) -> Result<Result<Call, CallFault>, AllocError> {
    Ok(read_call(alloc, message(alloc, words)?))
}

#[test]
fn null_call(rt: HostRuntime) -> Result<(), Fail> {
    let call = read(rt.alloc(), &[1, 0, 2, 100_003, 3, 0, 0, 0, 0, 0])??;
    assert_eq!(rt; call.xid, 1);
    assert_eq!(rt; call.prog, 100_003);
    assert_eq!(rt; call.vers, 3);
    assert_eq!(rt; call.proc_no, 0);
    assert_eq!(rt; call.caller.uid, 65_534);
    assert_eq!(rt; call.caller.gid_count, 0);
    assert_eq!(rt; call.host.as_slice(), b"none".as_slice());
    assert_eq!(rt; call.args.len(), 0);
    assert_eq!(rt; call.whole.len(), 40);
    Ok(())
}

// The machine "host", uid 7, gid 8 and the further groups 9 and 10; a verifier with four bytes; one
// word of arguments.
#[test]
fn system_call(rt: HostRuntime) -> Result<(), Fail> {
    let host = u32::from_be_bytes(*b"host");
    let words = [
        2,
        0,
        2,
        100_003,
        3,
        1,
        1,
        32,
        77,
        4,
        host,
        7,
        8,
        2,
        9,
        10,
        0,
        4,
        0,
        0x0102_0304,
    ];
    let call = read(rt.alloc(), &words)??;
    assert_eq!(rt; call.host.as_slice(), b"host".as_slice());
    assert_eq!(rt; call.caller.uid, 7);
    assert_eq!(rt; call.caller.gid, 8);
    assert_eq!(rt; call.caller.gid_count, 2);
    assert_eq!(rt; call.caller.gids[0], 9);
    assert_eq!(rt; call.caller.gids[1], 10);
    assert_eq!(rt; call.args.as_slice(), [1, 2, 3, 4].as_slice());
    Ok(())
}

#[test]
fn faults(rt: HostRuntime) -> Result<(), Fail> {
    let alloc = rt.alloc();
    assert!(rt; read(alloc, &[1, 1])?.err() == Some(CallFault::NotCall));
    let mismatch = CallFault::RpcMismatch { xid: 1 };
    assert!(rt; read(alloc, &[1, 0, 3])?.err() == Some(mismatch));
    // a credential, and then a verifier, of 401 bytes that aren't there
    let bad = CallFault::BadCred { xid: 1 };
    assert!(rt; read(alloc, &[1, 0, 2, 9, 9, 9, 0, 401])?.err() == Some(bad));
    assert!(rt; read(alloc, &[1, 0, 2, 9, 9, 9, 6, 0, 0, 401])?.err() == Some(bad));
    assert!(rt; read(alloc, &[1, 0, 2, 9, 9, 9, 6, 0, 0])?.err() == Some(CallFault::Short));
    let rejected = CallFault::RejectedCred { xid: 1 };
    assert!(rt; read(alloc, &[1, 0, 2, 9, 9, 9, 6, 0, 0, 0])?.err() == Some(rejected));
    // AUTH_SYS with 17 groups, and with a word too many
    let groups = [
        1, 0, 2, 9, 9, 9, 1, 88, 0, 0, 7, 8, 17, 0, 1, 2, 3, 4, 5, 6, 7, 8, 9, 10, 11, 12, 13, 14,
        15, 16, 0, 0,
    ];
    assert!(rt; read(alloc, &groups)?.err() == Some(bad));
    let words = [1, 0, 2, 9, 9, 9, 1, 24, 0, 0, 7, 8, 0, 0, 0, 0];
    assert!(rt; read(alloc, &words)?.err() == Some(bad));
    Ok(())
}

#[test]
fn reply_heads(rt: HostRuntime) {
    let done = [
        0, 0, 0, 9, 0, 0, 0, 1, 0, 0, 0, 0, 0, 0, 0, 0, 0, 0, 0, 0, 0, 0, 0, 3,
    ];
    assert_eq!(rt; accepted_head(9, 3), done);
    let starved = [
        0, 0, 0, 9, 0, 0, 0, 1, 0, 0, 0, 0, 0, 0, 0, 0, 0, 0, 0, 0, 0, 0, 0, 5,
    ];
    assert_eq!(rt; system_err(9), starved);
    let mismatch = [
        0, 0, 0, 9, 0, 0, 0, 1, 0, 0, 0, 1, 0, 0, 0, 0, 0, 0, 0, 2, 0, 0, 0, 2,
    ];
    assert_eq!(rt; rpc_mismatch(9), mismatch);
    let denied = [0, 0, 0, 9, 0, 0, 0, 1, 0, 0, 0, 1, 0, 0, 0, 1, 0, 0, 0, 2];
    assert_eq!(rt; auth_error(9, 2), denied);
}

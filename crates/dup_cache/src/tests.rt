// Calls that are sent again.
use crate::{Calls, key_of};
use gw_model::NoMemory;
use std::alloc::Global;
use std::test::Fail;

// Keeps the reply to a call.
fn keep(alloc: Global, calls: &mut Calls, key: &[u8], text: &[u8]) -> Result<(), NoMemory> {
    calls.begin(alloc, key, text.len())?;
    calls.fill(key, text);
    Ok(())
}

#[test]
fn a_key_has_the_client_and_the_call(rt: HostRuntime) -> Result<(), Fail> {
    // 10.0.0.1
    let key = key_of(rt.alloc(), 0x0a00_0001, b"call")?;
    assert_eq!(rt; key.as_slice(), b"\x0a\x00\x00\x01call".as_slice());
    Ok(())
}

#[test]
fn a_call_that_is_sent_again_gets_its_reply(rt: HostRuntime) -> Result<(), Fail> {
    let alloc = rt.alloc();
    let mut calls = Calls::new(alloc, 2)?;
    assert_eq!(rt; calls.look(b"first"), None);
    calls.begin(alloc, b"first", 4)?;
    assert_eq!(rt; calls.look(b"first"), None);
    calls.fill(b"first", b"done");
    assert_eq!(rt; calls.look(b"first"), Some(b"done".as_slice()));
    calls.forget(b"first");
    assert_eq!(rt; calls.look(b"first"), None);
    Ok(())
}

#[test]
fn the_one_that_was_used_longest_ago_goes(rt: HostRuntime) -> Result<(), Fail> {
    let alloc = rt.alloc();
    let mut calls = Calls::new(alloc, 2)?;
    keep(alloc, &mut calls, b"first", b"1")?;
    keep(alloc, &mut calls, b"second", b"2")?;
    assert!(rt; calls.look(b"first").is_some());
    keep(alloc, &mut calls, b"third", b"3")?;
    assert_eq!(rt; calls.len(), 2);
    assert!(rt; calls.look(b"second").is_none());
    assert_eq!(rt; calls.look(b"first"), Some(b"1".as_slice()));
    assert_eq!(rt; calls.look(b"third"), Some(b"3".as_slice()));
    Ok(())
}

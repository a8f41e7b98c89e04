// Drills whose texts were made by another program, by their MD5.
use crate::transcript_of;
use md5::{Digest, Md5};
use std::alloc::Global;
use std::test::Fail;

const SMALLEST: [u8; 16] = [
    0x82, 0xfd, 0x26, 0xd8, 0xbd, 0xab, 0x72, 0xfd, 0xcc, 0x7b, 0x49, 0x0a, 0xda, 0x96, 0xac, 0x7f,
];

// Two files, two windows each, made from 7.
const SHUFFLED: [u8; 16] = [
    0x0e, 0x2a, 0x55, 0x53, 0x6d, 0x3b, 0x04, 0x53, 0x7b, 0x78, 0xd0, 0x9f, 0xc8, 0x6a, 0xc0, 0x90,
];

fn is_smallest(alloc: Global) -> bool {
    match transcript_of(alloc, 0, 1, 1) {
        Ok(text) => Md5::digest(&text) == SMALLEST,
        Err(_) => false,
    }
}

fn is_shuffled(alloc: Global) -> bool {
    match transcript_of(alloc, 7, 2, 9) {
        Ok(text) => Md5::digest(&text) == SHUFFLED,
        Err(_) => false,
    }
}

#[test]
fn drills_are_those_of_another_program(rt: HostRuntime) -> Result<(), Fail> {
    assert!(rt; is_smallest(rt.alloc()));
    assert!(rt; is_shuffled(rt.alloc()));
    Ok(())
}

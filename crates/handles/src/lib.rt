//! NFS version 3 file handles: the opaque names by which clients speak of files (RFC 1813 section 2.5).
#![tactic(auto)]

ghost use Rattle.std.specs.Prelude.{◌≡◌, ℕ, ◌<◌, ◌^◌, ◌↔◌, length, IfSome, IsSome, Some};
ghost use Rattle.std.specs.Int.{w64, from_be_bytes};
ghost use Rattle.handles.specs.Handle.{handle_text, IsHandle, EachIsHandle, HandlesDiffer};

use gw_model::FileId;
use md5::{Digest, Md5};

/// The number of bytes of a handle.
const HANDLE_LENGTH: usize = 32;

/// The number of bytes of the two numbers in a handle. The digest of these bytes follows them.
const IDS_LENGTH: usize = 16;

/// The handle of a file in a file system: both numbers as big-endian 64-bit words, and the MD5 of these 16 bytes.
/// Takes no memory.
#[tactic(auto, unfolding(crate::specs::Handle::handle_text, crate::specs::Handle::ids_text))]
pub fn handle_of(file: FileId, fsid: u64) -> [u8; 32]
    ensures { result ≡ handle_text file.0 fsid }
{
    let mut ids = [0u8; IDS_LENGTH];
    ids[..8].copy_from_slice(&file.0.to_be_bytes());
    ids[8..].copy_from_slice(&fsid.to_be_bytes());
    let digest = Md5::digest(&ids);
    let mut out = [0u8; HANDLE_LENGTH];
    out[..IDS_LENGTH].copy_from_slice(&ids);
    out[IDS_LENGTH..].copy_from_slice(&digest);
    out
}

/// The file and the file system that a handle names. `None` exactly where there aren't 32 bytes, or the last 16 aren't
/// the MD5 of the first 16. Takes no memory.
pub fn file_of(handle: &[u8]) -> Option<(FileId, u64)>
    ensures shape { IsSome result ↔ IsHandle handle.now }
    ensures read { IfSome result (λ r. handle.now ≡ handle_text r.0.0 r.1) }
    // a file's handle gives the file back
    ensures found { (f g : ℕ) → f < 2 ^ 64 → g < 2 ^ 64 → handle.now ≡ handle_text f g
        → result ≡ Some (record { 0 = record { 0 = f }; 1 = g }) }
{
    if handle.len() != HANDLE_LENGTH {
        return None;
    }
    let (ids, digest) = handle.split_at(IDS_LENGTH);
    if Md5::digest(ids).as_slice() != digest {
        return None;
    }
    let (first, second) = ids.split_at(8);
    let file = read_word(first);
    let fsid = read_word(second);
    Some((FileId(file), fsid))
}

// The number that eight bytes spell.
fn read_word(bytes: &[u8]) -> u64
    requires { length bytes.now ≡ 8 }
    ensures { result ≡ from_be_bytes w64 bytes.now }
{
    let mut word = [0u8; 8];
    word.copy_from_slice(bytes);
    u64::from_be_bytes(word)
}

/// Each file's handle has a handle's shape, so that `file_of` answers it with that file, and no two files of all file
/// systems have the same handle.
pub fn round_trip()
    ensures shape { EachIsHandle }
    ensures differ { HandlesDiffer }
{}

#[cfg(test)]
mod tests {
    use super::*;
    use std::test::Fail;

    // The digest of the first 16 bytes was made by md5sum.
    const FOUR_IN_ONE: [u8; 32] = [
        0, 0, 0, 0, 0, 0, 0, 4, 0, 0, 0, 0, 0, 0, 0, 1, 0x21, 0xe0, 0xf2, 0x97, 0x5a, 0x84, 0xe7,
        0x8c, 0xec, 0x58, 0x78, 0x7a, 0xf2, 0x8b, 0xde, 0x14,
    ];

    #[test]
    fn a_handle_reads_back(rt: HostRuntime) -> Result<(), Fail> {
        assert_eq!(rt; handle_of(FileId(4), 1), FOUR_IN_ONE);
        assert_eq!(rt; file_of(&FOUR_IN_ONE), Some((FileId(4), 1)));
        assert_eq!(rt; file_of(&FOUR_IN_ONE[..31]), None);
        let mut changed = FOUR_IN_ONE;
        changed[31] = 0x15;
        assert_eq!(rt; file_of(&changed), None);
        Ok(())
    }
}
